//! Trying the combinations, one after the other.
ghost use Rattle.std.specs.Prelude.{◌+◌, ◌^◌, ◌<◌, IfErr, IfNone, IfOk, IfSome, OnOk};
ghost use Rattle.luks_area.specs.Device.{CountsFailure, IsUnchanged};
ghost use Rattle.luks1_rebuilding.specs.RebuildFaults.{is_rebuild_failure};
ghost use Rattle.luks1_rebuilding.specs.declared.rebuild_fault.Rebuild1Fault.{Rebuild1Fault as TheFault};
ghost use Rattle.luks1_rebuilding.specs.TrialFaults.{IsAnsweredTrialFault, IsTrialFault};
ghost use Rattle.luks1_rebuilding.specs.Openings.{IsFirstOpening, OpensNoneBelow};

use crate::judging::first_bytes;
use crate::rebuild_fault::Rebuild1Fault;
use crate::trial::combinations::COMBINATIONS;
use crate::trial::judging::judge;
use crate::trial::opening::{Opening, try_number};
use crate::trial::progress::Progress;
use luks_area::Device;
use luks1_mending::Given;
use std::alloc::Global;

/// The first combination of cipher, hash and length of the key by which the passphrase opens a keyslot
/// of the header that `rebuild1` makes of the source, or None where none does. What is given is taken in
/// each of them. The source never changes.
///
/// Of what isn't given, what stands is tried first, then, where another stands: for the cipher's name
/// `aes`, for its mode `xts-plain64`, for the hash `sha256`, `sha1` and `sha512`, for the key 64, 32 and 16
/// bytes. The length changes fastest, then the hash, then the mode.
///
/// Refused before any is tried where no combination gives a header: by `NoHeader`, `Text`, `KeyBytes` or
/// `Iterations`, the first of them, as `rebuild1` is. `Device` comes exactly where a device call failed.
/// Each combination that opens at all costs an opening of each enabled keyslot. `progress` is told of each
/// header before its keyslots are tried. Takes no memory from the allocator.
pub fn try_combinations<D: Device, P: Progress>(
    alloc: Global,
    source: &mut D,
    given: &Given,
    passphrase: &[u8],
    progress: &mut P,
) -> Result<Option<Opening>, Rebuild1Fault>
    requires room { D.failed source.old + 1 < 2 ^ 64 }

    // The source: `Device` exactly where a call of it failed.
    ensures unchanged { IsUnchanged D.tells D.size D.bytes D.unsettled source.old source.new }
    ensures count { CountsFailure is_rebuild_failure result
        (D.failed source.old) (D.failed source.new) }

    // The first fault that stands with each combination.
    ensures fault { D.tells
        → IfErr result (IsAnsweredTrialFault (D.bytes source.old) given.now) }
    ensures faultless { D.tells
        → OnOk result ((f : TheFault) → IsTrialFault (D.bytes source.old) given.now f → ⊥) }

    // The first combination by which a keyslot opens, or none opens one.
    ensures first { D.tells → IfOk result (λ found. IfSome found
        (IsFirstOpening (D.bytes source.old) given.now passphrase.now)) }
    ensures none { D.tells → IfOk result (λ found. IfNone found
        (OpensNoneBelow (D.bytes source.old) given.now passphrase.now 64)) }
{
    let bytes = first_bytes(source)?;
    let header = bytes.as_slice();
    judge(header, source.len(), given)?;
    for number in 0..COMBINATIONS {
        match try_number(alloc, source, header, given, number, passphrase, progress)? {
            Some(opening) => return Ok(Some(opening)),
            None => {}
        }
    }
    Ok(None)
}
