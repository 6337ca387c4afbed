//! What of a volume's header a comparison with another one takes.
ghost use Rattle.std.specs.Prelude.{◌+◌, ◌^◌, ◌<◌, IfErr, IfOk, OnOk};
ghost use Rattle.luks_area.specs.Device.{CountsFailure, IsUnchanged};
ghost use Rattle.luks_reading.specs.Checked.{IsCheckRefusal, WellFormed};
ghost use Rattle.luks_reading.specs.Failures.{is_check_failure};
ghost use Rattle.luks_reading.specs.Header.{IsAcceptedHeader};
ghost use Rattle.luks_keeping.specs.Judged.{HasFields};
ghost use Rattle.luks_keeping.specs.Outlines.{IsOutline, IsWithin, Outlines};

use crate::accepted::accepted_header;
use crate::identity::{Identity, identity_of};
use crate::places::Places;
use crate::salts::{Salt, salts_of};
use crate::slots::places_of;
use luks_area::Device;
use luks_reading::{CheckFault, Data, Header};
use std::alloc::Global;

/// The uuid, the digests, the salts and the places of a header. It holds no metadata: so of two headers that
/// are compared one value of JSON is in memory at a time.
#[derive(Drop)]
pub struct Outline {
    /// What tells the header's volume.
    pub(crate) identity: Identity,
    /// The salts of the keyslots that are in use, by their numbers.
    pub(crate) salts: [Option<Salt>; 32],
    /// The place of the header and its key areas.
    pub(crate) places: Places,
}

/// The outline of the header of the volume, if `check` accepts that, or else why not. Takes memory for the
/// metadata of LUKS2 alone, and none of it is held any more.
pub fn read_outline<D: Device>(
    alloc: Global,
    device: &mut D,
    payload: Data,
) -> Result<Outline, CheckFault>
    requires { D.failed device.old + 1 < 2 ^ 64 }
    ensures unchanged { IsUnchanged D.tells D.size D.bytes D.unsettled device.old device.new }
    ensures count { CountsFailure is_check_failure result
        (D.failed device.old) (D.failed device.new) }
    ensures within { IfOk result (λ o. IsWithin o (D.size device.new)) }
    ensures read { D.tells → IfOk result (Outlines (D.bytes device.old)) }
    ensures formed { D.tells → OnOk result (WellFormed (D.bytes device.old) payload) }
    ensures refused { D.tells → IfErr result (IsCheckRefusal (D.bytes device.old) payload) }
{
    match accepted_header(alloc, device, payload) {
        Ok(header) => Ok(outline_of(&header)),
        Err(fault) => Err(fault),
    }
}

/// The outline of this header, which was read: none of its metadata is held by it.
pub fn outline_of(header: &Header) -> Outline
    requires fields { HasFields header.now }
    requires accepted { IsAcceptedHeader header.now }
    ensures { IsOutline header.now result }
{
    Outline {
        identity: identity_of(header),
        salts: salts_of(header),
        places: places_of(header),
    }
}
