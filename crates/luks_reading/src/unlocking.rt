//! Opening a volume by the first keyslot that opens.
ghost use Rattle.std.specs.Prelude.{◌≡◌, ◌≢◌, ◌+◌, ◌^◌, ◌<◌, ℕ, List, length, true, IfOk, IfErr, IfSome};
ghost use Rattle.luks_area.specs.Device.{CountsFailure, IsUnchanged};
ghost use Rattle.luks1_header.specs.declared.fault.HeadFault.{HeadFault as TheFault};
ghost use Rattle.luks1_header.specs.Bytes.{number_at};
ghost use Rattle.luks1_header.specs.Faults.{IsCommonFault};
ghost use Rattle.luks1_header.specs.Header1.{IsCommon};
ghost use Rattle.luks2_header.specs.Header2.{uuid_field};
ghost use Rattle.luks_meta.specs.Content.{content};
ghost use Rattle.luks_meta.specs.Objects.{IsAccepted};
ghost use Rattle.luks_reading.specs.Agreement.{AgreesUnlocked};
ghost use Rattle.luks_reading.specs.ChosenCopies.{IsCleared};
ghost use Rattle.luks_reading.specs.Failures.{is_open_failure};
ghost use Rattle.luks_reading.specs.Header.{IsAcceptedHeader, TakesNoMemory};
ghost use Rattle.luks_reading.specs.HeaderAnswers.{IsHeaderUnlocking, IsLuks2Unlocking, Luks2Fails};
ghost use Rattle.luks_reading.specs.Plans.{HasLuks2KeyBytes};
ghost use Rattle.luks_reading.specs.KeyslotsTried.{is_of_rank, passed_over, rank_order, Luks1VolumeRefused, Luks1Tried, Luks1Tries, Luks2Tried};
ghost use Rattle.luks_reading.specs.Unlocking.{luks2_order, IsVolumeRefusedBy, Unlocked, UnlockAnswer, Unlocks};

use crate::header::{Header, read_header};
use crate::luks1_fields::luks1_common;
use crate::nearest::Nearest;
use crate::open_fault::OpenFault;
use crate::opening::{open_luks1_slot, open_luks2};
use luks_area::Device;
use luks_meta::Meta;
use luks_slot::{Allowed, Key};
use luks2_header::Luks1Common;
use std::alloc::Global;

/// When a keyslot of LUKS2 is tried, by its priority.
#[derive(Clone, Copy)]
pub(crate) enum Rank {
    /// Before all others: priority 2.
    Preferred,
    /// After those: priority 1, or none.
    Normal,
}

/// Opens the volume by the first keyslot that opens: its number and the volume key, or None where
/// none opens. LUKS1: the keyslots in use, by number. LUKS2: those of priority 2 by number, then
/// those of priority 1 or none by number; one of priority 0 is never tried.
///
/// A keyslot that is refused by a fault of its own is passed over. `Head` and `Meta` are those of
/// the volume itself, the first of them. `Device` comes exactly where a device call failed.
///
/// Argon2 may take `allowed.memory` KiB for each keyslot; one that takes more is passed over, and
/// where memory is refused that a keyslot may take, the answer is `Memory`. Else memory is taken for
/// the metadata of LUKS2 alone. A keyslot with an older cipher or hash is passed over where
/// `allowed.older` isn't set.
pub fn unlock<D: Device>(
    alloc: Global,
    device: &mut D,
    passphrase: &[u8],
    allowed: Allowed,
) -> Result<Option<(u8, Key)>, OpenFault>
    requires room { D.failed device.old + 1 < 2 ^ 64 }
    requires passphrase { 0 < allowed.memory → length passphrase.now < 2 ^ 32 }
    ensures unchanged { IsUnchanged D.tells D.size D.bytes D.unsettled device.old device.new }
    ensures count { CountsFailure is_open_failure result
        (D.failed device.old) (D.failed device.new) }
    ensures unlocks { D.tells → IfOk result (Unlocks allowed (D.bytes device.old) passphrase.now) }
    ensures refused { D.tells → IfErr result (IsVolumeRefusedBy (D.bytes device.old)) }
    ensures memory { D.tells → TakesNoMemory (D.bytes device.old)
        → IfErr result (λ f. f ≢ OpenFault.Memory) }
    // There is no other answer.
    ensures only { D.tells → (a : Unlocked)
        → UnlockAnswer allowed (D.bytes device.old) passphrase.now a → AgreesUnlocked a result }
{
    let header = read_header(alloc, device)?;
    unlock_header(alloc, device, &header, passphrase, allowed)
}

/// What `unlock` answers of a volume with this header. It takes memory for Argon2 alone, where it is
/// allowed.
pub fn unlock_header<D: Device>(
    alloc: Global,
    device: &mut D,
    header: &Header,
    passphrase: &[u8],
    allowed: Allowed,
) -> Result<Option<(u8, Key)>, OpenFault>
    requires room { D.failed device.old + 1 < 2 ^ 64 }
    requires accepted { IsAcceptedHeader header.now }
    requires passphrase { 0 < allowed.memory → length passphrase.now < 2 ^ 32 }
    ensures unchanged { IsUnchanged D.tells D.size D.bytes D.unsettled device.old device.new }
    ensures count { CountsFailure is_open_failure result
        (D.failed device.old) (D.failed device.new) }
    ensures answers { IsHeaderUnlocking D.tells (D.bytes device.old) header.now allowed passphrase.now
        result }
{
    let mut nearest = None;
    try_header(alloc, device, header, passphrase, allowed, &mut nearest)
}

/// What `unlock_header` answers, which notes in `nearest` how near the passphrase came, of the keyslots
/// that it tries. It derives nothing more for that. No clause speaks of `nearest`.
pub fn try_header<D: Device>(
    alloc: Global,
    device: &mut D,
    header: &Header,
    passphrase: &[u8],
    allowed: Allowed,
    nearest: &mut Option<Nearest>,
) -> Result<Option<(u8, Key)>, OpenFault>
    requires room { D.failed device.old + 1 < 2 ^ 64 }
    requires accepted { IsAcceptedHeader header.now }
    requires passphrase { 0 < allowed.memory → length passphrase.now < 2 ^ 32 }
    ensures unchanged { IsUnchanged D.tells D.size D.bytes D.unsettled device.old device.new }
    ensures count { CountsFailure is_open_failure result
        (D.failed device.old) (D.failed device.new) }
    ensures answers { IsHeaderUnlocking D.tells (D.bytes device.old) header.now allowed passphrase.now
        result }
{
    match header {
        Header::Luks1(bytes) => unlock_luks1(
            alloc,
            device,
            bytes.as_slice(),
            passphrase,
            allowed.older,
            nearest,
        ),
        Header::Luks2(copy) => unlock_luks2(
            alloc, device, &copy.meta, passphrase, allowed, nearest,
        ),
    }
}

fn unlock_luks1<D: Device>(
    alloc: Global,
    device: &mut D,
    header: &[u8],
    passphrase: &[u8],
    older: bool,
    nearest: &mut Option<Nearest>,
) -> Result<Option<(u8, Key)>, OpenFault>
    requires room { D.failed device.old + 1 < 2 ^ 64 }
    requires header { length header.now ≡ 592 }
    ensures unchanged { IsUnchanged D.tells D.size D.bytes D.unsettled device.old device.new }
    ensures count { CountsFailure is_open_failure result
        (D.failed device.old) (D.failed device.new) }
    ensures unrefused { IfOk result (λ _. (f : TheFault) → IsCommonFault header.now f → ⊥) }
    ensures tries { D.tells
        → IfOk result (Luks1Tries older header.now (D.bytes device.old) passphrase.now) }
    ensures refused { IfErr result (Luks1VolumeRefused header.now) }
    ensures length { IfOk result
        (λ found. IfSome found (λ opened. length opened.1 ≡ number_at header.now 108 4)) }
{
    let common = luks1_common(header)?;
    for n in 0..8 {
        match try_luks1(
            alloc, device, header, &common, n, passphrase, older, nearest,
        ) {
            Ok(Some(key)) => return Ok(Some((n, key))),
            Ok(None) => {}
            Err(fault) => return Err(fault),
        }
    }
    Ok(None)
}

fn try_luks1<D: Device>(
    alloc: Global,
    device: &mut D,
    header: &[u8],
    common: &Luks1Common,
    n: u8,
    passphrase: &[u8],
    older: bool,
    nearest: &mut Option<Nearest>,
) -> Result<Option<Key>, OpenFault>
    requires room { D.failed device.old + 1 < 2 ^ 64 }
    requires header { length header.now ≡ 592 }
    requires common { IsCommon header.now common.now }
    requires faultless { (f : TheFault) → IsCommonFault header.now f → ⊥ }
    ensures unchanged { IsUnchanged D.tells D.size D.bytes D.unsettled device.old device.new }
    ensures count { CountsFailure is_open_failure result
        (D.failed device.old) (D.failed device.new) }
    ensures tried { D.tells
        → IfOk result (Luks1Tried older header.now (D.bytes device.old) n passphrase.now) }
    ensures kinds { IfErr result (λ f. is_open_failure f ≡ true) }
    ensures length { IfOk result
        (λ found. IfSome found (λ key. length key ≡ number_at header.now 108 4)) }
{
    match open_luks1_slot(alloc, device, header, common, n, passphrase, older, nearest) {
        Ok(found) => Ok(found),
        Err(fault) => passed_over(fault),
    }
}

fn unlock_luks2<D: Device>(
    alloc: Global,
    device: &mut D,
    meta: &Meta,
    passphrase: &[u8],
    allowed: Allowed,
    nearest: &mut Option<Nearest>,
) -> Result<Option<(u8, Key)>, OpenFault>
    requires room { D.failed device.old + 1 < 2 ^ 64 }
    requires accepted { IsAccepted (content meta.now) }
    requires passphrase { 0 < allowed.memory → length passphrase.now < 2 ^ 32 }
    ensures unchanged { IsUnchanged D.tells D.size D.bytes D.unsettled device.old device.new }
    ensures count { CountsFailure is_open_failure result
        (D.failed device.old) (D.failed device.new) }
    ensures fails { Luks2Fails allowed (D.size device.old) (content meta.now) result }
    ensures answers { IsLuks2Unlocking D.tells (D.bytes device.old) (content meta.now) allowed
        passphrase.now (luks2_order (content meta.now)) result }
{
    match try_rank(
        alloc,
        device,
        meta,
        Rank::Preferred,
        passphrase,
        allowed,
        nearest,
    ) {
        Ok(Some(found)) => Ok(Some(found)),
        Ok(None) => try_rank(
            alloc,
            device,
            meta,
            Rank::Normal,
            passphrase,
            allowed,
            nearest,
        ),
        Err(fault) => Err(fault),
    }
}

/// Tries the keyslots of the rank by number.
fn try_rank<D: Device>(
    alloc: Global,
    device: &mut D,
    meta: &Meta,
    rank: Rank,
    passphrase: &[u8],
    allowed: Allowed,
    nearest: &mut Option<Nearest>,
) -> Result<Option<(u8, Key)>, OpenFault>
    requires room { D.failed device.old + 1 < 2 ^ 64 }
    requires accepted { IsAccepted (content meta.now) }
    requires passphrase { 0 < allowed.memory → length passphrase.now < 2 ^ 32 }
    ensures unchanged { IsUnchanged D.tells D.size D.bytes D.unsettled device.old device.new }
    ensures count { CountsFailure is_open_failure result
        (D.failed device.old) (D.failed device.new) }
    ensures fails { Luks2Fails allowed (D.size device.old) (content meta.now) result }
    ensures answers { IsLuks2Unlocking D.tells (D.bytes device.old) (content meta.now) allowed
        passphrase.now (rank_order rank (content meta.now)) result }
{
    for n in 0..32 {
        if is_of_rank(meta, rank, n) {
            match try_luks2(alloc, device, meta, n, passphrase, allowed, nearest) {
                Ok(Some(key)) => return Ok(Some((n, key))),
                Ok(None) => {}
                Err(fault) => return Err(fault),
            }
        }
    }
    Ok(None)
}

fn is_of_rank(meta: &Meta, rank: Rank, n: u8) -> bool
    requires { n < 32 }
    ensures { result ≡ is_of_rank rank (content meta.now) n }
{
    match meta.keyslot(n) {
        Some(keyslot) => match (rank, keyslot.priority) {
            (Rank::Preferred, Some(2)) => true,
            (Rank::Normal, None | Some(1)) => true,
            _ => false,
        },
        None => false,
    }
}

fn try_luks2<D: Device>(
    alloc: Global,
    device: &mut D,
    meta: &Meta,
    n: u8,
    passphrase: &[u8],
    allowed: Allowed,
    nearest: &mut Option<Nearest>,
) -> Result<Option<Key>, OpenFault>
    requires room { D.failed device.old + 1 < 2 ^ 64 }
    requires accepted { IsAccepted (content meta.now) }
    requires passphrase { 0 < allowed.memory → length passphrase.now < 2 ^ 32 }
    ensures unchanged { IsUnchanged D.tells D.size D.bytes D.unsettled device.old device.new }
    ensures count { CountsFailure is_open_failure result
        (D.failed device.old) (D.failed device.new) }
    ensures tried { D.tells → (b json : List ℕ) → IsCleared (uuid_field b) json (content meta.now)
        → IfOk result (Luks2Tried allowed b json (D.bytes device.old) n passphrase.now) }
    ensures fails { Luks2Fails allowed (D.size device.old) (content meta.now) result }
    ensures length { IfOk result
        (λ found. IfSome found (λ key. HasLuks2KeyBytes (content meta.now) n (length key))) }
{
    match open_luks2(alloc, device, meta, n, passphrase, allowed, nearest) {
        Ok(found) => Ok(found),
        Err(fault) => passed_over(fault),
    }
}

/// What trying a keyslot that is refused gives: a fault of its own is passed over.
fn passed_over(fault: OpenFault) -> Result<Option<Key>, OpenFault>
    ensures { result ≡ passed_over fault }
{
    match fault {
        OpenFault::Device => Err(OpenFault::Device),
        OpenFault::Memory => Err(OpenFault::Memory),
        _ => Ok(None),
    }
}
