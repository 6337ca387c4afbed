//! Which keyslot of a header that is made opens.
ghost use Rattle.std.specs.Prelude.{◌≡◌, ◌↔◌, ◌+◌, ◌^◌, ◌<◌, ◌≤◌, ℕ, length, IfNone, IfOk, IfSome, IsTrue};
ghost use Rattle.luks_area.specs.Device.{CountsFailure, IsUnchanged, is_failure};
ghost use Rattle.luks1_header.specs.Header1.{luks1_size};
ghost use Rattle.luks1_mending.specs.declared.given.Given.{Given as TheGiven};
ghost use Rattle.luks1_rebuilding.specs.KeyAreas.{header_of};
ghost use Rattle.luks1_rebuilding.specs.Openings.{IsFirstSlot, IsOpeningAt, OpensBy, OpensNone, OpensNoneAt};
ghost use Rattle.luks1_rebuilding.specs.Tried.{IsMadeOf, IsMadeOfSome, IsOpeningBy, IsTried};

use crate::trial::combinations::{LeftOut, combination};
use crate::trial::progress::Progress;
use luks_area::{Device, DeviceFault};
use luks_reading::luks1_plan;
use luks_slot::{Key, SlotFault, open};
use luks1_mending::{Given, mended_header};
use luks2_header::{Luks1, SlotState};
use std::alloc::Global;

/// A combination by which a keyslot opens.
#[derive(Clone, Copy, PartialEq, Eq, Drop)]
pub struct Opening {
    /// What was given, completed by the combination: where it has nothing, what stands is taken.
    pub given: Given,
    /// The header that is made with it.
    pub header: Luks1,
    /// The header as it is written.
    pub bytes: [u8; 592],
    /// The keyslot that opens, 0 to 7.
    pub slot: u8,
}

/// What the passphrase opens by the combination of this number.
pub(crate) fn try_number<D: Device, P: Progress>(
    alloc: Global,
    source: &mut D,
    header: &[u8],
    given: &Given,
    number: u8,
    passphrase: &[u8],
    progress: &mut P,
) -> Result<Option<Opening>, DeviceFault>
    requires long { length header.now ≡ luks1_size }
    requires header { D.tells → header.now ≡ header_of (D.bytes source.old) }
    requires numbered { number < 64 }
    requires room { D.failed source.old + 1 < 2 ^ 64 }
    ensures unchanged { IsUnchanged D.tells D.size D.bytes D.unsettled source.old source.new }
    ensures count { CountsFailure is_failure result (D.failed source.old) (D.failed source.new) }
    ensures opens { D.tells → IfOk result (λ found. IfSome found
        (IsOpeningAt (D.bytes source.old) given.now passphrase.now number)) }
    ensures none { D.tells → IfOk result (λ found. IfNone found
        (OpensNoneAt (D.bytes source.old) given.now passphrase.now number)) }
{
    match combination(header, given, number) {
        Ok(completed) => try_given(alloc, source, header, &completed, passphrase, progress),
        Err(LeftOut) => Ok(None),
    }
}

/// What the passphrase opens of the header that is made with this, of the source's first 592 bytes.
fn try_given<D: Device, P: Progress>(
    alloc: Global,
    source: &mut D,
    header: &[u8],
    given: &Given,
    passphrase: &[u8],
    progress: &mut P,
) -> Result<Option<Opening>, DeviceFault>
    requires long { length header.now ≡ luks1_size }
    requires header { D.tells → header.now ≡ header_of (D.bytes source.old) }
    requires room { D.failed source.old + 1 < 2 ^ 64 }
    ensures unchanged { IsUnchanged D.tells D.size D.bytes D.unsettled source.old source.new }
    ensures count { CountsFailure is_failure result (D.failed source.old) (D.failed source.new) }
    ensures opens { D.tells → IfOk result (λ found. IfSome found
        (IsOpeningBy (D.bytes source.old) given.now passphrase.now)) }
    ensures none { D.tells → IfOk result (λ found. IfNone found
        (OpensNone (D.bytes source.old) given.now passphrase.now)) }
{
    let Ok(made) = mended_header(header, source.len(), given) else {
        return Ok(None);
    };
    let bytes = made.write();
    progress.tries(&made.common);
    match first_slot(alloc, source, &made, passphrase)? {
        Some(slot) => Ok(Some(Opening {
            given: *given,
            header: made,
            bytes,
            slot,
        })),
        None => Ok(None),
    }
}

/// The first keyslot of this header that opens.
fn first_slot<D: Device>(
    alloc: Global,
    source: &mut D,
    made: &Luks1,
    passphrase: &[u8],
) -> Result<Option<u8>, DeviceFault>
    requires made { IsMadeOfSome made.now (D.size source.old) }
    requires room { D.failed source.old + 1 < 2 ^ 64 }
    ensures unchanged { IsUnchanged D.tells D.size D.bytes D.unsettled source.old source.new }
    ensures count { CountsFailure is_failure result (D.failed source.old) (D.failed source.new) }
    ensures opens { D.tells → IfOk result (λ found. IfSome found (λ n. (g : TheGiven)
        → IsMadeOf (D.bytes source.old) g made.now
        → IsFirstSlot (D.bytes source.old) g passphrase.now n)) }
    ensures none { D.tells → IfOk result (λ found. IfNone found ((g : TheGiven)
        → IsMadeOf (D.bytes source.old) g made.now
        → OpensNone (D.bytes source.old) g passphrase.now)) }
{
    for n in 0..8 {
        if is_opened(alloc, source, made, n, passphrase)? {
            return Ok(Some(n));
        }
    }
    Ok(None)
}

/// Whether its keyslot `n` is enabled and opens. One that is refused doesn't.
fn is_opened<D: Device>(
    alloc: Global,
    source: &mut D,
    made: &Luks1,
    n: u8,
    passphrase: &[u8],
) -> Result<bool, DeviceFault>
    requires made { IsMadeOfSome made.now (D.size source.old) }
    requires numbered { n < 8 }
    requires room { D.failed source.old + 1 < 2 ^ 64 }
    ensures unchanged { IsUnchanged D.tells D.size D.bytes D.unsettled source.old source.new }
    ensures count { CountsFailure is_failure result (D.failed source.old) (D.failed source.new) }
    ensures opens { D.tells → IfOk result (λ is. (g : TheGiven)
        → IsMadeOf (D.bytes source.old) g made.now
        → IsTrue is ↔ OpensBy (D.bytes source.old) g passphrase.now n) }
{
    let slot = made.slots[n as usize];
    match slot.state {
        SlotState::Enabled => {
            let plan = luks1_plan(&made.common, &slot);
            tried(open(alloc, source, &plan, passphrase))
        }
        SlotState::Disabled => Ok(false),
    }
}

/// Whether a key was found. A keyslot that is refused opens to none.
fn tried(found: Result<Option<Key>, SlotFault>) -> Result<bool, DeviceFault>
    ensures { IsTried found result }
{
    match found {
        Ok(key) => Ok(key.is_some()),
        Err(SlotFault::Device) => Err(DeviceFault),
        Err(_) => Ok(false),
    }
}
