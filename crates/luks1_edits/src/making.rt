//! Making a keyslot of a LUKS1 volume.
ghost use Rattle.std.specs.Prelude.{◌≡◌, ◌+◌, ◌^◌, ◌<◌, ◌≤◌, ℕ, List, drop, length, take, IfErr, OnErr, OnOk};
ghost use Rattle.luks_area.specs.Device.{CountsFailure, IsSettled};
ghost use Rattle.luks1_header.specs.Header1.{entry, key_bytes_of, HoldsEntry, HoldsSlots};
ghost use Rattle.luks_edit.specs.Asked.{allowed_of, opener_at};
ghost use Rattle.luks_edit.specs.EditFaults.{is_edit_failure};
ghost use Rattle.luks1_edits.specs.Accepted.{IsAcceptedAt, IsHeaderOf};
ghost use Rattle.luks1_edits.specs.Edited.{iterations_of, IsMade};
ghost use Rattle.luks1_edits.specs.Leftovers.{IsSealedFirst};
ghost use Rattle.luks1_edits.specs.Refused.{keyslot_need};
ghost use Rattle.luks1_edits.specs.Steps.{IsKeyslotMade, IsUnmade};

use crate::accepted::AcceptedHeader;
use crate::freeing::entry_bytes;
use crate::keyslots::iterations_of;
use crate::steps::write_entry;
use crate::unlocking::keyslot_fault;
use luks_area::Device;
use luks_edit::{EditFault, Sealed};
use luks_reading::luks1_plan;
use luks_slot::{Allowed, Key};
use luks_writing::seal_area_within;
use luks2_header::{Luks1, Luks1Slot, SlotState};
use std::alloc::Global;

/// The salt of a new keyslot: the first 32 of the random bytes.
fn salt_in(random: &[u8]) -> [u8; 32]
    requires { 32 ≤ length random.now }
    ensures { result ≡ take 32 random.now }
{
    let mut salt = [0; 32];
    salt.copy_from_slice(&random[..32]);
    salt
}

/// Its stripes but the last: the others of the random bytes.
fn stripes_in(random: &[u8]) -> &[u8]
    requires { 32 ≤ length random.now }
    ensures { result.now ≡ drop 32 random.now }
{
    &random[32..]
}

/// What the keyslot `n` says once it is made: its area and its stripes are as before.
fn new_slot(header: &Luks1, n: u8, iterations: u32, random: &[u8]) -> Luks1Slot
    requires numbered { n < 8 }
    requires random { 32 ≤ length random.now }
    ensures { (v e : List ℕ) → HoldsSlots v header.now.slots → HoldsEntry e result
        → IsMade (entry v n) e iterations (take 32 random.now) }
{
    let old = header.slots[n as usize];
    Luks1Slot {
        state: SlotState::Enabled,
        iterations,
        salt: salt_in(random),
        key_material_offset: old.key_material_offset,
        stripes: old.stripes,
    }
}

/// Makes the keyslot `n`, in which the new passphrase opens the key: the key is sealed in its area, and
/// then its entry is written. It has the volume's cipher and hash, which are accepted as those of the
/// keyslot that was opened.
pub(crate) fn make_keyslot<D: Device>(
    alloc: Global,
    device: &mut D,
    header: &AcceptedHeader<'_>,
    n: u8,
    sealed: &Sealed<'_>,
    key: &Key,
    random: &[u8],
) -> Result<(), EditFault>
    requires numbered { n < 8 }
    requires iterated { 1 ≤ iterations_of sealed.now.derivation }
    requires key_length { length key.now ≡ key_bytes_of header.now.bytes.now }
    requires random_length { length random.now ≡ keyslot_need header.now.bytes.now n }
    requires accepted { IsAcceptedAt header.now (D.size device.old) }
    requires room { D.failed device.old + 1 < 2 ^ 64 }
    requires settled { D.tells → IsSettled D.unsettled device.old }
    ensures size { D.size device.new ≡ D.size device.old }
    ensures settled { D.tells → D.failed device.new ≡ D.failed device.old → IsSettled D.unsettled device.new }
    ensures count { CountsFailure is_edit_failure result
        (D.failed device.old) (D.failed device.new) }
    ensures fault { IfErr result (IsUnmade (allowed_of (opener_at sealed.now.place)).older
        header.now.bytes.now) }
    ensures made { D.tells
        → IsHeaderOf header.now.bytes.now header.now.payload (D.bytes device.old)
        → OnOk result (IsKeyslotMade (D.bytes device.old) n
        (iterations_of sealed.now.derivation) sealed.now.passphrase.now key.now random.now
        (D.bytes device.new)) }
    ensures torn { D.tells
        → IsHeaderOf header.now.bytes.now header.now.payload (D.bytes device.old)
        → OnErr result (IsSealedFirst (D.bytes device.old) n
        (iterations_of sealed.now.derivation) sealed.now.passphrase.now key.now random.now
        (D.bytes device.new)) }
{
    let slot = new_slot(&header.fields, n, iterations_of(sealed.derivation), random);
    let entry = entry_bytes(&header.fields, n, slot);
    let plan = luks1_plan(&header.fields.common, &slot);
    let allowed = Allowed {
        memory: 0,
        older: sealed.opener().allowed().older,
    };
    let stripes = stripes_in(random);
    match seal_area_within(
        alloc,
        device,
        &plan,
        sealed.passphrase,
        allowed,
        key,
        stripes,
    ) {
        Ok(()) => {}
        Err(fault) => return Err(keyslot_fault(fault)),
    }
    match write_entry(device, n, &entry) {
        Ok(()) => Ok(()),
        Err(_) => Err(EditFault::Device),
    }
}
