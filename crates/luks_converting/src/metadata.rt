//! The metadata of a converted volume.
ghost use Rattle.std.specs.Prelude.{◌≡◌, ◌++◌, ◌<◌, ◌≤◌, List, ℕ, codes, option_map, IfOk};
ghost use Rattle.luks1_header.specs.Header1.{entry, IsEntry, IsLuks1};
ghost use Rattle.luks_making.specs.Converted.{converted, source_members, source_slot_members};
ghost use Rattle.luks_making.specs.WrittenArea.{IsWrittenArea};
ghost use Rattle.luks_converting.specs.Accepted.{IsRead};
ghost use Rattle.luks_converting.specs.Converted.{json_size};
ghost use Rattle.luks_converting.specs.Slots.{AreSlots};
ghost use Rattle.luks_converting.specs.Source.{enabled_slot, encryption_of, header_members, slot_members, HasRoom};

use crate::source::{SourceHeader, are_bytes};
use arrayvec::ArrayString;
use luks_area::SECTOR;
use luks_new_meta::{SourceSlot, SourceVolume, converted, json_area};
use luks2_header::{Luks1, Luks1Common, Luks1Slot, SlotState};
use std::alloc::{AllocError, Global};

/// The JSON area of both copies of the header that is made from this one.
pub(crate) fn new_json(alloc: Global, header: &SourceHeader) -> Result<Vec<u8>, AllocError>
    requires read { IsRead header.now }
    requires room { HasRoom header.now.bytes }
    ensures { IfOk result (λ a.
        IsWrittenArea json_size (converted (header_members header.now.bytes)) a.items) }
{
    are_bytes(&header.bytes);
    let encryption = encryption(&header.fields.common);
    let volume = source_volume(&header.fields, encryption.as_str());
    let meta = converted(alloc, &volume)?;
    match json_area(alloc, &meta)? {
        Some(area) => Ok(area),
        None => unreachable!(),
    }
}

/// The cipher's name, a hyphen and its mode.
pub(crate) fn encryption(common: &Luks1Common) -> ArrayString<65>
    ensures { result.bytes
        ≡ common.now.cipher_name.bytes ++ codes "-" ++ common.now.cipher_mode.bytes }
{
    let mut text = ArrayString::new();
    text.push_str(common.cipher_name.as_str());
    text.push_str("-");
    text.push_str(common.cipher_mode.as_str());
    text
}

/// What the header says of the metadata.
pub(crate) fn source_volume<'a>(header: &'a Luks1, encryption: &'a str) -> SourceVolume<'a>
    requires key { header.now.common.key_bytes ≤ 128 }
    ensures { (h : List ℕ) → IsLuks1 h header.now → encryption.now ≡ encryption_of h
        → source_members result ≡ header_members h }
{
    let common = &header.common;
    SourceVolume {
        hash: common.hash_spec.as_str(),
        encryption,
        key_bytes: common.key_bytes as u8,
        digest_iterations: common.mk_digest_iterations,
        digest_salt: common.mk_digest_salt,
        digest: common.mk_digest,
        payload_offset: u64::from(common.payload_offset) * SECTOR,
        slots: enabled_slots(header),
    }
}

/// The enabled keyslots by their numbers.
fn enabled_slots(header: &Luks1) -> [Option<SourceSlot>; 8]
    ensures { (h : List ℕ) → IsLuks1 h header.now → AreSlots h 8 result }
{
    let mut slots = [None; 8];
    for n in 0..8 {
        slots[n] = enabled_slot(&header.slots[n]);
    }
    slots
}

/// What a keyslot says, where it is enabled.
fn enabled_slot(slot: &Luks1Slot) -> Option<SourceSlot>
    ensures { (h : List ℕ) (n : ℕ) → n < 8 → IsEntry (entry h n) slot.now
        → option_map source_slot_members result ≡ enabled_slot h n }
{
    match slot.state {
        SlotState::Enabled => Some(source_slot(slot)),
        SlotState::Disabled => None,
    }
}

/// What a keyslot says.
pub(crate) fn source_slot(slot: &Luks1Slot) -> SourceSlot
    ensures { (e : List ℕ) → IsEntry e slot.now → source_slot_members result ≡ slot_members e }
{
    SourceSlot {
        iterations: slot.iterations,
        salt: slot.salt,
        stripes: slot.stripes,
    }
}
