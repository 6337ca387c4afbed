//! The fields of a LUKS1 header, put into their places.
ghost use Rattle.std.specs.Prelude.{◌≡◌, ◌+◌, ◌≤◌, ℕ, length, slice_index};
ghost use Rattle.luks_area.specs.Ranges.{written};
ghost use Rattle.luks1_header.specs.Header1.{common_size, entry_size, word_of, HoldsEntry};
ghost use Rattle.luks1_header.specs.Written.{WritesCommon, WritesEntry};

use crate::fields::{put, put_u16, put_u32};
use crate::luks1::{Luks1Common, Luks1Slot, SlotState};
use crate::luks1_places::{self as place, DISABLED, ENABLED, ENTRY_SIZE, MAGIC};
use arrayvec::ArrayString;

fn active_word(state: SlotState) -> u32
    ensures { result ≡ word_of state }
{
    match state {
        SlotState::Enabled => ENABLED,
        SlotState::Disabled => DISABLED,
    }
}

/// Puts the fields of a keyslot into zeros.
fn put_entry(bytes: &mut [u8], slot: &Luks1Slot)
    requires long { length bytes.old ≡ entry_size }
    requires blank { (k : ℕ) → slice_index bytes.old k ≡ 0 }
    ensures { WritesEntry bytes.new slot.now }
{
    put_u32(bytes, place::ACTIVE_WORD, active_word(slot.state));
    put_u32(bytes, place::ITERATIONS, slot.iterations);
    put(bytes, place::SALT, &slot.salt);
    put_u32(bytes, place::KEY_MATERIAL_OFFSET, slot.key_material_offset);
    put_u32(bytes, place::STRIPES, slot.stripes);
}

/// The 48 bytes of a keyslot.
pub(crate) fn entry_bytes(slot: &Luks1Slot) -> [u8; 48]
    ensures { WritesEntry result slot.now }
{
    let mut bytes = [0; ENTRY_SIZE];
    put_entry(&mut bytes, slot);
    bytes
}

/// Puts the text at the place `at`.
fn put_text<const N: usize>(bytes: &mut [u8], at: usize, text: &ArrayString<N>)
    requires { at + N ≤ length bytes.old }
    ensures written { bytes.new ≡ written bytes.old at text.now.bytes }
    ensures fits { length text.now.bytes ≤ N }
{
    put(bytes, at, text.as_str().as_bytes());
}

/// Puts the fields before the keyslots into zeros.
pub(crate) fn put_common(bytes: &mut [u8], common: &Luks1Common)
    requires long { common_size ≤ length bytes.old }
    requires blank { (k : ℕ) → slice_index bytes.old k ≡ 0 }
    ensures written { WritesCommon bytes.new common.now }
    ensures length { length bytes.new ≡ length bytes.old }
{
    put(bytes, 0, &MAGIC);
    put_u16(bytes, place::VERSION, 1);
    put_text(bytes, place::CIPHER_NAME, &common.cipher_name);
    put_text(bytes, place::CIPHER_MODE, &common.cipher_mode);
    put_text(bytes, place::HASH_SPEC, &common.hash_spec);
    put_u32(bytes, place::PAYLOAD_OFFSET, common.payload_offset);
    put_u32(bytes, place::KEY_BYTES, common.key_bytes);
    put(bytes, place::MK_DIGEST, &common.mk_digest);
    put(bytes, place::MK_DIGEST_SALT, &common.mk_digest_salt);
    put_u32(
        bytes,
        place::MK_DIGEST_ITERATIONS,
        common.mk_digest_iterations,
    );
    put_text(bytes, place::UUID, &common.uuid);
}
