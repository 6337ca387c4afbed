//! The rows of the table of faults of a LUKS1 header, one function for each.
ghost use Rattle.std.specs.Prelude.{◌≡◌, ◌↔◌, ◌+◌, ◌≤◌, ◌<◌, length, IsTrue, OnOk, IfErr, IfNone, IfSome};
ghost use Rattle.luks_area.specs.First.{IsLeast, JudgesRow};
ghost use Rattle.luks1_header.specs.Bytes.{HoldsText};
ghost use Rattle.luks1_header.specs.Faults.{head_row, head_place, head_key, field_key, HasBadText, IsCommonFault, IsEntryFault, IsLuks1Fault};
ghost use Rattle.luks1_header.specs.Header1.{common_size, entry, entry_size, field_at, field_len, luks1_size};

use crate::fault::{HeadFault, IterationsOf, TextField};
use crate::fields::{field, u16_at, u32_at};
use crate::luks1_places::{
    self as place, DISABLED, ENABLED, ENTRY_SIZE, MAGIC, TEXT_SIZE, UUID_SIZE,
};
use crate::uuid_text::is_uuid;
use luks_area::text_field;

fn magic(bytes: &[u8]) -> Result<(), HeadFault>
    requires { common_size ≤ length bytes.now }
    ensures { JudgesRow head_row head_place (IsLuks1Fault bytes.now) 2 result }
{
    if field(bytes, 0, 6) == MAGIC.as_slice() {
        Ok(())
    } else {
        Err(HeadFault::NotLuks)
    }
}

fn version(bytes: &[u8]) -> Result<(), HeadFault>
    requires { common_size ≤ length bytes.now }
    ensures { JudgesRow head_row head_place (IsLuks1Fault bytes.now) 3 result }
{
    if u16_at(bytes, place::VERSION) == 1 {
        Ok(())
    } else {
        Err(HeadFault::Version)
    }
}

fn holds_text(bytes: &[u8], at: usize, len: usize) -> bool
    requires { at + len ≤ length bytes.now }
    ensures { IsTrue result ↔ HoldsText bytes.now at len }
{
    text_field(field(bytes, at, len)).is_some()
}

fn bad_text(bytes: &[u8]) -> Option<TextField>
    requires { common_size ≤ length bytes.now }
    ensures none { IfNone result ((t : TextField) → HasBadText bytes.now t → ⊥) }
    ensures least { IfSome result (λ t. HasBadText bytes.now t
        × ((s : TextField) → HasBadText bytes.now s → field_key t ≤ field_key s)) }
{
    if !holds_text(bytes, place::CIPHER_NAME, TEXT_SIZE) {
        Some(TextField::CipherName)
    } else if !holds_text(bytes, place::CIPHER_MODE, TEXT_SIZE) {
        Some(TextField::CipherMode)
    } else if !holds_text(bytes, place::HASH_SPEC, TEXT_SIZE) {
        Some(TextField::HashSpec)
    } else if !holds_text(bytes, place::UUID, UUID_SIZE) {
        Some(TextField::Uuid)
    } else {
        None
    }
}

fn texts(bytes: &[u8]) -> Result<(), HeadFault>
    requires { common_size ≤ length bytes.now }
    ensures { JudgesRow head_row head_place (IsLuks1Fault bytes.now) 5 result }
{
    match bad_text(bytes) {
        None => Ok(()),
        Some(name) => Err(HeadFault::Text(name)),
    }
}

fn uuid(bytes: &[u8]) -> Result<(), HeadFault>
    requires long { common_size ≤ length bytes.now }
    requires text { HoldsText bytes.now (field_at TextField.Uuid) (field_len TextField.Uuid) }
    ensures { JudgesRow head_row head_place (IsLuks1Fault bytes.now) 6 result }
{
    match text_field(field(bytes, place::UUID, UUID_SIZE)) {
        Some(text) if is_uuid(text) => Ok(()),
        _ => Err(HeadFault::Uuid),
    }
}

fn key_bytes(bytes: &[u8]) -> Result<(), HeadFault>
    requires { common_size ≤ length bytes.now }
    ensures { JudgesRow head_row head_place (IsLuks1Fault bytes.now) 8 result }
{
    match u32_at(bytes, place::KEY_BYTES) {
        1..=128 => Ok(()),
        _ => Err(HeadFault::KeyBytes),
    }
}

fn digest_iterations(bytes: &[u8]) -> Result<(), HeadFault>
    requires { common_size ≤ length bytes.now }
    ensures ok { OnOk result
        (IsLuks1Fault bytes.now (HeadFault.Iterations IterationsOf.Digest) → ⊥) }
    ensures err { IfErr result (λ f. (f ≡ HeadFault.Iterations IterationsOf.Digest)
        × IsLuks1Fault bytes.now f) }
{
    if u32_at(bytes, place::MK_DIGEST_ITERATIONS) == 0 {
        Err(HeadFault::Iterations(IterationsOf::Digest))
    } else {
        Ok(())
    }
}

fn entry_state(entry: &[u8], n: u8) -> Result<(), HeadFault>
    requires { entry_size ≤ length entry.now }
    ensures { JudgesRow head_row head_place (IsEntryFault n entry.now) 7 result }
{
    match u32_at(entry, place::ACTIVE_WORD) {
        ENABLED | DISABLED => Ok(()),
        _ => Err(HeadFault::SlotState(n)),
    }
}

fn entry_stripes(entry: &[u8], n: u8) -> Result<(), HeadFault>
    requires { entry_size ≤ length entry.now }
    ensures { JudgesRow head_row head_place (IsEntryFault n entry.now) 9 result }
{
    if u32_at(entry, place::STRIPES) == 0 {
        Err(HeadFault::Stripes(n))
    } else {
        Ok(())
    }
}

fn entry_iterations(entry: &[u8], n: u8) -> Result<(), HeadFault>
    requires { entry_size ≤ length entry.now }
    ensures { JudgesRow head_row head_place (IsEntryFault n entry.now) 10 result }
{
    if u32_at(entry, place::ACTIVE_WORD) == ENABLED && u32_at(entry, place::ITERATIONS) == 0 {
        Err(HeadFault::Iterations(IterationsOf::Slot(n)))
    } else {
        Ok(())
    }
}

/// The 48 bytes of the keyslot `n`.
pub(crate) fn entry_of(bytes: &[u8], n: u8) -> &[u8]
    requires long { luks1_size ≤ length bytes.now }
    requires numbered { n < 8 }
    ensures value { result.now ≡ entry bytes.now n }
    ensures length { length result.now ≡ entry_size }
{
    field(bytes, place::KEYSLOTS + ENTRY_SIZE * n as usize, ENTRY_SIZE)
}

fn states(bytes: &[u8]) -> Result<(), HeadFault>
    requires { luks1_size ≤ length bytes.now }
    ensures { JudgesRow head_row head_place (IsLuks1Fault bytes.now) 7 result }
{
    for n in 0..8 {
        entry_state(entry_of(bytes, n), n)?;
    }
    Ok(())
}

fn stripes(bytes: &[u8]) -> Result<(), HeadFault>
    requires { luks1_size ≤ length bytes.now }
    ensures { JudgesRow head_row head_place (IsLuks1Fault bytes.now) 9 result }
{
    for n in 0..8 {
        entry_stripes(entry_of(bytes, n), n)?;
    }
    Ok(())
}

fn iterations(bytes: &[u8]) -> Result<(), HeadFault>
    requires { luks1_size ≤ length bytes.now }
    ensures { JudgesRow head_row head_place (IsLuks1Fault bytes.now) 10 result }
{
    for n in 0..8 {
        entry_iterations(entry_of(bytes, n), n)?;
    }
    digest_iterations(bytes)
}

/// The rows of the 208 bytes before the keyslots.
pub(crate) fn common(bytes: &[u8]) -> Result<(), HeadFault>
    requires { common_size ≤ length bytes.now }
    ensures ok { OnOk result ((g : HeadFault) → IsCommonFault bytes.now g → ⊥) }
    ensures err { IfErr result (IsLeast head_key (IsCommonFault bytes.now)) }
{
    magic(bytes)?;
    version(bytes)?;
    texts(bytes)?;
    uuid(bytes)?;
    key_bytes(bytes)?;
    digest_iterations(bytes)
}

/// The rows of the 48 bytes of the keyslot `n`.
pub(crate) fn slot(entry: &[u8], n: u8) -> Result<(), HeadFault>
    requires { entry_size ≤ length entry.now }
    ensures ok { OnOk result ((g : HeadFault) → IsEntryFault n entry.now g → ⊥) }
    ensures err { IfErr result (IsLeast head_key (IsEntryFault n entry.now)) }
{
    entry_state(entry, n)?;
    entry_stripes(entry, n)?;
    entry_iterations(entry, n)
}

/// The rows of the whole header.
pub(crate) fn all(bytes: &[u8]) -> Result<(), HeadFault>
    requires { luks1_size ≤ length bytes.now }
    ensures ok { OnOk result ((g : HeadFault) → IsLuks1Fault bytes.now g → ⊥) }
    ensures err { IfErr result (IsLeast head_key (IsLuks1Fault bytes.now)) }
{
    magic(bytes)?;
    version(bytes)?;
    texts(bytes)?;
    uuid(bytes)?;
    states(bytes)?;
    key_bytes(bytes)?;
    stripes(bytes)?;
    iterations(bytes)
}
