//! Opening keyslots.
ghost use Rattle.std.specs.Prelude.{◌≡◌, ◌≤◌, ◌<◌, ◌^◌, length};
ghost use Rattle.luks_given.specs.Parts.{AreGiven, AreNoParts, ArePartsOf, IsWanted, volume};
ghost use Rattle.luks_c_answers.specs.Asked.{allowed_of};
ghost use Rattle.luks_c.specs.OpenAnswers.{AnswersOpen, AnswersUnlock, IsGiven};

use luks_c_answers::{BEYOND, DONE, ROOM, SHUT, USAGE, allowed_of, fill_front, open_number};
use luks_given::{Given, GivenParts, Part, are_parts};
use luks_reading::{Allowed, Key, OpenFault, open_slot, unlock};
use std::alloc::Global;
use std::marker::Brand;

/// What opening a keyslot tells.
#[repr(C)]
#[derive(Clone, Copy, Drop, Default)]
pub struct LuksOpened {
    /// The keyslot that opens.
    pub slot: u32,
    /// The bytes of its volume key; 0 where none opens.
    pub key_bytes: u32,
    /// With the answer BEYOND, the range that has to be given.
    pub beyond: Part,
}

/// Opens the volume of `total` bytes of which these ranges are given, by the first keyslot that the passphrase
/// opens. The volume key is put into `key`, where that has any byte.
///
/// Argon2 may take `memory` KiB for each keyslot; one that takes more is passed over, and so is one with
/// a cipher or a hash of older disks where `older` is 0. Else memory is taken for the metadata of LUKS2
/// alone.
#[unsafe(no_mangle)]
pub extern "C" fn luks_unlock_bytes(
    alloc: Global,
    parts: &[Part],
    held: &[u8],
    total: u64,
    passphrase: &[u8],
    memory: u32,
    older: u32,
    key: &mut [u8],
    opened: &mut LuksOpened,
) -> u32
    ensures usage { AreNoParts parts.now held.now total → result ≡ 101 }
    ensures long { 2 ^ 32 ≤ length passphrase.now → result ≡ 101 }
    ensures answers { ArePartsOf parts.now held.now total → length passphrase.now < 2 ^ 32
        → AnswersUnlock (allowed_of memory older) (volume parts.now held.now total) passphrase.now
        key.old key.new opened.new result }
    ensures wanted { result ≡ 102 → IsWanted parts.now total opened.new.beyond }
{
    *opened = LuksOpened::default();
    if !are_parts(parts, held, total) || passphrase.len() as u64 >= 0x1_0000_0000 {
        return USAGE;
    }
    let allowed = allowed_of(memory, older);
    unlock_given::<Brand>(alloc, parts, held, total, passphrase, allowed, key, opened)
}

/// Unlocks the volume `K`, of which these ranges are given, by a passphrase that is short enough.
fn unlock_given<K: Given>(
    alloc: Global,
    parts: &[Part],
    held: &[u8],
    total: u64,
    passphrase: &[u8],
    allowed: Allowed,
    key: &mut [u8],
    opened: &mut LuksOpened,
) -> u32
    requires parts { K.parts ≡ parts.now }
    requires given { AreGiven parts.now held.now total K.bytes }
    requires passphrase { length passphrase.now < 2 ^ 32 }
    ensures answers { AnswersUnlock allowed K.bytes passphrase.now key.old key.new opened.new result }
    ensures wanted { result ≡ 102 → IsWanted K.parts total opened.new.beyond }
{
    let mut device: GivenParts<'_, K> = GivenParts::new(parts, held, total);
    match unlock(alloc, &mut device, passphrase, allowed) {
        Ok(Some((slot, found))) => give_key(u32::from(slot), &found, key, opened),
        Ok(None) => SHUT,
        Err(OpenFault::Device) => {
            opened.beyond = device.wanted();
            BEYOND
        }
        Err(fault) => open_number(&fault),
    }
}

/// Opens the keyslot `n` of the volume of `total` bytes of which these ranges are given, as `luks_unlock_bytes`
/// does of the first that opens.
#[unsafe(no_mangle)]
pub extern "C" fn luks_open_bytes(
    alloc: Global,
    parts: &[Part],
    held: &[u8],
    total: u64,
    n: u8,
    passphrase: &[u8],
    memory: u32,
    older: u32,
    key: &mut [u8],
    opened: &mut LuksOpened,
) -> u32
    ensures usage { AreNoParts parts.now held.now total → result ≡ 101 }
    ensures long { 2 ^ 32 ≤ length passphrase.now → result ≡ 101 }
    ensures answers { ArePartsOf parts.now held.now total → length passphrase.now < 2 ^ 32
        → AnswersOpen (allowed_of memory older) (volume parts.now held.now total) n passphrase.now
        key.old key.new opened.new result }
    ensures wanted { result ≡ 102 → IsWanted parts.now total opened.new.beyond }
{
    *opened = LuksOpened::default();
    if !are_parts(parts, held, total) || passphrase.len() as u64 >= 0x1_0000_0000 {
        return USAGE;
    }
    let allowed = allowed_of(memory, older);
    open_given::<Brand>(
        alloc, parts, held, total, n, passphrase, allowed, key, opened,
    )
}

/// Opens a keyslot of the volume `K`, of which these ranges are given, by a passphrase that is short enough.
fn open_given<K: Given>(
    alloc: Global,
    parts: &[Part],
    held: &[u8],
    total: u64,
    n: u8,
    passphrase: &[u8],
    allowed: Allowed,
    key: &mut [u8],
    opened: &mut LuksOpened,
) -> u32
    requires parts { K.parts ≡ parts.now }
    requires given { AreGiven parts.now held.now total K.bytes }
    requires passphrase { length passphrase.now < 2 ^ 32 }
    ensures answers { AnswersOpen allowed K.bytes n passphrase.now key.old key.new opened.new result }
    ensures wanted { result ≡ 102 → IsWanted K.parts total opened.new.beyond }
{
    let mut device: GivenParts<'_, K> = GivenParts::new(parts, held, total);
    match open_slot(alloc, &mut device, n, passphrase, allowed) {
        Ok(Some(found)) => give_key(u32::from(n), &found, key, opened),
        Ok(None) => SHUT,
        Err(OpenFault::Device) => {
            opened.beyond = device.wanted();
            BEYOND
        }
        Err(fault) => open_number(&fault),
    }
}

/// Tells the keyslot and its key, which is put into the buffer where that has any byte.
fn give_key(slot: u32, found: &Key, key: &mut [u8], opened: &mut LuksOpened) -> u32
    ensures slot { opened.new.slot ≡ slot }
    ensures key_bytes { opened.new.key_bytes ≡ length found.now }
    ensures given { IsGiven found.now key.old key.new result }
{
    let bytes = found.as_bytes();
    opened.slot = slot;
    opened.key_bytes = bytes.len() as u32;
    if !key.is_empty() && key.len() < bytes.len() {
        return ROOM;
    }
    fill_front(key, bytes);
    DONE
}
