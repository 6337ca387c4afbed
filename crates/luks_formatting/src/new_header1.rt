//! The LUKS1 header of a new volume.
ghost use Rattle.std.specs.Prelude.{◌≡◌, ◌+◌, ◌≤◌, ◌<◌, ◌^◌, ℕ, length, slice_index_or, IfSome};
ghost use Rattle.luks1_header.specs.declared.luks1.Luks1Slot.{Luks1Slot as TheSlot};
ghost use Rattle.luks_formatting.specs.NewHeader1.{first_slot, free_slot, material_sector, new_slot, own_sector, payload_sector, IsNewCommon, IsNewHeader1};

use crate::given::{Given, owned, uuid_of};
use crate::plan::put_key_digest;
use crate::random::{DIGEST_SALT, STRIPES, taken_array};
use luks_reading::{Data, Format};
use luks2_header::{Luks1, Luks1Common, Luks1Slot, SlotState};

/// The place of the salt of keyslot 0 among the random bytes, the length of the volume key aside.
pub(crate) const SLOT_SALT: usize = 48;

/// The header, whose keyslot 0 is in use.
pub(crate) fn new_header(given: &Given<'_>, format: &Format, random: &[u8]) -> Luks1
    requires iterations { 1 ≤ format.now.iterations }
    requires small { given.now.key_bytes ≤ 64 }
    requires long { 80 + given.now.key_bytes ≤ length random.now }
    requires sector { payload_sector given.now < 2 ^ 32 }
    requires uuid { IfSome given.now.uuid (λ text. length text.now ≤ 40) }
    ensures { IsNewHeader1 given.now format.now random.now result }
{
    Luks1 {
        common: new_common(given, format, random),
        slots: new_slots(given.key_bytes, format, random),
    }
}

fn new_common(given: &Given<'_>, format: &Format, random: &[u8]) -> Luks1Common
    requires iterations { 1 ≤ format.now.iterations }
    requires small { given.now.key_bytes ≤ 64 }
    requires long { 80 + given.now.key_bytes ≤ length random.now }
    requires sector { payload_sector given.now < 2 ^ 32 }
    requires uuid { IfSome given.now.uuid (λ text. length text.now ≤ 40) }
    ensures { IsNewCommon given.now format.now random.now result }
{
    let mut mk_digest = [0; 20];
    put_key_digest(&mut mk_digest, given, format, random);
    Luks1Common {
        cipher_name: owned("aes"),
        cipher_mode: owned(given.cipher.mode()),
        hash_spec: owned(format.hash.text()),
        payload_offset: payload_sector(given),
        key_bytes: given.key_bytes,
        mk_digest,
        mk_digest_salt: taken_array(random, DIGEST_SALT + given.key_bytes as usize),
        mk_digest_iterations: format.iterations,
        uuid: uuid_of(given, random),
    }
}

/// Where the payload begins, in sectors.
fn payload_sector(given: &Given<'_>) -> u32
    requires { payload_sector given.now < 2 ^ 32 }
    ensures { result ≡ payload_sector given.now }
{
    match given.sector {
        Some(sector) => sector as u32,
        None => own_sector(given.payload),
    }
}

fn own_sector(payload: Data) -> u32
    ensures { result ≡ own_sector payload }
{
    match payload {
        Data::Here => 4096,
        Data::Elsewhere => 0,
    }
}

fn new_slots(key_bytes: u32, format: &Format, random: &[u8]) -> [Luks1Slot; 8]
    requires small { key_bytes ≤ 64 }
    requires long { 80 + key_bytes ≤ length random.now }
    ensures eight { length result ≡ 8 }
    ensures each { (n : ℕ) (s : TheSlot) → n < 8
        → slice_index_or result n s ≡ new_slot key_bytes format.now random.now n }
{
    let mut slots = [first_slot(key_bytes, format, random); 8];
    for n in 1..8 {
        slots[n] = free_slot(key_bytes, n as u32);
    }
    slots
}

fn first_slot(key_bytes: u32, format: &Format, random: &[u8]) -> Luks1Slot
    requires small { key_bytes ≤ 64 }
    requires long { 80 + key_bytes ≤ length random.now }
    ensures { result ≡ first_slot key_bytes format.now random.now }
{
    Luks1Slot {
        state: SlotState::Enabled,
        iterations: format.iterations,
        salt: taken_array(random, SLOT_SALT + key_bytes as usize),
        key_material_offset: material_sector(key_bytes, 0),
        stripes: STRIPES,
    }
}

fn free_slot(key_bytes: u32, n: u32) -> Luks1Slot
    requires small { key_bytes ≤ 64 }
    requires one { n < 8 }
    ensures { result ≡ free_slot key_bytes n }
{
    Luks1Slot {
        state: SlotState::Disabled,
        iterations: 0,
        salt: [0; 32],
        key_material_offset: material_sector(key_bytes, n),
        stripes: STRIPES,
    }
}

/// The first sector of the key material of the keyslot `n`, for keys of so many bytes.
fn material_sector(key_bytes: u32, n: u32) -> u32
    requires small { key_bytes ≤ 64 }
    requires one { n < 8 }
    ensures { result ≡ material_sector key_bytes n }
{
    let sectors = (key_bytes * 4000).next_multiple_of(4096) / 512;
    8 + n * sectors
}
