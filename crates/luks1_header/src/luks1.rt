//! The LUKS1 header.
ghost use Rattle.std.specs.Prelude.{◌≡◌, ◌≤◌, ◌<◌, ◌+◌, ℕ, List, length, slice_index_or, IsOk, IfOk, IfErr, OnOk};
ghost use Rattle.luks_area.specs.First.{IsLeast};
ghost use Rattle.luks_area.specs.Ranges.{part};
ghost use Rattle.luks1_header.specs.Bytes.{text_at, HoldsText};
ghost use Rattle.luks1_header.specs.Faults.{head_key, HasUnknownState, IsCommonFault, IsEntryFault, IsLuks1Fault};
ghost use Rattle.luks1_header.specs.declared.fault.HeadFault.{HeadFault as Fault};
ghost use Rattle.luks1_header.specs.Header1.{common_size, entry, entry_size, luks1_size, HoldsCommon, HoldsEntry, HoldsTexts, IsCommon, IsEntry, IsLuks1};
ghost use Rattle.luks1_header.specs.Written.{WritesEntry, WritesLuks1};

use crate::fault::HeadFault;
use crate::fields::{array_at, field, put, u32_at};
use crate::luks1_faults::{self, entry_of};
use crate::luks1_places::{self as place, ENABLED, ENTRY_SIZE};
use crate::luks1_writing::{entry_bytes, put_common};
use arrayvec::ArrayString;
use luks_area::text_field;

/// Whether a keyslot of a LUKS1 header is in use, as its active word says.
#[derive(Debug, Clone, Copy, PartialEq, Eq, Default)]
pub enum SlotState {
    /// The keyslot is in use: 0x00AC71F3.
    Enabled,
    /// The keyslot is free: 0x0000DEAD.
    #[default]
    Disabled,
}

/// A keyslot of a LUKS1 header.
#[derive(Debug, Clone, Copy, PartialEq, Eq, Default)]
pub struct Luks1Slot {
    /// Whether the keyslot is in use.
    pub state: SlotState,
    /// The iterations of the key derivation; 0 only in a disabled keyslot.
    pub iterations: u32,
    /// The salt of the key derivation.
    pub salt: [u8; 32],
    /// The first sector of the key material, in sectors of 512 bytes from the volume's start.
    pub key_material_offset: u32,
    /// The number of stripes, at least 1.
    pub stripes: u32,
}

/// The fields of a LUKS1 header before its keyslots.
#[derive(Debug, Clone, Copy, PartialEq, Eq)]
pub struct Luks1Common {
    /// The name of the cipher.
    pub cipher_name: ArrayString<32>,
    /// The cipher's mode.
    pub cipher_mode: ArrayString<32>,
    /// The hash of the key derivation, the splitter and the digest.
    pub hash_spec: ArrayString<32>,
    /// Where the payload begins, in sectors of 512 bytes from the volume's start.
    pub payload_offset: u32,
    /// The length of the volume key in bytes, 1 to 128.
    pub key_bytes: u32,
    /// The digest of the volume key.
    pub mk_digest: [u8; 20],
    /// The salt of that digest.
    pub mk_digest_salt: [u8; 32],
    /// The iterations of that digest, at least 1.
    pub mk_digest_iterations: u32,
    /// The volume's uuid, 36 bytes in either letter case.
    pub uuid: ArrayString<40>,
}

/// The LUKS1 header: the 592 bytes at the volume's start.
#[derive(Debug, Clone, Copy, PartialEq, Eq)]
pub struct Luks1 {
    /// The fields before the keyslots.
    pub common: Luks1Common,
    /// The eight keyslots.
    pub slots: [Luks1Slot; 8],
}

impl Luks1 {
    /// Reads the header from the volume's first 592 bytes (LUKS1 1.2.3, "The partition header").
    ///
    /// Refused by the first of `NotLuks`, `Version`, `Text`, `Uuid`, `SlotState`, `KeyBytes`,
    /// `Stripes` and `Iterations` that stands.
    pub fn read(bytes: &[u8]) -> Result<Luks1, HeadFault>
        requires { length bytes.now ≡ luks1_size }
        ensures found { IfOk result (IsLuks1 bytes.now) }
        ensures only { (d : Luks1) → IsLuks1 bytes.now d → IsOk result }
        ensures fault { IfErr result (IsLeast head_key (IsLuks1Fault bytes.now)) }
        ensures faultless { OnOk result ((f : Fault) → IsLuks1Fault bytes.now f → ⊥) }
    {
        luks1_faults::all(bytes)?;
        Ok(Luks1 {
            common: common_fields(bytes),
            slots: slots_of(bytes),
        })
    }

    /// Reads the fields before the keyslots from the volume's first 208 bytes.
    ///
    /// Refused by the first of `NotLuks`, `Version`, `Text`, `Uuid`, `KeyBytes` and
    /// `Iterations(Digest)` that stands. What the keyslots hold plays no part.
    pub fn common(bytes: &[u8]) -> Result<Luks1Common, HeadFault>
        requires { length bytes.now ≡ common_size }
        ensures found { IfOk result (IsCommon bytes.now) }
        ensures only { (c : Luks1Common) → IsCommon bytes.now c → IsOk result }
        ensures fault { IfErr result (IsLeast head_key (IsCommonFault bytes.now)) }
        ensures faultless { OnOk result ((f : Fault) → IsCommonFault bytes.now f → ⊥) }
    {
        luks1_faults::common(bytes)?;
        Ok(common_fields(bytes))
    }

    /// Reads the keyslot `n` from its own 48 bytes.
    ///
    /// Refused by the first of `SlotState(n)`, `Stripes(n)` and `Iterations(Slot(n))` that stands.
    pub fn slot(entry: &[u8], n: u8) -> Result<Luks1Slot, HeadFault>
        requires size { length entry.now ≡ entry_size }
        requires numbered { n < 8 }
        ensures found { IfOk result (IsEntry entry.now) }
        ensures only { (s : Luks1Slot) → IsEntry entry.now s → IsOk result }
        ensures fault { IfErr result (IsLeast head_key (IsEntryFault n entry.now)) }
        ensures faultless { OnOk result ((f : Fault) → IsEntryFault n entry.now f → ⊥) }
    {
        luks1_faults::slot(entry, n)?;
        Ok(slot_fields(entry))
    }

    /// The header's 592 bytes. Each text is followed by zeros to the end of its field.
    ///
    /// A text with a zero byte would be read only as far as that byte.
    pub fn write(&self) -> [u8; 592]
        ensures written { WritesLuks1 result self.now }
        ensures read_back { (v : List ℕ) → IsLuks1 v self.now → IsLuks1 result self.now }
        ensures entries { (n : ℕ) (s : Luks1Slot) (e : List ℕ) → n < 8
            → WritesEntry e (slice_index_or self.now.slots n s) → entry result n ≡ e }
    {
        let mut bytes = [0; place::SIZE];
        put_common(&mut bytes, &self.common);
        for n in 0..8 {
            let at = place::KEYSLOTS + ENTRY_SIZE * n as usize;
            put(&mut bytes, at, &self.slot_bytes(n));
        }
        bytes
    }

    /// The 48 bytes of the keyslot `n`, which stand from the place 208 + 48 * `n` on in what
    /// `write` gives.
    pub fn slot_bytes(&self, n: u8) -> [u8; 48]
        requires { n < 8 }
        ensures { (s : Luks1Slot) → WritesEntry result (slice_index_or self.now.slots n s) }
    {
        entry_bytes(&self.slots[n as usize])
    }
}

/// The text in the field of `len` bytes at `at`, which is known to be one.
fn text_at<const N: usize>(bytes: &[u8], at: usize) -> ArrayString<N>
    requires within { at + N ≤ length bytes.now }
    requires text { HoldsText bytes.now at N }
    ensures { result.bytes ≡ text_at bytes.now at N }
{
    let mut owned = ArrayString::new();
    if let Some(text) = text_field(field(bytes, at, N)) {
        owned.push_str(text);
    }
    owned
}

fn common_fields(bytes: &[u8]) -> Luks1Common
    requires long { common_size ≤ length bytes.now }
    requires texts { HoldsTexts bytes.now }
    ensures { HoldsCommon bytes.now result }
{
    Luks1Common {
        cipher_name: text_at(bytes, place::CIPHER_NAME),
        cipher_mode: text_at(bytes, place::CIPHER_MODE),
        hash_spec: text_at(bytes, place::HASH_SPEC),
        payload_offset: u32_at(bytes, place::PAYLOAD_OFFSET),
        key_bytes: u32_at(bytes, place::KEY_BYTES),
        mk_digest: array_at(bytes, place::MK_DIGEST),
        mk_digest_salt: array_at(bytes, place::MK_DIGEST_SALT),
        mk_digest_iterations: u32_at(bytes, place::MK_DIGEST_ITERATIONS),
        uuid: text_at(bytes, place::UUID),
    }
}

fn slot_fields(entry: &[u8]) -> Luks1Slot
    requires long { entry_size ≤ length entry.now }
    requires stated { HasUnknownState entry.now → ⊥ }
    ensures { HoldsEntry entry.now result }
{
    let state = match u32_at(entry, place::ACTIVE_WORD) {
        ENABLED => SlotState::Enabled,
        _ => SlotState::Disabled,
    };
    Luks1Slot {
        state,
        iterations: u32_at(entry, place::ITERATIONS),
        salt: array_at(entry, place::SALT),
        key_material_offset: u32_at(entry, place::KEY_MATERIAL_OFFSET),
        stripes: u32_at(entry, place::STRIPES),
    }
}

fn slots_of(bytes: &[u8]) -> [Luks1Slot; 8]
    requires long { luks1_size ≤ length bytes.now }
    requires stated { (n : ℕ) → n < 8 → HasUnknownState (entry bytes.now n) → ⊥ }
    ensures length { length result ≡ 8 }
    ensures each { (n : ℕ) (s : Luks1Slot)
        → n < 8 → HoldsEntry (entry bytes.now n) (slice_index_or result n s) }
{
    let mut slots = [Luks1Slot::default(); 8];
    for n in 0..8 {
        slots[n as usize] = slot_fields(entry_of(bytes, n));
    }
    slots
}
