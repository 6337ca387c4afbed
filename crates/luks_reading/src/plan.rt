//! What it takes to open a keyslot, as the headers say it.
ghost use Rattle.std.specs.Prelude.{◌≡◌, ◌≤◌, ◌*◌, ℕ, List, length, Some};
ghost use Rattle.serde_json.specs.Data.{Data};
ghost use Rattle.luks1_header.specs.Header1.{active_word, enabled_word, IsCommon, IsEntry};
ghost use Rattle.luks_rules.specs.declared.table.Section.TheVariants.{Digests};
ghost use Rattle.luks_meta.specs.Faults.{object_at};
ghost use Rattle.luks_meta.specs.Naming.{IsDigestOf};
ghost use Rattle.luks_meta.specs.Says.{TellsDigest, TellsKeyslot};
ghost use Rattle.luks_area.specs.Sectors.{rounded_to_sectors};
ghost use Rattle.luks_reading.specs.PlanAnswers.{IsOpenable};
ghost use Rattle.luks_reading.specs.KeyDigests.{SaysDigest};
ghost use Rattle.luks_reading.specs.Plans.{IsLuks1Digest, IsLuks1Plan, IsLuks2Plan, IsLuks2Derivation};

use luks_area::{Area, SECTOR, rounded_to_sectors};
use luks_meta::{Argon2, Cost, Digest, Keyslot};
use luks_slot::{AreaCipher, Argon2Kind, Argon2Plan, Derivation, DigestPlan, SlotPlan};
use luks2_header::{Luks1Common, Luks1Slot};

/// The plan of an enabled keyslot of a LUKS1 header (LUKS1 On-Disk Format 1.2.3, "The partition
/// header").
pub fn luks1_plan<'a>(common: &'a Luks1Common, slot: &'a Luks1Slot) -> SlotPlan<'a>
    ensures is { (h e : List ℕ) → IsCommon h common.now → IsEntry e slot.now
        → IsLuks1Plan h e result }
    ensures judged { (h e : List ℕ) → IsCommon h common.now → IsEntry e slot.now
        → active_word e ≡ enabled_word → IsOpenable result }
{
    let hash = common.hash_spec.as_str();
    SlotPlan {
        derivation: Derivation::Pbkdf2 {
            hash,
            iterations: slot.iterations,
            salt: &slot.salt,
        },
        cipher: AreaCipher::Apart {
            name: common.cipher_name.as_str(),
            mode: common.cipher_mode.as_str(),
        },
        area: luks1_area(common.key_bytes, slot),
        area_key_bytes: common.key_bytes as usize,
        key_bytes: common.key_bytes as usize,
        stripes: slot.stripes,
        splitter_hash: hash,
        digest: luks1_digest(common),
    }
}

/// The plan of the digest that tells the volume key of a LUKS1 header.
pub fn luks1_digest(common: &Luks1Common) -> DigestPlan<'_>
    ensures is { (h : List ℕ) → IsCommon h common.now → IsLuks1Digest h result }
    ensures turns { (h : List ℕ) → IsCommon h common.now → 1 ≤ result.iterations }
    ensures length { length result.stored.now ≡ 20 }
{
    DigestPlan {
        hash: common.hash_spec.as_str(),
        iterations: common.mk_digest_iterations,
        salt: &common.mk_digest_salt,
        stored: &common.mk_digest,
    }
}

/// The key material of a keyslot of LUKS1, in whole sectors of 512 bytes; `key_bytes` is the length
/// of the volume key.
pub fn luks1_area(key_bytes: u32, slot: &Luks1Slot) -> Area
    ensures start { result.start ≡ slot.now.key_material_offset * 512 }
    ensures len { result.len ≡ rounded_to_sectors (key_bytes * slot.now.stripes) }
{
    let material = u64::from(key_bytes) * u64::from(slot.stripes);
    Area {
        start: u64::from(slot.key_material_offset) * SECTOR,
        len: rounded_to_sectors(material),
    }
}

/// The plan of a keyslot of LUKS2 with the digest that names it (LUKS2 On-Disk Format 1.1, 3.2 and
/// 3.4). Its texts and salts borrow from the records.
pub fn luks2_plan<'a>(keyslot: &'a Keyslot<'a>, digest: &'a Digest<'a>) -> SlotPlan<'a>
    ensures { (j : Data) (n m : ℕ) (d o : Data) → TellsKeyslot d keyslot.now → IsDigestOf j n m
        → object_at j Digests m ≡ Some o → TellsDigest o digest.now → IsLuks2Plan j n d result }
{
    SlotPlan {
        derivation: luks2_derivation(keyslot),
        cipher: AreaCipher::Whole(keyslot.area.encryption),
        area: Area {
            start: keyslot.area.offset,
            len: keyslot.area.size,
        },
        area_key_bytes: usize::from(keyslot.area.key_size),
        key_bytes: usize::from(keyslot.key_size),
        stripes: keyslot.af.stripes,
        splitter_hash: keyslot.af.hash,
        digest: luks2_digest(digest),
    }
}

/// The plan of a digest that tells a volume key of LUKS2 (LUKS2 On-Disk Format 1.1, 3.4).
pub fn luks2_digest<'a>(digest: &'a Digest<'a>) -> DigestPlan<'a>
    ensures says { (object : Data) → TellsDigest object digest.now → SaysDigest object result }
    ensures turns { (object : Data) → TellsDigest object digest.now → 1 ≤ result.iterations }
    ensures length { (object : Data) → TellsDigest object digest.now → length result.stored.now ≤ 64 }
{
    DigestPlan {
        hash: digest.hash,
        iterations: digest.iterations,
        salt: digest.salt.as_slice(),
        stored: digest.digest.as_slice(),
    }
}

fn luks2_derivation<'a>(keyslot: &'a Keyslot<'a>) -> Derivation<'a>
    ensures { (d : Data) → TellsKeyslot d keyslot.now → IsLuks2Derivation d result }
{
    let salt = keyslot.kdf.salt.as_slice();
    match keyslot.kdf.cost {
        Cost::Pbkdf2(pbkdf2) => Derivation::Pbkdf2 {
            hash: pbkdf2.hash,
            iterations: pbkdf2.iterations,
            salt,
        },
        Cost::Argon2i(costs) => Derivation::Argon2(argon2_plan(Argon2Kind::I, costs, salt)),
        Cost::Argon2id(costs) => Derivation::Argon2(argon2_plan(Argon2Kind::Id, costs, salt)),
    }
}

fn argon2_plan(kind: Argon2Kind, costs: Argon2, salt: &[u8]) -> Argon2Plan<'_>
    ensures kind { result.kind ≡ kind }
    ensures time { result.time ≡ costs.time }
    ensures memory { result.memory ≡ costs.memory }
    ensures cpus { result.cpus ≡ costs.cpus }
    ensures salt { result.salt.now ≡ salt.now }
{
    Argon2Plan {
        kind,
        time: costs.time,
        memory: costs.memory,
        cpus: costs.cpus,
        salt,
    }
}
