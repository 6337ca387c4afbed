//! A keyslot: what it says, opening it, sealing a key in it, and wiping its area.
ghost use Rattle.std.specs.Prelude.{◌↔◌, IsTrue};
ghost use Rattle.luks_slot.specs.Opening.{HasIterations};

use crate::volume::Volume;
use luks_area::{Area, Device};
use luks_slot::{
    Allowed, AreaCipher, Argon2Kind, Argon2Plan, Derivation, DigestPlan, Key, SlotFault, SlotPlan,
    open, open_within, refusal, refusal_within, seal, seal_within, wipe,
};
use luks_vector_lines::{Malformed, Memory, Words, demand, done, number_of};
use std::alloc::Global;

/// The hash, the iterations and the salt of PBKDF2.
#[derive(Drop)]
struct Pbkdf2 {
    hash: String,
    iterations: u32,
    salt: Vec<u8>,
}

/// What Argon2 derives by.
#[derive(Drop)]
struct Argon2 {
    kind: Argon2Kind,
    time: u32,
    memory: u32,
    cpus: u32,
    salt: Vec<u8>,
}

/// How the key of a keyslot's area is derived.
#[derive(Drop)]
enum Kdf {
    Pbkdf2(Pbkdf2),
    Argon2(Argon2),
}

/// What a keyslot says.
#[derive(Drop)]
pub struct Keyslot {
    kdf: Kdf,
    cipher: String,
    mode: Option<String>,
    area: Area,
    area_key_bytes: usize,
    key_bytes: usize,
    stripes: u32,
    splitter_hash: String,
    digest: Pbkdf2,
    stored: Vec<u8>,
}

fn read_pbkdf2(alloc: Global, words: &mut Words<'_>) -> Result<Pbkdf2, Malformed> {
    Ok(Pbkdf2 {
        hash: words.text(alloc)?,
        iterations: words.number32()?,
        salt: words.bytes(alloc)?,
    })
}

fn read_argon2(
    alloc: Global,
    kind: Argon2Kind,
    words: &mut Words<'_>,
) -> Result<Argon2, Malformed> {
    Ok(Argon2 {
        kind,
        time: words.number32()?,
        memory: words.number32()?,
        cpus: words.number32()?,
        salt: words.bytes(alloc)?,
    })
}

impl Kdf {
    /// `pbkdf2 HASH ITERATIONS SALT`, or `argon2i` or `argon2id` and `TIME MEMORY CPUS SALT`.
    fn read(alloc: Global, words: &mut Words<'_>) -> Result<Kdf, Malformed> {
        match words.word()? {
            "pbkdf2" => Ok(Kdf::Pbkdf2(read_pbkdf2(alloc, words)?)),
            "argon2i" => Ok(Kdf::Argon2(read_argon2(alloc, Argon2Kind::I, words)?)),
            "argon2id" => Ok(Kdf::Argon2(read_argon2(alloc, Argon2Kind::Id, words)?)),
            _ => Err(Malformed::Name),
        }
    }

    fn derivation(&self) -> Derivation<'_> {
        match self {
            Kdf::Pbkdf2(costs) => Derivation::Pbkdf2 {
                hash: costs.hash.as_str(),
                iterations: costs.iterations,
                salt: costs.salt.as_slice(),
            },
            Kdf::Argon2(costs) => Derivation::Argon2(Argon2Plan {
                kind: costs.kind,
                time: costs.time,
                memory: costs.memory,
                cpus: costs.cpus,
                salt: costs.salt.as_slice(),
            }),
        }
    }
}

fn no_pbkdf2(alloc: Global) -> Pbkdf2 {
    Pbkdf2 {
        hash: String::new(alloc),
        iterations: 0,
        salt: Vec::new(alloc),
    }
}

impl Keyslot {
    /// A keyslot that says nothing.
    pub fn new(alloc: Global) -> Keyslot {
        Keyslot {
            kdf: Kdf::Pbkdf2(no_pbkdf2(alloc)),
            cipher: String::new(alloc),
            mode: None,
            area: Area { start: 0, len: 0 },
            area_key_bytes: 0,
            key_bytes: 0,
            stripes: 0,
            splitter_hash: String::new(alloc),
            digest: no_pbkdf2(alloc),
            stored: Vec::new(alloc),
        }
    }

    /// `kdf`, and what `Kdf` reads.
    pub fn set_kdf(&mut self, alloc: Global, words: &mut Words<'_>) -> Result<(), Malformed> {
        self.kdf = Kdf::read(alloc, words)?;
        Ok(())
    }

    /// `cipher TEXT` as LUKS2 writes it, or `cipher NAME MODE` as LUKS1 does.
    pub fn set_cipher(&mut self, alloc: Global, words: &mut Words<'_>) -> Result<(), Malformed> {
        self.cipher = words.text(alloc)?;
        self.mode = if words.is_empty() {
            None
        } else {
            Some(words.text(alloc)?)
        };
        Ok(())
    }

    /// `area START LEN KEYBYTES`: where the area lies, and the length of the key of its cipher.
    pub fn set_area(&mut self, words: &mut Words<'_>) -> Result<(), Malformed> {
        let start = words.number()?;
        let len = words.number()?;
        self.area = Area { start, len };
        self.area_key_bytes = words.len()?;
        Ok(())
    }

    /// `stripes KEYBYTES COUNT HASH`: the length of the volume key, how many stripes hold it, and the
    /// splitter's hash.
    pub fn set_stripes(&mut self, alloc: Global, words: &mut Words<'_>) -> Result<(), Malformed> {
        self.key_bytes = words.len()?;
        self.stripes = words.number32()?;
        self.splitter_hash = words.text(alloc)?;
        Ok(())
    }

    /// `digest HASH ITERATIONS SALT STORED`: what the volume key has to meet.
    pub fn set_digest(&mut self, alloc: Global, words: &mut Words<'_>) -> Result<(), Malformed> {
        self.digest = read_pbkdf2(alloc, words)?;
        self.stored = words.bytes(alloc)?;
        Ok(())
    }

    fn cipher(&self) -> AreaCipher<'_> {
        match &self.mode {
            Some(mode) => AreaCipher::Apart {
                name: self.cipher.as_str(),
                mode: mode.as_str(),
            },
            None => AreaCipher::Whole(self.cipher.as_str()),
        }
    }

    /// The keyslot as it is opened and sealed by.
    pub fn plan(&self) -> SlotPlan<'_> {
        SlotPlan {
            derivation: self.kdf.derivation(),
            cipher: self.cipher(),
            area: self.area,
            area_key_bytes: self.area_key_bytes,
            key_bytes: self.key_bytes,
            stripes: self.stripes,
            splitter_hash: self.splitter_hash.as_str(),
            digest: DigestPlan {
                hash: self.digest.hash.as_str(),
                iterations: self.digest.iterations,
                salt: self.digest.salt.as_slice(),
                stored: self.stored.as_slice(),
            },
        }
    }
}

/// What is allowed, where words say it: `KIB`, as many as Argon2 may take, or `older`, or both.
fn allowed(words: &mut Words<'_>) -> Result<Option<Allowed>, Malformed> {
    let (memory, rest) = match words.take_left() {
        "" => return Ok(None),
        "older" => (0, "older"),
        left => match left.split_once(' ') {
            Some((kib, rest)) => (number32_of(kib)?, rest),
            None => (number32_of(left)?, ""),
        },
    };
    match rest {
        "" | "older" => Ok(Some(Allowed {
            memory,
            older: rest == "older",
        })),
        _ => Err(Malformed::Name),
    }
}

fn number32_of(word: &str) -> Result<u32, Malformed> {
    u32::try_from(number_of(word)?)
        .ok()
        .ok_or(Malformed::Number)
}

/// Whether the derivation has an iteration.
fn has_iterations(derivation: &Derivation<'_>) -> bool
    ensures { IsTrue result ↔ HasIterations derivation.now }
{
    match *derivation {
        Derivation::Pbkdf2 { iterations, .. } => iterations >= 1,
        Derivation::Argon2(costs) => costs.time >= 1 && costs.salt.len() <= 128,
    }
}

/// `refusal`, or with what is allowed behind it: the first fault of what the keyslot says, or `none`.
pub fn refused(
    alloc: Global,
    plan: &SlotPlan<'_>,
    words: &mut Words<'_>,
) -> Result<String, Malformed> {
    let found = match allowed(words)? {
        Some(allowed) => refusal_within(plan, allowed),
        None => refusal(plan),
    };
    match found {
        Some(fault) => Ok(format!(in alloc; "{fault}")?),
        None => Ok(String::from_str(alloc, "none")?),
    }
}

/// `open PASSPHRASE`, or with what is allowed behind it: the volume key, `none`, or the fault.
pub fn opened(
    alloc: Global,
    volume: &mut Volume,
    plan: &SlotPlan<'_>,
    memory: Memory,
    words: &mut Words<'_>,
) -> Result<String, Malformed> {
    let passphrase = words.bytes(alloc)?;
    let allowed = allowed(words)?;
    let taken = memory.take(alloc)?;
    let found = open_by(alloc, volume, plan, &passphrase, allowed)?;
    drop(taken);
    match found {
        Ok(Some(key)) => Ok(hex::encode(alloc, key.as_bytes())?),
        Ok(None) => Ok(String::from_str(alloc, "none")?),
        Err(fault) => Ok(format!(in alloc; "{fault}")?),
    }
}

/// `open` or `open_within`, where their conditions hold.
fn open_by(
    alloc: Global,
    volume: &mut Volume,
    plan: &SlotPlan<'_>,
    passphrase: &[u8],
    allowed: Option<Allowed>,
) -> Result<Result<Option<Key>, SlotFault>, Malformed> {
    demand(has_iterations(&plan.derivation) && passphrase.len() <= 512)?;
    demand(plan.digest.iterations >= 1 && plan.digest.stored.len() <= 64)?;
    demand(plan.key_bytes >= 1 && plan.key_bytes <= 128 && plan.stripes >= 1)?;
    let used = plan
        .key_bytes
        .checked_mul(plan.stripes as usize)
        .ok_or(Malformed::Outside)?;
    demand(used <= 512000 && (used + 511) / 512 * 512 <= plan.area.len as usize)?;
    demand(plan.area.is_inside(volume.len()))?;
    demand(volume.failures() < u64::MAX)?;
    Ok(match allowed {
        Some(allowed) => open_within(alloc, volume, plan, passphrase, allowed),
        None => open(alloc, volume, plan, passphrase),
    })
}

/// `seal PASSPHRASE KEY RANDOM`, or with what is allowed behind it: `done`, or the fault.
pub fn sealed(
    alloc: Global,
    volume: &mut Volume,
    plan: &SlotPlan<'_>,
    memory: Memory,
    words: &mut Words<'_>,
) -> Result<String, Malformed> {
    let passphrase = words.bytes(alloc)?;
    let key = words.bytes(alloc)?;
    let random = words.bytes(alloc)?;
    let allowed = allowed(words)?;
    demand(key.len() >= 1 && key.len() <= 128)?;
    let key = Key::new(&key);
    let taken = memory.take(alloc)?;
    let sealed = seal_by(alloc, volume, plan, &passphrase, &key, &random, allowed)?;
    drop(taken);
    done(alloc, sealed)
}

/// `seal` or `seal_within`, where their conditions hold.
fn seal_by(
    alloc: Global,
    volume: &mut Volume,
    plan: &SlotPlan<'_>,
    passphrase: &[u8],
    key: &Key,
    random: &[u8],
    allowed: Option<Allowed>,
) -> Result<Result<(), SlotFault>, Malformed> {
    demand(has_iterations(&plan.derivation) && passphrase.len() <= 512)?;
    demand(plan.stripes >= 1)?;
    demand(plan.key_bytes <= 128 && key.as_bytes().len() == plan.key_bytes)?;
    let others = plan
        .key_bytes
        .checked_mul((plan.stripes - 1) as usize)
        .ok_or(Malformed::Outside)?;
    demand(random.len() == others)?;
    let used = plan
        .key_bytes
        .checked_mul(plan.stripes as usize)
        .ok_or(Malformed::Outside)?;
    demand(used <= 512000 && (used + 511) / 512 * 512 <= plan.area.len as usize)?;
    demand(plan.area.is_inside(volume.len()))?;
    demand(volume.failures() < u64::MAX)?;
    Ok(match allowed {
        Some(allowed) => seal_within(alloc, volume, plan, passphrase, allowed, key, random),
        None => seal(volume, plan, passphrase, key, random),
    })
}

/// `wipe START LEN`: `done`, or the fault.
pub fn wiped(
    alloc: Global,
    volume: &mut Volume,
    words: &mut Words<'_>,
) -> Result<String, Malformed> {
    let start = words.number()?;
    let len = words.number()?;
    let area = Area { start, len };
    demand(area.is_inside(volume.len()))?;
    demand(volume.failures() < u64::MAX)?;
    done(alloc, wipe(volume, area))
}
