//! A volume in memory that may be damaged further, and what is made of it.
use crate::given::give_all;
use crate::near::Sought;
use luks_area::MemDevice;
use luks_reading::{Allowed, open_slot};
use luks_test_devices::old_bytes;
use luks_vector_lines::{Functions, Malformed, Words, demand};
use luks1_rebuilding::trial::{Opening, Untold, try_combinations};
use luks1_rebuilding::{Given, Rebuild1Fault, rebuild1};
use sha2::{Digest, Sha256};
use std::alloc::Global;

/// The volume that lines make, and what is given of its header.
#[derive(Drop)]
pub struct DamagedLuks1 {
    source: Vec<u8>,
    given: Given,
}

impl DamagedLuks1 {
    /// A volume of no bytes, of which nothing is given.
    pub fn new(alloc: Global) -> DamagedLuks1 {
        DamagedLuks1 {
            source: Vec::new(alloc),
            given: Given::NOTHING,
        }
    }

    /// `source LEN`: it has so many zeros.
    fn clear(&mut self, alloc: Global, words: &mut Words<'_>) -> Result<(), Malformed> {
        self.source = vec![in alloc; 0u8; words.len()?]?;
        Ok(())
    }

    /// `put AT BYTES`: these bytes stand there.
    fn put(&mut self, alloc: Global, words: &mut Words<'_>) -> Result<(), Malformed> {
        let at = words.len()?;
        let bytes = words.bytes(alloc)?;
        demand(at <= self.source.len() && bytes.len() <= self.source.len() - at)?;
        luks_test_devices::put(&mut self.source, at, &bytes);
        Ok(())
    }

    /// `[AT BIT]`: the volume with this bit of the byte at a place turned.
    fn turned(&self, alloc: Global, words: &mut Words<'_>) -> Result<MemDevice, Malformed> {
        let mut bytes = self.source.to_vec(alloc)?;
        if !words.is_empty() {
            let at = words.len()?;
            let bit = words.number32()?;
            demand(bit < 8)?;
            let byte = bytes.get_mut(at).ok_or(Malformed::Outside)?;
            *byte ^= 1 << bit;
        }
        Ok(MemDevice::new(bytes))
    }

    /// The target of so many bytes that is left, or the fault.
    fn target(
        &self,
        alloc: Global,
        words: &mut Words<'_>,
    ) -> Result<Result<MemDevice, Rebuild1Fault>, Malformed> {
        let len = words.len()?;
        let mut source = self.turned(alloc, words)?;
        let mut target = MemDevice::new(old_bytes(alloc, len)?);
        let rebuilt = rebuild1(&mut source, &mut target, &self.given);
        Ok(rebuilt.map(|()| target))
    }

    /// `rebuild LEN [AT BIT]`: the SHA-256 of that target.
    fn rebuild(&self, alloc: Global, words: &mut Words<'_>) -> Result<String, Malformed> {
        match self.target(alloc, words)? {
            Ok(target) => Ok(hex::encode(alloc, Sha256::digest(target.contents()))?),
            Err(fault) => Ok(format!(in alloc; "{fault}")?),
        }
    }

    /// `open LEN [AT BIT]`: whether keyslots 0 and 2 open by it, by `one` and `two`.
    fn open(&self, alloc: Global, words: &mut Words<'_>) -> Result<String, Malformed> {
        match self.target(alloc, words)? {
            Ok(mut target) => {
                let one = opens(alloc, &mut target, 0, b"one");
                let two = opens(alloc, &mut target, 2, b"two");
                Ok(format!(in alloc; "{one} {two}")?)
            }
            Err(fault) => Ok(format!(in alloc; "{fault}")?),
        }
    }

    /// `try PASSPHRASE [AT BIT]`: the first combination by which a keyslot opens, with the keyslot.
    fn try_all(&self, alloc: Global, words: &mut Words<'_>) -> Result<String, Malformed> {
        let passphrase = words.bytes(alloc)?;
        let mut source = self.turned(alloc, words)?;
        match try_combinations(alloc, &mut source, &self.given, &passphrase, &mut Untold) {
            Ok(Some(opening)) => told(alloc, &opening),
            Ok(None) => Ok(String::from_str(alloc, "none")?),
            Err(fault) => Ok(format!(in alloc; "{fault}")?),
        }
    }

    /// `thorough PASSPHRASE MOST [AT BIT]`: what is found near to what stands, by so many derivations at most.
    fn thorough(&self, alloc: Global, words: &mut Words<'_>) -> Result<String, Malformed> {
        let sought = Sought::read(alloc, words)?;
        let mut source = self.turned(alloc, words)?;
        sought.luks1(alloc, &mut source, &self.given)
    }
}

/// Whether this keyslot opens.
fn opens(alloc: Global, target: &mut MemDevice, slot: u8, passphrase: &[u8]) -> &'static str {
    match open_slot(alloc, target, slot, passphrase, Allowed::NOTHING) {
        Ok(Some(_)) => "opens",
        Ok(None) => "shut",
        Err(_) => "refused",
    }
}

/// What opens, and by which fields.
fn told(alloc: Global, opening: &Opening) -> Result<String, Malformed> {
    let slot = opening.slot;
    let common = &opening.header.common;
    let name = common.cipher_name.as_str();
    let mode = common.cipher_mode.as_str();
    let hash = common.hash_spec.as_str();
    let key_bytes = common.key_bytes;
    Ok(format!(in alloc; "keyslot {slot} by {name}-{mode} {hash} {key_bytes}")?)
}

impl Functions for DamagedLuks1 {
    fn answer(
        &mut self,
        alloc: Global,
        function: &str,
        words: &mut Words<'_>,
    ) -> Result<Option<String>, Malformed> {
        match function {
            "source" => self.clear(alloc, words)?,
            "put" => self.put(alloc, words)?,
            "given" => give_all(alloc, &mut self.given, words)?,
            "rebuild" => return Ok(Some(self.rebuild(alloc, words)?)),
            "open" => return Ok(Some(self.open(alloc, words)?)),
            "try" => return Ok(Some(self.try_all(alloc, words)?)),
            "thorough" => return Ok(Some(self.thorough(alloc, words)?)),
            _ => return Err(Malformed::Function),
        }
        Ok(None)
    }
}
