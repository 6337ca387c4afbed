//! The device and the keyslot that lines set, and the functions by their names.
use crate::headers;
use crate::keyslot::{Keyslot, opened, refused, sealed, wiped};
use crate::volume::{self, Volume};
use luks_vector_lines::{Functions, Malformed, Memory, Words};
use std::alloc::Global;

/// The device, the keyslot and the memory of the functions to come.
#[derive(Drop)]
pub struct VolumeFunctions {
    volume: Volume,
    keyslot: Keyslot,
    memory: Memory,
}

impl VolumeFunctions {
    /// A device of no bytes, a keyslot that says nothing, and all memory.
    pub fn new(alloc: Global) -> VolumeFunctions {
        VolumeFunctions {
            volume: volume::volume(Vec::new(alloc)),
            keyslot: Keyslot::new(alloc),
            memory: Memory::Free,
        }
    }

    /// Sets what the functions to come work on; false where the name is of none that does.
    fn set(
        &mut self,
        alloc: Global,
        function: &str,
        words: &mut Words<'_>,
    ) -> Result<bool, Malformed> {
        match function {
            "device" => self.volume = volume::volume(words.bytes(alloc)?),
            "fail" => volume::fail(alloc, &mut self.volume, words)?,
            "put" => volume::put(alloc, &mut self.volume, words)?,
            "cut" => volume::cut(alloc, &mut self.volume, words)?,
            "checksum" => volume::checksum(alloc, &mut self.volume, words)?,
            "memory" => self.memory = Memory::read(words)?,
            "kdf" => self.keyslot.set_kdf(alloc, words)?,
            "cipher" => self.keyslot.set_cipher(alloc, words)?,
            "area" => self.keyslot.set_area(words)?,
            "stripes" => self.keyslot.set_stripes(alloc, words)?,
            "digest" => self.keyslot.set_digest(alloc, words)?,
            _ => return Ok(false),
        }
        Ok(true)
    }

    /// What a function of the device or of the keyslot gives.
    fn given(
        &mut self,
        alloc: Global,
        function: &str,
        words: &mut Words<'_>,
    ) -> Result<String, Malformed> {
        let volume = &mut self.volume;
        let plan = self.keyslot.plan();
        match function {
            "read" => volume::read(alloc, volume, words),
            "write" => volume::write(alloc, volume, words),
            "flush" => volume::flush(alloc, volume),
            "failures" => volume::failures(alloc, volume),
            "contents" => volume::contents(alloc, volume),
            "sum" => volume::sum(alloc, volume, words),
            "refusal" => refused(alloc, &plan, words),
            "open" => opened(alloc, volume, &plan, self.memory, words),
            "seal" => sealed(alloc, volume, &plan, self.memory, words),
            "wipe" => wiped(alloc, volume, words),
            _ => self.header(alloc, function, words),
        }
    }

    /// What a function of the header gives that stands in the device.
    fn header(
        &mut self,
        alloc: Global,
        function: &str,
        words: &mut Words<'_>,
    ) -> Result<String, Malformed> {
        let volume = &mut self.volume;
        match function {
            "luks1" => headers::luks1(alloc, volume, words),
            "luks1-fields" => headers::luks1_fields(alloc, volume, words),
            "luks1-common" => headers::luks1_common(alloc, volume, words),
            "luks1-slot" => headers::luks1_slot(alloc, volume, words),
            "bin2" => headers::bin2(alloc, volume, words),
            "bin2-uuid" => headers::bin2_uuid(alloc, volume, words),
            "bin2-summed" => headers::bin2_summed(alloc, volume, words),
            "bin2-renewed" => headers::bin2_renewed(alloc, volume, words),
            "select" => headers::selected(alloc, volume, words),
            _ => Err(Malformed::Function),
        }
    }
}

impl Functions for VolumeFunctions {
    fn answer(
        &mut self,
        alloc: Global,
        function: &str,
        words: &mut Words<'_>,
    ) -> Result<Option<String>, Malformed> {
        match self.set(alloc, function, words)? {
            true => Ok(None),
            false => Ok(Some(self.given(alloc, function, words)?)),
        }
    }
}
