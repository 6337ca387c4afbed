//! The functions by their names.
use crate::areas::{field, fit};
use crate::argon2::{argon2, blake2b};
use crate::ciphers::{aes, cbc, cbc_run, xts};
use crate::derivation::{hash, hmac, keyslot_name, name, names, pbkdf2};
use crate::older_hashes::{ripemd160, whirlpool};
use crate::splitter::{merge, split, take_in};
use luks_vector_lines::{Functions, Malformed, Memory, Words};
use std::alloc::Global;

/// The functions, and the memory of those to come.
#[derive(Clone, Copy)]
pub struct ByteFunctions {
    memory: Memory,
}

impl ByteFunctions {
    /// The functions with all memory.
    pub fn new() -> ByteFunctions {
        ByteFunctions {
            memory: Memory::Free,
        }
    }

    /// What a function gives that takes memory of its own, or works on areas and fields.
    fn other(
        &self,
        alloc: Global,
        function: &str,
        words: &mut Words<'_>,
    ) -> Result<String, Malformed> {
        match function {
            "aes" => aes(alloc, words),
            "cbc" => cbc(alloc, words),
            "cbc-run" => cbc_run(alloc, words),
            "xts" => xts(alloc, words),
            "blake2b" => blake2b(alloc, words),
            "ripemd160" => ripemd160(alloc, words),
            "whirlpool" => whirlpool(alloc, words),
            "argon2" => argon2(alloc, self.memory, words),
            "fit" => fit(alloc, words),
            "field" => field(alloc, words),
            _ => Err(Malformed::Function),
        }
    }

    /// What a function gives.
    fn given(
        &self,
        alloc: Global,
        function: &str,
        words: &mut Words<'_>,
    ) -> Result<String, Malformed> {
        match function {
            "name" => name(alloc, words),
            "names" => names(alloc),
            "keyslot-name" => keyslot_name(alloc, words),
            "hash" => hash(alloc, words),
            "hmac" => hmac(alloc, words),
            "pbkdf2" => pbkdf2(alloc, words),
            "split" => split(alloc, words),
            "merge" => merge(alloc, words),
            "take-in" => take_in(alloc, words),
            _ => self.other(alloc, function, words),
        }
    }
}

impl Functions for ByteFunctions {
    fn answer(
        &mut self,
        alloc: Global,
        function: &str,
        words: &mut Words<'_>,
    ) -> Result<Option<String>, Malformed> {
        if function == "memory" {
            self.memory = Memory::read(words)?;
            return Ok(None);
        }
        Ok(Some(self.given(alloc, function, words)?))
    }
}
