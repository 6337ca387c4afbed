//! How much memory the functions have that take some.
use crate::malformed::Malformed;
use crate::words::Words;
use luks_test_devices::TakenMemory;
use std::alloc::{AllocError, Global};

/// How much memory a function has.
#[derive(Clone, Copy)]
pub enum Memory {
    /// All that there is.
    Free,
    /// None.
    Taken,
}

impl Memory {
    /// `free` or `taken`.
    pub fn read(words: &mut Words<'_>) -> Result<Memory, Malformed> {
        match words.word()? {
            "free" => Ok(Memory::Free),
            "taken" => Ok(Memory::Taken),
            _ => Err(Malformed::Name),
        }
    }

    /// Takes all memory where none is to be had, as long as the value lives.
    pub fn take(self, alloc: Global) -> Result<Option<TakenMemory>, AllocError> {
        match self {
            Memory::Free => Ok(None),
            Memory::Taken => Ok(Some(TakenMemory::take(alloc)?)),
        }
    }
}
