//! The words of a line.
use crate::bytes::bytes_of;
use crate::malformed::Malformed;
use luks_kdf::KeyslotHash;
use std::alloc::Global;
use std::str;

/// The words of a line that weren't read yet.
#[derive(Clone, Copy)]
pub struct Words<'a> {
    left: &'a str,
}

impl<'a> Words<'a> {
    /// All words of the line.
    pub fn new(line: &'a str) -> Words<'a> {
        Words { left: line }
    }

    /// The next word, if there is one.
    pub fn next_word(&mut self) -> Option<&'a str> {
        if self.is_empty() {
            return None;
        }
        let (word, left) = self.left.split_once(' ').unwrap_or((self.left, ""));
        self.left = left;
        Some(word)
    }

    /// All words that are left.
    pub fn take_left(&mut self) -> &'a str {
        let left = self.left;
        self.left = "";
        left
    }

    /// The next word.
    pub fn word(&mut self) -> Result<&'a str, Malformed> {
        self.next_word().ok_or(Malformed::WordMissing)
    }

    /// The next word as a number.
    pub fn number(&mut self) -> Result<u64, Malformed> {
        number_of(self.word()?)
    }

    /// The next word as a number of 32 bits.
    pub fn number32(&mut self) -> Result<u32, Malformed> {
        u32::try_from(self.number()?).ok().ok_or(Malformed::Number)
    }

    /// The next word as a number of bytes in memory.
    pub fn len(&mut self) -> Result<usize, Malformed> {
        usize::try_from(self.number()?)
            .ok()
            .ok_or(Malformed::Number)
    }

    /// The bytes for which the next word stands.
    pub fn bytes(&mut self, alloc: Global) -> Result<Vec<u8>, Malformed> {
        bytes_of(alloc, self.word()?)
    }

    /// The text for which the next word stands.
    pub fn text(&mut self, alloc: Global) -> Result<String, Malformed> {
        let bytes = self.bytes(alloc)?;
        let text = str::from_utf8(bytes.as_slice())
            .ok()
            .ok_or(Malformed::Bytes)?;
        Ok(String::from_str(alloc, text)?)
    }

    /// The hash that the next word names, older ones too.
    pub fn hash(&mut self) -> Result<KeyslotHash, Malformed> {
        KeyslotHash::parse(self.word()?, true).ok_or(Malformed::Name)
    }

    /// Whether all words were read.
    pub fn is_empty(&self) -> bool {
        self.left.is_empty()
    }

    /// No word is left.
    pub fn end(&self) -> Result<(), Malformed> {
        if self.is_empty() {
            Ok(())
        } else {
            Err(Malformed::WordLeft)
        }
    }
}

/// The number that the word is, in decimal digits.
pub fn number_of(word: &str) -> Result<u64, Malformed> {
    word.parse::<u64>().ok().ok_or(Malformed::Number)
}
