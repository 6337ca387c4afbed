//! What is given of a header's fields.
use arrayvec::ArrayString;
use luks_vector_lines::{Malformed, Words};
use luks1_rebuilding::Given;
use std::alloc::Global;

/// `given [NAME WORD]..`: what is given from here on, each field by its name.
pub fn give_all(alloc: Global, given: &mut Given, words: &mut Words<'_>) -> Result<(), Malformed> {
    *given = Given::NOTHING;
    for _ in 0..6 {
        if words.is_empty() {
            break;
        }
        give(alloc, given, words)?;
    }
    Ok(())
}

/// Gives one more field.
fn give(alloc: Global, given: &mut Given, words: &mut Words<'_>) -> Result<(), Malformed> {
    match words.word()? {
        "cipher" => given.cipher_name = Some(name(alloc, words)?),
        "mode" => given.cipher_mode = Some(name(alloc, words)?),
        "hash" => given.hash = Some(name(alloc, words)?),
        "key_bytes" => given.key_bytes = Some(words.number32()?),
        "payload" => given.payload = Some(words.number32()?),
        "uuid" => given.uuid = Some(uuid(alloc, words)?),
        _ => return Err(Malformed::Name),
    }
    Ok(())
}

/// The text for which the next word stands, of at most 32 bytes.
fn name(alloc: Global, words: &mut Words<'_>) -> Result<ArrayString<32>, Malformed> {
    let text = words.text(alloc)?;
    match ArrayString::from(text.as_str()) {
        Ok(name) => Ok(name),
        Err(_) => Err(Malformed::Outside),
    }
}

/// The text for which the next word stands, of at most 40 bytes.
fn uuid(alloc: Global, words: &mut Words<'_>) -> Result<ArrayString<40>, Malformed> {
    let text = words.text(alloc)?;
    match ArrayString::from(text.as_str()) {
        Ok(uuid) => Ok(uuid),
        Err(_) => Err(Malformed::Outside),
    }
}
