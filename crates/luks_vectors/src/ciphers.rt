//! AES, CBC and XTS.
use luks_aes::AesKey;
use luks_modes::{CbcKey, IvKind, XtsKey};
use luks_vector_lines::{Malformed, Words, demand};
use std::alloc::Global;

/// `aes KEY BLOCK`: the block that the key encrypts this one to, and whether it decrypts that one back;
/// `no key` where the key has another length.
pub fn aes(alloc: Global, words: &mut Words<'_>) -> Result<String, Malformed> {
    let key = words.bytes(alloc)?;
    let block = block_of(words.word()?)?;
    let Some(key) = AesKey::of_any_size(&key) else {
        return Ok(String::from_str(alloc, "no key")?);
    };
    let sealed = key.encrypt(block);
    let is_opened = key.decrypt(sealed) == block;
    told(alloc, &sealed, is_opened)
}

/// The block that hexadecimal digits stand for.
fn block_of(word: &str) -> Result<[u8; 16], Malformed> {
    match u128::from_str_radix(word, 16) {
        Ok(block) => Ok(block.to_be_bytes()),
        Err(_) => Err(Malformed::Bytes),
    }
}

/// `xts KEY UNIT BYTES`: what the key encrypts the unit of this number to, of whole blocks, and whether
/// it decrypts that back; `no key` where the key has another length.
pub fn xts(alloc: Global, words: &mut Words<'_>) -> Result<String, Malformed> {
    let key = words.bytes(alloc)?;
    let unit = words.number()?;
    let plain = words.bytes(alloc)?;
    demand(plain.len() % 16 == 0)?;
    let Some(key) = XtsKey::new(&key) else {
        return Ok(String::from_str(alloc, "no key")?);
    };
    let mut sealed = plain.clone()?;
    key.seal_unit(unit, &mut sealed);
    let mut opened = sealed.clone()?;
    key.open_unit(unit, &mut opened);
    told(alloc, &sealed, opened.as_slice() == plain.as_slice())
}

/// `cbc IV KEY SECTOR BYTES`: what the key encrypts the sector of this number to, of whole blocks, by IVs
/// of this kind, and whether it decrypts that back; `no key` where the key has another length.
pub fn cbc(alloc: Global, words: &mut Words<'_>) -> Result<String, Malformed> {
    let key = cbc_key(alloc, words)?;
    let sector = words.number()?;
    let plain = words.bytes(alloc)?;
    demand(plain.len() % 16 == 0)?;
    let Some(key) = key else {
        return Ok(String::from_str(alloc, "no key")?);
    };
    let mut sealed = plain.clone()?;
    key.seal_sector(sector, &mut sealed);
    let mut opened = sealed.clone()?;
    key.open_sector(sector, &mut opened);
    told(alloc, &sealed, opened.as_slice() == plain.as_slice())
}

/// `cbc-run IV KEY FIRST BYTES`: the same of a run of sectors of 512 bytes, whose numbers are counted up.
pub fn cbc_run(alloc: Global, words: &mut Words<'_>) -> Result<String, Malformed> {
    let key = cbc_key(alloc, words)?;
    let first = words.number()?;
    let plain = words.bytes(alloc)?;
    demand(plain.len() % 512 == 0)?;
    let Some(key) = key else {
        return Ok(String::from_str(alloc, "no key")?);
    };
    let mut sealed = plain.clone()?;
    key.seal_units(first, &mut sealed);
    let mut opened = sealed.clone()?;
    key.open_units(first, &mut opened);
    told(alloc, &sealed, opened.as_slice() == plain.as_slice())
}

/// The kind of the IVs, and the key.
fn cbc_key(alloc: Global, words: &mut Words<'_>) -> Result<Option<CbcKey>, Malformed> {
    let ivs = match words.word()? {
        "plain" => IvKind::Plain,
        "plain64" => IvKind::Plain64,
        "essiv:sha256" => IvKind::Essiv,
        _ => return Err(Malformed::Name),
    };
    let key = words.bytes(alloc)?;
    Ok(CbcKey::new(&key, ivs))
}

/// The sealed bytes, and whether they were opened to what was sealed.
fn told(alloc: Global, sealed: &[u8], is_opened: bool) -> Result<String, Malformed> {
    let mut text = hex::encode(alloc, sealed)?;
    text.push_str(if is_opened {
        " opens"
    } else {
        " opens to another"
    })?;
    Ok(text)
}
