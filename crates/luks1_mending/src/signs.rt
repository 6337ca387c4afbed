//! Signs of a LUKS1 header.
ghost use Rattle.std.specs.Prelude.{◌≡◌, ◌↔◌, ◌<◌, ◌+◌, ◌⊎◌, length, IsTrue};
ghost use Rattle.luks1_header.specs.Header1.{disabled_word, enabled_word, header_text, luks1_size, HasMagic};
ghost use Rattle.luks1_header.specs.declared.fault.TextField.TheVariants.{CipherName, HashSpec};
ghost use Rattle.luks1_mending.specs.Signs.{AreTwo, HasPlausibleEntry, HasSigns, HasUsualIterations, IsKnownCipher, IsKnownHash, IsPlausible};

use crate::common::{CIPHER_NAME, HASH_SPEC, MK_DIGEST_ITERATIONS, TEXT_SIZE};
use crate::entries::{number_at, sector_of, stripes_of, word_of};
use crate::kept::{ENABLED, HEADER};
use luks_area::{SECTOR, text_field};
use luks1_header::fields::field;
use luks1_header::luks1_places::MAGIC;

/// The active word of a disabled keyslot.
const DISABLED: u32 = 0x0000_DEAD;

/// Whether the 592 bytes of a volume of `total` bytes have signs of a LUKS1 header: the magic, or two of a
/// cipher's name, a hash's name, a usual count of iterations, and a plausible entry.
pub fn has_signs(header: &[u8], total: u64) -> bool
    requires { length header.now ≡ luks1_size }
    ensures { IsTrue result ↔ HasSigns header.now total }
{
    if has_magic(header) {
        return true;
    }
    are_two(
        has_known_cipher(header),
        has_known_hash(header),
        has_usual_iterations(header),
        has_plausible_entry(header, total),
    )
}

fn has_magic(header: &[u8]) -> bool
    requires { length header.now ≡ luks1_size }
    ensures { IsTrue result ↔ HasMagic header.now }
{
    field(header, 0, 6) == MAGIC.as_slice()
}

/// Whether two of the four are true.
fn are_two(a: bool, b: bool, c: bool, d: bool) -> bool
    ensures { IsTrue result ↔ AreTwo (IsTrue a) (IsTrue b) (IsTrue c) (IsTrue d) }
{
    if a {
        return b || c || d;
    }
    if b {
        return c || d;
    }
    c && d
}

fn has_known_cipher(header: &[u8]) -> bool
    requires { length header.now ≡ luks1_size }
    ensures { IsTrue result ↔ IsKnownCipher (header_text header.now CipherName) }
{
    match text_field(field(header, CIPHER_NAME, TEXT_SIZE)) {
        Some(text) => is_known_cipher(text),
        None => false,
    }
}

fn is_known_cipher(text: &str) -> bool
    ensures { IsTrue result ↔ IsKnownCipher text.now }
{
    text == "aes" || text == "twofish" || text == "serpent" || text == "cast5" || text == "cast6"
}

fn has_known_hash(header: &[u8]) -> bool
    requires { length header.now ≡ luks1_size }
    ensures { IsTrue result ↔ IsKnownHash (header_text header.now HashSpec) }
{
    match text_field(field(header, HASH_SPEC, TEXT_SIZE)) {
        Some(text) => is_known_hash(text),
        None => false,
    }
}

fn is_known_hash(text: &str) -> bool
    ensures { IsTrue result ↔ IsKnownHash text.now }
{
    text == "sha1" || text == "sha256" || text == "sha512" || text == "ripemd160"
}

fn has_usual_iterations(header: &[u8]) -> bool
    requires { length header.now ≡ luks1_size }
    ensures { IsTrue result ↔ HasUsualIterations header.now }
{
    let iterations = number_at(header, MK_DIGEST_ITERATIONS);
    iterations >= 1000 && iterations <= 0x8000_0000
}

fn has_plausible_entry(header: &[u8], total: u64) -> bool
    requires { length header.now ≡ luks1_size }
    ensures { IsTrue result ↔ HasPlausibleEntry header.now total }
{
    for n in 0..8 {
        if is_plausible(header, total, n) {
            return true;
        }
    }
    false
}

fn is_plausible(header: &[u8], total: u64, n: u8) -> bool
    requires long { length header.now ≡ luks1_size }
    requires numbered { n < 8 }
    ensures { IsTrue result ↔ IsPlausible header.now total n }
{
    let start = u64::from(sector_of(header, n)) * SECTOR;
    is_stated(word_of(header, n)) && stripes_of(header, n) >= 1 && start >= HEADER && start < total
}

/// Whether the active word is one of the two.
fn is_stated(word: u32) -> bool
    ensures { IsTrue result ↔ (word ≡ enabled_word ⊎ word ≡ disabled_word) }
{
    word == ENABLED || word == DISABLED
}
