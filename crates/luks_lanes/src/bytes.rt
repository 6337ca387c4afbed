// Words and the bytes that they stand for, high byte first.

ghost use Rattle.std.specs.Prelude.{◌≡◌, ℕ, ◌+◌, ◌*◌, ◌≤◌, length, map, bit_xor};
ghost use Rattle.sha2.specs.Sha256.{digest_bytes, word_at};
ghost use Rattle.sha2.specs.Sha512.{digest_bytes as wide_bytes, word_at as wide_at};

// The word at byte `i`.
#[inline(always)]
pub(crate) fn load_be(bytes: &[u8], i: usize) -> u32
    requires { i + 4 ≤ length bytes.now }
    ensures { result ≡ word_at bytes.now i }
{
    u32::from_be_bytes([bytes[i], bytes[i + 1], bytes[i + 2], bytes[i + 3]])
}

// The word at byte `i`, or 0 where the bytes end before it does.
pub(crate) fn load_or_zero(bytes: &[u8], i: usize) -> u32
    requires { i ≤ 128 }
    ensures { i + 4 ≤ length bytes.now → result ≡ word_at bytes.now i }
{
    if i + 4 <= bytes.len() {
        load_be(bytes, i)
    } else {
        0
    }
}

// Writes the words.
pub(crate) fn write_words(bytes: &mut [u8], words: &[u32])
    requires { length bytes.old ≡ length words.now * 4 }
    ensures { bytes.new ≡ digest_bytes words.now (length words.now) }
{
    for i in 0..words.len() {
        bytes[4 * i..4 * i + 4].copy_from_slice(&words[i].to_be_bytes());
    }
}

// The word of 64 bits at byte `i`.
#[inline(always)]
pub(crate) fn load_wide(bytes: &[u8], i: usize) -> u64
    requires { i + 8 ≤ length bytes.now }
    ensures { result ≡ wide_at bytes.now i }
{
    u64::from_be_bytes([
        bytes[i],
        bytes[i + 1],
        bytes[i + 2],
        bytes[i + 3],
        bytes[i + 4],
        bytes[i + 5],
        bytes[i + 6],
        bytes[i + 7],
    ])
}

// The word of 64 bits at byte `i`, or 0 where the bytes end before it does.
pub(crate) fn load_wide_or_zero(bytes: &[u8], i: usize) -> u64
    requires { i ≤ 128 }
    ensures { i + 8 ≤ length bytes.now → result ≡ wide_at bytes.now i }
{
    if i + 8 <= bytes.len() {
        load_wide(bytes, i)
    } else {
        0
    }
}

// Writes the words of 64 bits.
pub(crate) fn write_wide(bytes: &mut [u8], words: &[u64])
    requires { length bytes.old ≡ length words.now * 8 }
    ensures { bytes.new ≡ wide_bytes words.now (length words.now) }
{
    for i in 0..words.len() {
        bytes[8 * i..8 * i + 8].copy_from_slice(&words[i].to_be_bytes());
    }
}

// Writes the bytes, each xored with `pad`.
pub(crate) fn xor_with(out: &mut [u8], bytes: &[u8], pad: u8)
    requires { length out.old ≡ length bytes.now }
    ensures { out.new ≡ map (bit_xor pad) bytes.now }
{
    for i in 0..bytes.len() {
        out[i] = pad ^ bytes[i];
    }
}
