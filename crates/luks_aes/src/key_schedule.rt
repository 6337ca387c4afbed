//! KeyExpansion of AES (FIPS 197, 5.2), the words of four bytes one after another.

ghost use Rattle.std.specs.Prelude.{◌≡◌, ◌⊎◌, ◌+◌, ◌-◌, ◌*◌, ◌/◌, ◌<◌, ◌≤◌, length, take};
ghost use Rattle.luks_aes.specs.Aes.{schedule, sub_word, temp_word, word_xor, word};
ghost use Rattle.luks_aes.specs.Keys.{IsExpanded, key_bytes};

use crate::lookups::sub_bytes;
use crate::tables::power_of_2;
use std::simd::u8x16;

// SubWord (5.2), by the look-ups of SubBytes.
fn sub_word(t: [u8; 4]) -> [u8; 4]
    ensures { result ≡ sub_word t }
{
    let bytes = [t[0], t[1], t[2], t[3], 0, 0, 0, 0, 0, 0, 0, 0, 0, 0, 0, 0];
    let substituted = sub_bytes(u8x16::from_array(bytes));
    let word = substituted.to_array();
    [word[0], word[1], word[2], word[3]]
}

// The standard's `temp` for word i, from the word before it, under a key of `key_words` words (Nk).
fn temp_word(key_words: usize, i: usize, t: [u8; 4]) -> [u8; 4]
    requires size { (key_words ≡ 4) ⊎ ((key_words ≡ 6) ⊎ (key_words ≡ 8)) }
    requires first { key_words ≤ i }
    requires last { i < 4 * key_words + 28 }
    ensures { result ≡ temp_word key_words i t }
{
    if i % key_words == 0 {
        let constant = power_of_2(i / key_words - 1);
        let word = sub_word([t[1], t[2], t[3], t[0]]);
        [word[0] ^ constant, word[1], word[2], word[3]]
    } else if key_words > 6 && i % key_words == 4 {
        sub_word(t)
    } else {
        t
    }
}

// Word i of the schedule, from the words before it, the last of which is `before`.
fn next_word(words: &[u8], before: [u8; 4], key_words: usize, i: usize) -> [u8; 4]
    requires size { (key_words ≡ 4) ⊎ ((key_words ≡ 6) ⊎ (key_words ≡ 8)) }
    requires first { key_words ≤ i }
    requires last { i < 4 * key_words + 28 }
    requires written { 4 * i ≤ length words.now }
    requires before { before ≡ word words.now (i - 1) }
    ensures { result
        ≡ word_xor (word words.now (i - key_words))
        (temp_word key_words i (word words.now (i - 1))) }
{
    let back = &words[4 * (i - key_words)..4 * (i - key_words) + 4];
    let temp = temp_word(key_words, i, before);
    [
        back[0] ^ temp[0],
        back[1] ^ temp[1],
        back[2] ^ temp[2],
        back[3] ^ temp[3],
    ]
}

// The last word of these.
fn last_word(words: &[u8], count: usize) -> [u8; 4]
    requires some { 1 ≤ count }
    requires written { 4 * count ≤ length words.now }
    ensures { result ≡ word (take (4 * count) words.now) (count - 1) }
{
    let last = &words[4 * count - 4..4 * count];
    [last[0], last[1], last[2], last[3]]
}

// Writes the words after the key's own.
fn add_words(words: &mut [u8], key_words: usize)
    requires size { (key_words ≡ 4) ⊎ ((key_words ≡ 6) ⊎ (key_words ≡ 8)) }
    requires room { length words.old ≡ 240 }
    ensures { take (16 * key_words + 112) words.new
        ≡ schedule key_words (take (4 * key_words) words.old) (3 * key_words + 28) }
{
    let mut before = last_word(words, key_words);
    for i in key_words..4 * key_words + 28 {
        let next = next_word(&words[..4 * i], before, key_words, i);
        words[4 * i..4 * i + 4].copy_from_slice(&next);
        before = next;
    }
}

// Writes the key and the words after it: 11 round keys for a key of 16 bytes, 13 for one
// of 24, 15 for one of 32.
pub(crate) fn expand_key(words: &mut [u8], key: &[u8])
    requires key { (length key.now ≡ 16) ⊎ ((length key.now ≡ 24) ⊎ (length key.now ≡ 32)) }
    requires room { length words.old ≡ 240 }
    ensures expanded { IsExpanded (length key.now / 4) words.new }
    ensures key { key_bytes (length key.now / 4) words.new ≡ key.now }
{
    words[..key.len()].copy_from_slice(key);
    add_words(words, key.len() / 4);
}
