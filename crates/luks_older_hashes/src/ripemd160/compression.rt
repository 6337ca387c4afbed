//! The compression function of RIPEMD-160 (ISO/IEC 10118-3), one block of 64 bytes at a time.

ghost use Rattle.std.specs.Prelude.{◌≡◌, ℕ, List, ◌+◌, ◌-◌, ◌*◌, ◌/◌, ◌<◌, ◌≤◌, length};
ghost use Rattle.luks_older_hashes.specs.Ripemd160.{block_words, boolean, compress, digest_bytes, left_line, left_shift, left_word, right_line, right_shift, right_word, step, word_at};

// The message word that each step of the left line reads.
const LEFT_ORDER: [u8; 80] = [
    0, 1, 2, 3, 4, 5, 6, 7, 8, 9, 10, 11, 12, 13, 14, 15, 7, 4, 13, 1, 10, 6, 15, 3, 12, 0, 9, 5,
    2, 14, 11, 8, 3, 10, 14, 4, 9, 15, 8, 1, 2, 7, 0, 6, 13, 11, 5, 12, 1, 9, 11, 10, 0, 8, 12, 4,
    13, 3, 7, 15, 14, 5, 6, 2, 4, 0, 5, 9, 7, 12, 2, 10, 14, 1, 3, 8, 11, 6, 15, 13,
];

// The order of the right line.
const RIGHT_ORDER: [u8; 80] = [
    5, 14, 7, 0, 9, 2, 11, 4, 13, 6, 15, 8, 1, 10, 3, 12, 6, 11, 3, 7, 0, 13, 5, 10, 14, 15, 8, 12,
    4, 9, 1, 2, 15, 5, 1, 3, 7, 14, 6, 9, 11, 8, 12, 2, 10, 0, 4, 13, 8, 6, 4, 1, 3, 11, 15, 0, 5,
    12, 2, 13, 9, 7, 10, 14, 12, 15, 10, 4, 1, 5, 8, 7, 6, 2, 13, 14, 0, 3, 9, 11,
];

// How far each step of the left line rotates.
const LEFT_SHIFTS: [u32; 80] = [
    11, 14, 15, 12, 5, 8, 7, 9, 11, 13, 14, 15, 6, 7, 9, 8, 7, 6, 8, 13, 11, 9, 7, 15, 7, 12, 15,
    9, 11, 7, 13, 12, 11, 13, 6, 7, 14, 9, 13, 15, 14, 8, 13, 6, 5, 12, 7, 5, 11, 12, 14, 15, 14,
    15, 9, 8, 9, 14, 5, 6, 8, 6, 5, 12, 9, 15, 5, 11, 6, 8, 13, 12, 5, 12, 13, 14, 11, 8, 5, 6,
];

// The shifts of the right line.
const RIGHT_SHIFTS: [u32; 80] = [
    8, 9, 9, 11, 13, 15, 15, 5, 7, 7, 8, 11, 14, 14, 12, 6, 9, 13, 15, 7, 12, 8, 9, 11, 7, 7, 12,
    7, 6, 15, 13, 11, 9, 7, 15, 11, 8, 6, 6, 14, 12, 13, 5, 14, 13, 13, 7, 5, 15, 5, 8, 11, 14, 14,
    6, 14, 6, 9, 12, 9, 12, 5, 15, 8, 8, 5, 12, 9, 12, 5, 14, 6, 8, 13, 6, 5, 15, 13, 11, 11,
];

// The constants of the groups of 16 steps in the left line.
const LEFT_CONSTANTS: [u32; 5] = [
    0x0000_0000,
    0x5A82_7999,
    0x6ED9_EBA1,
    0x8F1B_BCDC,
    0xA953_FD4E,
];

// The constants of the right line.
const RIGHT_CONSTANTS: [u32; 5] = [
    0x50A2_8BE6,
    0x5C4D_D124,
    0x6D70_3EF3,
    0x7A6D_76E9,
    0x0000_0000,
];

// The function of a group.
#[inline(always)]
fn boolean(group: usize, x: u32, y: u32, z: u32) -> u32
    ensures { result ≡ boolean group x y z }
{
    if group == 0 {
        x ^ y ^ z
    } else if group == 1 {
        (x & y) | (!x & z)
    } else if group == 2 {
        (x | !y) ^ z
    } else if group == 3 {
        (x & z) | (y & !z)
    } else {
        x ^ (y | !z)
    }
}

// The message word that step j of the left line reads.
#[inline(always)]
fn left_word(j: usize) -> usize
    requires { j < 80 }
    ensures value { result ≡ left_word j }
    ensures small { result < 16 }
{
    (LEFT_ORDER[j] & 15) as usize
}

// The message word that step j of the right line reads.
#[inline(always)]
fn right_word(j: usize) -> usize
    requires { j < 80 }
    ensures value { result ≡ right_word j }
    ensures small { result < 16 }
{
    (RIGHT_ORDER[j] & 15) as usize
}

// How far step j of the left line rotates.
#[inline(always)]
fn left_shift(j: usize) -> u32
    requires { j < 80 }
    ensures { result ≡ left_shift j }
{
    LEFT_SHIFTS[j]
}

// How far step j of the right line rotates.
#[inline(always)]
fn right_shift(j: usize) -> u32
    requires { j < 80 }
    ensures { result ≡ right_shift j }
{
    RIGHT_SHIFTS[j]
}

// A step on the five variables.
#[inline(always)]
fn step(v: [u32; 5], f: u32, word: u32, constant: u32, shift: u32) -> [u32; 5]
    ensures { result ≡ step v f word constant shift }
{
    let [a, b, c, d, e] = v;
    let sum = a.wrapping_add(f).wrapping_add(word).wrapping_add(constant);
    let turned = sum.rotate_left(shift);
    let moved = c.rotate_left(10);
    [e, turned.wrapping_add(e), b, moved, d]
}

// Step j of the left line.
#[inline(always)]
fn left_step(words: &[u32; 16], v: [u32; 5], j: usize) -> [u32; 5]
    requires { j < 80 }
    ensures { (h : List ℕ) → v ≡ left_line h words.now j → result ≡ left_line h words.now (j + 1) }
{
    let f = boolean(j / 16, v[1], v[2], v[3]);
    let word = words[left_word(j)];
    step(v, f, word, LEFT_CONSTANTS[j / 16], left_shift(j))
}

// Step j of the right line, which takes the functions from the last group to the first.
#[inline(always)]
fn right_step(words: &[u32; 16], v: [u32; 5], j: usize) -> [u32; 5]
    requires { j < 80 }
    ensures { (h : List ℕ) → v ≡ right_line h words.now j → result ≡ right_line h words.now (j + 1) }
{
    let f = boolean(4 - j / 16, v[1], v[2], v[3]);
    let word = words[right_word(j)];
    step(v, f, word, RIGHT_CONSTANTS[j / 16], right_shift(j))
}

// The left line.
fn left_line(words: &[u32; 16], first: [u32; 5]) -> [u32; 5]
    ensures { result ≡ left_line first words.now 80 }
{
    let mut v = first;
    for j in 0..80 {
        let next = left_step(words, v, j);
        v = next;
    }
    v
}

// The right line.
fn right_line(words: &[u32; 16], first: [u32; 5]) -> [u32; 5]
    ensures { result ≡ right_line first words.now 80 }
{
    let mut v = first;
    for j in 0..80 {
        let next = right_step(words, v, j);
        v = next;
    }
    v
}

// The word at byte i of a block.
fn load(block: &[u8], i: usize) -> u32
    requires { i + 4 ≤ length block.now }
    ensures { result ≡ word_at block.now i }
{
    u32::from_le_bytes([block[i], block[i + 1], block[i + 2], block[i + 3]])
}

// The words of a block.
fn block_words(block: &[u8]) -> [u32; 16]
    requires { length block.now ≡ 64 }
    ensures { result ≡ block_words block.now }
{
    let mut words = [0; 16];
    for i in 0..16 {
        words[i] = load(block, 4 * i);
    }
    words
}

// Takes one block into the state.
pub(crate) fn compress(state: &mut [u32; 5], block: &[u8])
    requires { length block.now ≡ 64 }
    ensures { state.new ≡ compress state.old block.now }
{
    let words = block_words(block);
    let left = left_line(&words, *state);
    let right = right_line(&words, *state);
    *state = [
        state[1].wrapping_add(left[2]).wrapping_add(right[3]),
        state[2].wrapping_add(left[3]).wrapping_add(right[4]),
        state[3].wrapping_add(left[4]).wrapping_add(right[0]),
        state[4].wrapping_add(left[0]).wrapping_add(right[1]),
        state[0].wrapping_add(left[1]).wrapping_add(right[2]),
    ];
}

// The bytes of a state.
pub(crate) fn digest_of(state: &[u32; 5]) -> [u8; 20]
    ensures { result ≡ digest_bytes state.now 5 }
{
    let mut out = [0; 20];
    for i in 0..5 {
        out[4 * i..4 * i + 4].copy_from_slice(&state[i].to_le_bytes());
    }
    out
}
