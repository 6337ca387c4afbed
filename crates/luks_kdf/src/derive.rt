//! PBKDF2 with HMAC (RFC 8018, 5.2).

ghost use Rattle.std.specs.Prelude.{◌≡◌, ℕ, ◌+◌, ◌-◌, ◌*◌, ◌<◌, ◌≤◌, ◌^◌, List, length};
ghost use Rattle.luks_kdf.specs.Derivation.{HoldKey, first_turn, hmac, turns_xored, pbkdf2};
ghost use Rattle.luks_kdf.specs.Splitter.{block_at};

use crate::hash::HashFn;
use crate::keyed::{Keyed, fill_block_key};
use crate::xor::xor_into;

/// Writes the first `out.len()` bytes, at most 128, that PBKDF2 derives from the password and the
/// salt, both of any length, by at least one iteration (RFC 8018, 5.2).
pub fn pbkdf2<H: HashFn>(out: &mut [u8], password: &[u8], salt: &[u8], iterations: u32)
    requires some_iterations { 1 ≤ iterations }
    requires at_most_128 { length out.old ≤ 128 }
    ensures { out.new ≡ pbkdf2 H.digest H.BLOCK password.now salt.now iterations (length out.old) }
{
    let mut key_buffer = [0u8; 128];
    let key = &mut key_buffer[..H::BLOCK];
    fill_block_key::<H>(key, password);
    let keyed = Keyed::<H>::of_block(key);
    let count = out.len().div_ceil(H::LEN);
    let mut buffer = [0u8; 192];
    let mut turn_buffer = [0u8; 64];
    let blocks = &mut buffer[..count * H::LEN];
    let turn = &mut turn_buffer[..H::LEN];
    first_turns(blocks, &keyed, salt, count);
    let done = H::run_side_by_side(blocks, key, iterations);
    other_turns(blocks, turn, &keyed, iterations, done, count);
    out.copy_from_slice(&blocks[..out.len()]);
}

// The first turns of the blocks 1 to count.
fn first_turns<H: HashFn>(blocks: &mut [u8], keyed: &Keyed<H>, salt: &[u8], count: usize)
    requires numbered { count < 2 ^ 32 }
    requires whole { length blocks.old ≡ count * H.LEN }
    ensures { (key : List ℕ) (i : ℕ) → i < count
        → HoldKey H.holds H.digest H.BLOCK keyed.now.inner keyed.now.outer key
        → block_at H.LEN blocks.new i ≡ first_turn (hmac H.digest H.BLOCK key) salt.now (i + 1) }
{
    for i in 0..count {
        let block = &mut blocks[i * H::LEN..i * H::LEN + H::LEN];
        keyed.tag_numbered(block, salt, i as u32 + 1);
    }
}

// The turns after the first of the blocks from number `done`, counted from 0, one after the other.
// `turn` is room for one of them.
fn other_turns<H: HashFn>(
    blocks: &mut [u8],
    turn: &mut [u8],
    keyed: &Keyed<H>,
    iterations: u32,
    done: usize,
    count: usize,
)
    requires some_iterations { 1 ≤ iterations }
    requires whole { length blocks.old ≡ count * H.LEN }
    requires turn_length { length turn.old ≡ H.LEN }
    ensures before { (i : ℕ) → i < done → block_at H.LEN blocks.new i ≡ block_at H.LEN blocks.old i }
    ensures turned { (key : List ℕ) (i : ℕ) → done ≤ i → i < count
        → HoldKey H.holds H.digest H.BLOCK keyed.now.inner keyed.now.outer key
        → block_at H.LEN blocks.new i
        ≡ turns_xored (hmac H.digest H.BLOCK key) (block_at H.LEN blocks.old i) (iterations - 1) }
{
    for i in done..count {
        let block = &mut blocks[i * H::LEN..i * H::LEN + H::LEN];
        turn.copy_from_slice(block);
        run_turns(block, turn, keyed, iterations);
    }
}

// The turns after the first: `block` and `turn` hold U_1 at the start.
fn run_turns<H: HashFn>(block: &mut [u8], turn: &mut [u8], keyed: &Keyed<H>, iterations: u32)
    requires some_iterations { 1 ≤ iterations }
    requires first { block.old ≡ turn.old }
    requires turn_length { length turn.old ≡ H.LEN }
    ensures { (key : List ℕ)
        → HoldKey H.holds H.digest H.BLOCK keyed.now.inner keyed.now.outer key
        → block.new ≡ turns_xored (hmac H.digest H.BLOCK key) turn.old (iterations - 1) }
{
    for count in 1..iterations {
        keyed.retag(turn);
        xor_into(block, turn);
    }
}
