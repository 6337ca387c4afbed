// The diffusion of the anti-forensic splitter by SHA-256, on two blocks side by side.

ghost use Rattle.std.specs.Prelude.{◌≡◌, ℕ, ◌+◌, ◌^◌, ◌<◌, [], ◌∷◌, ◌++◌, length};
ghost use Rattle.std.specs.Int.{w32, to_be_bytes};
ghost use Rattle.sha2.specs.Sha256.{IsWindow, schedule, sha256};
ghost use Rattle.luks_rounds.specs.Pair.{lane, numbered_block, window, word_of};
ghost use Rattle.luks_lanes.specs.Turns.{block_at};

use crate::lanes::Lanes;
use crate::pair_turns::start;
use luks_rounds::pair_rounds::compress_window;
use std::simd::u32x4;

/// Diffuses two blocks of 32 bytes that lie in a row (LUKS1 On-Disk Format 1.2.3, 2.4): each becomes
/// the digest by SHA-256 of its number, in 4 bytes, high byte first, and of itself. `number` is that
/// of the first one.
pub fn sha256_diffusion(blocks: &mut [u8], number: u32)
    requires two_blocks { length blocks.old ≡ 64 }
    requires numbered { number + 1 < 2 ^ 32 }
    ensures { (j : ℕ) → j < 2
        → block_at 32 blocks.new j ≡ sha256 (to_be_bytes w32 (number + j) ++ block_at 32 blocks.old j) }
{
    let words = <[u32x4; 8]>::load(blocks);
    let w = numbered_window(
        numbers_from(number),
        words[0],
        words[1],
        words[2],
        words[3],
        words[4],
        words[5],
        words[6],
        words[7],
    );
    compress_window(&start(), w).store(blocks);
}

// A number, and the next one.
fn numbers_from(number: u32) -> u32x4
    requires { number + 1 < 2 ^ 32 }
    ensures { (j : ℕ) → j < 2 → word_of j result ≡ number + j }
{
    u32x4::from_array([number, 0, number + 1, 0])
}

// The words of a message of 36 bytes: a number, and the words of a block.
#[inline(always)]
fn numbered_window(
    number: u32x4,
    a: u32x4,
    b: u32x4,
    c: u32x4,
    d: u32x4,
    e: u32x4,
    f: u32x4,
    g: u32x4,
    h: u32x4,
) -> [u32x4; 16]
    ensures { (j : ℕ) → j < 2 → IsWindow (window j result) (schedule (numbered_block (word_of j number)
        (word_of j a ∷ word_of j b ∷ word_of j c ∷ word_of j d ∷ word_of j e ∷ word_of j f ∷ word_of j g ∷ word_of j h ∷ [])) 48) 16 }
{
    let zero = u32x4::splat(0);
    [
        number,
        a,
        b,
        c,
        d,
        e,
        f,
        g,
        h,
        u32x4::splat(0x8000_0000),
        zero,
        zero,
        zero,
        zero,
        zero,
        u32x4::splat(288),
    ]
}
