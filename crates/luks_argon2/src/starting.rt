//! What a run of Argon2 starts from (RFC 9106, 3.2, steps 1 to 4).

ghost use Rattle.std.specs.Prelude.{◌≡◌, ℕ, ◌≤◌, ◌<◌, ◌+◌, ◌*◌, ◌^◌, ◌++◌, List, length};
ghost use Rattle.std.specs.Int.{w32, to_le_bytes};
ghost use Rattle.luks_argon2.specs.Argon2.{counted, first_block, first_digest, first_lanes, words_of};
ghost use Rattle.luks_argon2.specs.Hasher.{Holds};
ghost use Rattle.luks_argon2.specs.Memory.{HoldsAll, variant_number};

use crate::blake2b_compression::load_le;
use crate::hasher::Blake2b;
use crate::indexing::place_of;
use crate::shape::{Costs, Shape};
use crate::variable_length::variable_hash;
use crate::variant::{Variant, variant_number};

/// The words of a block of bytes.
fn words_of(bytes: &[u8]) -> [u64; 128]
    requires { length bytes.now ≡ 1024 }
    ensures { result ≡ words_of bytes.now }
{
    let mut words = [0u64; 128];
    'words: for k in 0..128 {
        words[k] = load_le(bytes, 8 * k);
    }
    words
}

/// H_0.
pub(crate) fn first_digest(
    variant: Variant,
    len: u32,
    costs: Costs,
    password: &[u8],
    salt: &[u8],
    secret: &[u8],
    associated: &[u8],
) -> [u8; 64]
    requires password_len { length password.now < 2 ^ 32 }
    requires salt_len { length salt.now < 2 ^ 32 }
    requires secret_len { length secret.now < 2 ^ 32 }
    requires extra_len { length associated.now < 2 ^ 32 }
    ensures { result ≡ first_digest (variant_number variant) costs.lanes len costs.memory costs.time password.now salt.now secret.now associated.now }
{
    let mut hasher = Blake2b::new(64);
    feed_number(&mut hasher, costs.lanes);
    feed_number(&mut hasher, len);
    feed_number(&mut hasher, costs.memory);
    feed_number(&mut hasher, costs.time);
    feed_number(&mut hasher, 0x13);
    feed_number(&mut hasher, variant_number(variant) as u32);
    feed_counted(&mut hasher, password);
    feed_counted(&mut hasher, salt);
    feed_counted(&mut hasher, secret);
    feed_counted(&mut hasher, associated);
    let mut digest = [0u8; 64];
    hasher.finalize(&mut digest);
    digest
}

/// Takes in a number in four bytes, low byte first.
fn feed_number(hasher: &mut Blake2b, number: u32)
    ensures { (n : ℕ) (m : List ℕ) → Holds n hasher.old m → Holds n hasher.new (m ++ to_le_bytes w32 number) }
{
    hasher.update(&number.to_le_bytes());
}

/// Takes in a text under its length.
fn feed_counted(hasher: &mut Blake2b, bytes: &[u8])
    requires { length bytes.now < 2 ^ 32 }
    ensures { (n : ℕ) (m : List ℕ) → Holds n hasher.old m → Holds n hasher.new (m ++ counted bytes.now) }
{
    feed_number(hasher, bytes.len() as u32);
    hasher.update(bytes);
}

/// Two numbers in four bytes each.
fn two_numbers(column: u32, lane: u32) -> [u8; 8]
    ensures { result ≡ to_le_bytes w32 column ++ to_le_bytes w32 lane }
{
    let first = column.to_le_bytes();
    let second = lane.to_le_bytes();
    [
        first[0], first[1], first[2], first[3], second[0], second[1], second[2], second[3],
    ]
}

/// Block 0 or 1 of a lane.
fn first_block(digest: &[u8; 64], column: u32, lane: u32) -> [u64; 128]
    ensures { result ≡ first_block digest.now column lane }
{
    let number = two_numbers(column, lane);
    let mut bytes = [0u8; 1024];
    variable_hash(&mut bytes, digest, &number);
    words_of(&bytes)
}

/// The first two blocks of each lane.
pub(crate) fn start_lanes(memory: &mut [[u64; 128]], shape: Shape, digest: &[u8; 64])
    requires whole { length memory.old ≡ 4 * (shape.lanes * shape.segment) }
    ensures { HoldsAll memory.new shape (first_lanes digest.now shape.lanes) 0 }
{
    'all: for lane in 0..shape.lanes {
        let first = place_of(shape, lane, 0);
        let second = place_of(shape, lane, 1);
        memory[first] = first_block(digest, 0, lane as u32);
        memory[second] = first_block(digest, 1, lane as u32);
    }
}
