//! The hash of any length, H' (RFC 9106, 3.3).

ghost use Rattle.std.specs.Prelude.{◌≡◌, ℕ, ◌≤◌, ◌<◌, ◌^◌, ◌+◌, ◌-◌, ◌*◌, ◌++◌, length, take};
ghost use Rattle.luks_argon2.specs.Blake2b.{blake2b};
ghost use Rattle.luks_argon2.specs.VariableHash.{chain, half_count, halves, variable_hash};
ghost use Rattle.std.specs.Int.{w32, to_le_bytes};

use crate::hasher::Blake2b;

/// Writes H' of the message and the number after it into `out`, whose length is the length that is asked
/// for.
pub(crate) fn variable_hash(out: &mut [u8], message: &[u8], number: &[u8])
    requires { length out.old < 2 ^ 32 }
    ensures { out.new ≡ variable_hash (length out.old) (message.now ++ number.now) }
{
    let len = out.len() as u32;
    if len > 64 {
        let mut buffer = [0u8; 64];
        let first = &mut buffer[..];
        hash_counted(first, len, message, number);
        fill_long(out, first);
    } else {
        hash_counted(out, len, message, number);
    }
}

/// The digest of a length in four bytes, the message and the number.
fn hash_counted(out: &mut [u8], count: u32, message: &[u8], number: &[u8])
    requires { length out.old ≤ 64 }
    ensures { out.new ≡ blake2b (length out.old) (to_le_bytes w32 count ++ (message.now ++ number.now)) }
{
    let mut hasher = Blake2b::new(out.len() as u8);
    hasher.update(&count.to_le_bytes());
    hasher.update(message);
    hasher.update(number);
    hasher.finalize(out);
}

/// Writes W_1 to W_r and the last V, from V_1 in `turn`.
fn fill_long(out: &mut [u8], turn: &mut [u8])
    requires long { 64 < length out.old }
    requires turn_length { length turn.old ≡ 64 }
    ensures { out.new ≡ halves turn.old (half_count (length out.old))
        ++ blake2b (length out.old - 32 * half_count (length out.old)) (chain turn.old (half_count (length out.old) - 1)) }
{
    let count = (out.len() - 1) / 32 - 1;
    put_first(out, turn);
    'halves: for i in 0..count - 1 {
        rehash(turn);
        put_half(&mut out[32 * (i + 1)..32 * (i + 1) + 32], turn);
    }
    hash_turn(&mut out[32 * count..], turn);
}

/// Writes the first 32 bytes of a digest.
fn put_half(half: &mut [u8], turn: &[u8])
    requires half_length { length half.old ≡ 32 }
    requires turn_length { length turn.now ≡ 64 }
    ensures { half.new ≡ take 32 turn.now }
{
    half.copy_from_slice(&turn[..32]);
}

/// Writes them at the front.
fn put_first(out: &mut [u8], turn: &[u8])
    requires room { 32 ≤ length out.old }
    requires turn_length { length turn.now ≡ 64 }
    ensures { take 32 out.new ≡ take 32 turn.now }
{
    put_half(&mut out[..32], turn);
}

/// The digest of a digest, as long as `out`.
fn hash_turn(out: &mut [u8], turn: &[u8])
    requires { length out.old ≤ 64 }
    ensures { out.new ≡ blake2b (length out.old) turn.now }
{
    let mut hasher = Blake2b::new(out.len() as u8);
    hasher.update(turn);
    hasher.finalize(out);
}

/// The digest of 64 bytes of what `turn` holds.
fn rehash(turn: &mut [u8])
    requires turn_length { length turn.old ≡ 64 }
    ensures { turn.new ≡ blake2b 64 turn.old }
{
    let mut hasher = Blake2b::new(64);
    hasher.update(turn);
    hasher.finalize(turn);
}
