//! Iterations of PBKDF2 that take a wanted time.
ghost use Rattle.std.specs.Prelude.{◌≡◌, ◌≤◌, ◌*◌, ◌-◌, ◌^◌, ◌<◌, length, IfOk};
ghost use Rattle.luks_timing.specs.Costs.{IsMost};

use crate::sample::Sample;
use luks_kdf::HashName;
use std::io;
use std::rt::Clock;
use std::time::{Duration, Instant};

/// The least iterations of a keyslot that is made.
const LEAST_ITERATIONS: u32 = 1000;

/// How many iterations are timed first.
const FIRST: u32 = 1 << 14;

/// How often they are doubled at most.
const DOUBLINGS: u32 = 16;

/// A sample that takes this many milliseconds is long enough to go by.
const ENOUGH: u128 = 250;

/// The iterations with which PBKDF2 derives a key of that many bytes, at most 128, in about that many
/// milliseconds on this machine, at least 1000; and the sample by which they were chosen. An error
/// where the clock can't be read.
pub fn iterations_in<C: Clock>(
    clock: &C,
    hash: HashName,
    key_bytes: usize,
    milliseconds: u32,
) -> io::Result<(u32, Sample)>
    requires { key_bytes ≤ 128 }
    ensures { IfOk result (λ found. IsMost 1000 (2 ^ 32 - 1) 1 (found.1).work (found.1).nanoseconds (milliseconds * 1000000) found.0) }
{
    let sample = sample(clock, hash, key_bytes)?;
    let iterations = sample.most(LEAST_ITERATIONS, u32::MAX, 1, milliseconds);
    Ok((iterations, sample))
}

/// Times PBKDF2, with twice as many iterations each time, until that takes long enough to go by.
fn sample<C: Clock>(clock: &C, hash: HashName, key_bytes: usize) -> io::Result<Sample>
    requires { key_bytes ≤ 128 }
{
    let mut key = [0u8; 128];
    'double: for doubling in 0..DOUBLINGS {
        let iterations = FIRST << doubling;
        let took = time(clock, hash, &mut key[..key_bytes], iterations)?;
        if took.as_millis() >= ENOUGH {
            return Ok(Sample::of(u64::from(iterations), took));
        }
    }
    let iterations = FIRST << DOUBLINGS;
    let took = time(clock, hash, &mut key[..key_bytes], iterations)?;
    Ok(Sample::of(u64::from(iterations), took))
}

/// How long it takes to derive a key.
fn time<C: Clock>(
    clock: &C,
    hash: HashName,
    key: &mut [u8],
    iterations: u32,
) -> io::Result<Duration>
    requires few { length key.old ≤ 128 }
    requires some { 1 ≤ iterations }
    ensures { length key.new ≡ length key.old }
{
    let start = Instant::now(clock)?;
    hash.pbkdf2(key, b"a passphrase", &[0; 32], iterations);
    start.elapsed(clock)
}
