//! Argon2's tag (RFC 9106, 3.2).

ghost use Rattle.std.specs.Prelude.{◌≡◌, ℕ, ◌≤◌, ◌<◌, ◌+◌, ◌*◌, ◌^◌, ◌-◌, List, [], length, replicate, IfErr, IfOk};
ghost use Rattle.luks_argon2.specs.Argon2.{argon2, first_lanes, lanes_before, last_xored, tag_from};
ghost use Rattle.luks_argon2.specs.Blake2b.{digest_bytes};
ghost use Rattle.luks_argon2.specs.Memory.{HoldsAll, variant_number, work_of};

use crate::block_compression::xored;
use crate::fault::Argon2Fault;
use crate::filling::fill;
use crate::indexing::place_of;
use crate::shape::{Costs, Shape, shape_of};
use crate::starting::{first_digest, start_lanes};
use crate::variable_length::variable_hash;
use crate::variant::Variant;
use crate::wiping::wipe;
use std::alloc::Global;

/// The bytes of a block.
fn bytes_of(words: &[u64; 128]) -> [u8; 1024]
    ensures { result ≡ digest_bytes words.now 128 }
{
    let mut bytes = [0u8; 1024];
    'copy: for i in 0..128 {
        bytes[8 * i..8 * i + 8].copy_from_slice(&words[i].to_le_bytes());
    }
    bytes
}

/// Writes the tag of a password and a salt into `out`, by one thread (RFC 9106, 3.2, version 0x13).
/// `time` counts the passes over the memory, and `memory` is in KiB; what it has above a multiple of
/// four times the lanes isn't taken. The memory is taken before anything is computed, and is zeros
/// when it is given back. `Memory` where it is refused.
pub fn argon2(
    alloc: Global,
    variant: Variant,
    out: &mut [u8],
    password: &[u8],
    salt: &[u8],
    time: u32,
    memory: u32,
    lanes: u32,
) -> Result<(), Argon2Fault>
    requires least_out { 4 ≤ length out.old }
    requires most_out { length out.old ≤ 128 }
    requires password_len { length password.now < 2 ^ 32 }
    requires salt_len { length salt.now ≤ 128 }
    requires some_pass { 1 ≤ time }
    requires enough_memory { 8 * lanes ≤ memory }
    requires some_lane { 1 ≤ lanes }
    requires few_lanes { lanes < 2 ^ 24 }
    ensures tag { IfOk result (λ _. out.new ≡ argon2 (variant_number variant) lanes (length out.old) memory time
        password.now salt.now [] []) }
    ensures refused { IfErr result (λ _. out.new ≡ out.old) }
{
    let costs = Costs {
        time,
        memory,
        lanes,
    };
    argon2_with_secret(alloc, variant, out, costs, password, salt, &[], &[])
}

/// As `argon2`, with a secret and associated data (RFC 9106, 3.1), which LUKS has neither of.
pub fn argon2_with_secret(
    alloc: Global,
    variant: Variant,
    out: &mut [u8],
    costs: Costs,
    password: &[u8],
    salt: &[u8],
    secret: &[u8],
    associated: &[u8],
) -> Result<(), Argon2Fault>
    requires least_out { 4 ≤ length out.old }
    requires most_out { length out.old ≤ 128 }
    requires password_len { length password.now < 2 ^ 32 }
    requires salt_len { length salt.now ≤ 128 }
    requires secret_len { length secret.now < 2 ^ 32 }
    requires associated_len { length associated.now < 2 ^ 32 }
    ensures tag { IfOk result (λ _. out.new ≡ argon2 (variant_number variant) costs.lanes (length out.old) costs.memory costs.time
        password.now salt.now secret.now associated.now) }
    ensures refused { IfErr result (λ _. out.new ≡ out.old) }
{
    let shape = shape_of(variant, costs);
    let mut memory = vec![in alloc; [0u64; 128]; 4 * (shape.lanes * shape.segment)]?;
    let len = out.len() as u32;
    let digest = first_digest(variant, len, costs, password, salt, secret, associated);
    write_tag(&mut memory, shape, &digest, out);
    Ok(())
}

/// The tag that follows from the first digest. The memory is zeros when it is written.
fn write_tag(memory: &mut [[u64; 128]], shape: Shape, digest: &[u8; 64], out: &mut [u8])
    requires whole { length memory.old ≡ 4 * (shape.lanes * shape.segment) }
    requires some { 1 ≤ shape.passes }
    requires out_len { length out.old ≤ 128 }
    ensures tag { out.new ≡ tag_from (work_of shape) (length out.old) digest.now }
    ensures wiped { memory.new ≡ replicate (length memory.old) (replicate 128 0) }
{
    let last = run(memory, shape, digest);
    variable_hash(out, &bytes_of(&last), &[]);
    wipe(memory);
}

/// All passes over the memory, and the last blocks xored.
fn run(memory: &mut [[u64; 128]], shape: Shape, digest: &[u8; 64]) -> [u64; 128]
    requires whole { length memory.old ≡ 4 * (shape.lanes * shape.segment) }
    requires some { 1 ≤ shape.passes }
    ensures { result ≡ last_xored (lanes_before (work_of shape) (first_lanes digest.now shape.lanes) (4 * shape.passes)) shape.lanes }
{
    start_lanes(memory, shape, digest);
    fill(memory, shape);
    last_xored(memory, shape)
}

/// The last blocks of all lanes, xored.
fn last_xored(memory: &[[u64; 128]], shape: Shape) -> [u64; 128]
    requires whole { length memory.now ≡ 4 * (shape.lanes * shape.segment) }
    requires some { 1 ≤ shape.passes }
    ensures { (lanes : List (List (List ℕ))) → HoldsAll memory.now shape lanes (4 * shape.passes)
        → result ≡ last_xored lanes shape.lanes }
{
    let mut last = [0u64; 128];
    'sum: for lane in 0..shape.lanes {
        let place = place_of(shape, lane, 4 * shape.segment - 1);
        last = xored(&last, &memory[place]);
    }
    last
}
