//! Costs of Argon2 that take a wanted time.
ghost use Rattle.std.specs.Prelude.{◌≡◌, ◌≤◌, ◌*◌, ◌<◌, ◌^◌, IfOk};
ghost use Rattle.luks_timing.specs.Costs.{AreCosts};

use crate::fault::CostFault;
use crate::sample::Sample;
use luks_argon2::{Variant, argon2};
use std::alloc::Global;
use std::rt::Clock;
use std::time::Instant;

/// The least passes that are chosen.
const LEAST_PASSES: u32 = 4;

/// The least memory that is chosen where more is asked for, in KiB.
const LEAST_MEMORY: u32 = 65536;

/// The costs of Argon2 that are chosen by time.
#[derive(Clone, Copy)]
pub struct Argon2Costs {
    /// How many passes over the memory, at least 4.
    pub passes: u32,
    /// The memory in KiB: 64 MiB, or what was asked for, or what lies between.
    pub memory: u32,
}

impl Argon2Costs {
    /// The costs with at most that many KiB of memory that take that many milliseconds, by a sample.
    fn by(sample: Sample, memory: u32, milliseconds: u32) -> Argon2Costs
        ensures { AreCosts memory sample.work sample.nanoseconds (milliseconds * 1000000) result.passes result.memory }
    {
        let passes = sample.most(LEAST_PASSES, u32::MAX, memory, milliseconds);
        let least = LEAST_MEMORY.min(memory);
        Argon2Costs {
            passes,
            memory: sample.most(least, memory, passes, milliseconds),
        }
    }
}

/// The costs with which Argon2 derives a key in about that many milliseconds on this machine, with at
/// most `memory` KiB, at least 8 for each lane; and the sample by which they were chosen. Time is
/// spent on passes first, but at least on four; then the memory is less, but 64 MiB or all of it.
///
/// It is timed twice: with 64 MiB, and with the costs that this gives. `Memory` where the memory is
/// refused, `Clock` where the clock can't be read.
pub fn argon2_costs_in<C: Clock>(
    alloc: Global,
    clock: &C,
    variant: Variant,
    lanes: u32,
    memory: u32,
    milliseconds: u32,
) -> Result<(Argon2Costs, Sample), CostFault>
    requires some_lane { 1 ≤ lanes }
    requires few_lanes { lanes < 2 ^ 10 }
    requires enough_memory { 8 * lanes ≤ memory }
    ensures { IfOk result (λ found. AreCosts memory (found.1).work (found.1).nanoseconds (milliseconds * 1000000)
        (found.0).passes (found.0).memory) }
{
    let first = Argon2Costs {
        passes: LEAST_PASSES,
        memory: LEAST_MEMORY.min(memory),
    };
    let rough = sample(alloc, clock, variant, lanes, first)?;
    let near = Argon2Costs::by(rough, memory, milliseconds);
    let fine = sample(alloc, clock, variant, lanes, near)?;
    Ok((Argon2Costs::by(fine, memory, milliseconds), fine))
}

/// Times a derivation with these costs.
fn sample<C: Clock>(
    alloc: Global,
    clock: &C,
    variant: Variant,
    lanes: u32,
    costs: Argon2Costs,
) -> Result<Sample, CostFault>
    requires some_pass { 1 ≤ costs.passes }
    requires some_lane { 1 ≤ lanes }
    requires few_lanes { lanes < 2 ^ 10 }
    requires enough_memory { 8 * lanes ≤ costs.memory }
    ensures { IfOk result (λ sample. sample.work ≡ costs.passes * costs.memory) }
{
    let mut key = [0u8; 64];
    let start = Instant::now(clock)?;
    argon2(
        alloc,
        variant,
        &mut key,
        b"a passphrase",
        &[0; 32],
        costs.passes,
        costs.memory,
        lanes,
    )?;
    let took = start.elapsed(clock)?;
    let work = u64::from(costs.passes) * u64::from(costs.memory);
    Ok(Sample::of(work, took))
}
