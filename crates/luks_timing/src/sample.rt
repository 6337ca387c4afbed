//! Work that was timed, and how much of it takes another time.
ghost use Rattle.std.specs.Prelude.{◌≡◌, ◌≤◌, ◌*◌};
ghost use Rattle.luks_timing.specs.Costs.{IsMost};

use std::time::Duration;

/// Work that was done on this machine, and how long it took.
#[derive(Clone, Copy)]
pub struct Sample {
    /// How many units of work: iterations, or KiB times passes.
    pub work: u64,
    /// How long they took together, in nanoseconds.
    pub nanoseconds: u64,
}

impl Sample {
    /// This work, which took that long; 584 years where it was longer.
    pub(crate) fn of(work: u64, took: Duration) -> Sample
        ensures { result.work ≡ work }
    {
        Sample {
            work,
            nanoseconds: u64::try_from(took.as_nanos()).unwrap_or(u64::MAX),
        }
    }

    /// The greatest of the numbers from `least` to `greatest`, of which each stands for `unit` units of
    /// this work, that takes no longer than that many milliseconds; the least where none does.
    pub fn most(self, least: u32, greatest: u32, unit: u32, milliseconds: u32) -> u32
        requires { least ≤ greatest }
        ensures { IsMost least greatest unit self.work self.nanoseconds (milliseconds * 1000000) result }
    {
        let room = u128::from(milliseconds) * 1_000_000 * u128::from(self.work);
        let each = u128::from(unit) * u128::from(self.nanoseconds);
        if each == 0 {
            return greatest;
        }
        let fitting = (room / each).min(u128::from(greatest)) as u32;
        fitting.max(least)
    }
}
