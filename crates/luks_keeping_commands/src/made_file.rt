//! Who makes the file of a key or a token.
ghost use Rattle.std.specs.Prelude.{◌≡◌, IfOk};

use luks_commands::InputFault;
use luks_reading::Device;

/// What makes the file that a key or a token is written to, once it is known how many bytes that has.
pub trait MakesFile<D: Device> {
    /// Makes the file, or opens one that is there, for so many bytes. No call of it has failed yet. One that
    /// isn't to be written over is `Exists`, and one that is another file of the command `SameFile`.
    fn make(&mut self, length: u64) -> Result<D, InputFault>
        ensures { IfOk result (λ file. D.failed file ≡ 0) };
}

/// Makes none.
#[derive(Clone, Copy, PartialEq, Eq)]
pub struct Unmade;

impl<D: Device> MakesFile<D> for Unmade {
    fn make(&mut self, _length: u64) -> Result<D, InputFault> {
        Err(InputFault::Absent)
    }
}
