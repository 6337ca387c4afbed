//! Wiping what was derived from a password.

ghost use Rattle.std.specs.Prelude.{◌≡◌, length, replicate};

/// Writes zeros over all blocks.
#[inline(never)]
pub(crate) fn wipe(memory: &mut [[u64; 128]])
    ensures { memory.new ≡ replicate (length memory.old) (replicate 128 0) }
{
    'all: for i in 0..memory.len() {
        memory[i] = [0; 128];
    }
}
