//! Parts of volumes.
ghost use Rattle.std.specs.Prelude.{◌≡◌, ◌+◌, ◌-◌, ◌<◌, ◌≤◌, [], IfOk, length, replicate};
ghost use Rattle.luks_area.specs.Faulty.{left_behind};
ghost use Rattle.luks_area.specs.Ranges.{part, written};

use luks_area::Leave;
use std::alloc::{AllocError, Global};

/// The bytes of the volume from one place up to another; none where it ends before.
pub fn part(volume: &[u8], from: usize, to: usize) -> &[u8]
    ensures inside { from ≤ to → to ≤ length volume.now
        → result.now ≡ part volume.now from (to - from) }
    ensures backwards { to < from → result.now ≡ [] }
    ensures beyond { length volume.now < to → result.now ≡ [] }
{
    if from <= to && to <= volume.len() {
        &volume[from..to]
    } else {
        &[]
    }
}

/// Writes `from` over the bytes from the place `at` on; nothing where the volume ends before.
pub fn put(volume: &mut [u8], at: usize, from: &[u8])
    ensures inside { at + length from.now ≤ length volume.old
        → volume.new ≡ written volume.old at from.now }
    ensures beyond { length volume.old < at + length from.now → volume.new ≡ volume.old }
{
    if at <= volume.len() && from.len() <= volume.len() - at {
        volume[at..at + from.len()].copy_from_slice(from);
    }
}

/// Writes what a failing write of `from` leaves from the place `at` on; nothing where the volume ends
/// before.
pub fn leave_behind(volume: &mut [u8], at: usize, from: &[u8], leave: Leave)
    ensures inside { at + length from.now ≤ length volume.old
        → volume.new ≡ left_behind leave volume.old at from.now }
    ensures beyond { length volume.old < at + length from.now → volume.new ≡ volume.old }
{
    if at <= volume.len() && from.len() <= volume.len() - at {
        match leave {
            Leave::Old => {}
            Leave::New => put(volume, at, from),
            Leave::Half => put(volume, at, &from[..from.len() / 2]),
            Leave::Ones => put_ones(volume, at, from.len()),
        }
    }
}

/// Writes so many bytes 0xFF from the place `at` on.
pub(crate) fn put_ones(volume: &mut [u8], at: usize, len: usize)
    requires { at + len ≤ length volume.old }
    ensures { volume.new ≡ written volume.old at (replicate len 0xFF) }
{
    for i in 0..len {
        put(volume, at + i, &[0xFF]);
    }
}

/// Writes the runs of equal bytes, each given by its place, the byte and how many they are, and then
/// the changes, each over the bytes from its place on.
pub fn put_all(volume: &mut [u8], runs: &[(usize, u8, usize)], changes: &[(usize, &[u8])]) {
    for (at, byte, count) in runs {
        put_run(volume, *at, *byte, *count);
    }
    for (at, bytes) in changes {
        put(volume, *at, *bytes);
    }
}

fn put_run(volume: &mut [u8], at: usize, byte: u8, count: usize) {
    for i in 0..count {
        put(volume, at.wrapping_add(i), &[byte]);
    }
}

/// So many bytes 0x55, which a target has before.
pub fn old_bytes(alloc: Global, len: usize) -> Result<Vec<u8>, AllocError>
    ensures { IfOk result (λ bytes. length bytes.items ≡ len) }
{
    vec![in alloc; 0x55u8; len]
}
