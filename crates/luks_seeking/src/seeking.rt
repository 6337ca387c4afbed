//! One step of the search for fragments.
ghost use Rattle.std.specs.Prelude.{◌≡◌, ◌⊎◌, ◌+◌, ◌-◌, ◌^◌, ◌<◌, ◌≤◌, ℕ, List, length, IfOk, IfSome};
ghost use Rattle.luks_area.specs.Device.{CountsFailure, IsUnchanged};
ghost use Rattle.luks_area.specs.Ranges.{part};
ghost use Rattle.luks_seeking.specs.Seeking.{found_at, is_seek_failure, FindsIn, GoesOn, TellsSeek};

use crate::fault::SeekFault;
use luks_area::Device;
use luks_fragments::{Fragment, Kind, next_fragment};
use std::alloc::Global;

/// How many bytes are read at once at least.
pub const LEAST_BLOCK: usize = 8192;

/// An object has no more bytes.
const LONGEST: usize = 4096;

/// So many bytes before the place are read with what is looked at: the number that comes before a fragment.
const BEFORE: u64 = 8;

/// A fragment of a device.
#[derive(Debug, Clone, Copy, PartialEq, Eq)]
pub struct Found {
    /// Where it begins, in bytes from the device's start.
    pub at: u64,
    /// How many bytes it has.
    pub len: usize,
    /// What it is.
    pub kind: Kind,
    /// Its number, 0 to 31, if it comes before it.
    pub number: Option<u8>,
}

/// What a step comes to.
#[derive(Debug, Clone, Copy, PartialEq, Eq)]
pub enum Seek {
    /// This is the first fragment from the place on.
    Fragment(Found),
    /// None begins before this place, which lies behind the one from which on it was looked.
    On(u64),
    /// None begins from the place on.
    End,
}

/// The first fragment that begins at the place `from` of the device or behind it, as far as it is seen in one reading of as many bytes as
/// `block` has, which holds any bytes then.
///
/// Takes memory for an area of 12288 bytes and its value. `Device` comes exactly where the device call failed.
pub fn seek_from<D: Device>(
    alloc: Global,
    device: &mut D,
    from: u64,
    block: &mut [u8],
) -> Result<Seek, SeekFault>
    requires enough { 8192 ≤ length block.old }
    requires room { D.failed device.old + 1 < 2 ^ 64 }
    ensures long { length block.new ≡ length block.old }
    ensures unchanged { IsUnchanged D.tells D.size D.bytes D.unsettled device.old device.new }
    ensures count { CountsFailure is_seek_failure result (D.failed device.old) (D.failed device.new) }
    ensures goes { IfOk result (GoesOn (D.size device.old) from) }
    ensures tells { D.tells → IfOk result (TellsSeek (D.bytes device.old) from) }
{
    let total = device.len();
    if total <= from {
        return Ok(Seek::End);
    }
    let start = from - from.min(BEFORE);
    let len = (total - start).min(block.len() as u64) as usize;
    let read = &mut block[..len];
    device.read_at(start, read)?;
    let next = next_fragment(alloc, read, (from - start) as usize)?;
    Ok(judged(next, start, from, len, total))
}

/// What is told by the first fragment of a part of `len` bytes at `start`, if it has one, of a device of `total` bytes.
fn judged(next: Option<Fragment>, start: u64, from: u64, len: usize, total: u64) -> Seek
    requires inside { start + len ≤ total }
    requires enough { (start + len ≡ total) ⊎ (8192 ≤ len) }
    requires low { start ≤ from }
    requires high { from ≤ start + 8 }
    requires lead { (start ≡ 0) ⊎ (from ≡ start + 8) }
    requires near { IfSome next (λ f. (from ≤ start + f.start) × (2 ≤ f.len) × (f.start + f.len ≤ len)) }
    ensures goes { GoesOn total from result }
    ensures tells { (v : List ℕ) → length v ≡ total → FindsIn (part v start len) (from - start) next
        → TellsSeek v from result }
{
    if start + len as u64 == total {
        return match next {
            Some(f) => Seek::Fragment(found_at(start, f)),
            None => Seek::End,
        };
    }
    match next {
        Some(f) if f.start <= len - LONGEST => Seek::Fragment(found_at(start, f)),
        _ => Seek::On(start + (len - LONGEST) as u64),
    }
}

/// The fragment of a part that begins at `start`, as one of the device.
fn found_at(start: u64, fragment: Fragment) -> Found
    requires { start + fragment.start < 2 ^ 64 }
    ensures { result ≡ found_at start fragment }
{
    Found {
        at: start + fragment.start as u64,
        len: fragment.len,
        kind: fragment.kind,
        number: fragment.number,
    }
}
