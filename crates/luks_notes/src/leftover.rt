//! What may be left, and whether it is.
ghost use Rattle.std.specs.Prelude.{◌≡◌, ◌↔◌, ◌≤◌, length, IfOk, IsTrue, Some};
ghost use Rattle.luks_area.specs.Ranges.{part};
ghost use Rattle.luks2_header.specs.Header2.{IsSound};
ghost use Rattle.luks_notes.specs.BehindZeros.{behind_zeros};
ghost use Rattle.luks_notes.specs.Leftovers.{IsLeft};

use luks_area::MemDevice;
use luks2_header::{Selected, select};
use std::alloc::{AllocError, Global};
use std::fmt;

/// What was left on a volume, of what stood there before it was made.
#[derive(Clone, Copy)]
pub enum Leftover {
    /// The sound second copy of a LUKS2 header, and the byte where it begins. It counts again where the
    /// header that was made is lost.
    SecondCopy(usize),
    /// The signature of ext2, ext3 or ext4, at byte 1080.
    Ext,
    /// The signature of swap, at byte 4086.
    Swap,
}

impl Leftover {
    /// Whether it is left on a volume that begins with the bytes `front`, the first `own` of which are
    /// of the header that was made. For a second copy as many bytes are taken as `front` has.
    pub fn is_left(self, alloc: Global, front: &[u8], own: usize) -> Result<bool, AllocError>
        requires { 592 ≤ own }
        ensures { IfOk result (λ left. IsTrue left ↔ IsLeft front.now own self) }
    {
        match self {
            Leftover::SecondCopy(place) => {
                if place < own {
                    return Ok(false);
                }
                is_sound(alloc, front, place)
            }
            Leftover::Ext => Ok(own <= 1080 && holds(front, 1080, &[0x53, 0xEF])),
            Leftover::Swap => Ok(own <= 4086 && holds(front, 4086, b"SWAPSPACE2")),
        }
    }
}

/// Whether a sound second copy is at this place: whether it is chosen where zeros come before it.
fn is_sound(alloc: Global, front: &[u8], place: usize) -> Result<bool, AllocError>
    requires { 592 ≤ place }
    ensures { IfOk result (λ sound. IsTrue sound ↔ IsSound front.now place) }
{
    let bytes = behind_zeros(alloc, front, place)?;
    match select(&mut MemDevice::new(bytes)) {
        Ok(Selected::V2 { header, .. }) => Ok(header.hdr_offset == place as u64),
        Ok(Selected::V1(_)) => Ok(false),
        Err(_) => Ok(false),
    }
}

/// The bytes with zeros in the place of those before this one.
fn behind_zeros(alloc: Global, front: &[u8], place: usize) -> Result<Vec<u8>, AllocError>
    ensures { IfOk result (λ bytes. bytes.items ≡ behind_zeros front.now place) }
{
    let zeros = place.min(front.len());
    let mut bytes = vec![in alloc; 0u8; zeros]?;
    bytes.extend_from_slice(&front[zeros..])?;
    Ok(bytes)
}

/// Whether these bytes are at this place.
fn holds(front: &[u8], place: usize, bytes: &[u8]) -> bool
    ensures { IsTrue result ↔ (part front.now place (length bytes.now) ≡ bytes.now) }
{
    cut(front, place, bytes.len()) == bytes
}

/// So many bytes from this place on, or as many as there are.
fn cut(front: &[u8], place: usize, len: usize) -> &[u8]
    ensures { result.now ≡ part front.now place len }
{
    let start = place.min(front.len());
    let end = start + len.min(front.len() - start);
    &front[start..end]
}

impl fmt::Display for Leftover {
    ghost use Rattle.luks_notes.specs.Noted.{leftover_text};

    ghost output = { λ leftover. Some (leftover_text leftover) };

    fn fmt<W: fmt::Write>(&self, f: &mut fmt::Formatter<W>) -> fmt::Result {
        match self {
            Leftover::SecondCopy(place) => {
                write!(f, "byte {place}: the second copy of an older LUKS2 header")
            }
            Leftover::Ext => f.write_str("byte 1080: the signature of ext2, ext3 or ext4"),
            Leftover::Swap => f.write_str("byte 4086: the signature of swap"),
        }
    }
}
