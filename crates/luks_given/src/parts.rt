//! Ranges of a volume that are given, with their bytes.
ghost use Rattle.std.specs.Prelude.{◌≡◌, ◌≤◌, ◌<◌, ◌+◌, ◌^◌, ◌↔◌, IfOk, IfErr, IsTrue, Option, length};
ghost use Rattle.luks_given.specs.Parts.{AreApart, AreGiven, ArePartsOf, HasPlace, IsPlaced, free_behind, parts_length, volume};

/// A range of a volume.
#[repr(C)]
#[derive(Clone, Copy, Drop, Default)]
pub struct Part {
    /// Its first place, in bytes from the volume's start.
    pub at: u64,
    /// How many bytes it has.
    pub len: u64,
}

/// Whether these are ranges of a volume of `total` bytes, in their order and with a gap between any two,
/// which have as many bytes as are held.
pub fn are_parts(parts: &[Part], held: &[u8], total: u64) -> bool
    ensures are { IsTrue result ↔ ArePartsOf parts.now held.now total }
    ensures given { IsTrue result
        → AreGiven parts.now held.now total (volume parts.now held.now total) }
{
    let mut last = None;
    let mut left = held.len() as u64;
    for part in parts {
        if !is_next(last, left, part, total) {
            return false;
        }
        last = Some(part.at + part.len);
        left -= part.len;
    }
    left == 0
}

/// Whether the range begins behind a gap after the end of the last one, has no more bytes than are left,
/// and ends within the volume.
fn is_next(last: Option<u64>, left: u64, part: &Part, total: u64) -> bool
    ensures { IsTrue result ↔ ((free_behind last ≤ part.now.at) × (part.now.len ≤ left)
        × (part.now.at + part.now.len ≤ total)) }
{
    let is_behind = match last {
        Some(end) => end < part.at,
        None => true,
    };
    is_behind && part.len <= left && part.at <= total && part.len <= total - part.at
}

/// The place of the bytes from `at` to before `end` among those that are held; or the first of
/// these places that isn't given.
pub(crate) fn find(parts: &[Part], at: u64, end: u64) -> Result<usize, u64>
    requires some { at < end }
    requires apart { AreApart 0 parts.now }
    requires held { parts_length parts.now < 2 ^ 64 }
    ensures there { IfOk result (IsPlaced parts.now 0 at end) }
    ensures missing { IfErr result (λ p. (at ≤ p) × (p < end) × (HasPlace parts.now p → ⊥)) }
{
    let mut before = 0;
    for part in parts {
        if at < part.at {
            return Err(at);
        }
        if at - part.at < part.len {
            if end - part.at <= part.len {
                return Ok(before + (at - part.at) as usize);
            }
            return Err(part.at + part.len);
        }
        before += part.len as usize;
    }
    Err(at)
}
