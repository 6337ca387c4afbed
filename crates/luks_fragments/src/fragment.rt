//! Fragments, one after the other.
ghost use Rattle.std.specs.Prelude.{◌≡◌, ◌≤◌, ℕ, length, IfNone, IfOk, IfSome};
ghost use Rattle.luks_fragments.specs.Fragments.{HasFragmentAt, HasNoneFrom, IsFirstFragment, IsFragment};

use crate::kinds::{Kind, kind_of};
use crate::names::number_before;
use crate::objects::object_len;
use std::alloc::{AllocError, Global};

/// A keyslot, a digest or a segment that is whole.
#[derive(Debug, Clone, Copy, PartialEq, Eq)]
pub struct Fragment {
    /// Where it begins, in bytes.
    pub start: usize,
    /// How many bytes it has.
    pub len: usize,
    /// What it is.
    pub kind: Kind,
    /// Its number, 0 to 31, if it comes before it.
    pub number: Option<u8>,
}

/// The first fragment that begins at the place or behind it, if there is one in these bytes.
///
/// Takes memory for an area of 12288 bytes and its value. The error comes only where memory was refused.
pub fn next_fragment(
    alloc: Global,
    area: &[u8],
    from: usize,
) -> Result<Option<Fragment>, AllocError>
    ensures some { IfOk result (λ next. IfSome next (IsFirstFragment area.now from)) }
    ensures none { IfOk result (λ next. IfNone next (HasNoneFrom area.now from)) }
{
    for start in from..area.len() {
        if let Some(fragment) = fragment_at(alloc, area, start)? {
            return Ok(Some(fragment));
        }
    }
    Ok(None)
}

/// The fragment that begins at the place, if one does.
fn fragment_at(alloc: Global, area: &[u8], start: usize) -> Result<Option<Fragment>, AllocError>
    requires { start ≤ length area.now }
    ensures start { IfOk result (λ here. IfSome here (λ f. f.start ≡ start)) }
    ensures some { IfOk result (λ here. IfSome here (IsFragment area.now)) }
    ensures none { IfOk result (λ here. IfNone here (HasFragmentAt area.now start → ⊥)) }
{
    let Some(len) = object_len(area, start) else {
        return Ok(None);
    };
    let Some(kind) = kind_of(alloc, &area[start..start + len])? else {
        return Ok(None);
    };
    let number = number_before(area, start);
    Ok(Some(Fragment {
        start,
        len,
        kind,
        number,
    }))
}
