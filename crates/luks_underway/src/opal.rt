//! What a segment of a disk that encrypts itself says of it.

ghost use Rattle.std.specs.Prelude.{◌≡◌, codes, IfSome, IsSome};
ghost use Rattle.serde_json.specs.View.{view};
ghost use Rattle.luks_underway.specs.Segments.{HasOpal, TellsOpal};

use crate::member::{inside_at, positive_inside};
use luks_json::number_in;
use luks_rules::Outer;
use serde_json::Value;

/// A range of a disk that encrypts itself (LUKS2 On-Disk Format 1.1.3, 4.10.2).
#[derive(Clone, Copy, PartialEq, Eq)]
pub struct Opal {
    /// The range's number.
    pub segment_number: u32,
    /// The length in bytes of the key that unlocks it: the first part of a keyslot's key.
    pub key_size: u8,
    /// The range's length in bytes, at least 1.
    pub segment_size: u64,
}

/// The members of a segment that tell of its range; none where one breaks its rule.
pub fn read_opal(object: &Value) -> Option<Opal>
    ensures tells { IfSome result (λ k. TellsOpal (view object.now) k) }
    ensures there { HasOpal (view object.now) → IsSome result }
{
    let number = number_in(
        inside_at(object, Outer::Top, "opal_segment_number"),
        0,
        4294967295,
    )?;
    let key_size = number_in(inside_at(object, Outer::Top, "opal_key_size"), 1, 128)?;
    let segment_size = positive_inside(object, "opal_segment_size")?;
    Some(Opal {
        segment_number: u32::try_from(number).ok()?,
        key_size: u8::try_from(key_size).ok()?,
        segment_size,
    })
}
