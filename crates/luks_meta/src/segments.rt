//! Segments: the parts of a volume that hold its payload.

ghost use Rattle.std.specs.Prelude.{◌≡◌, IfSome, IsSome};
ghost use Rattle.serde_json.specs.View.{view};
ghost use Rattle.luks_rules.specs.Table.{segment_rows};
ghost use Rattle.luks_rules.specs.Accepted.{IsRead};
ghost use Rattle.luks_meta.specs.Says.{TellsKind, TellsSegment};

use crate::member::{Extent, decimal_at, extent_at, has_type, sector_size_at, text_at};
use luks_rules::{Member, Outer};
use serde_json::Value;

/// How a segment's payload is encrypted.
#[derive(Clone, Copy)]
pub struct Encryption<'a> {
    /// The number of the segment's first sector.
    pub iv_tweak: u64,
    /// The cipher with its mode.
    pub cipher: &'a str,
    /// The size of a sector in bytes.
    pub sector_size: u16,
}

/// What a segment is.
#[derive(Clone, Copy)]
pub enum SegmentKind<'a> {
    /// The type `crypt`: its payload is encrypted (LUKS2 On-Disk Format 1.1, 3.3).
    Crypt(Encryption<'a>),
    /// The type `linear`: its payload is plain.
    Linear,
}

/// The members of a segment.
#[derive(Clone, Copy)]
pub struct Segment<'a> {
    /// Where it begins, in bytes.
    pub offset: u64,
    /// Its length in bytes, or that it runs to the volume's end.
    pub size: Extent,
    /// Its type, with the cipher of one that is encrypted.
    pub kind: SegmentKind<'a>,
}

/// The members of a segment; none where one breaks its rule.
pub fn read_segment(object: &Value) -> Option<Segment<'_>>
    ensures tells { IfSome result (λ k. TellsSegment (view object.now) k) }
    ensures there { IsRead segment_rows (view object.now) → IsSome result }
{
    let offset = decimal_at(object, Outer::Top, Member::Offset)?;
    let size = extent_at(object)?;
    let kind = read_kind(object)?;
    Some(Segment { offset, size, kind })
}

fn read_kind(object: &Value) -> Option<SegmentKind<'_>>
    ensures says { IfSome result (λ k. TellsKind (view object.now) k) }
    ensures there { IsRead segment_rows (view object.now) → IsSome result }
{
    if has_type(object, Outer::Top, "linear") {
        return Some(SegmentKind::Linear);
    }
    if !has_type(object, Outer::Top, "crypt") {
        return None;
    }
    let iv_tweak = decimal_at(object, Outer::Top, Member::IvTweak)?;
    let cipher = text_at(object, Outer::Top, Member::Encryption)?;
    let sector_size = sector_size_at(object)?;
    Some(SegmentKind::Crypt(Encryption {
        iv_tweak,
        cipher,
        sector_size,
    }))
}
