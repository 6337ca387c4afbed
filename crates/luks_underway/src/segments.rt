//! Segments of metadata in the midst of something.

ghost use Rattle.std.specs.Prelude.{◌≡◌, IfSome, IsSome};
ghost use Rattle.serde_json.specs.View.{view};
ghost use Rattle.luks_underway.specs.Kinds.{is_opal};
ghost use Rattle.luks_underway.specs.Segments.{HasEncryption, HasPlace, IsOpalKind, IsWideSegment, TellsEncryption, TellsFlags, TellsWideKind, TellsWideSegment};

use crate::flags::{Flags, read_flags};
use crate::member::{has_type, positive_inside};
use crate::opal::{Opal, read_opal};
use luks_json::{decimal_in, text_in};
use luks_meta::{Encryption, Extent, SegmentKind, read_segment};
use luks_rules::{Member, Outer, member_at, sector_size_in};
use serde_json::Value;

/// What a segment is.
#[derive(Clone, Copy)]
pub enum WideKind<'a> {
    /// The type `crypt`.
    Crypt(Encryption<'a>),
    /// The type `linear`.
    Linear,
    /// The type `hw-opal`: the disk encrypts, and nothing else does.
    HwOpal(Opal),
    /// The type `hw-opal-crypt`: encrypted, on a disk that encrypts itself.
    HwOpalCrypt(Opal, Encryption<'a>),
}

/// The members of a segment.
#[derive(Clone, Copy)]
pub struct WideSegment<'a> {
    /// Where it begins, in bytes.
    pub offset: u64,
    /// Its length in bytes, or that it runs to the volume's end.
    pub size: Extent,
    /// Its type, with what that type has.
    pub kind: WideKind<'a>,
    /// Its flags.
    pub flags: Flags,
}

/// The members of a segment; none where one breaks its rule.
pub fn read_wide_segment(object: &Value) -> Option<WideSegment<'_>>
    ensures tells { IfSome result (λ k. TellsWideSegment (view object.now) k) }
    ensures there { IsWideSegment (view object.now) → IsSome result }
{
    let flags = read_flags(object)?;
    if is_opal(object) {
        return read_opal_segment(object, flags);
    }
    let segment = read_segment(object)?;
    Some(WideSegment {
        offset: segment.offset,
        size: segment.size,
        kind: WideKind::from(segment.kind),
        flags,
    })
}

/// The segment is one of a disk that encrypts itself.
pub fn is_opal(object: &Value) -> bool
    ensures { result ≡ is_opal (view object.now) }
{
    has_type(object, Outer::Top, "hw-opal") || has_type(object, Outer::Top, "hw-opal-crypt")
}

/// The members of a segment of a disk that encrypts itself, with these flags.
fn read_opal_segment(object: &Value, flags: Flags) -> Option<WideSegment<'_>>
    requires { TellsFlags (view object.now) flags }
    ensures tells { IfSome result (λ k. TellsWideSegment (view object.now) k) }
    ensures there { HasPlace (view object.now) → IsOpalKind (view object.now) → IsSome result }
{
    let offset = decimal_in(member_at(object, Outer::Top, Member::Offset))?;
    let size = positive_inside(object, "size")?;
    let kind = read_opal_kind(object)?;
    Some(WideSegment {
        offset,
        size: Extent::Fixed(size),
        kind,
        flags,
    })
}

fn read_opal_kind(object: &Value) -> Option<WideKind<'_>>
    ensures tells { IfSome result (λ k. TellsWideKind (view object.now) k) }
    ensures there { IsOpalKind (view object.now) → IsSome result }
{
    let opal = read_opal(object)?;
    if has_type(object, Outer::Top, "hw-opal") {
        return Some(WideKind::HwOpal(opal));
    }
    if !has_type(object, Outer::Top, "hw-opal-crypt") {
        return None;
    }
    Some(WideKind::HwOpalCrypt(opal, read_encryption(object)?))
}

fn read_encryption(object: &Value) -> Option<Encryption<'_>>
    ensures tells { IfSome result (λ k. TellsEncryption (view object.now) k) }
    ensures there { HasEncryption (view object.now) → IsSome result }
{
    let cipher = text_in(member_at(object, Outer::Top, Member::Encryption))?;
    let iv_tweak = decimal_in(member_at(object, Outer::Top, Member::IvTweak))?;
    let sector_size = sector_size_in(member_at(object, Outer::Top, Member::SectorSize))?;
    Some(Encryption {
        iv_tweak,
        cipher,
        sector_size: u16::try_from(sector_size).ok()?,
    })
}

impl<'a> From<SegmentKind<'a>> for WideKind<'a> {
    ghost use Rattle.luks_underway.specs.Segments.{wide_kind};

    ghost from_gives = { λ kind wide. wide ≡ wide_kind kind };

    fn from(kind: SegmentKind<'a>) -> WideKind<'a> {
        match kind {
            SegmentKind::Crypt(encryption) => WideKind::Crypt(encryption),
            SegmentKind::Linear => WideKind::Linear,
        }
    }
}
