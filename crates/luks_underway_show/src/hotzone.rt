//! The part in hand of a reencryption.

ghost use Rattle.luks_wider.specs.Underways.{content};
ghost use Rattle.luks_underway_show.specs.UnderwayValue.{IsHot};

use luks_meta::Extent;
use luks_wider::Underway;

/// The part in hand of a reencryption, where sectors of either key may stand.
#[derive(Clone, Copy)]
pub struct Hotzone {
    /// The number of its segment.
    pub segment: u8,
    /// Where it begins, in bytes.
    pub offset: u64,
    /// Its length in bytes, or that it runs to the volume's end.
    pub size: Extent,
}

/// The part in hand, if there is one.
pub fn part_in_hand(meta: &Underway) -> Option<Hotzone>
    ensures { IsHot (content meta.now) result }
{
    let segment = meta.hot()?;
    let members = meta.segment(segment)?;
    Some(Hotzone {
        segment,
        offset: members.offset,
        size: members.size,
    })
}
