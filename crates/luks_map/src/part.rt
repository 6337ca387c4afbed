//! What an area of a volume is, as its row says it.
ghost use Rattle.std.specs.Prelude.{◌≡◌, Some};
ghost use Rattle.luks_map.specs.Texts.{part_text};
ghost use Rattle.luks_map.specs.Rows.{luks2_part, part_rank};

use luks_area::AreaName;
use luks_reading::SlotState;
use std::fmt;

/// What an area of a volume is; it prints as its row says it.
#[derive(Clone, Copy)]
pub enum Part {
    /// The header of LUKS1.
    Luks1Header,
    /// The first copy of a LUKS2 header.
    FirstCopy,
    /// The second copy of a LUKS2 header.
    SecondCopy,
    /// The key area of the keyslot of this number of LUKS1, and whether that is in use.
    Luks1Keyslot(u8, SlotState),
    /// The key area of the keyslot of this number of LUKS2.
    Luks2Keyslot(u8),
    /// The segment of this number.
    Segment(u8),
    /// The segment of this number, which is the part in hand of a reencryption.
    InHand(u8),
}

impl Part {
    /// What the area of this name is in LUKS2.
    pub fn of_luks2(name: AreaName) -> Part
        ensures { result ≡ luks2_part name }
    {
        match name {
            AreaName::Head1 => Part::FirstCopy,
            AreaName::Head2 => Part::SecondCopy,
            AreaName::Slot(n) => Part::Luks2Keyslot(n),
            AreaName::Segment(n) => Part::Segment(n),
        }
    }

    /// Where it stands among parts that begin at one place.
    pub(crate) fn rank(self) -> u16
        ensures { result ≡ part_rank self }
    {
        match self {
            Part::Luks1Header | Part::FirstCopy => 2,
            Part::SecondCopy => 3,
            Part::Luks1Keyslot(n, _) | Part::Luks2Keyslot(n) => 4 + u16::from(n),
            Part::Segment(n) | Part::InHand(n) => 260 + u16::from(n),
        }
    }
}

impl fmt::Display for Part {
    ghost output = { λ part. Some (part_text part) };

    fn fmt<W: fmt::Write>(&self, f: &mut fmt::Formatter<W>) -> fmt::Result {
        match self {
            Part::Luks1Header => f.write_str("header"),
            Part::FirstCopy => f.write_str("header, copy 1"),
            Part::SecondCopy => f.write_str("header, copy 2"),
            Part::Luks1Keyslot(n, SlotState::Enabled) => write!(f, "keyslot {n} enabled"),
            Part::Luks1Keyslot(n, SlotState::Disabled) => write!(f, "keyslot {n} disabled"),
            Part::Luks2Keyslot(n) => write!(f, "keyslot {n}"),
            Part::Segment(n) => write!(f, "segment {n}"),
            Part::InHand(n) => write!(f, "segment {n} in hand"),
        }
    }
}
