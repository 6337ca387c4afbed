ghost use Rattle.std.specs.Prelude.{Some};
ghost use Rattle.luks_area.specs.Printed.{area_fault_text, name_text};

use std::error::Error;
use std::fmt;

/// A range of bytes of a volume: `len` bytes from the byte place `start` on.
///
/// The end, `start + len`, is a whole number and may be larger than any `u64`.
#[derive(Clone, Copy, PartialEq, Eq, Default)]
pub struct Area {
    /// The first byte place, in bytes from the volume's start.
    pub start: u64,
    /// The length in bytes; 0 is an empty area, which meets no other.
    pub len: u64,
}

impl Area {
    ghost use Rattle.std.specs.Prelude.{◌↔◌, IsTrue};
    ghost use Rattle.luks_area.specs.Area.{IsInside};

    /// Whether the area lies inside a volume of `total` bytes. An empty area may lie at the end.
    ///
    /// No sum is made, so none wraps.
    pub fn is_inside(&self, total: u64) -> bool
        ensures { IsTrue result ↔ IsInside self.now total }
    {
        self.len <= total && self.start <= total - self.len
    }
}

/// What an area of a volume is for.
///
/// The order of the variants, and of the numbers within one, is the order of the names: the first
/// header, the second, the keyslots by number, the segments by number.
#[derive(Debug, Clone, Copy, PartialEq, Eq, Default)]
pub enum AreaName {
    /// The header at the volume's start: 592 bytes in LUKS1, the binary header and its JSON area in
    /// LUKS2.
    #[default]
    Head1,
    /// The second copy of a LUKS2 header, which begins where the first one ends.
    Head2,
    /// The key material of the keyslot of this number: 0 to 7 in LUKS1, 0 to 31 in LUKS2.
    Slot(u8),
    /// A segment of the payload, by its number. LUKS1 has segment 0 alone.
    Segment(u8),
}

impl fmt::Display for AreaName {
    ghost output = { λ n. Some (name_text n) };

    fn fmt<W: fmt::Write>(&self, f: &mut fmt::Formatter<W>) -> fmt::Result {
        match self {
            AreaName::Head1 => write!(f, "Head1"),
            AreaName::Head2 => write!(f, "Head2"),
            AreaName::Slot(n) => write!(f, "Slot({n})"),
            AreaName::Segment(n) => write!(f, "Segment({n})"),
        }
    }
}

/// Why areas don't fit into a volume. `Outside` comes before `Overlap`.
#[derive(Debug, Clone, Copy, PartialEq, Eq)]
pub enum AreaFault {
    /// The least name of an area that runs past the volume's end.
    Outside(AreaName),
    /// The least pair of names whose areas share a byte place, the lesser name first.
    Overlap(AreaName, AreaName),
}

impl fmt::Display for AreaFault {
    ghost output = { λ f. Some (area_fault_text f) };

    fn fmt<W: fmt::Write>(&self, f: &mut fmt::Formatter<W>) -> fmt::Result {
        match self {
            AreaFault::Outside(name) => write!(f, "Outside({name})"),
            AreaFault::Overlap(first, second) => write!(f, "Overlap({first},{second})"),
        }
    }
}

impl Error for AreaFault {}
