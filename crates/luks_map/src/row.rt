//! The rows of a map, except for the gaps.
ghost use Rattle.std.specs.Prelude.{◌≡◌, ◌+◌, ◌*◌};
ghost use Rattle.luks_map.specs.Rows.{place, rank, reach};

use crate::part::Part;
use luks_area::Area;

/// A row of a map. Places are in bytes.
#[derive(Clone, Copy)]
pub enum Row {
    /// An area of the volume.
    Area(Part, Area),
    /// The end of the region in which the key areas of LUKS2 lie. It begins behind both copies of
    /// the header.
    KeyAreasEnd {
        /// The bytes of a copy.
        header_size: u64,
        /// The bytes of the region.
        keyslots_size: u64,
    },
    /// The end of a volume of so many bytes.
    VolumeEnd(u64),
    /// The place of the segment of this number that is kept as a backup: it says how data was or will be, and no
    /// data is read by it.
    Backup(u8, Area),
}

impl Default for Row {
    /// The end of an empty volume.
    fn default() -> Row {
        Row::VolumeEnd(0)
    }
}

impl Row {
    /// The place of the row: where an area or a backup begins, or what ends there.
    pub(crate) fn place(&self) -> u128
        ensures { result ≡ place self.now }
    {
        match self {
            Row::Area(_, area) | Row::Backup(_, area) => u128::from(area.start),
            Row::KeyAreasEnd {
                header_size,
                keyslots_size,
            } => key_areas_end(*header_size, *keyslots_size),
            Row::VolumeEnd(total) => u128::from(*total),
        }
    }

    /// How far the row reaches: to the end of an area, or to its own place.
    pub(crate) fn reach(&self) -> u128
        ensures { result ≡ reach self.now }
    {
        match self {
            Row::Area(_, area) => end_of(area),
            Row::Backup(_, area) => u128::from(area.start),
            Row::KeyAreasEnd {
                header_size,
                keyslots_size,
            } => key_areas_end(*header_size, *keyslots_size),
            Row::VolumeEnd(total) => u128::from(*total),
        }
    }

    /// Where it stands among rows of one place.
    pub(crate) fn rank(&self) -> u16
        ensures { result ≡ rank self.now }
    {
        match self {
            Row::Area(part, _) => part.rank(),
            Row::KeyAreasEnd { .. } => 0,
            Row::VolumeEnd(_) => 1,
            Row::Backup(n, _) => 260 + u16::from(*n),
        }
    }
}

/// The place behind the region of the key areas.
pub(crate) fn key_areas_end(header_size: u64, keyslots_size: u64) -> u128
    ensures { result ≡ 2 * header_size + keyslots_size }
{
    2 * u128::from(header_size) + u128::from(keyslots_size)
}

/// The place behind the area's last byte.
pub(crate) fn end_of(area: &Area) -> u128
    ensures { result ≡ area.now.start + area.now.len }
{
    u128::from(area.start) + u128::from(area.len)
}
