//! Where a header and its key areas are on a device.

use luks_area::Area;

/// The places of a header of either version and of the key areas that are kept with it, in bytes.
#[derive(Clone, Copy, Drop)]
pub struct Places {
    /// The bytes from 0 on that aren't kept: of a first copy that isn't sound its first sector.
    pub lead: u64,
    /// The bytes from 0 on of the first copy, or of the only one.
    pub first: u64,
    /// The bytes of the second copy, which follows it, or none.
    pub second: u64,
    /// The key areas, by the keyslots' numbers.
    pub areas: [Option<Area>; 32],
}
