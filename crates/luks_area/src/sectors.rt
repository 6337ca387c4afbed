ghost use Rattle.std.specs.Prelude.{◌≡◌, ◌+◌, ◌^◌, ◌<◌};
ghost use Rattle.luks_area.specs.Sectors.{rounded_to_sectors};

/// The length of a sector, in bytes.
pub const SECTOR: u64 = 512;

/// The bytes of the whole sectors that hold `bytes` bytes.
pub fn rounded_to_sectors(bytes: u64) -> u64
    requires { bytes + 511 < 2 ^ 64 }
    ensures { result ≡ rounded_to_sectors bytes }
{
    (bytes + (SECTOR - 1)) / SECTOR * SECTOR
}
