//! Where the new key areas stand.
ghost use Rattle.std.specs.Prelude.{◌≡◌, ◌<◌, ◌≤◌, List, ℕ};
ghost use Rattle.luks1_header.specs.Header1.{IsLuks1};
ghost use Rattle.luks_converting.specs.Converted.{new_size, new_start};

use crate::metadata::{encryption, source_slot, source_volume};
use luks_area::Area;
use luks_new_meta::{area_size, area_start};
use luks2_header::Luks1;

/// The new area of the keyslot `n`, which is enabled.
pub(crate) fn new_area(header: &Luks1, n: usize) -> Area
    requires key { header.now.common.key_bytes ≤ 128 }
    requires numbered { n < 8 }
    ensures start { (h : List ℕ) → IsLuks1 h header.now → result.start ≡ new_start h n }
    ensures size { (h : List ℕ) → IsLuks1 h header.now → result.len ≡ new_size h n }
{
    let encryption = encryption(&header.common);
    let volume = source_volume(header, encryption.as_str());
    let slot = source_slot(&header.slots[n]);
    Area {
        start: area_start(&volume, n),
        len: area_size(&volume, &slot),
    }
}

/// The end of the last of the new areas.
pub(crate) fn areas_end(header: &Luks1) -> u64
    requires { header.now.common.key_bytes ≤ 128 }
    ensures { (h : List ℕ) → IsLuks1 h header.now → result ≡ new_start h 8 }
{
    let encryption = encryption(&header.common);
    let volume = source_volume(header, encryption.as_str());
    area_start(&volume, 8)
}
