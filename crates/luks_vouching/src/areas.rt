//! The sectors of two JSON areas, compared.
ghost use Rattle.std.specs.Prelude.{◌≡◌, ◌+◌, ◌*◌, ◌/◌, ◌<◌, ◌≤◌, length, not, take};
ghost use Rattle.std.specs.Str.{bytes_eq};
ghost use Rattle.luks_area.specs.Ranges.{part};
ghost use Rattle.luks_vouching.specs.Composed.{differing, sector, IsWholeSectors};

/// The bytes of a sector.
pub(crate) const SECTOR: usize = 512;

/// How many sectors of two areas of one length differ.
pub(crate) fn differing(first: &[u8], second: &[u8]) -> usize
    requires whole { IsWholeSectors first.now }
    requires long { length second.now ≡ length first.now }
    ensures { result ≡ differing first.now second.now }
{
    let mut count = 0;
    for k in 0..first.len() / SECTOR {
        if differ(first, second, k) {
            count += 1;
        }
    }
    count
}

/// Whether the two areas differ in the sector `k`.
pub(crate) fn differ(first: &[u8], second: &[u8], k: usize) -> bool
    requires inside { 512 * k + 512 ≤ length first.now }
    requires long { length second.now ≡ length first.now }
    ensures { result ≡ not (bytes_eq (sector first.now k) (sector second.now k)) }
{
    sector(first, k) != sector(second, k)
}

/// The sector `k` of an area.
fn sector(area: &[u8], k: usize) -> &[u8]
    requires { 512 * k + 512 ≤ length area.now }
    ensures { result.now ≡ sector area.now k }
{
    &area[k * SECTOR..k * SECTOR + SECTOR]
}

/// How many sectors come before the first that differs.
pub(crate) fn alike(first: &[u8], second: &[u8]) -> usize
    requires whole { IsWholeSectors first.now }
    requires long { length second.now ≡ length first.now }
    ensures inside { 512 * result ≤ length first.now }
    ensures alike { take (512 * result) first.now ≡ take (512 * result) second.now }
    ensures next { 512 * result < length first.now
        → sector first.now result ≡ sector second.now result → ⊥ }
{
    let count = first.len() / SECTOR;
    for k in 0..count {
        if differ(first, second, k) {
            return k;
        }
    }
    count
}
