//! How many bytes a header and its key areas' region have.
ghost use Rattle.std.specs.Prelude.{◌≡◌, ◌↔◌, ◌+◌, ◌*◌, ◌^◌, ◌≤◌, ℕ, List, IfErr, IfOk, IfSome, IsNone, IsTrue};
ghost use Rattle.luks_reading.specs.declared.report.Data.TheVariants.{Elsewhere};
ghost use Rattle.luks_keeping.specs.Backup.{IsBackupSize};
ghost use Rattle.luks_keeping.specs.Laid.{IsShortFor};
ghost use Rattle.luks_wide_reading.specs.Headers.{IsUnderwayCopy};
ghost use Rattle.luks_wide_keeping.specs.Whole.{IsKnownSize, IsWholeSize};

use luks_keeping::BackupFault;
use luks_wide_reading::UnderwayCopy;

/// The bytes of both copies of the header and the key areas' region, or none where no device has so many.
pub(crate) fn whole_size(copy: &UnderwayCopy) -> Option<u64>
    ensures { IsKnownSize copy.now result }
{
    let config = copy.meta.config();
    both_and_region(copy.header.hdr_size, config.keyslots_size)
}

/// The bytes of two copies of this size and the region behind them.
fn both_and_region(size: u64, region: u64) -> Option<u64>
    ensures some { IfSome result (λ all. all ≡ 2 * size + region) }
    ensures none { IsNone result → 2 ^ 64 ≤ 2 * size + region }
{
    if size >= 1 << 63 {
        return None;
    }
    let header = 2 * size;
    if header <= u64::MAX - region {
        Some(header + region)
    } else {
        None
    }
}

/// The bytes of the backup, which a device of `total` bytes holds.
pub(crate) fn fitting_size(copy: &UnderwayCopy, total: u64) -> Result<u64, BackupFault>
    ensures within { IfOk result (λ size. size ≤ total) }
    ensures whole { IfOk result (IsWholeSize copy.now) }
    ensures size { (v : List ℕ) → IsUnderwayCopy v copy.now
        → IfOk result (IsBackupSize v Elsewhere) }
    ensures short { (v : List ℕ) → IsUnderwayCopy v copy.now
        → IfErr result (IsShortFor v Elsewhere total) }
    ensures own { IfErr result (λ f. f ≡ BackupFault.TooSmall) }
{
    match whole_size(copy) {
        Some(size) => {
            if size <= total {
                Ok(size)
            } else {
                Err(BackupFault::TooSmall)
            }
        }
        None => Err(BackupFault::TooSmall),
    }
}

/// Whether both copies of a header of this size lie inside a device of `total` bytes.
pub(crate) fn has_both_copies(size: u64, total: u64) -> bool
    ensures { IsTrue result ↔ (2 * size ≤ total) }
{
    size <= total && size <= total - size
}
