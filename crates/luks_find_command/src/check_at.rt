//! What `check` answers of the volume that begins at a place of a device, and its uuid.
ghost use Rattle.std.specs.Prelude.{◌≡◌, ◌+◌, ◌<◌, ◌≤◌, ◌^◌, ℕ, drop};
ghost use Rattle.luks_area.specs.Device.{IsSettled, IsUnchanged};
ghost use Rattle.luks_commands.specs.CheckAnswers.{IsCheckAnswer};
ghost use Rattle.luks_find_command.specs.SameUuids.{IsAcceptance, KnowsUuid};
ghost use Rattle.luks_reading.specs.declared.report.Data.TheVariants.{Here};

use crate::searched::Searched;
use crate::volume_at::VolumeAt;
use luks_commands::{Answer, check, uuid_of};
use luks_reading::{Data, Device};
use luks_window::Disk;
use std::alloc::Global;
use std::io::Write;
use std::marker::Brand;

/// What `check` answers of a volume, and the bytes of the uuid's field, where that is accepted.
#[derive(Drop)]
pub(crate) struct Checked {
    pub(crate) verdict: Answer,
    pub(crate) uuid: Option<[u8; 40]>,
}

/// What `check` answers of the volume that begins at `start`, and the device, which is as it was. If the
/// header of an accepted volume can't be read once more for its uuid, the verdict is `device fault`.
pub(crate) fn check_at<D: Device, E: Write>(
    alloc: Global,
    device: D,
    start: u64,
    file: &Searched<'_>,
    err: &mut E,
) -> (Checked, D)
    requires inside { start ≤ D.size device }
    requires room { D.failed device + 1 < 2 ^ 64 }
    requires settled { D.tells → IsSettled D.unsettled device }
    ensures unchanged { IsUnchanged D.tells D.size D.bytes D.unsettled device result.1 }
    ensures answers { IsCheckAnswer D.tells (drop start (D.bytes device)) Here
        (D.failed device) (D.failed result.1) result.0.verdict }
    ensures uuid { D.tells → KnowsUuid (drop start (D.bytes device)) result.0.verdict result.0.uuid }
{
    check_volume::<Brand, D, E>(alloc, device, start, file, err)
}

fn check_volume<K: Disk, D: Device, E: Write>(
    alloc: Global,
    device: D,
    start: u64,
    file: &Searched<'_>,
    err: &mut E,
) -> (Checked, D)
    requires room { D.failed device + 1 < 2 ^ 64 }
    requires start { K.start ≡ start }
    requires len { start + K.len ≡ D.size device }
    requires bytes { D.tells → K.bytes ≡ D.bytes device }
    requires none { D.tells → (p : ℕ) → K.unsettled p → ⊥ }
    requires settled { D.tells → IsSettled D.unsettled device }
    ensures unchanged { IsUnchanged D.tells D.size D.bytes D.unsettled device result.1 }
    ensures answers { IsCheckAnswer D.tells (drop start (D.bytes device)) Here
        (D.failed device) (D.failed result.1) result.0.verdict }
    ensures uuid { D.tells → KnowsUuid (drop start (D.bytes device)) result.0.verdict result.0.uuid }
{
    let mut volume = Ok(VolumeAt::<D, K>::new(device, start));
    let verdict = check::run(alloc, &mut volume, file.name, Data::Here, err);
    match volume {
        Ok(mut volume) => {
            let checked = with_uuid(verdict, &mut volume);
            (checked, volume.into_inner())
        }
        Err(_) => unreachable!(),
    }
}

/// The verdict of `check` on a volume with its uuid, where that is accepted.
fn with_uuid<D: Device>(verdict: Answer, volume: &mut D) -> Checked
    requires room { IsAcceptance verdict → D.failed volume.old + 1 < 2 ^ 64 }
    ensures unchanged { IsUnchanged D.tells D.size D.bytes D.unsettled volume.old volume.new }
    ensures answers { (before : ℕ)
        → IsCheckAnswer D.tells (D.bytes volume.old) Here before (D.failed volume.old) verdict
        → IsCheckAnswer D.tells (D.bytes volume.old) Here before (D.failed volume.new) result.verdict }
    ensures uuid { D.tells → (before : ℕ)
        → IsCheckAnswer D.tells (D.bytes volume.old) Here before (D.failed volume.old) verdict
        → KnowsUuid (D.bytes volume.old) result.verdict result.uuid }
{
    match verdict {
        Answer::Accepted { version, areas } => match uuid_of(volume) {
            Ok(uuid) => Checked {
                verdict: Answer::Accepted { version, areas },
                uuid,
            },
            Err(_) => Checked {
                verdict: Answer::DeviceFault,
                uuid: None,
            },
        },
        verdict => Checked {
            verdict,
            uuid: None,
        },
    }
}
