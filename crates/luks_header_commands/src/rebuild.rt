//! The command `rebuild`.
ghost use Rattle.std.specs.Prelude.{◌≡◌, ◌≢◌, ◌+◌, ◌<◌, ◌^◌, IfErr, option_map, refl};
ghost use Rattle.std.proofs.Common.{inl};
ghost use Rattle.std.specs.Result.{ForOk};
ghost use Rattle.luks_area.specs.Device.{IsSettled, IsUnchanged};
ghost use Rattle.luks_commands.specs.Answer.{answer_status};
ghost use Rattle.luks_commands.specs.Files.{AreFirstBytes, IsLong, IsUnread, IsUnreadRandom, IsWhole, KeepsVolume};
ghost use Rattle.luks_header_commands.specs.Rebuilding.{IsAnswerOf, IsFieldOf, IsGiven, IsInField};
ghost use Rattle.luks_header_commands.specs.Rebuilding.{IsRebuildAnswer, KeepsMeant, KeepsRest};
ghost use Rattle.luks_header_commands.specs.Rebuilding.{random_count};
ghost use Rattle.luks_commands.specs.Beside.{AreOneFile, IsSameFile, LeavesTarget};
ghost use Rattle.luks_commands.specs.Beside.{SettlesTarget};
ghost use Rattle.luks_header_commands.specs.Target.{pair_of};
ghost use Rattle.luks_header_commands.specs.Trying.{AnswersRebuild, KeepsRebuilt};

use crate::header_work::{HeaderFiles, HeaderWork, make_header};
use crate::of_either::make_of_either;
use crate::of_fields::make_of_fields;
use crate::of_metadata::make_of_metadata;
use crate::progress::{DerivationProgress, Progress, SearchProgress};
use crate::trying::make_tried;
use arrayvec::ArrayString;
use luks_commands::{Answer, Inputs, Status};
use luks_reading::Device;
use luks_rebuilding::REBUILD_RANDOM;
use luks_request::{Meant, Place, Rebuilding};
use luks1_rebuilding::Given;
use std::alloc::Global;
use std::io::{Read, Write};

/// Makes a detached header out of what is still whole in the volume of this name, at this place of it, on
/// the target. The random bytes are read last, also where LUKS1 is meant, which takes none.
///
/// If neither version is meant LUKS2's metadata comes first. LUKS1 answers where none is whole and the
/// volume doesn't begin as a LUKS2 header, or where a LUKS1 header counts, accepted or not; but where the
/// volume has no signs of one, LUKS2's answer stays.
///
/// With a passphrase, which is read before the volume: what of a LUKS1 header's cipher, hash and length of the key
/// isn't given is tried (`try_combinations`), and the header is made with the first combination by which a keyslot
/// opens. If what is damaged is sought, too, and none does, it is made of a header that is near to what stands and
/// by which a keyslot opens (`search1`). Nothing is written before one has. `progress` is told of each combination and
/// of each derivation, and of a search for what checksums vouch for.
pub fn run<
    D: Device,
    R: Read,
    N: Read,
    E: Write,
    G: Progress + SearchProgress + DerivationProgress,
>(
    alloc: Global,
    inputs: &mut Inputs<D, R, N>,
    name: &str,
    place: Place,
    rebuilding: &Rebuilding<'_>,
    err: &mut E,
    progress: &mut G,
) -> Answer
    requires volume_room { ForOk inputs.old.volume (λ d. D.failed d + 1 < 2 ^ 64) }
    requires target_room { ForOk inputs.old.target (λ d. D.failed d + 1 < 2 ^ 64) }
    requires settled { D.tells → ForOk inputs.old.target (IsSettled D.unsettled) }
    ensures unchanged { KeepsVolume D.tells D.size D.bytes D.unsettled
        inputs.old.volume inputs.new.volume }
    ensures rest { LeavesTarget D.tells D.size D.bytes
        (KeepsRebuilt rebuilding.now (IsWhole R.remaining inputs.old.passphrase))
        inputs.old.volume inputs.old.target inputs.new.target }
    ensures settled { SettlesTarget D.tells D.failed D.unsettled
        inputs.old.volume inputs.new.volume inputs.old.target inputs.new.target }
    ensures kinds { answer_status result ≢ Status.NotInStep }
    ensures unread { IfErr inputs.old.volume (λ _. answer_status result ≢ Status.Done) }
    ensures same { AreOneFile name.now rebuilding.now.target.now inputs.old.target
        → (inputs.new ≡ inputs.old) × IsSameFile result }
    ensures answers { (AreOneFile name.now rebuilding.now.target.now inputs.old.target → ⊥)
        → AnswersRebuild D.tells D.size D.bytes D.failed rebuilding.now
        (IsWhole R.remaining inputs.old.passphrase) (IsLong R.remaining inputs.old.passphrase)
        (IsUnread inputs.old.passphrase) (IsUnreadRandom random_count inputs.old.random)
        (AreFirstBytes random_count N.remaining inputs.old.random)
        inputs.old.volume inputs.new.volume inputs.old.target inputs.new.target result }
{
    let files = HeaderFiles {
        volume: name,
        target: rebuilding.target,
        random: rebuilding.random,
        needed: REBUILD_RANDOM,
        place,
    };
    match rebuilding.passphrase {
        Some(file) => make_tried(alloc, inputs, &files, rebuilding, file, err, progress),
        None => {
            let making = Making {
                files: &files,
                rebuilding: *rebuilding,
            };
            let over = rebuilding.over;
            make_header(alloc, inputs, &files, over, &making, err, progress)
        }
    }
}

/// The making of a header as this asks, by these files.
#[derive(Clone, Copy)]
pub(crate) struct Making<'a> {
    /// The files.
    pub(crate) files: &'a HeaderFiles<'a>,
    /// What is asked for.
    pub(crate) rebuilding: Rebuilding<'a>,
}

impl HeaderWork for Making<'_> {
    ghost keeps_rest = { λ work. KeepsRest work.rebuilding };

    ghost may_answer = { λ work tells random d a. IsRebuildAnswer tells work.rebuilding random d a };

    fn run<D: Device, E: Write, G: Progress + SearchProgress + DerivationProgress>(
        &self,
        alloc: Global,
        volume: &mut D,
        target: &mut D,
        random: &[u8],
        err: &mut E,
        progress: &mut G,
    ) -> Answer {
        let given = given_of(&self.rebuilding);
        let meant = self.rebuilding.meant();
        make_meant(
            alloc, volume, target, meant, self, &given, random, err, progress,
        )
    }

    ghost rest_of_same = { λ work volume target. inl refl };
}

/// Makes a header of the version that is meant.
fn make_meant<D: Device, E: Write, G: SearchProgress>(
    alloc: Global,
    volume: &mut D,
    target: &mut D,
    meant: Meant,
    making: &Making<'_>,
    given: &Given,
    random: &[u8],
    err: &mut E,
    progress: &mut G,
) -> Answer
    requires volume_room { D.failed volume.old + 1 < 2 ^ 64 }
    requires target_room { D.failed target.old + 1 < 2 ^ 64 }
    requires settled { D.tells → IsSettled D.unsettled target.old }
    ensures unchanged { IsUnchanged D.tells D.size D.bytes D.unsettled volume.old volume.new }
    ensures size { D.size target.new ≡ D.size target.old }
    ensures rest { D.tells → KeepsMeant meant making.now.rebuilding given.now
        (D.bytes volume.old) (D.bytes target.old) (D.bytes target.new) }
    ensures settled { D.tells → D.failed volume.new ≡ D.failed volume.old
        → D.failed target.new ≡ D.failed target.old → IsSettled D.unsettled target.new }
    ensures kinds { answer_status result ≢ Status.NotInStep }
    ensures answers { IsAnswerOf meant D.tells making.now.rebuilding given.now random.now (pair_of
        D.size D.bytes D.failed volume.old volume.new target.old target.new) result }
{
    match meant {
        Meant::Luks1 => make_of_fields(volume, target, making.files, given, err),
        Meant::Luks2 => make_of_metadata(alloc, volume, target, making, random, err, progress),
        Meant::Either => make_of_either(
            alloc, volume, target, making, given, random, err, progress,
        ),
    }
}

/// What is given of the fields of a LUKS1 header, each in its place.
pub(crate) fn given_of(rebuilding: &Rebuilding<'_>) -> Given
    ensures { IsGiven rebuilding.now result }
{
    Given {
        cipher_name: in_field(rebuilding.luks1.cipher_name),
        cipher_mode: in_field(rebuilding.luks1.cipher_mode),
        hash: in_field(rebuilding.luks1.hash),
        key_bytes: rebuilding.luks1.key_bytes,
        payload: rebuilding.luks1.payload,
        uuid: in_field(rebuilding.uuid),
    }
}

/// The text in its place, if one is given.
fn in_field<const N: usize>(text: Option<&str>) -> Option<ArrayString<N>>
    ensures { IsFieldOf N (option_map (λ t. t.now) text.entry) result }
{
    match text {
        Some(text) => Some(fitting(text)),
        None => None,
    }
}

/// The text, where it fits; else an empty one, which isn't usable either.
fn fitting<const N: usize>(text: &str) -> ArrayString<N>
    ensures { IsInField N text.now result.bytes }
{
    let mut owned = ArrayString::new();
    if text.len() <= N {
        owned.push_str(text);
    }
    owned
}
