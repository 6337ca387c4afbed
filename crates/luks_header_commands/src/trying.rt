//! A LUKS1 header that a passphrase opens: what isn't given of its fields is tried until a keyslot does.
ghost use Rattle.std.specs.Prelude.{◌≡◌, ◌≢◌, ◌+◌, ◌<◌, ◌≤◌, ◌^◌, length, IfErr, refl};
ghost use Rattle.std.proofs.Common.{inl};
ghost use Rattle.std.specs.Result.{ForOk};
ghost use Rattle.luks_area.specs.Device.{IsSettled, IsUnchanged};
ghost use Rattle.luks_commands.specs.Answer.{answer_status};
ghost use Rattle.luks_commands.specs.Files.{AreFirstBytes, IsLong, IsUnread, IsUnreadRandom, IsWhole, KeepsVolume};
ghost use Rattle.luks_commands.specs.Beside.{AreOneFile, IsSameFile, LeavesTarget, SettlesTarget};
ghost use Rattle.luks_header_commands.specs.Target.{pair_of};
ghost use Rattle.luks_header_commands.specs.Tried.{IsTriedRest, TriedAnswer};
ghost use Rattle.luks_header_commands.specs.Trying.{IsRestBy, IsTriedAnswer, IsWithPassphrase};
ghost use Rattle.luks_header_commands.specs.Trying.{KeepsTried, TriedBy};

use crate::header_work::{HeaderFiles, HeaderWork, READING_FAILED, make_header};
use crate::of_fields::{make_of_fields, not_of_fields};
use crate::progress::{DerivationProgress, Progress, SearchProgress};
use crate::rebuild::given_of;
use crate::searching::make_searched;
use luks_commands::{
    Answer, Inputs, PassphraseFault, Refusal, Status, are_one_file, passphrase, unread,
};
use luks_notes::note_tried_passphrase;
use luks_reading::Device;
use luks_request::Rebuilding;
use luks1_rebuilding::Given;
use luks1_rebuilding::trial::{Opening, try_combinations};
use std::alloc::Global;
use std::io::{Read, Write};

/// Reads the passphrase of this file and makes a header by it, or answers which of the files is missing.
/// Nothing is read where the target is the volume itself.
#[tactic(auto, using(luks_commands::proofs::FileFacts::keeps_same, luks_commands::proofs::BesideFacts::leaves_same, luks_commands::proofs::BesideFacts::settles_same))]
pub(crate) fn make_tried<
    D: Device,
    R: Read,
    N: Read,
    E: Write,
    G: Progress + SearchProgress + DerivationProgress,
>(
    alloc: Global,
    inputs: &mut Inputs<D, R, N>,
    files: &HeaderFiles<'_>,
    rebuilding: &Rebuilding<'_>,
    file: &str,
    err: &mut E,
    progress: &mut G,
) -> Answer
    requires volume_room { ForOk inputs.old.volume (λ d. D.failed d + 1 < 2 ^ 64) }
    requires target_room { ForOk inputs.old.target (λ d. D.failed d + 1 < 2 ^ 64) }
    requires settled { D.tells → ForOk inputs.old.target (IsSettled D.unsettled) }
    ensures unchanged { KeepsVolume D.tells D.size D.bytes D.unsettled
        inputs.old.volume inputs.new.volume }
    ensures rest { LeavesTarget D.tells D.size D.bytes
        (KeepsTried rebuilding.now (IsWhole R.remaining inputs.old.passphrase))
        inputs.old.volume inputs.old.target inputs.new.target }
    ensures settled { SettlesTarget D.tells D.failed D.unsettled
        inputs.old.volume inputs.new.volume inputs.old.target inputs.new.target }
    ensures kinds { answer_status result ≢ Status.NotInStep }
    ensures unread { IfErr inputs.old.volume (λ _. answer_status result ≢ Status.Done) }
    ensures same { AreOneFile files.now.volume.now files.now.target.now inputs.old.target
        → (inputs.new ≡ inputs.old) × IsSameFile result }
    ensures answers { (AreOneFile files.now.volume.now files.now.target.now inputs.old.target → ⊥)
        → IsWithPassphrase D.tells D.size D.bytes D.failed rebuilding.now
        (IsWhole R.remaining inputs.old.passphrase) (IsLong R.remaining inputs.old.passphrase)
        (IsUnread inputs.old.passphrase) (IsUnreadRandom files.now.needed inputs.old.random)
        (AreFirstBytes files.now.needed N.remaining inputs.old.random)
        inputs.old.volume inputs.new.volume inputs.old.target inputs.new.target result }
{
    if are_one_file(files.volume, files.target, &inputs.target) {
        return Answer::Refused(Refusal::SameFile);
    }
    let words = match passphrase(alloc, &mut inputs.passphrase) {
        Ok(words) => words,
        Err(PassphraseFault::TooLong) => return Answer::Refused(Refusal::LongPassphrase),
        Err(PassphraseFault::Input(fault)) => return unread(fault, file, err),
    };
    let trying = Trying {
        files,
        rebuilding: *rebuilding,
        passphrase: words.as_slice(),
    };
    make_header(
        alloc,
        inputs,
        files,
        rebuilding.over,
        &trying,
        err,
        progress,
    )
}

/// The making of a LUKS1 header as this asks, by these files and this passphrase.
#[derive(Clone, Copy)]
pub(crate) struct Trying<'a> {
    /// The files.
    pub(crate) files: &'a HeaderFiles<'a>,
    /// What is asked for.
    pub(crate) rebuilding: Rebuilding<'a>,
    /// The passphrase.
    pub(crate) passphrase: &'a [u8],
    ghost short: { length passphrase.now ≤ 65536 },
}

impl HeaderWork for Trying<'_> {
    ghost keeps_rest = { λ work. KeepsTried work.rebuilding (λ words. words ≡ work.passphrase.now) };

    ghost may_answer = { λ work tells random d a. IsTriedAnswer tells work.rebuilding work.passphrase.now random d a };

    fn run<D: Device, E: Write, G: Progress + SearchProgress + DerivationProgress>(
        &self,
        alloc: Global,
        volume: &mut D,
        target: &mut D,
        random: &[u8],
        err: &mut E,
        progress: &mut G,
    ) -> Answer {
        let given = given_of(&self.rebuilding);
        let answer = make_by(alloc, volume, target, self, &given, random, err, progress);
        note_unopened(&answer, self.passphrase, err);
        answer
    }

    ghost rest_of_same = { λ work volume target. inl refl };
}

/// Makes a header on the target by the combinations, or where what is damaged is sought by that, too.
fn make_by<D: Device, E: Write, G: Progress + DerivationProgress>(
    alloc: Global,
    volume: &mut D,
    target: &mut D,
    trying: &Trying<'_>,
    given: &Given,
    random: &[u8],
    err: &mut E,
    progress: &mut G,
) -> Answer
    requires volume_room { D.failed volume.old + 1 < 2 ^ 64 }
    requires target_room { D.failed target.old + 1 < 2 ^ 64 }
    requires settled { D.tells → IsSettled D.unsettled target.old }
    ensures unchanged { IsUnchanged D.tells D.size D.bytes D.unsettled volume.old volume.new }
    ensures size { D.size target.new ≡ D.size target.old }
    ensures rest { D.tells → IsRestBy trying.now.rebuilding.thorough trying.now.rebuilding given.now
        trying.now.passphrase.now (D.bytes volume.old) (D.bytes target.old) (D.bytes target.new) }
    ensures settled { D.tells → D.failed volume.new ≡ D.failed volume.old
        → D.failed target.new ≡ D.failed target.old → IsSettled D.unsettled target.new }
    ensures kinds { answer_status result ≢ Status.NotInStep }
    ensures answers { TriedBy trying.now.rebuilding.thorough D.tells trying.now.rebuilding given.now
        trying.now.passphrase.now random.now (pair_of D.size D.bytes
        D.failed volume.old volume.new target.old target.new) result }
{
    if trying.rebuilding.thorough {
        make_searched(alloc, volume, target, trying, given, random, err, progress)
    } else {
        make_opened(alloc, volume, target, trying, given, err, progress)
    }
}

/// Says what of the passphrase may be otherwise than was meant, where no keyslot opens.
fn note_unopened<E: Write>(answer: &Answer, passphrase: &[u8], err: &mut E) {
    if let Answer::NoneOpens = answer {
        let _ = note_tried_passphrase(passphrase, err);
    }
}

/// Tries the combinations, and makes a header on the target with the first that opens a keyslot.
pub(crate) fn make_opened<D: Device, E: Write, G: Progress>(
    alloc: Global,
    volume: &mut D,
    target: &mut D,
    trying: &Trying<'_>,
    given: &Given,
    err: &mut E,
    progress: &mut G,
) -> Answer
    requires volume_room { D.failed volume.old + 1 < 2 ^ 64 }
    requires target_room { D.failed target.old + 1 < 2 ^ 64 }
    requires settled { D.tells → IsSettled D.unsettled target.old }
    ensures unchanged { IsUnchanged D.tells D.size D.bytes D.unsettled volume.old volume.new }
    ensures size { D.size target.new ≡ D.size target.old }
    ensures rest { D.tells → IsTriedRest given.now trying.now.passphrase.now
        (D.bytes volume.old) (D.bytes target.old) (D.bytes target.new) }
    ensures settled { D.tells → D.failed volume.new ≡ D.failed volume.old
        → D.failed target.new ≡ D.failed target.old → IsSettled D.unsettled target.new }
    ensures kinds { answer_status result ≢ Status.NotInStep }
    ensures answers { TriedAnswer D.tells given.now trying.now.passphrase.now (pair_of D.size
        D.bytes D.failed volume.old volume.new target.old target.new) result }
{
    let files = trying.files;
    match try_combinations(alloc, volume, given, trying.passphrase, progress) {
        Ok(Some(opening)) => {
            note_opened(&opening, err);
            make_of_fields(volume, target, files, &opening.given, err)
        }
        Ok(None) => Answer::NoneOpens,
        Err(fault) => not_of_fields(fault, files.volume, READING_FAILED, files, err),
    }
}

/// Says by which combination which keyslot opens.
fn note_opened<E: Write>(opening: &Opening, err: &mut E) {
    let fields = &opening.header.common;
    let _ = writeln!(
        err,
        "luks: keyslot {} opens by {} {}, {}, {} bytes",
        opening.slot,
        fields.cipher_name.as_str(),
        fields.cipher_mode.as_str(),
        fields.hash_spec.as_str(),
        fields.key_bytes
    );
}
