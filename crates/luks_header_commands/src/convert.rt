//! The command `convert`.
ghost use Rattle.std.specs.Prelude.{◌≡◌, ◌≢◌, ◌+◌, ◌<◌, ◌^◌, IfErr, refl};
ghost use Rattle.std.specs.Result.{ForOk};
ghost use Rattle.luks_area.specs.Device.{IsSettled};
ghost use Rattle.luks_commands.specs.Answer.{answer_status, convert_fault_answer};
ghost use Rattle.luks_commands.specs.Files.{AreFirstBytes, IsUnreadRandom, KeepsVolume};
ghost use Rattle.luks_header_commands.specs.Converting.{AnswersConvert, IsConvertAnswer, KeepsRest, random_count};
ghost use Rattle.luks_commands.specs.Beside.{AreOneFile, IsSameFile, LeavesTarget};
ghost use Rattle.luks_commands.specs.Beside.{SettlesTarget};

use crate::header_work::{HeaderFiles, HeaderWork, READING_FAILED, TARGET_FAILED, make_header};
use crate::progress::{DerivationProgress, Progress, SearchProgress, Untold};
use luks_commands::{Answer, Inputs, RandomBytes, Refusal, Status, device_fault, few_random_bytes};
use luks_converting::{CONVERT_RANDOM, ConvertFault, convert};
use luks_reading::{Data, Device};
use luks_request::{Converting, Place};
use std::alloc::Global;
use std::io::{Read, Write};

/// Makes a detached LUKS2 header of the volume of this name, at this place of it, on the target. The random
/// bytes are read last.
pub fn run<D: Device, R: Read, N: Read, E: Write>(
    alloc: Global,
    inputs: &mut Inputs<D, R, N>,
    name: &str,
    place: Place,
    converting: &Converting<'_>,
    err: &mut E,
) -> Answer
    requires volume_room { ForOk inputs.old.volume (λ d. D.failed d + 1 < 2 ^ 64) }
    requires target_room { ForOk inputs.old.target (λ d. D.failed d + 1 < 2 ^ 64) }
    requires settled { D.tells → ForOk inputs.old.target (IsSettled D.unsettled) }
    ensures unchanged { KeepsVolume D.tells D.size D.bytes D.unsettled
        inputs.old.volume inputs.new.volume }
    ensures rest { LeavesTarget D.tells D.size D.bytes KeepsRest
        inputs.old.volume inputs.old.target inputs.new.target }
    ensures settled { SettlesTarget D.tells D.failed D.unsettled
        inputs.old.volume inputs.new.volume inputs.old.target inputs.new.target }
    ensures kinds { answer_status result ≢ Status.NotInStep }
    ensures unread { IfErr inputs.old.volume (λ _. answer_status result ≢ Status.Done) }
    ensures same { AreOneFile name.now converting.now.target.now inputs.old.target
        → (inputs.new ≡ inputs.old) × IsSameFile result }
    ensures answers { (AreOneFile name.now converting.now.target.now inputs.old.target → ⊥)
        → AnswersConvert D.tells D.size D.bytes D.failed converting.now
        (IsUnreadRandom random_count inputs.old.random)
        (AreFirstBytes random_count N.remaining inputs.old.random)
        inputs.old.volume inputs.new.volume inputs.old.target inputs.new.target result }
{
    let files = HeaderFiles {
        volume: name,
        target: converting.target,
        random: converting.random,
        needed: CONVERT_RANDOM,
        place,
    };
    let conversion = Conversion {
        files: &files,
        payload: converting.payload,
    };
    let over = converting.over;
    make_header(alloc, inputs, &files, over, &conversion, err, &mut Untold)
}

/// The conversion of a volume with this payload, by these files.
#[derive(Clone, Copy)]
struct Conversion<'a> {
    files: &'a HeaderFiles<'a>,
    payload: Data,
}

impl HeaderWork for Conversion<'_> {
    ghost keeps_rest = { λ work. KeepsRest };

    ghost may_answer = { λ work tells random d a. IsConvertAnswer tells work.payload random d a };

    fn run<D: Device, E: Write, G: Progress + SearchProgress + DerivationProgress>(
        &self,
        alloc: Global,
        volume: &mut D,
        target: &mut D,
        random: &[u8],
        err: &mut E,
        _progress: &mut G,
    ) -> Answer {
        let files = self.files;
        let before = volume.failures();
        let given = RandomBytes {
            file: Some(files.random),
            needed: files.needed,
            bytes: random,
        };
        match convert(alloc, volume, self.payload, target, random) {
            Ok(()) => {
                note_next(files, self.payload, err);
                Answer::Done(None)
            }
            Err(fault) if volume.failures() != before => {
                not_converted(fault, files.volume, READING_FAILED, &given, err)
            }
            Err(fault) => not_converted(fault, files.target, TARGET_FAILED, &given, err),
        }
    }

    ghost rest_of_same = { λ work volume target. record { length_same = refl; each = λ p apart. refl } };
}

/// What is answered where this fault ended the conversion by these random bytes. Where a device failed,
/// it is that of the file of this name.
fn not_converted<E: Write>(
    fault: ConvertFault,
    file: &str,
    failed: &str,
    random: &RandomBytes<'_>,
    err: &mut E,
) -> Answer
    ensures { result ≡ convert_fault_answer fault }
{
    match fault {
        ConvertFault::Device => device_fault(file, failed, err),
        ConvertFault::RandomLength => few_random_bytes(Refusal::Convert(fault), random, err),
        fault => Answer::from(fault),
    }
}

/// Says how the payload is opened by the new header. Of a volume that is a detached header itself the
/// payload's device isn't known.
fn note_next<E: Write>(files: &HeaderFiles<'_>, payload: Data, err: &mut E) {
    let device = match payload {
        Data::Here => files.payload_device(),
        Data::Elsewhere => "DEVICE",
    };
    let target = files.target;
    let _ = writeln!(
        err,
        "luks: cryptsetup open --header {target} {device} NAME opens it"
    );
}
