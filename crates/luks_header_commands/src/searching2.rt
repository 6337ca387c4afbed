//! LUKS2 metadata that is sought near to that of a copy.
ghost use Rattle.std.specs.Prelude.{◌≡◌, ◌≢◌, ◌+◌, ◌<◌, ◌^◌};
ghost use Rattle.luks_area.specs.Device.{IsSettled, IsUnchanged};
ghost use Rattle.luks_commands.specs.Answer.{answer_status};
ghost use Rattle.luks_header_commands.specs.Searching.{IsRest2, SearchedAnswer2};
ghost use Rattle.luks_header_commands.specs.Segment.{IsGivenSegment};
ghost use Rattle.luks_header_commands.specs.Target.{pair_of};

use crate::bound2::most_derivations;
use crate::header_work::READING_FAILED;
use crate::of_found::make_of_json;
use crate::progress::DerivationProgress;
use crate::rebuild::Making;
use crate::searching::{bits_word, not_searched, note_derivations};
use crate::segment::{given_cipher, given_segment};
use crate::trying::Trying;
use luks_commands::open::allowed_of;
use luks_commands::{Answer, Status, device_fault};
use luks_reading::Device;
use luks_trials::{Tally, Trying as Passphrase};
use luks2_searching::{Change2, Found2, GivenSegment, search2};
use std::alloc::Global;
use std::io::Write;

/// Makes a header on the target of metadata that is near to that of a copy, or put together of fragments, and by which
/// the passphrase opens a keyslot.
pub(crate) fn make_searched2<D: Device, E: Write, G: DerivationProgress>(
    alloc: Global,
    volume: &mut D,
    target: &mut D,
    trying: &Trying<'_>,
    random: &[u8],
    err: &mut E,
    progress: &mut G,
) -> Answer
    requires volume_room { D.failed volume.old + 1 < 2 ^ 64 }
    requires target_room { D.failed target.old + 1 < 2 ^ 64 }
    requires settled { D.tells → IsSettled D.unsettled target.old }
    ensures unchanged { IsUnchanged D.tells D.size D.bytes D.unsettled volume.old volume.new }
    ensures size { D.size target.new ≡ D.size target.old }
    ensures rest { D.tells → IsRest2 trying.now.rebuilding trying.now.passphrase.now
        (D.bytes volume.old) (D.bytes target.old) (D.bytes target.new) }
    ensures settled { D.tells → D.failed volume.new ≡ D.failed volume.old
        → D.failed target.new ≡ D.failed target.old → IsSettled D.unsettled target.new }
    ensures kinds { answer_status result ≢ Status.NotInStep }
    ensures answers { SearchedAnswer2 D.tells trying.now.rebuilding trying.now.passphrase.now
        random.now (pair_of D.size
        D.bytes D.failed volume.old volume.new target.old target.new) result }
{
    match most_derivations(volume) {
        Ok(most) => {
            let cipher = given_cipher(&trying.rebuilding.luks1);
            let segment = given_segment(&trying.rebuilding, &cipher);
            make_within(
                alloc, volume, target, trying, &segment, most, random, err, progress,
            )
        }
        Err(DeviceFault) => device_fault(trying.files.volume, READING_FAILED, err),
    }
}

/// The same by at most so many derivations, with the segment that is given.
fn make_within<D: Device, E: Write, G: DerivationProgress>(
    alloc: Global,
    volume: &mut D,
    target: &mut D,
    trying: &Trying<'_>,
    segment: &Option<GivenSegment<'_>>,
    most: u32,
    random: &[u8],
    err: &mut E,
    progress: &mut G,
) -> Answer
    requires segment { IsGivenSegment trying.now.rebuilding segment.now }
    requires volume_room { D.failed volume.old + 1 < 2 ^ 64 }
    requires target_room { D.failed target.old + 1 < 2 ^ 64 }
    requires settled { D.tells → IsSettled D.unsettled target.old }
    ensures unchanged { IsUnchanged D.tells D.size D.bytes D.unsettled volume.old volume.new }
    ensures size { D.size target.new ≡ D.size target.old }
    ensures rest { D.tells → IsRest2 trying.now.rebuilding trying.now.passphrase.now
        (D.bytes volume.old) (D.bytes target.old) (D.bytes target.new) }
    ensures settled { D.tells → D.failed volume.new ≡ D.failed volume.old
        → D.failed target.new ≡ D.failed target.old → IsSettled D.unsettled target.new }
    ensures kinds { answer_status result ≢ Status.NotInStep }
    ensures answers { SearchedAnswer2 D.tells trying.now.rebuilding trying.now.passphrase.now
        random.now (pair_of D.size
        D.bytes D.failed volume.old volume.new target.old target.new) result }
{
    let making = Making {
        files: trying.files,
        rebuilding: trying.rebuilding,
    };
    let passphrase = Passphrase {
        passphrase: trying.passphrase,
        allowed: allowed_of(trying.rebuilding.memory, true),
    };
    let mut tally = Tally::new(most);
    let searched = search2(alloc, volume, segment, &passphrase, &mut tally, progress);
    note_derivations(&tally, err);
    match searched {
        Ok(Some(found)) => {
            note_found(&found, err);
            let Found2 { json, place, .. } = found;
            make_of_json(alloc, volume, target, &making, json, place, random, err)
        }
        Ok(None) => {
            note_memory(trying.rebuilding.memory, err);
            Answer::NoneOpens
        }
        Err(fault) => not_searched(fault, trying.files.volume, err),
    }
}

/// Says that no keyslot by Argon2 was tried, where no memory may be taken.
fn note_memory<E: Write>(memory: u32, err: &mut E) {
    if memory == 0 {
        let _ = writeln!(
            err,
            "luks: no keyslot by Argon2 was tried: --memory lets it take some"
        );
    }
}

/// Says by which change which keyslot opens.
fn note_found<E: Write>(found: &Found2, err: &mut E) {
    let slot = found.slot;
    let _ = match found.change {
        Change2::Nothing => writeln!(err, "luks: keyslot {slot} opens by what stands"),
        Change2::Bit { place, bit } => {
            writeln!(
                err,
                "luks: keyslot {slot} opens with bit {bit} of byte {place} of the JSON area turned"
            )
        }
        Change2::Digest { bits } => {
            writeln!(
                err,
                "luks: keyslot {slot} opens with {bits} {} of the digest turned",
                bits_word(bits)
            )
        }
        Change2::Mixed => writeln!(err, "luks: keyslot {slot} opens by bytes of both copies"),
        Change2::Fragments {
            keyslot,
            digest,
            segment: Some(segment),
        } => {
            writeln!(
                err,
                "luks: keyslot {slot} opens by fragments at {keyslot}, {digest} and {segment}"
            )
        }
        Change2::Fragments {
            keyslot,
            digest,
            segment: None,
        } => {
            writeln!(
                err,
                "luks: keyslot {slot} opens by fragments at {keyslot} and {digest}, and the segment that is given"
            )
        }
    };
}
