//! A LUKS1 header that is sought near to what stands, where no combination of what isn't given opens a keyslot.
ghost use Rattle.std.specs.Prelude.{◌≡◌, ◌≢◌, ◌+◌, ◌<◌, ◌^◌};
ghost use Rattle.luks_area.specs.Device.{IsSettled, IsUnchanged};
ghost use Rattle.luks_commands.specs.Answer.{answer_status};
ghost use Rattle.luks1_rebuilding.specs.Openings.{OpensNoneBelow};
ghost use Rattle.luks1_rebuilding.specs.TrialFaults.{IsTrialFault};
ghost use Rattle.luks1_rebuilding.specs.declared.rebuild_fault.Rebuild1Fault.{Rebuild1Fault as TheFault};
ghost use Rattle.luks_header_commands.specs.Searching.{IsRest1, SearchedAnswer1};
ghost use Rattle.luks_header_commands.specs.Target.{pair_of};

use crate::header_work::READING_FAILED;
use crate::of_fields::not_of_fields;
use crate::of_found::make_of_header;
use crate::progress::{DerivationProgress, Progress};
use crate::searching::{bits_word, not_searched, note_derivations};
use crate::trying::{Trying, make_opened};
use luks_commands::{Answer, Status};
use luks_reading::Device;
use luks_searching::{Change1, Found1, search1};
use luks_trials::Tally;
use luks1_header::fields::u16_at;
use luks1_rebuilding::{Given, first_bytes};
use std::alloc::Global;
use std::io::Write;

/// A keyslot that is in use is derived at most so often: as it stands, and with each bit turned of the fields before the
/// keyslots that are searched, and of its entry.
const EACH: u32 = 1 + 320 + 384;

/// The start of the entries of the keyslots, and how long each is, in bytes.
const ENTRIES: usize = 208;

const ENTRY: usize = 48;

/// The word of a keyslot that is in use.
const ENABLED: u32 = 0x00ac71f3;

/// Makes a header on the target with the first combination that opens a keyslot; where none does, of one that is
/// near to what stands and opens one.
pub(crate) fn make_searched1<D: Device, E: Write, G: Progress + DerivationProgress>(
    alloc: Global,
    volume: &mut D,
    target: &mut D,
    trying: &Trying<'_>,
    given: &Given,
    err: &mut E,
    progress: &mut G,
) -> Answer
    requires volume_room { D.failed volume.old + 1 < 2 ^ 64 }
    requires target_room { D.failed target.old + 1 < 2 ^ 64 }
    requires settled { D.tells → IsSettled D.unsettled target.old }
    ensures unchanged { IsUnchanged D.tells D.size D.bytes D.unsettled volume.old volume.new }
    ensures size { D.size target.new ≡ D.size target.old }
    ensures rest { D.tells → IsRest1 given.now trying.now.passphrase.now
        (D.bytes volume.old) (D.bytes target.old) (D.bytes target.new) }
    ensures settled { D.tells → D.failed volume.new ≡ D.failed volume.old
        → D.failed target.new ≡ D.failed target.old → IsSettled D.unsettled target.new }
    ensures kinds { answer_status result ≢ Status.NotInStep }
    ensures answers { SearchedAnswer1 D.tells given.now trying.now.passphrase.now (pair_of D.size
        D.bytes D.failed volume.old volume.new target.old target.new) result }
{
    match make_opened(alloc, volume, target, trying, given, err, progress) {
        Answer::NoneOpens => make_near(alloc, volume, target, trying, given, err, progress),
        answer => answer,
    }
}

/// Makes a header on the target of one that is near to what stands, where no combination opens a keyslot.
fn make_near<D: Device, E: Write, G: DerivationProgress>(
    alloc: Global,
    volume: &mut D,
    target: &mut D,
    trying: &Trying<'_>,
    given: &Given,
    err: &mut E,
    progress: &mut G,
) -> Answer
    requires volume_room { D.failed volume.old + 1 < 2 ^ 64 }
    requires target_room { D.failed target.old + 1 < 2 ^ 64 }
    requires settled { D.tells → IsSettled D.unsettled target.old }
    requires faultless { D.tells → (f : TheFault)
        → IsTrialFault (D.bytes volume.old) given.now f → ⊥ }
    requires shut { D.tells
        → OpensNoneBelow (D.bytes volume.old) given.now trying.now.passphrase.now 64 }
    ensures unchanged { IsUnchanged D.tells D.size D.bytes D.unsettled volume.old volume.new }
    ensures size { D.size target.new ≡ D.size target.old }
    ensures rest { D.tells → IsRest1 given.now trying.now.passphrase.now
        (D.bytes volume.old) (D.bytes target.old) (D.bytes target.new) }
    ensures settled { D.tells → D.failed volume.new ≡ D.failed volume.old
        → D.failed target.new ≡ D.failed target.old → IsSettled D.unsettled target.new }
    ensures kinds { answer_status result ≢ Status.NotInStep }
    ensures answers { SearchedAnswer1 D.tells given.now trying.now.passphrase.now (pair_of D.size
        D.bytes D.failed volume.old volume.new target.old target.new) result }
{
    let files = trying.files;
    let header = match first_bytes(volume) {
        Ok(header) => header,
        Err(fault) => return not_of_fields(fault, files.volume, READING_FAILED, files, err),
    };
    let mut tally = Tally::new(most_derivations(&header));
    match search1(
        alloc,
        volume,
        given,
        trying.passphrase,
        &mut tally,
        progress,
    ) {
        Ok(Some(found)) => {
            note_found(&found, &tally, err);
            make_of_header(volume, target, files, &found.header, given, err)
        }
        Ok(None) => {
            note_derivations(&tally, err);
            Answer::NoneOpens
        }
        Err(fault) => not_searched(fault, files.volume, err),
    }
}

/// How many derivations the search makes at most, by the states of the keyslots: those of each that is in use, and one
/// of each that a turned bit brings into use.
fn most_derivations(header: &[u8; 592]) -> u32 {
    let mut most: u32 = 0;
    for n in 0..8 {
        most = most.saturating_add(derivations_of(state_of(header, n)));
    }
    most
}

/// Those of a keyslot in this state.
fn derivations_of(state: u32) -> u32 {
    match (state ^ ENABLED).count_ones() {
        0 => EACH,
        1 => 1,
        _ => 0,
    }
}

/// The word that says whether the keyslot `n` is in use.
fn state_of(header: &[u8; 592], n: usize) -> u32
    requires { n < 8 }
{
    let at = ENTRIES + ENTRY * n;
    let (high, low) = (u16_at(header, at), u16_at(header, at + 2));
    u32::from(high) << 16 | u32::from(low)
}

/// Says by which change which keyslot opens, and how many derivations were made for it.
fn note_found<E: Write>(found: &Found1, tally: &Tally, err: &mut E) {
    note_derivations(tally, err);
    let slot = found.slot;
    let _ = match found.change {
        Change1::Nothing => writeln!(err, "luks: keyslot {slot} opens by what stands"),
        Change1::Bit { place, bit } => {
            writeln!(
                err,
                "luks: keyslot {slot} opens with bit {bit} of byte {place} turned"
            )
        }
        Change1::Digest { bits } => {
            writeln!(
                err,
                "luks: keyslot {slot} opens with {bits} {} of the digest turned",
                bits_word(bits)
            )
        }
    };
}
