//! The commands that edit a volume: `add`, `change`, `remove`, `erase`, `repair`, `label`, `uuid`, `priority`
//! and `token`.
ghost use Rattle.std.specs.Prelude.{◌≡◌, ◌≢◌, ◌+◌, ◌<◌, ◌^◌, IfErr, length};
ghost use Rattle.std.specs.Result.{ForOk};
ghost use Rattle.luks_area.specs.Device.{IsSettled};
ghost use Rattle.luks_reading.specs.Checked.{WellFormed};
ghost use Rattle.luks_edit.specs.Kept.{Keeps};
ghost use Rattle.luks_commands.specs.Answer.{answer_status, edit_fault_answer};
ghost use Rattle.luks_edit_commands.specs.EditAnswers.{AnswersEdit, IsEditAnswer};
ghost use Rattle.luks_edit_commands.specs.Editing.{given_by, given_words, IsTokenOf, KeepsUnnamed, lacking_by, lacking_random};
ghost use Rattle.luks_edit_commands.specs.Editing.{NamesSlot, SaysEdit, SparesEdit, SparesVolume, WhereFailed};
ghost use Rattle.luks_edit_commands.specs.OtherUses.{HoldsBack, HoldsBackVolume, unseen_answer};
ghost use Rattle.luks_commands.specs.Files.{AreFirstBytes, IsUnreadRandom, LeavesSettled, LeavesVolume};

mod applying;
mod asked;
mod finding;
mod noted;
mod older_digest;
mod seen;
mod words;

use applying::apply_of_header;
use asked::told_slot;
use luks_commands::{
    Answer, InputFault, Inputs, RandomBytes, Refusal, Status, device_fault, few_random_bytes,
    random_bytes, unread,
};
use luks_request::Editing;
use luks_volume::{Device, EditFault};
use noted::note_edit;
use seen::{
    OpenerNotes, Unseen, look_at_volume, note_leaving_argon2, note_refused, note_wanting,
    note_weaker,
};
use serde_json::Value;
use std::alloc::Global;
use std::io::{Read, Write};
use words::{token_of, words};

/// Edits the volume of this name. The passphrase is read first, then the new one, and the random bytes last.
#[tactic(auto, using(luks_commands::proofs::FileFacts::settled_same, crate::proofs::EditAnswerFacts::answers_wordless))]
pub fn run<D: Device, R: Read, N: Read, E: Write>(
    alloc: Global,
    inputs: &mut Inputs<D, R, N>,
    name: &str,
    editing: &Editing<'_>,
    err: &mut E,
) -> Answer
    requires room { ForOk inputs.old.volume (λ d. D.failed d + 1 < 2 ^ 64) }
    requires settled { D.tells → ForOk inputs.old.volume (IsSettled D.unsettled) }
    ensures settled { LeavesSettled D.tells D.failed D.unsettled
        inputs.old.volume inputs.new.volume }
    ensures left { LeavesVolume D.tells D.size D.bytes (λ old new. SaysEdit editing.now.payload
        (given_by editing.now R.remaining N.remaining inputs.old) old new
        (answer_status result ≡ Status.Done) (answer_status result ≡ Status.Refused))
        inputs.old.volume inputs.new.volume }
    ensures keeps { KeepsUnnamed D.tells D.failed D.bytes editing.now
        inputs.old.volume inputs.new.volume }
    ensures failure { WhereFailed D.failed inputs.old.volume inputs.new.volume
        (answer_status result ≡ Status.Fault) }
    ensures spared { SparesVolume D.tells D.failed D.bytes editing.now.payload
        (given_by editing.now R.remaining N.remaining inputs.old)
        inputs.old.volume inputs.new.volume }
    ensures target { inputs.new.target ≡ inputs.old.target }
    ensures kinds { answer_status result ≢ Status.NotInStep }
    ensures unread { IfErr inputs.old.volume (λ _. answer_status result ≢ Status.Done) }
    ensures answers { AnswersEdit D.tells D.bytes D.failed editing.now.payload
        (given_by editing.now R.remaining N.remaining inputs.old)
        (lacking_by editing.now.request inputs.old) inputs.old.volume inputs.new.volume result }
    ensures over { HoldsBackVolume D.tells D.bytes editing.now.over
        inputs.old.volume inputs.new.volume result }
{
    let request = &editing.request;
    let old = match words(alloc, &mut inputs.passphrase, request.passphrase(), err) {
        Ok(words) => words,
        Err(answer) => return answer,
    };
    let new = match words(
        alloc,
        &mut inputs.new_passphrase,
        request.new_passphrase(),
        err,
    ) {
        Ok(words) => words,
        Err(answer) => return answer,
    };
    let passphrase = old.as_slice();
    let token = match token_of(alloc, request, passphrase, err) {
        Ok(token) => token,
        Err(answer) => return answer,
    };
    let device = match &mut inputs.volume {
        Ok(device) => device,
        Err(fault) => return unread(*fault, name, err),
    };
    let random = &mut inputs.random;
    edit_device(
        alloc,
        device,
        random,
        name,
        editing,
        passphrase,
        new.as_slice(),
        token.as_ref(),
        err,
    )
}

/// Edits the volume as the command line asks for it, with these bytes of its passphrases.
#[tactic(auto, using(luks_area::proofs::DeviceFacts::settled_unchanged))]
fn edit_device<D: Device, N: Read, E: Write>(
    alloc: Global,
    device: &mut D,
    random: &mut Result<N, InputFault>,
    name: &str,
    editing: &Editing<'_>,
    old: &[u8],
    new: &[u8],
    token: Option<&Value>,
    err: &mut E,
) -> Answer
    requires room { D.failed device.old + 1 < 2 ^ 64 }
    requires short { length old.now < 2 ^ 32 }
    requires token { IsTokenOf editing.now.request old.now token }
    requires settled { D.tells → IsSettled D.unsettled device.old }
    ensures settled { D.tells → D.failed device.new ≡ D.failed device.old
        → IsSettled D.unsettled device.new }
    ensures size { D.size device.new ≡ D.size device.old }
    ensures says { D.tells → SaysEdit editing.now.payload
        (given_words editing.now old.now new.now
        (λ count. AreFirstBytes count N.remaining random.old))
        (D.bytes device.old) (D.bytes device.new)
        (answer_status result ≡ Status.Done) (answer_status result ≡ Status.Refused) }
    ensures keeps { D.tells → WellFormed (D.bytes device.old) editing.now.payload
        → D.failed device.new ≡ D.failed device.old
        → Keeps editing.now.payload (NamesSlot editing.now.request (D.bytes device.old))
        (D.bytes device.old) (D.bytes device.new) }
    ensures failure { (D.failed device.new ≡ D.failed device.old → ⊥)
        → answer_status result ≡ Status.Fault }
    ensures spared { D.tells → WellFormed (D.bytes device.old) editing.now.payload
        → (D.failed device.new ≡ D.failed device.old → ⊥) → SparesEdit editing.now.payload
        (given_words editing.now old.now new.now
        (λ count. AreFirstBytes count N.remaining random.old))
        (D.bytes device.old) (D.bytes device.new) }
    ensures kinds { answer_status result ≢ Status.NotInStep }
    ensures answers { IsEditAnswer D.tells editing.now.payload
        (given_words editing.now old.now new.now
        (λ count. AreFirstBytes count N.remaining random.old))
        (lacking_random (λ count. IsUnreadRandom count random.old))
        (D.bytes device.old) (D.bytes device.new) (D.failed device.old) (D.failed device.new)
        result }
    ensures over { D.tells
        → HoldsBack editing.now.over (D.bytes device.old) (D.bytes device.new) result }
{
    let payload = editing.payload;
    let seen = match look_at_volume(alloc, device, editing, old, new, token, err) {
        Ok(seen) => seen,
        Err(unseen) => return not_begun(unseen, name, err),
    };
    let random = match random_bytes(alloc, random, seen.needed) {
        Ok(bytes) => bytes,
        Err(fault) => return unread(fault, editing.random.unwrap_or_default(), err),
    };
    note_leaving_argon2(seen.leaves_argon2, err);
    let edit = seen.edit;
    let _ = note_edit(&seen.header, &edit, err);
    match apply_of_header(
        alloc,
        device,
        seen.header,
        payload,
        &edit,
        random.as_slice(),
    ) {
        Ok(made) => {
            note_weaker(seen.weaker, err);
            Answer::Done(told_slot(&editing.request, &edit, made.slot))
        }
        Err(fault) => {
            let random = RandomBytes {
                file: editing.random,
                needed: seen.needed,
                bytes: random.as_slice(),
            };
            not_done(fault, seen.opener, name, &random, err)
        }
    }
}

/// What is answered where the edit of the volume of this name ended before it was run.
#[tactic(auto, using(crate::proofs::EditAnswerFacts::unseen_kinds))]
fn not_begun<E: Write>(unseen: Unseen, name: &str, err: &mut E) -> Answer
    ensures answer { result ≡ unseen_answer unseen }
    ensures kinds { answer_status result ≢ Status.NotInStep }
{
    match unseen {
        Unseen::Used(found) => Answer::Refused(Refusal::OtherUse(found)),
        Unseen::Untold(EditFault::Device) => device_fault(name, "reading failed", err),
        Unseen::Untold(fault) => Answer::from(fault),
    }
}

/// What is answered where a fault ended it when it was run with these random bytes, and what is said of what
/// opens then.
#[tactic(auto, using(crate::proofs::EditAnswerFacts::edit_kinds))]
fn not_done<E: Write>(
    fault: EditFault,
    notes: OpenerNotes,
    name: &str,
    random: &RandomBytes<'_>,
    err: &mut E,
) -> Answer
    ensures answer { result ≡ edit_fault_answer fault }
    ensures kinds { answer_status result ≢ Status.NotInStep }
{
    match fault {
        EditFault::Device => device_fault(name, EDIT_FAILED, err),
        EditFault::RandomLength => few_random_bytes(Refusal::Edit(fault), random, err),
        EditFault::Slot(_) => {
            note_refused(&fault, notes, err);
            Answer::from(fault)
        }
        EditFault::Memory => {
            note_wanting(notes, err);
            Answer::from(fault)
        }
        fault => Answer::from(fault),
    }
}

/// What failed where a device call failed in the midst of an edit.
const EDIT_FAILED: &str = "reading or writing failed, part of the edit may be written";
