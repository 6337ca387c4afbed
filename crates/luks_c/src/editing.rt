//! Edits of a volume.
ghost use Rattle.std.specs.Prelude.{◌≡◌, ◌≢◌, ◌⊎◌, ◌↔◌, ◌≤◌, ◌<◌, length, Ok, Option};
ghost use Rattle.luks_area.specs.Device.{IsSettled};
ghost use Rattle.luks_given.specs.Parts.{AreGiven, AreNoParts, IsWanted, volume};
ghost use Rattle.luks_given.specs.Planned.{planned_bytes, planned_size, planned_unsettled};
ghost use Rattle.luks_volume.specs.Outcome.{IsApplied};
ghost use Rattle.luks_c_answers.specs.Asked.{payload_of};
ghost use Rattle.luks_c.specs.EditAnswers.{AnswersAsked, AnswersEdit, AnswersToken};
ghost use Rattle.luks_c_answers.specs.EditAsked.{IsUnasked};

use crate::needing::refuse_text;
use luks_c_answers::{
    Asked, LuksEdit, LuksPlan, MEMORY, NoToken, USAGE, asked_of, data_of, edit_number, give_plan,
    number_of_slot, tell_wanted, token_of,
};
use luks_given::{Given, Part, PlannedCall, PlannedWrites, are_parts};
use luks_making::Change;
use luks_volume::{Data, Done, Edit, EditFault, apply};
use std::alloc::Global;
use std::marker::Brand;

/// Plans the edit of the volume of `total` bytes of which these ranges are given, with as many random bytes as
/// `luks_needed_bytes` tells: the calls, and the bytes that they write one after the other. Played in
/// their order, they do the edit; a call that writes no byte is a flush.
///
/// `text` is the new passphrase, the label, or the text of a token, and `subsystem` that of a label. Takes
/// memory for the plan, and as much as the edit takes: for the metadata of LUKS2, for a token, and for
/// Argon2.
#[tactic(auto, using(crate::proofs::TokenFacts::asked_of_token))]
#[unsafe(no_mangle)]
pub extern "C" fn luks_apply_bytes(
    alloc: Global,
    parts: &[Part],
    held: &[u8],
    total: u64,
    is_detached: bool,
    asked: &LuksEdit,
    passphrase: &[u8],
    text: &[u8],
    subsystem: &[u8],
    random: &[u8],
    calls: &mut [PlannedCall],
    bytes: &mut [u8],
    told: &mut LuksPlan,
) -> u32
    ensures usage { result ≡ 101 ↔ (AreNoParts parts.now held.now total
        ⊎ IsUnasked asked.now passphrase.now text.now subsystem.now) }
    ensures answers { result ≢ 101 → AnswersAsked parts.now (volume parts.now held.now total) (payload_of is_detached)
        asked.now passphrase.now text.now subsystem.now random.now
        (record { calls = calls.old; bytes = bytes.old })
        (record { calls = calls.new; bytes = bytes.new }) told.new result }
    ensures wanted { result ≡ 102 → IsWanted parts.now total told.new.beyond }
{
    *told = LuksPlan::default();
    if !are_parts(parts, held, total) {
        return USAGE;
    }
    let payload = data_of(is_detached);
    match asked_of(asked, passphrase, text, subsystem) {
        Ok(Asked::Edit(edit)) => apply_given::<Brand>(
            alloc, parts, held, total, payload, &edit, random, calls, bytes, told,
        ),
        Ok(Asked::Token { to }) => add_token::<Brand>(
            alloc, parts, held, total, payload, to, text, random, calls, bytes, told,
        ),
        Err(_) => USAGE,
    }
}

/// Adds the token of this text to the volume `K`, of which these ranges are given.
fn add_token<K: Given>(
    alloc: Global,
    parts: &[Part],
    held: &[u8],
    total: u64,
    payload: Data,
    to: Option<u8>,
    text: &[u8],
    random: &[u8],
    calls: &mut [PlannedCall],
    bytes: &mut [u8],
    told: &mut LuksPlan,
) -> u32
    requires parts { K.parts ≡ parts.now }
    requires given { AreGiven parts.now held.now total K.bytes }
    ensures own { result ≢ 101 }
    ensures answers { AnswersToken K.parts K.bytes payload to text.now random.now
        (record { calls = calls.old; bytes = bytes.old })
        (record { calls = calls.new; bytes = bytes.new }) told.new result }
    ensures wanted { result ≡ 102 → IsWanted K.parts total told.new.beyond }
{
    match token_of(alloc, text) {
        Ok(token) => {
            let edit = Edit::Amend(Change::AddToken { to, token: &token });
            apply_given::<K>(
                alloc, parts, held, total, payload, &edit, random, calls, bytes, told,
            )
        }
        Err(NoToken::BadJson) => {
            refuse_text::<K>(alloc, parts, held, total, payload, &mut told.beyond)
        }
        Err(NoToken::Memory) => MEMORY,
    }
}

/// Plans this edit of the volume `K`, of which these ranges are given.
#[tactic(auto, using(crate::proofs::PlanFacts::edit_refused, crate::proofs::PlanFacts::edit_unplanned))]
fn apply_given<K: Given>(
    alloc: Global,
    parts: &[Part],
    held: &[u8],
    total: u64,
    payload: Data,
    edit: &Edit<'_>,
    random: &[u8],
    calls: &mut [PlannedCall],
    bytes: &mut [u8],
    told: &mut LuksPlan,
) -> u32
    requires parts { K.parts ≡ parts.now }
    requires given { AreGiven parts.now held.now total K.bytes }
    ensures own { result ≢ 101 }
    ensures answers { AnswersEdit K.parts K.bytes payload edit.now random.now
        (record { calls = calls.old; bytes = bytes.old })
        (record { calls = calls.new; bytes = bytes.new }) told.new result }
    ensures wanted { result ≡ 102 → IsWanted K.parts total told.new.beyond }
{
    let Ok(mut device) = PlannedWrites::<K>::new(alloc, parts, held, total) else {
        return MEMORY;
    };
    match apply(alloc, &mut device, payload, edit, random) {
        Ok(done) => give_edited(payload, edit, random, done, device, calls, bytes, told),
        Err(EditFault::Device) => tell_wanted(&device, told),
        Err(fault) => edit_number(&fault),
    }
}

/// Gives the plan of an edit that was done over the device.
fn give_edited<K: Given>(
    payload: Data,
    edit: &Edit<'_>,
    random: &[u8],
    done: Done,
    device: PlannedWrites<'_, K>,
    calls: &mut [PlannedCall],
    bytes: &mut [u8],
    told: &mut LuksPlan,
) -> u32
    requires settled { IsSettled planned_unsettled device }
    requires applied { IsApplied payload K.bytes edit.now random.now (Ok done)
        (planned_bytes device) }
    ensures answers { AnswersEdit K.parts K.bytes payload edit.now random.now
        (record { calls = calls.old; bytes = bytes.old })
        (record { calls = calls.new; bytes = bytes.new }) told.new result }
    ensures given { (result ≡ 0) ⊎ (result ≡ 106) }
{
    told.slot = number_of_slot(done.slot);
    give_plan(device, calls, bytes, told)
}
