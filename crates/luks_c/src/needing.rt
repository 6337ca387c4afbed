//! How many random bytes an edit takes.
ghost use Rattle.std.specs.Prelude.{◌≡◌, ◌≢◌, ◌⊎◌, ◌↔◌, ◌≤◌, ◌<◌, length};
ghost use Rattle.luks_given.specs.Parts.{AreGiven, AreNoParts, IsWanted, volume};
ghost use Rattle.luks_c_answers.specs.Asked.{payload_of};
ghost use Rattle.luks_c.specs.EditAnswers.{AnswersNeed, AnswersNeeded, AnswersTokenNeed, IsUntokened};
ghost use Rattle.luks_c_answers.specs.EditAsked.{IsUnasked};

use luks_c_answers::{
    Asked, BEYOND, DONE, LuksEdit, MEMORY, NoToken, USAGE, asked_of, data_of, edit_number,
    number_of, token_of,
};
use luks_explain::Fault;
use luks_given::{Given, GivenParts, Part, are_parts};
use luks_making::Change;
use luks_volume::{Data, Edit, EditFault, needed};
use std::alloc::Global;
use std::marker::Brand;

/// What `luks_needed_bytes` tells.
#[repr(C)]
#[derive(Clone, Copy, Drop, Default)]
pub struct LuksNeeded {
    /// How many random bytes the edit takes.
    pub random: u64,
    /// With the answer BEYOND, the range that has to be given.
    pub beyond: Part,
}

/// Tells how many random bytes the edit takes of the volume of `total` bytes of which these ranges are given, or
/// the first fault that is seen without opening a keyslot.
///
/// `text` is the new passphrase, the label, or the text of a token, and `subsystem` that of a label. Takes
/// memory for the metadata of LUKS2 and for a token alone.
#[tactic(auto, using(crate::proofs::TokenFacts::needed_of_token))]
#[unsafe(no_mangle)]
pub extern "C" fn luks_needed_bytes(
    alloc: Global,
    parts: &[Part],
    held: &[u8],
    total: u64,
    is_detached: bool,
    asked: &LuksEdit,
    passphrase: &[u8],
    text: &[u8],
    subsystem: &[u8],
    told: &mut LuksNeeded,
) -> u32
    ensures usage { result ≡ 101 ↔ (AreNoParts parts.now held.now total
        ⊎ IsUnasked asked.now passphrase.now text.now subsystem.now) }
    ensures answers { result ≢ 101 → AnswersNeeded (volume parts.now held.now total)
        (payload_of is_detached) asked.now passphrase.now text.now subsystem.now told.new result }
    ensures wanted { result ≡ 102 → IsWanted parts.now total told.new.beyond }
{
    *told = LuksNeeded::default();
    if !are_parts(parts, held, total) {
        return USAGE;
    }
    let payload = data_of(is_detached);
    match asked_of(asked, passphrase, text, subsystem) {
        Ok(Asked::Edit(edit)) => {
            need_given::<Brand>(alloc, parts, held, total, payload, &edit, told)
        }
        Ok(Asked::Token { to }) => {
            need_token::<Brand>(alloc, parts, held, total, payload, to, text, told)
        }
        Err(_) => USAGE,
    }
}

/// Tells what adding the token of this text to the volume `K` needs. These ranges of it are given.
fn need_token<K: Given>(
    alloc: Global,
    parts: &[Part],
    held: &[u8],
    total: u64,
    payload: Data,
    to: Option<u8>,
    text: &[u8],
    told: &mut LuksNeeded,
) -> u32
    requires parts { K.parts ≡ parts.now }
    requires given { AreGiven parts.now held.now total K.bytes }
    ensures own { result ≢ 101 }
    ensures answers { AnswersTokenNeed K.bytes payload to text.now told.new result }
    ensures wanted { result ≡ 102 → IsWanted K.parts total told.new.beyond }
{
    match token_of(alloc, text) {
        Ok(token) => {
            let edit = Edit::Amend(Change::AddToken { to, token: &token });
            need_given::<K>(alloc, parts, held, total, payload, &edit, told)
        }
        Err(NoToken::BadJson) => {
            refuse_text::<K>(alloc, parts, held, total, payload, &mut told.beyond)
        }
        Err(NoToken::Memory) => MEMORY,
    }
}

/// Why a text that is none of a value adds no token to the volume `K`: what refuses every edit of it, or that.
pub(crate) fn refuse_text<K: Given>(
    alloc: Global,
    parts: &[Part],
    held: &[u8],
    total: u64,
    payload: Data,
    beyond: &mut Part,
) -> u32
    requires parts { K.parts ≡ parts.now }
    requires given { AreGiven parts.now held.now total K.bytes }
    ensures own { result ≢ 101 }
    ensures refused { result ≢ 0 }
    ensures room { result ≢ 106 }
    ensures why { result ≢ 102 → result ≢ 103 → IsUntokened K.bytes payload result }
    ensures wanted { result ≡ 102 → IsWanted K.parts total beyond.new }
{
    let mut device: GivenParts<'_, K> = GivenParts::new(parts, held, total);
    match needed(alloc, &mut device, payload, &Edit::Repair) {
        Ok(_) => number_of(Fault::BadJson),
        Err(EditFault::Device) => {
            *beyond = device.wanted();
            BEYOND
        }
        Err(fault) => edit_number(&fault),
    }
}

/// Tells what this edit of the volume `K` needs. These ranges of it are given.
fn need_given<K: Given>(
    alloc: Global,
    parts: &[Part],
    held: &[u8],
    total: u64,
    payload: Data,
    edit: &Edit<'_>,
    told: &mut LuksNeeded,
) -> u32
    requires parts { K.parts ≡ parts.now }
    requires given { AreGiven parts.now held.now total K.bytes }
    ensures own { result ≢ 101 }
    ensures answers { AnswersNeed K.bytes payload edit.now told.new result }
    ensures wanted { result ≡ 102 → IsWanted K.parts total told.new.beyond }
{
    let mut device: GivenParts<'_, K> = GivenParts::new(parts, held, total);
    match needed(alloc, &mut device, payload, edit) {
        Ok(count) => {
            told.random = count;
            DONE
        }
        Err(EditFault::Device) => {
            told.beyond = device.wanted();
            BEYOND
        }
        Err(fault) => edit_number(&fault),
    }
}
