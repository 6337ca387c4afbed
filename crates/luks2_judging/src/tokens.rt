//! Judging a change of the metadata, by the tokens that are there.
ghost use Rattle.std.specs.Prelude.{◌≡◌, ◌<◌, ◌↔◌, ℕ, [], false, IfSome, IsSomeAnd, IsTrue, MatchOption, MatchResult, Some};
ghost use Rattle.serde_json.specs.View.{view};
ghost use Rattle.luks_meta.specs.Content.{content};
ghost use Rattle.luks_rules.specs.declared.table.Outer.TheVariants.{Top};
ghost use Rattle.luks_rules.specs.Faults.{type_at};
ghost use Rattle.luks2_edit_laws.specs.Metadata.{HasToken, IsFreeToken, IsLeastFreeToken};
ghost use Rattle.luks2_edit_laws.specs.Refused.{IsUnreadable};
ghost use Rattle.luks2_judging.specs.Changes.{HasPriorityThere, IsChangeFault, IsNewTokenNumber, IsTakenAs, IsTakenChange, IsTokenNumberFault};

use crate::judged::JudgedChange;
use luks_edit::{Change, EditFault};
use luks_meta::Meta;
use luks_rules::{Outer, nests_within, type_at};
use serde_json::Value;

/// The most levels by which arrays and objects nest in a token that cryptsetup reads, two levels deep in
/// the metadata.
const MOST_LEVELS: u8 = 29;

/// Whether the token is there.
fn is_token(meta: &Meta, n: u8) -> bool
    ensures used { IsTrue result → HasToken (content meta.now) n }
    ensures free { result ≡ false → n < 32 → IsFreeToken (content meta.now) n }
    ensures unused { result ≡ false → HasToken (content meta.now) n → ⊥ }
{
    if n > 31 {
        return false;
    }
    match meta.token(n) {
        Some(_) => true,
        None => false,
    }
}

/// The least number that no token has.
fn least_free_token(meta: &Meta) -> Option<u8>
    ensures { MatchOption result ((n : ℕ) → IsFreeToken (content meta.now) n → ⊥)
        (IsLeastFreeToken (content meta.now)) }
{
    for n in 0..32 {
        if !is_token(meta, n) {
            return Some(n);
        }
    }
    None
}

/// The number of the token to add: `to`, or else the least that is free. Refused by `TokenTaken`,
/// `NoFreeToken`.
fn new_token_number(meta: &Meta, to: Option<u8>) -> Result<u8, EditFault>
    ensures { MatchResult result (IsNewTokenNumber (content meta.now) to)
        (IsTokenNumberFault (content meta.now) to) }
{
    match to {
        Some(n) => {
            if n > 31 {
                return Err(EditFault::NoFreeToken);
            }
            if is_token(meta, n) {
                return Err(EditFault::TokenTaken);
            }
            Ok(n)
        }
        None => match least_free_token(meta) {
            Some(n) => Ok(n),
            None => Err(EditFault::NoFreeToken),
        },
    }
}

/// Whether cryptsetup doesn't read metadata with the token.
fn is_unreadable(token: &Value) -> bool
    ensures unreadable { IsTrue result → IsUnreadable (view token.now) }
    ensures readable { result ≡ false → IsUnreadable (view token.now) → ⊥ }
{
    has_empty_type(token) || !nests_within(token, MOST_LEVELS)
}

/// Whether the token's type is the empty text.
fn has_empty_type(token: &Value) -> bool
    ensures { IsTrue result ↔ type_at (view token.now) Top ≡ Some [] }
{
    match type_at(token, Outer::Top) {
        Some(kind) => kind.is_empty(),
        None => false,
    }
}

/// What the change takes, whose keyslot is there if it names one. Refused by `NoSuchToken`,
/// `TokenTaken`, `NoFreeToken`, `UnreadableToken`.
fn judge_amending<'a>(meta: &Meta, change: Change<'a>) -> Result<JudgedChange<'a>, EditFault>
    requires { HasPriorityThere (content meta.now) change }
    ensures { MatchResult result (IsTakenAs (content meta.now) change.entry)
        (IsChangeFault (content meta.now) change.entry) }
{
    match change {
        Change::Priority { slot, priority } => Ok(JudgedChange::Priority { slot, priority }),
        Change::AddToken { to, token } => match new_token_number(meta, to) {
            Ok(number) => {
                if is_unreadable(token) {
                    Err(EditFault::UnreadableToken)
                } else {
                    Ok(JudgedChange::AddToken { number, token })
                }
            }
            Err(fault) => Err(fault),
        },
        Change::RemoveToken { number } => {
            if is_token(meta, number) {
                Ok(JudgedChange::RemoveToken { number })
            } else {
                Err(EditFault::NoSuchToken)
            }
        }
    }
}

/// Judges a change, if there is one.
pub(crate) fn judge_change<'a>(
    meta: &Meta,
    change: Option<Change<'a>>,
) -> Result<Option<JudgedChange<'a>>, EditFault>
    requires { IfSome change (HasPriorityThere (content meta.now)) }
    ensures { MatchResult result (IsTakenChange (content meta.now) change.entry)
        (λ f. IsSomeAnd change.entry (λ c. IsChangeFault (content meta.now) c f)) }
{
    match change {
        None => Ok(None),
        Some(change) => match judge_amending(meta, change) {
            Ok(taken) => Ok(Some(taken)),
            Err(fault) => Err(fault),
        },
    }
}
