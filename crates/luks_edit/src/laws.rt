//! Laws on the definitions of this crate. Each function does nothing; its contract is the law.
ghost use Rattle.std.specs.Prelude.{◌≡◌, ◌↔◌, ℕ, List, true};
ghost use Rattle.luks_slot.specs.declared.allowed.Allowed.{Allowed as TheAllowed};
ghost use Rattle.luks_slot.specs.Opening.{meets_digest};
ghost use Rattle.luks_reading.specs.Agreement.{IsSameAnswer};
ghost use Rattle.luks_reading.specs.Answer.{AnswerWithin, Opened, opens};
ghost use Rattle.luks_edit.specs.declared.edit.SecretKind.{SecretKind as TheKind};
ghost use Rattle.luks_edit.specs.Secrets.{AnswersTo};

use crate::edit::SecretKind;

/// A keyslot answers to a passphrase what opening it by that passphrase answers. It has at most one
/// answer to a secret. A key that it answers with meets its digest; if the secret is a key, it is that
/// key.
pub fn secrets_answer_once()
    ensures passphrase { (allowed : TheAllowed) (v : List ℕ) (n : ℕ) (p : List ℕ) (a : Opened)
        → AnswersTo SecretKind.Passphrase allowed v n p a ↔ AnswerWithin allowed v n p a }
    ensures one { (kind : TheKind) (allowed : TheAllowed) (v : List ℕ) (n : ℕ) (p : List ℕ)
        (a b : Opened) → AnswersTo kind allowed v n p a → AnswersTo kind allowed v n p b
        → IsSameAnswer a b }
    ensures meets { (kind : TheKind) (allowed : TheAllowed) (v : List ℕ) (n : ℕ) (p key : List ℕ)
        → (x : AnswersTo kind allowed v n p (opens key)) → meets_digest x.plan.digest key ≡ true }
    ensures own { (allowed : TheAllowed) (v : List ℕ) (n : ℕ) (p key : List ℕ)
        → AnswersTo SecretKind.Key allowed v n p (opens key) → key ≡ p }
{}
