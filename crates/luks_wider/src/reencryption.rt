//! The keyslot that says what is under way.

ghost use Rattle.std.specs.Prelude.{◌≡◌, ◌<◌, ℕ, false, MatchOption};
ghost use Rattle.serde_json.specs.View.{view};
ghost use Rattle.luks_rules.specs.Sizes.{IsFirst};
ghost use Rattle.luks_meta.specs.Objects.{IsObject};
ghost use Rattle.luks_underway.specs.Kinds.{has_reencrypt};
ghost use Rattle.luks_underway.specs.Reencryptions.{TellsReencryption};
ghost use Rattle.luks_contradictions.specs.Contradicted.{contradicts};
ghost use Rattle.luks_wider.specs.Accepted.{IsWideAccepted};
ghost use Rattle.luks_wider.specs.Reencrypting.{IsReencryptSlot};

use luks_contradictions::{Contradiction, first_reencryption};
use luks_rules::{Section, object_at};
use luks_underway::{Reencryption, read_reencryption};
use serde_json::Value;

/// The keyslot of the type `reencrypt`.
#[derive(Clone, Copy)]
pub struct ReencryptSlot<'a> {
    /// Its number.
    pub number: u8,
    /// What its members say.
    pub members: Reencryption<'a>,
}

/// The keyslot of the type `reencrypt`, if there is one.
pub(crate) fn reencrypt_slot(value: &Value) -> Option<ReencryptSlot<'_>>
    requires rules { IsWideAccepted (view value.now) }
    requires consistent { (p : Contradiction) → contradicts (view value.now) p ≡ false }
    ensures { MatchOption result
        ((n : ℕ) → n < 32 → has_reencrypt (view value.now) n ≡ false)
        (IsReencryptSlot (view value.now)) }
{
    match first_reencryption(value) {
        Some(number) => Some(ReencryptSlot {
            number,
            members: members_at(value, number),
        }),
        None => None,
    }
}

/// The members of the keyslot with the number, the least of the type `reencrypt`.
fn members_at(value: &Value, number: u8) -> Reencryption<'_>
    requires rules { IsWideAccepted (view value.now) }
    requires first { IsFirst (has_reencrypt (view value.now)) number }
    ensures { IsObject TellsReencryption (view value.now) Section.Keyslots number result }
{
    read_reencryption(object_at(value, Section::Keyslots, number).unwrap()).unwrap()
}
