//! Tokens: what else may open keyslots.

ghost use Rattle.std.specs.Prelude.{◌≡◌, IfSome, IsSome};
ghost use Rattle.serde_json.specs.View.{view};
ghost use Rattle.luks_rules.specs.Table.{token_rows};
ghost use Rattle.luks_json.specs.Names.{IsNameList};
ghost use Rattle.luks_rules.specs.Accepted.{IsRead};
ghost use Rattle.luks_rules.specs.Faults.{member_at};
ghost use Rattle.luks_meta.specs.Says.{TellsToken};

use crate::member::{numbers_at, text_at};
use arrayvec::ArrayVec;
use luks_rules::{Member, Outer};
use serde_json::Value;

/// The members of a token.
#[derive(Drop)]
pub struct Token<'a> {
    /// Its type, any text.
    pub kind: &'a str,
    /// The numbers of the keyslots that it names, in the order of its array.
    pub keyslots: ArrayVec<u8, 32>,
}

/// The members of a token; none where one breaks its rule.
pub fn read_token(object: &Value) -> Option<Token<'_>>
    ensures tells { IfSome result (λ k. TellsToken (view object.now) k) }
    ensures there { IsRead token_rows (view object.now)
        → IsNameList (member_at (view object.now) Outer.Top Member.Keyslots) → IsSome result }
{
    let kind = text_at(object, Outer::Top, Member::Kind)?;
    let keyslots = numbers_at(object, Member::Keyslots)?;
    Some(Token { kind, keyslots })
}
