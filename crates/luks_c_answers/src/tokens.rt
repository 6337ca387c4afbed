//! The text of a token.
ghost use Rattle.std.specs.Prelude.{◌≡◌, Err, IfOk};
ghost use Rattle.luks_c_answers.specs.EditAsked.{HasNoToken, HasToken};

use serde_json::{Category, Value};
use std::alloc::Global;

/// Why a text gives no token.
#[derive(Clone, Copy)]
pub enum NoToken {
    /// It is no text of a value.
    BadJson,
    /// Memory was refused.
    Memory,
}

/// The token of this text (RFC 8259), whatever it says. Takes memory for it.
pub fn token_of(alloc: Global, text: &[u8]) -> Result<Value, NoToken>
    ensures token { IfOk result (HasToken text.now) }
    ensures none { result ≡ Err NoToken.BadJson → HasNoToken text.now }
{
    match Value::from_slice(alloc, text) {
        Ok(token) => Ok(token),
        Err(error) => match error.classify() {
            Category::Memory => Err(NoToken::Memory),
            _ => Err(NoToken::BadJson),
        },
    }
}
