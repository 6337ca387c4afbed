//! The sizes that the metadata tells of itself.

ghost use Rattle.std.specs.Prelude.{◌≡◌, IfSome, IsSome};
ghost use Rattle.serde_json.specs.View.{view};
ghost use Rattle.luks_rules.specs.Table.{config_rows};
ghost use Rattle.luks_rules.specs.Accepted.{IsRead};
ghost use Rattle.luks_meta.specs.Says.{TellsConfig};

use crate::member::decimal_at;
use luks_rules::{Member, Outer};
use serde_json::Value;

/// The members of `config`.
#[derive(Clone, Copy, PartialEq, Eq)]
pub struct Config {
    /// The length of the JSON area in bytes.
    pub json_size: u64,
    /// The length of the region of the keyslots' areas in bytes.
    pub keyslots_size: u64,
}

/// The members of `config`; none where one breaks its rule.
pub fn read_config(object: &Value) -> Option<Config>
    ensures tells { IfSome result (λ k. TellsConfig (view object.now) k) }
    ensures there { IsRead config_rows (view object.now) → IsSome result }
{
    let json_size = decimal_at(object, Outer::Top, Member::JsonSize)?;
    let keyslots_size = decimal_at(object, Outer::Top, Member::KeyslotsSize)?;
    Some(Config {
        json_size,
        keyslots_size,
    })
}
