//! The objects of metadata that meets the rules of what is under way, by their numbers.

ghost use Rattle.std.specs.Prelude.{◌≡◌, ◌<◌, Some, IfSome, IsNone};
ghost use Rattle.serde_json.specs.View.{view};
ghost use Rattle.luks_rules.specs.Faults.{object_at};
ghost use Rattle.luks_meta.specs.Objects.{IsConfig, IsMissing, IsObject};
ghost use Rattle.luks_meta.specs.Says.{TellsDigest, TellsToken};
ghost use Rattle.luks_underway.specs.Segments.{TellsWideSegment};
ghost use Rattle.luks_underway.specs.Slots.{TellsWideKeyslot};
ghost use Rattle.luks_wider.specs.Accepted.{IsWideAccepted};

use luks_meta::{Config, Digest, Token, read_config, read_digest, read_token};
use luks_rules::{Section, object_at, section_at};
use luks_underway::{WideKeyslot, WideSegment, read_wide_keyslot, read_wide_segment};
use serde_json::Value;

pub(crate) fn numbered(value: &Value, section: Section, number: u8) -> Option<&Value>
    ensures some { IfSome result (λ d. (number < 32) × (object_at (view value.now) section number ≡ Some (view d.now))) }
    ensures none { IsNone result → IsMissing (view value.now) section number }
{
    if number < 32 {
        object_at(value, section, number)
    } else {
        None
    }
}

/// The members of `config`.
pub(crate) fn config_in(value: &Value) -> Config
    requires { IsWideAccepted (view value.now) }
    ensures { IsConfig (view value.now) result }
{
    read_config(section_at(value, Section::Config).unwrap()).unwrap()
}

/// The keyslot with the number.
pub(crate) fn keyslot_in(value: &Value, number: u8) -> Option<WideKeyslot<'_>>
    requires { IsWideAccepted (view value.now) }
    ensures some { IfSome result (IsObject TellsWideKeyslot (view value.now) Section.Keyslots number) }
    ensures none { IsNone result → IsMissing (view value.now) Section.Keyslots number }
{
    match numbered(value, Section::Keyslots, number) {
        Some(object) => read_wide_keyslot(object),
        None => None,
    }
}

/// The segment with the number.
pub(crate) fn segment_in(value: &Value, number: u8) -> Option<WideSegment<'_>>
    requires { IsWideAccepted (view value.now) }
    ensures some { IfSome result (IsObject TellsWideSegment (view value.now) Section.Segments number) }
    ensures none { IsNone result → IsMissing (view value.now) Section.Segments number }
{
    match numbered(value, Section::Segments, number) {
        Some(object) => read_wide_segment(object),
        None => None,
    }
}

/// The digest with the number.
pub(crate) fn digest_in(value: &Value, number: u8) -> Option<Digest<'_>>
    requires { IsWideAccepted (view value.now) }
    ensures some { IfSome result (IsObject TellsDigest (view value.now) Section.Digests number) }
    ensures none { IsNone result → IsMissing (view value.now) Section.Digests number }
{
    match numbered(value, Section::Digests, number) {
        Some(object) => read_digest(object),
        None => None,
    }
}

/// The token with the number.
pub(crate) fn token_in(value: &Value, number: u8) -> Option<Token<'_>>
    requires { IsWideAccepted (view value.now) }
    ensures some { IfSome result (IsObject TellsToken (view value.now) Section.Tokens number) }
    ensures none { IsNone result → IsMissing (view value.now) Section.Tokens number }
{
    match numbered(value, Section::Tokens, number) {
        Some(object) => read_token(object),
        None => None,
    }
}
