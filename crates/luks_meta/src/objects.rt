//! The objects of accepted metadata, by their numbers.

ghost use Rattle.std.specs.Prelude.{◌≡◌, ◌<◌, Some, IfSome, IsNone};
ghost use Rattle.serde_json.specs.View.{view};
ghost use Rattle.luks_rules.specs.Faults.{object_at};
ghost use Rattle.luks_meta.specs.Objects.{IsAccepted, IsConfig, IsMissing, IsObject};
ghost use Rattle.luks_meta.specs.Says.{TellsDigest, TellsKeyslot, TellsSegment, TellsToken};

use crate::configuration::{Config, read_config};
use crate::digests::{Digest, read_digest};
use crate::keyslots::{Keyslot, read_keyslot};
use crate::segments::{Segment, read_segment};
use crate::tokens::{Token, read_token};
use luks_rules::{Section, object_at, section_at};
use serde_json::Value;

pub(crate) fn numbered(value: &Value, section: Section, number: u8) -> Option<&Value>
    ensures some { IfSome result (λ d. (number < 32) × (object_at (view value.now) section number ≡ Some (view d.now))) }
    ensures none { IsNone result → IsMissing (view value.now) section number }
{
    if number < 32 {
        object_at(value, section, number)
    } else {
        None
    }
}

/// The members of `config`.
pub(crate) fn config_in(value: &Value) -> Config
    requires { IsAccepted (view value.now) }
    ensures { IsConfig (view value.now) result }
{
    read_config(section_at(value, Section::Config).unwrap()).unwrap()
}

/// The keyslot with the number.
pub(crate) fn keyslot_in(value: &Value, number: u8) -> Option<Keyslot<'_>>
    requires { IsAccepted (view value.now) }
    ensures some { IfSome result (IsObject TellsKeyslot (view value.now) Section.Keyslots number) }
    ensures none { IsNone result → IsMissing (view value.now) Section.Keyslots number }
{
    match numbered(value, Section::Keyslots, number) {
        Some(object) => read_keyslot(object),
        None => None,
    }
}

/// The segment with the number.
pub(crate) fn segment_in(value: &Value, number: u8) -> Option<Segment<'_>>
    requires { IsAccepted (view value.now) }
    ensures some { IfSome result (IsObject TellsSegment (view value.now) Section.Segments number) }
    ensures none { IsNone result → IsMissing (view value.now) Section.Segments number }
{
    match numbered(value, Section::Segments, number) {
        Some(object) => read_segment(object),
        None => None,
    }
}

/// The digest with the number.
pub(crate) fn digest_in(value: &Value, number: u8) -> Option<Digest<'_>>
    requires { IsAccepted (view value.now) }
    ensures some { IfSome result (IsObject TellsDigest (view value.now) Section.Digests number) }
    ensures none { IsNone result → IsMissing (view value.now) Section.Digests number }
{
    match numbered(value, Section::Digests, number) {
        Some(object) => read_digest(object),
        None => None,
    }
}

/// The token with the number.
pub(crate) fn token_in(value: &Value, number: u8) -> Option<Token<'_>>
    requires { IsAccepted (view value.now) }
    ensures some { IfSome result (IsObject TellsToken (view value.now) Section.Tokens number) }
    ensures none { IsNone result → IsMissing (view value.now) Section.Tokens number }
{
    match numbered(value, Section::Tokens, number) {
        Some(object) => read_token(object),
        None => None,
    }
}
