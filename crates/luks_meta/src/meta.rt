//! The metadata of a LUKS2 header.

ghost use Rattle.std.specs.Prelude.{◌≡◌, ◌≢◌, ◌<◌, ◌≤◌, ℕ, List, false, Some, length, All, string_bytes, IfOk, IfErr, IfSome, IsNone, IsSome, MatchOption, is_some, true};
ghost use Rattle.serde_json.specs.View.{view};
ghost use Rattle.luks_rules.specs.Held.{IsHeld};

use crate::configuration::Config;
use crate::digests::Digest;
use crate::keyslots::Keyslot;
use crate::naming::{digest_of_keyslot, digests_stand_once};
use crate::objects::{config_in, digest_in, keyslot_in, segment_in, token_in};
use crate::requirements::has_requirements;
use crate::segments::Segment;
use crate::tokens::Token;
use luks_json::compact_text_of;
use luks_rules::{MetaFault, Section, first_segment_below, read_content};
use serde_json::Value;
use std::alloc::{AllocError, Global};

/// The metadata of a LUKS2 header, as it was read from a JSON area: every member that was there,
/// and no fault. Contracts see it by `content`, the value.
#[derive(Drop)]
pub struct Meta {
    value: Value,
    len: usize,
    pub ghost held: { IsHeld len (view value) },
}

impl Meta {
    ghost use Rattle.luks_area.specs.First.{IsLeast};
    ghost use Rattle.luks_json.specs.AreaText.{JsonText};
    ghost use Rattle.luks_rules.specs.declared.fault.MetaFault.{MetaFault};
    ghost use Rattle.luks_rules.specs.MetaFault.{IsMetaFault, meta_key};
    ghost use Rattle.serde_json.specs.Data.{Data};
    ghost use Rattle.luks_rules.specs.Accepted.{IsMeta};
    ghost use Rattle.luks_meta.specs.Content.{area_len, content};
    ghost use Rattle.luks_rules.specs.Faults.{object_at};
    ghost use Rattle.luks_meta.specs.Naming.{HasUniqueDigests, IsDigestOf};
    ghost use Rattle.luks_meta.specs.Objects.{IsConfig, IsMissing, IsObject};
    ghost use Rattle.luks_meta.specs.Says.{TellsDigest, TellsKeyslot, TellsSegment, TellsToken};
    ghost use Rattle.luks_meta.specs.Requirements.{has_requirements};
    ghost use Rattle.luks_rules.specs.Sizes.{has_segment_below, IsFirst};
    ghost use Rattle.serde_json.specs.Read.{read};
    ghost use Rattle.serde_json.specs.Written.{compact_text};

    /// Reads the metadata of a JSON area, which is a listed header size less 4096 bytes long.
    ///
    /// Takes memory for the value. `Memory` is answered only where it was refused; every other
    /// fault is the first of the area.
    pub fn read(alloc: Global, area: &[u8]) -> Result<Meta, MetaFault>
        ensures found { IfOk result (λ m. IsMeta area.now (content m)) }
        ensures length { IfOk result (λ m. area_len m ≡ length area.now) }
        ensures faultless { IfOk result (λ m. (f : MetaFault) → IsMetaFault area.now f → ⊥) }
        ensures fault { IfErr result (λ f. f ≢ MetaFault.Memory → IsLeast meta_key (IsMetaFault area.now) f) }
        ensures only { (j : Data) → IsMeta area.now j → IfErr result (λ f. f ≡ MetaFault.Memory) }
        ensures memory { IfErr result (λ f. f ≡ MetaFault.Memory → (text : List ℕ) × JsonText area.now text) }
    {
        let value = read_content(alloc, area)?;
        Ok(Meta {
            value,
            len: area.len(),
        })
    }

    /// The metadata of a value that meets the rules of an area of `len` bytes.
    pub fn of_value(value: Value, len: usize) -> Meta
        requires { IsHeld len (view value) }
        ensures value { content result ≡ view value }
        ensures length { area_len result ≡ len }
    {
        Meta { value, len }
    }

    /// The value.
    pub fn value(&self) -> &Value
        ensures { view result.now ≡ content self.now }
    {
        &self.value
    }

    /// The value, which the metadata gives up: it is moved, and no memory is taken.
    pub fn into_value(self) -> Value
        ensures { view result ≡ content self }
    {
        self.value
    }

    /// The length in bytes of the JSON area that it was read from.
    pub fn area_len(&self) -> usize
        ensures { result ≡ area_len self.now }
    {
        self.len
    }

    /// Whether `config.requirements` is there and is none of `null`, `[]`, `{}` and
    /// `{"mandatory":[]}`.
    pub fn has_requirements(&self) -> bool
        ensures { result ≡ has_requirements (content self.now) }
    {
        has_requirements(&self.value)
    }

    /// The least segment that begins before the end of the region of key areas.
    pub fn first_segment_below(&self) -> Option<u8>
        ensures { MatchOption result
            ((n : ℕ) → n < 32 → has_segment_below (area_len self.now) (content self.now) n ≡ false)
            (λ n. IsFirst (has_segment_below (area_len self.now) (content self.now)) n) }
    {
        first_segment_below(self.len, &self.value)
    }

    /// The metadata as JSON text with no white space between its parts.
    ///
    /// Takes memory for the text.
    pub fn text(&self, alloc: Global) -> Result<String, AllocError>
        ensures text { IfOk result (λ s. string_bytes s ≡ compact_text (content self.now)) }
        ensures no_zero { IfOk result (λ s. All (λ c. c ≢ 0) (string_bytes s)) }
        ensures back { IfOk result (λ s. read (string_bytes s) ≡ Some (content self.now)) }
    {
        compact_text_of(alloc, &self.value)
    }

    /// The members of `config`.
    pub fn config(&self) -> Config
        ensures { IsConfig (content self.now) result }
    {
        config_in(&self.value)
    }

    /// The keyslot with the number, if it is there. Its texts borrow from the metadata.
    pub fn keyslot(&self, number: u8) -> Option<Keyslot<'_>>
        ensures some { IfSome result (IsObject TellsKeyslot (content self.now) Section.Keyslots number) }
        ensures none { IsNone result → IsMissing (content self.now) Section.Keyslots number }
    {
        keyslot_in(&self.value, number)
    }

    /// The segment with the number, if it is there.
    pub fn segment(&self, number: u8) -> Option<Segment<'_>>
        ensures some { IfSome result (IsObject TellsSegment (content self.now) Section.Segments number) }
        ensures none { IsNone result → IsMissing (content self.now) Section.Segments number }
    {
        segment_in(&self.value, number)
    }

    /// The digest with the number, if it is there.
    pub fn digest(&self, number: u8) -> Option<Digest<'_>>
        ensures some { IfSome result (IsObject TellsDigest (content self.now) Section.Digests number) }
        ensures none { IsNone result → IsMissing (content self.now) Section.Digests number }
    {
        digest_in(&self.value, number)
    }

    /// The number of the one digest that names the keyslot, if there is such a keyslot.
    pub fn digest_of_keyslot(&self, number: u8) -> Option<u8>
        ensures some { IfSome result (IsDigestOf (content self.now) number) }
        ensures only { (m : ℕ) → IsDigestOf (content self.now) number m → result ≡ Some m }
        ensures there { number < 32 → is_some (object_at (content self.now) Section.Keyslots number) ≡ true → IsSome result }
        ensures unique { IfSome result (λ _. HasUniqueDigests (content self.now)) }
    {
        digest_of_keyslot(&self.value, number)
    }

    /// Each digest's name stands once in the metadata: a law, for who edits its value in place.
    pub fn digests_stand_once(&self)
        ensures { HasUniqueDigests (content self.now) }
    {
        digests_stand_once(&self.value);
    }

    /// The token with the number, if it is there.
    pub fn token(&self, number: u8) -> Option<Token<'_>>
        ensures some { IfSome result (IsObject TellsToken (content self.now) Section.Tokens number) }
        ensures none { IsNone result → IsMissing (content self.now) Section.Tokens number }
    {
        token_in(&self.value, number)
    }
}
