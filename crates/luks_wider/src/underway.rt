//! Metadata that was read by the rules of what is under way.

ghost use Rattle.std.specs.Prelude.{◌≡◌, ◌≢◌, ◌<◌, ℕ, List, Some, codes, false, is_some, length, true, IfOk, IfErr, IfSome, IsNone, IsSome, MatchOption};
ghost use Rattle.serde_json.specs.View.{view};
ghost use Rattle.luks_contradictions.specs.Contradicted.{contradicts};
ghost use Rattle.luks_contradictions.specs.declared.contradiction.Contradiction.{Contradiction};
ghost use Rattle.luks_wider.specs.WideFaults.{IsWideHeld};

use crate::content::read_members;
use crate::fault::WideFault;
use crate::naming::digest_of_keyslot;
use crate::objects::{config_in, digest_in, keyslot_in, segment_in, token_in};
use crate::reencryption::{ReencryptSlot, reencrypt_slot};
use luks_contradictions::{Contradiction, contradiction_path, first_contradiction, first_hot};
use luks_meta::{Config, Digest, Token};
use luks_rules::Section;
use luks_underway::{WideKeyslot, WideSegment, new_digest, old_digest};
use serde_json::Value;
use std::alloc::Global;

/// The digests of the two keys of a reencryption.
#[derive(Clone, Copy, PartialEq, Eq)]
pub struct Sides {
    /// That of the key before; none where the data wasn't encrypted.
    pub old: Option<u8>,
    /// That of the key that will be; none where the data won't be encrypted.
    pub new: Option<u8>,
}

/// Metadata of a LUKS2 header, as it was read from a JSON area by the rules of what is under way: every
/// member that was there, and no fault. Contracts see it by `content`, the value.
#[derive(Drop)]
pub struct Underway {
    value: Value,
    len: usize,
    pub ghost held: { IsWideHeld len (view value) },
    pub ghost consistent: { (p : Contradiction) → contradicts (view value) p ≡ false },
}

impl Underway {
    ghost use Rattle.luks_area.specs.First.{IsLeast};
    ghost use Rattle.serde_json.specs.Data.{Data};
    ghost use Rattle.luks_json.specs.AreaText.{JsonText};
    ghost use Rattle.luks_meta.specs.Objects.{IsConfig, IsMissing, IsObject};
    ghost use Rattle.luks_meta.specs.Says.{TellsDigest, TellsToken};
    ghost use Rattle.luks_underway.specs.Segments.{TellsWideSegment};
    ghost use Rattle.luks_underway.specs.Slots.{TellsWideKeyslot};
    ghost use Rattle.luks_rules.specs.Faults.{object_at};
    ghost use Rattle.luks_rules.specs.Naming.{IsDigestOf};
    ghost use Rattle.luks_rules.specs.Sizes.{IsFirst};
    ghost use Rattle.luks_underway.specs.Kinds.{has_reencrypt};
    ghost use Rattle.luks_underway.specs.Sides.{IsSide};
    ghost use Rattle.luks_contradictions.specs.Consistent.{IsConsistent};
    ghost use Rattle.luks_contradictions.specs.Hot.{is_in_hand};
    ghost use Rattle.luks_wider.specs.Accepted.{IsUnderWayArea, IsWideAccepted};
    ghost use Rattle.luks_wider.specs.Reencrypting.{IsReencryptSlot};
    ghost use Rattle.luks_wider.specs.Underways.{area_len, content};
    ghost use Rattle.luks_wider.specs.WideFaults.{IsUnderWayFault, no_memory, wide_key};

    /// Reads the metadata of a JSON area, which is a listed header size less 4096 bytes long, by the rules of
    /// what is under way.
    ///
    /// Takes memory for the value. `Memory` is answered only where it was refused; every other
    /// fault is the first of the area.
    pub fn read(alloc: Global, area: &[u8]) -> Result<Underway, WideFault>
        ensures found { IfOk result (λ m. IsUnderWayArea area.now (content m)) }
        ensures length { IfOk result (λ m. area_len m ≡ length area.now) }
        ensures faultless { IfOk result (λ m. (f : WideFault) → IsUnderWayFault area.now f → ⊥) }
        ensures fault { IfErr result (λ f. f ≢ no_memory → IsLeast wide_key (IsUnderWayFault area.now) f) }
        ensures only { (j : Data) → IsUnderWayArea area.now j → IfErr result (λ f. f ≡ no_memory) }
        ensures memory { IfErr result (λ f. f ≡ no_memory → (text : List ℕ) × JsonText area.now text) }
    {
        let value = read_members(alloc, area)?;
        match first_contradiction(&value) {
            Some(place) => Err(WideFault::UnderWay(contradiction_path(place))),
            None => Ok(Underway {
                value,
                len: area.len(),
            }),
        }
    }

    /// The metadata meets the rules of what is under way, and doesn't contradict itself: a law.
    pub fn meets_the_rules(&self)
        ensures rules { IsWideAccepted (content self.now) }
        ensures consistent { IsConsistent (content self.now) }
    {
        let _value = &self.value;
    }

    /// The value.
    pub fn value(&self) -> &Value
        ensures { view result.now ≡ content self.now }
    {
        &self.value
    }

    /// The value, which the metadata gives up: it is moved, and no memory is taken.
    pub fn into_value(self) -> Value
        ensures { view result ≡ content self }
    {
        self.value
    }

    /// The length in bytes of the JSON area that it was read from.
    pub fn area_len(&self) -> usize
        ensures { result ≡ area_len self.now }
    {
        self.len
    }

    /// The members of `config`.
    pub fn config(&self) -> Config
        ensures { IsConfig (content self.now) result }
    {
        config_in(&self.value)
    }

    /// The keyslot with the number, if it is there. Its texts borrow from the metadata.
    pub fn keyslot(&self, number: u8) -> Option<WideKeyslot<'_>>
        ensures some { IfSome result (IsObject TellsWideKeyslot (content self.now) Section.Keyslots number) }
        ensures none { IsNone result → IsMissing (content self.now) Section.Keyslots number }
    {
        keyslot_in(&self.value, number)
    }

    /// The segment with the number, if it is there.
    pub fn segment(&self, number: u8) -> Option<WideSegment<'_>>
        ensures some { IfSome result (IsObject TellsWideSegment (content self.now) Section.Segments number) }
        ensures none { IsNone result → IsMissing (content self.now) Section.Segments number }
    {
        segment_in(&self.value, number)
    }

    /// The digest with the number, if it is there.
    pub fn digest(&self, number: u8) -> Option<Digest<'_>>
        ensures some { IfSome result (IsObject TellsDigest (content self.now) Section.Digests number) }
        ensures none { IsNone result → IsMissing (content self.now) Section.Digests number }
    {
        digest_in(&self.value, number)
    }

    /// The number of the one digest that names the keyslot, if one does: each with a key is named by one.
    pub fn digest_of_keyslot(&self, number: u8) -> Option<u8>
        ensures some { IfSome result (IsDigestOf (content self.now) number) }
        ensures only { (m : ℕ) → IsDigestOf (content self.now) number m → result ≡ Some m }
        ensures there { number < 32 → is_some (object_at (content self.now) Section.Keyslots number) ≡ true
            → has_reencrypt (content self.now) number ≡ false → IsSome result }
    {
        digest_of_keyslot(&self.value, number)
    }

    /// The digests of the two keys of a reencryption.
    pub fn sides(&self) -> Sides
        ensures old { IsSide (content self.now) (codes "backup-previous") result.old }
        ensures new { IsSide (content self.now) (codes "backup-final") result.new }
    {
        Sides {
            old: old_digest(&self.value),
            new: new_digest(&self.value),
        }
    }

    /// The keyslot of the type `reencrypt`, if there is one. Its texts borrow from the metadata.
    pub fn reencryption(&self) -> Option<ReencryptSlot<'_>>
        ensures { MatchOption result
            ((n : ℕ) → n < 32 → has_reencrypt (content self.now) n ≡ false)
            (IsReencryptSlot (content self.now)) }
    {
        reencrypt_slot(&self.value)
    }

    /// The number of the segment that is in hand, where sectors of either key may stand, if there is one.
    pub fn hot(&self) -> Option<u8>
        ensures { MatchOption result
            ((n : ℕ) → n < 32 → is_in_hand (content self.now) n ≡ false)
            (IsFirst (is_in_hand (content self.now))) }
    {
        first_hot(&self.value)
    }

    /// The token with the number, if it is there.
    pub fn token(&self, number: u8) -> Option<Token<'_>>
        ensures some { IfSome result (IsObject TellsToken (content self.now) Section.Tokens number) }
        ensures none { IsNone result → IsMissing (content self.now) Section.Tokens number }
    {
        token_in(&self.value, number)
    }
}
