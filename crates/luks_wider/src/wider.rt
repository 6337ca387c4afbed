//! Metadata by the wider reading: that of `luks_meta` where nothing is under way, and else by the rules of
//! what is.

ghost use Rattle.std.specs.Prelude.{◌≡◌, ◌≢◌, ℕ, List, length, true, false, IfOk, IfErr, MatchResult};
ghost use Rattle.serde_json.specs.Data.{Data};
ghost use Rattle.luks_area.specs.First.{IsLeast};
ghost use Rattle.luks_json.specs.AreaText.{JsonText};
ghost use Rattle.luks_rules.specs.Accepted.{IsMeta};
ghost use Rattle.luks_wider.specs.Accepted.{IsWide};
ghost use Rattle.luks_wider.specs.Wide.{HasUnderWay, IsNarrowOf, IsWiderFault, IsWiderOf, wider_content, wider_len};
ghost use Rattle.luks_wider.specs.WideFaults.{no_memory, wide_key};

use crate::fault::WideFault;
use crate::underway::Underway;
use luks_contradictions::is_under_way;
use luks_json::{JsonFault, read_json};
use luks_meta::Meta;
use luks_rules::MetaFault;
use std::alloc::Global;

/// The metadata of a LUKS2 header.
#[derive(Drop)]
pub enum Wider {
    /// Nothing is under way in it.
    Narrow(Meta),
    /// A reencryption is under way, or the disk encrypts itself.
    Underway(Underway),
}

/// Reads the metadata of a JSON area, which is a listed header size less 4096 bytes long. If nothing is
/// under way it is what `Meta::read` answers.
///
/// Takes memory for one value at a time. `Memory` is answered only where it was refused; every other
/// fault is the first of the area.
pub fn read_wider(alloc: Global, area: &[u8]) -> Result<Wider, WideFault>
    ensures found { IfOk result (IsWiderOf area.now) }
    ensures length { IfOk result (λ w. wider_len w ≡ length area.now) }
    ensures narrow { (j : Data) → IsMeta area.now j
        → MatchResult result (λ w. IsNarrowOf w j) (λ f. f ≡ no_memory) }
    ensures accepted { (j : Data) → IsWide area.now j
        → MatchResult result (λ w. wider_content w ≡ j) (λ f. f ≡ no_memory) }
    ensures faultless { IfOk result (λ _. (f : WideFault) → IsWiderFault area.now f → ⊥) }
    ensures fault { IfErr result (λ f. f ≢ no_memory → IsLeast wide_key (IsWiderFault area.now) f) }
    ensures memory { IfErr result (λ f. f ≡ no_memory → (text : List ℕ) × JsonText area.now text) }
{
    if has_under_way(alloc, area)? {
        Ok(Wider::Underway(Underway::read(alloc, area)?))
    } else {
        Ok(Wider::Narrow(Meta::read(alloc, area)?))
    }
}

/// Whether the area holds a value in which something is under way. Fails only where memory was refused.
pub fn has_under_way(alloc: Global, area: &[u8]) -> Result<bool, WideFault>
    ensures is { IfOk result (λ is. is ≡ true → HasUnderWay area.now) }
    ensures other { IfOk result (λ is. is ≡ false → HasUnderWay area.now → ⊥) }
    ensures memory { IfErr result (λ f. f ≡ no_memory) }
    ensures text { IfErr result (λ _. (text : List ℕ) × JsonText area.now text) }
{
    match read_json(alloc, area) {
        Ok(value) => Ok(is_under_way(&value)),
        Err(JsonFault::Memory) => Err(WideFault::Meta(MetaFault::Memory)),
        Err(JsonFault::JsonArea) => Ok(false),
        Err(JsonFault::BadJson) => Ok(false),
    }
}
