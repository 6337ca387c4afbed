//! By what a reencryption that broke off is mended.

ghost use Rattle.std.specs.Prelude.{◌≡◌, codes, Some, IfSome, IsSome};
ghost use Rattle.serde_json.specs.View.{view};
ghost use Rattle.luks_rules.specs.Faults.{type_at};
ghost use Rattle.luks_underway.specs.Reencryptions.{HasChecksum, HasShift, IsResilience, TellsChecksum, TellsResilience};

use crate::member::{has_type, shift_at, unit_at};
use luks_json::text_in;
use luks_rules::{Member, Outer, member_at};
use serde_json::Value;

/// How checksums of the part in hand are taken.
#[derive(Clone, Copy)]
pub struct Checksum<'a> {
    /// The name of the hash, as the metadata writes it.
    pub hash: &'a str,
    /// How many bytes each covers, a power of two from 512 on.
    pub sector_size: u32,
}

/// What is kept of the part in hand (LUKS2 On-Disk Format 1.1, 3.2.3 and 4.9).
#[derive(Clone, Copy)]
pub enum Resilience<'a> {
    /// The type `none`: nothing, so that what broke off can't be mended.
    Nothing,
    /// The type `journal`: the part as it was.
    Journal,
    /// The type `checksum`: checksums of the part as it was.
    Checksum(Checksum<'a>),
    /// The type `datashift`: the data moves by so many bytes, and what it moves from stays.
    Datashift(u64),
    /// The type `datashift-journal`: the same, with a journal of the last part.
    DatashiftJournal(u64),
    /// The type `datashift-checksum`: the same, with checksums of the last part.
    DatashiftChecksum(Checksum<'a>, u64),
}

/// What the area of a keyslot of the type `reencrypt` is kept for; none where a member breaks its rule.
pub(crate) fn read_resilience(object: &Value) -> Option<Resilience<'_>>
    ensures tells { IfSome result (λ k. TellsResilience (view object.now) k) }
    ensures there { IsResilience (view object.now) → IsSome result }
{
    if has_type(object, Outer::Area, "none") {
        return Some(Resilience::Nothing);
    }
    if has_type(object, Outer::Area, "journal") {
        return Some(Resilience::Journal);
    }
    if has_type(object, Outer::Area, "checksum") {
        return Some(Resilience::Checksum(read_checksum(object)?));
    }
    read_datashift(object)
}

fn read_datashift(object: &Value) -> Option<Resilience<'_>>
    ensures tells { IfSome result (λ k. TellsResilience (view object.now) k) }
    ensures plain { type_at (view object.now) Outer.Area ≡ Some (codes "datashift") → HasShift (view object.now) → IsSome result }
    ensures journal { type_at (view object.now) Outer.Area ≡ Some (codes "datashift-journal") → HasShift (view object.now) → IsSome result }
    ensures checksum { type_at (view object.now) Outer.Area ≡ Some (codes "datashift-checksum") → HasShift (view object.now) → HasChecksum (view object.now) → IsSome result }
{
    let shift = shift_at(object)?;
    if has_type(object, Outer::Area, "datashift") {
        return Some(Resilience::Datashift(shift));
    }
    if has_type(object, Outer::Area, "datashift-journal") {
        return Some(Resilience::DatashiftJournal(shift));
    }
    if !has_type(object, Outer::Area, "datashift-checksum") {
        return None;
    }
    Some(Resilience::DatashiftChecksum(read_checksum(object)?, shift))
}

fn read_checksum(object: &Value) -> Option<Checksum<'_>>
    ensures tells { IfSome result (λ k. TellsChecksum (view object.now) k) }
    ensures there { HasChecksum (view object.now) → IsSome result }
{
    let hash = text_in(member_at(object, Outer::Area, Member::Hash))?;
    let sector_size = unit_at(object)?;
    Some(Checksum { hash, sector_size })
}
