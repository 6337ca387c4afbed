//! The new metadata of an edit of a LUKS2 volume that seals a keyslot, made before its first write.
ghost use Rattle.std.specs.Prelude.{◌≡◌, ◌↔◌, ◌+◌, ◌^◌, ◌<◌, ◌≤◌, ℕ, List, false, length, IfErr, IfOk, IsTrue, OnOk};
ghost use Rattle.luks2_header.specs.Header2.{hdr_size, header_at};
ghost use Rattle.luks_making.specs.Conditions.{CanSeal, IsThere, IsFree};
ghost use Rattle.luks_making.specs.Derivations.{IsPositive};
ghost use Rattle.luks_making.specs.Keyslots.{new_members, slot_members};
ghost use Rattle.luks_making.specs.WrittenArea.{IsWrittenArea};
ghost use Rattle.luks_meta.specs.Content.{area_len, content};
ghost use Rattle.luks_reading.specs.declared.report.Data.{Data as Payload};
ghost use Rattle.luks_edit.specs.EditFaults.{is_edit_failure};
ghost use Rattle.luks_edit.specs.declared.edit.Edit.{Edit as TheEdit};
ghost use Rattle.luks2_edit_laws.specs.Edited.{keyslot_salt, members_of, IsEdited};
ghost use Rattle.luks2_edit_laws.specs.declared.like.Like.TheVariants.{Digest, Keyslot};
ghost use Rattle.luks2_edit_laws.specs.Likes.{fresh_members};
ghost use Rattle.luks2_edit_laws.specs.Refused.{IsUnrefused2, NeedsLike};
ghost use Rattle.luks2_judging.specs.Room.{IsPlaced};
ghost use Rattle.luks2_editing.specs.MadeMetadata.{like_of, CanMake, CanSealLike, IsThereLike, HasDigest, HasNumber, IsGained, IsMadeBy, IsSealedAgain, IsSealingEdit};
ghost use Rattle.luks2_editing.specs.Prepared.{AreCopiesWithin};
ghost use Rattle.luks2_editing.specs.Replies.{EndsBy2};

use crate::preparing::prepared;
use crate::random::keyslot_salt;
use luks_area::Area;
use luks_edit::{EditFault, chosen_or};
use luks_making::{AskedDerivation, KeyslotDerivation, New, NewKeyslot, new_fits};
use luks_meta::Meta;
use luks_new_meta::{changed_slot, with_new_slot, with_slot};
use luks_reading::ChosenCopy;
use luks2_edit_laws::Like;
use luks2_judging::sealed_need;
use std::alloc::Global;

/// The keyslot that an edit seals.
#[derive(Clone, Copy)]
pub(crate) enum SealedSlot {
    /// A new one of this number, made like this one.
    Made { slot: u8, like: Like },
    /// One that is there, sealed again.
    Renewed { slot: u8 },
}

impl SealedSlot {
    /// The keyslot like which it is made.
    fn like(self) -> Like
        ensures { result ≡ like_of self }
    {
        match self {
            SealedSlot::Made { slot: _, like } => like,
            SealedSlot::Renewed { slot } => Like::Keyslot(slot),
        }
    }
}

/// A keyslot that an edit seals, and what is new of it beside its salt.
#[derive(Clone, Copy)]
pub(crate) struct Sealing {
    pub(crate) keyslot: SealedSlot,
    /// How it derives.
    pub(crate) derivation: AskedDerivation,
    /// Its area.
    pub(crate) area: Area,
}

/// The metadata that an edit makes, and the JSON area with it.
#[derive(Drop)]
pub(crate) struct NewMetadata {
    pub(crate) meta: Meta,
    pub(crate) json: Vec<u8>,
}

/// The metadata with the keyslot, whose salt is that of the random bytes, and the JSON area with it:
/// once there is a next sequence number, the text leaves a zero byte in the area, and the random
/// bytes are as many as are needed. The keyslot like which it is sealed was opened.
///
/// Refused by `SeqExhausted`, `MetadataFull` or `RandomLength`. The old metadata is given up for the
/// new. Takes memory for what is new and the JSON area.
pub(crate) fn new_metadata(
    alloc: Global,
    copy: ChosenCopy,
    sealing: &Sealing,
    random: &[u8],
    total: u64,
) -> Result<NewMetadata, EditFault>
    requires number { HasNumber (content copy.meta) sealing.now.keyslot }
    requires positive { IsPositive sealing.now.derivation }
    requires placed { IsPlaced (area_len copy.meta) (content copy.meta) total
        (like_of sealing.now.keyslot) sealing.now.area }
    ensures made { IfOk result (λ m. IsMadeBy sealing.now.keyslot
        (members_of sealing.now.derivation (keyslot_salt random.now) sealing.now.area)
        (content copy.meta) (content m.meta)) }
    ensures length { IfOk result (λ m. area_len m.meta ≡ area_len copy.meta) }
    ensures json { IfOk result (λ m.
        IsWrittenArea (area_len m.meta) (content m.meta) m.json.items) }
    ensures within { IfOk result (λ m. AreCopiesWithin copy.header (area_len m.meta) total) }
    ensures numbered { OnOk result (copy.header.seqid + 1 < 2 ^ 64) }
    ensures counted { OnOk result (NeedsLike (content copy.meta) (length random.now)
        (like_of sealing.now.keyslot)) }
    ensures own { IfErr result (λ f. is_edit_failure f ≡ false) }
    ensures unrefused { (v : List ℕ) (payload : Payload) (e : TheEdit)
        → IsSealingEdit v payload e random.now copy sealing.now → length v ≡ total
        → OnOk result (IsUnrefused2 v payload e random.now) }
    ensures edited { (v : List ℕ) (payload : Payload) (e : TheEdit)
        → IsSealingEdit v payload e random.now copy sealing.now → length v ≡ total
        → IfOk result (λ m. IsEdited (hdr_size (header_at v copy.header.hdr_offset))
        (length v) payload e (keyslot_salt random.now) (content copy.meta) (content m.meta)) }
    ensures refused { (v : List ℕ) (payload : Payload) (e : TheEdit)
        → IsSealingEdit v payload e random.now copy sealing.now → length v ≡ total
        → IfErr result (λ f. EndsBy2 payload v e random.now f v) }
{
    let like = sealing.keyslot.like();
    if !is_there_like(&copy.meta, like) {
        return Err(EditFault::NoSuchSlot);
    }
    let salt = keyslot_salt(random);
    let new = New {
        derivation: sealing.derivation,
        salt: &salt,
        offset: sealing.area.start,
        size: sealing.area.len,
    };
    new_fits(&new);
    let need = sealed_need(&copy.meta, like) as usize;
    let header = copy.header;
    let meta = made_metadata(alloc, copy.meta, sealing.keyslot, &new)?;
    let json = prepared(alloc, &header, &meta, random, need, total)?;
    Ok(NewMetadata { meta, json })
}

/// Whether the keyslot is there, if it is one.
fn is_there_like(meta: &Meta, like: Like) -> bool
    ensures { IsTrue result ↔ IsThereLike (content meta.now) like }
{
    match like {
        Like::Keyslot(n) => n < 32 && is_there(meta, n),
        Like::Digest { number, .. } => number < 32 && has_digest(meta, number),
    }
}

/// Whether the digest is there.
fn has_digest(meta: &Meta, number: u8) -> bool
    requires { number < 32 }
    ensures { IsTrue result ↔ HasDigest (content meta.now) number }
{
    match meta.digest(number) {
        Some(_) => true,
        None => false,
    }
}

/// Whether the keyslot is there.
fn is_there(meta: &Meta, n: u8) -> bool
    requires { n < 32 }
    ensures { IsTrue result ↔ IsThere (content meta.now) n }
{
    match meta.keyslot(n) {
        Some(_) => true,
        None => false,
    }
}

/// The metadata with the keyslot, or `Memory`.
fn made_metadata(
    alloc: Global,
    meta: Meta,
    keyslot: SealedSlot,
    new: &New<'_>,
) -> Result<Meta, EditFault>
    requires number { HasNumber (content meta) keyslot }
    requires suits { CanSealLike (area_len meta) (content meta) (like_of keyslot)
        (new_members new.now) }
    ensures made { IfOk result (λ m.
        IsMadeBy keyslot (new_members new.now) (content meta) (content m)) }
    ensures length { IfOk result (λ m. area_len m ≡ area_len meta) }
    ensures memory { IfErr result (λ f. f ≡ EditFault.Memory) }
{
    match keyslot {
        SealedSlot::Made { slot, like } => gained(alloc, meta, slot, like, new),
        SealedSlot::Renewed { slot } => renewed(alloc, meta, slot, new),
    }
}

/// The metadata with a new keyslot, or `Memory`.
fn gained(alloc: Global, meta: Meta, slot: u8, like: Like, new: &New<'_>) -> Result<Meta, EditFault>
    requires number { IsFree (content meta) slot }
    requires suits { CanSealLike (area_len meta) (content meta) like (new_members new.now) }
    ensures made { IfOk result (λ m.
        IsGained slot like (new_members new.now) (content meta) (content m)) }
    ensures length { IfOk result (λ m. area_len m ≡ area_len meta) }
    ensures memory { IfErr result (λ f. f ≡ EditFault.Memory) }
{
    match like {
        Like::Keyslot(by_) => gained_like(alloc, meta, slot, by_, new),
        Like::Digest { number, key_bytes } => {
            gained_fresh(alloc, meta, slot, number, key_bytes, new)
        }
    }
}

/// The metadata with a new keyslot that has the members of the keyslot `by_`.
fn gained_like(
    alloc: Global,
    meta: Meta,
    slot: u8,
    by_: u8,
    new: &New<'_>,
) -> Result<Meta, EditFault>
    requires number { IsFree (content meta) slot }
    requires suits { CanSeal (area_len meta) (content meta) by_ (new_members new.now) }
    ensures made { IfOk result (λ m.
        IsGained slot (Keyslot by_) (new_members new.now) (content meta) (content m)) }
    ensures length { IfOk result (λ m. area_len m ≡ area_len meta) }
    ensures memory { IfErr result (λ f. f ≡ EditFault.Memory) }
{
    new_fits(new);
    match with_slot(alloc, meta, slot, by_, new) {
        Ok(made) => Ok(made),
        Err(_) => Err(EditFault::Memory),
    }
}

/// The metadata with a new keyslot as a new volume has it, for the digest and a key of so many bytes.
fn gained_fresh(
    alloc: Global,
    meta: Meta,
    slot: u8,
    digest: u8,
    key_bytes: u8,
    new: &New<'_>,
) -> Result<Meta, EditFault>
    requires number { IsFree (content meta) slot }
    requires suits { CanMake (area_len meta) (content meta) digest key_bytes (new_members new.now) }
    ensures made { IfOk result (λ m.
        IsGained slot (Digest digest key_bytes) (new_members new.now) (content meta) (content m)) }
    ensures length { IfOk result (λ m. area_len m ≡ area_len meta) }
    ensures memory { IfErr result (λ f. f ≡ EditFault.Memory) }
{
    new_fits(new);
    match with_new_slot(alloc, meta, slot, digest, &fresh_keyslot(key_bytes, new)) {
        Ok(made) => Ok(made),
        Err(_) => Err(EditFault::Memory),
    }
}

/// The keyslot of a new volume with a key of so many bytes, except for what is new.
fn fresh_keyslot<'a>(key_bytes: u8, new: &New<'a>) -> NewKeyslot<'a>
    ensures { slot_members result ≡ fresh_members key_bytes (new_members new.now) }
{
    let chosen = chosen_or(new.derivation.iterations, new.derivation.chosen);
    NewKeyslot {
        key_size: key_bytes,
        stripes: 4000,
        splitter_hash: "sha256",
        offset: new.offset,
        size: new.size,
        encryption: "aes-xts-plain64",
        area_key_size: 64,
        derivation: KeyslotDerivation::of_chosen(&chosen, "sha256"),
        salt: new.salt,
    }
}

/// The metadata with what is new in the keyslot, or `Memory`.
fn renewed(alloc: Global, meta: Meta, slot: u8, new: &New<'_>) -> Result<Meta, EditFault>
    requires { CanSeal (area_len meta) (content meta) slot (new_members new.now) }
    ensures made { IfOk result (λ m.
        IsSealedAgain slot (new_members new.now) (content meta) (content m)) }
    ensures length { IfOk result (λ m. area_len m ≡ area_len meta) }
    ensures memory { IfErr result (λ f. f ≡ EditFault.Memory) }
{
    new_fits(new);
    match changed_slot(alloc, meta, slot, new) {
        Ok(made) => Ok(made),
        Err(_) => Err(EditFault::Memory),
    }
}
