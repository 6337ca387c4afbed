//! How many random bytes an edit of a LUKS2 volume takes.
ghost use Rattle.std.specs.Prelude.{◌≡◌, ◌≢◌, ◌+◌, ◌-◌, ◌*◌, ℕ, List, false, length, IfErr, IfOk};
ghost use Rattle.luks_edit.specs.EditFaults.{is_edit_failure};
ghost use Rattle.luks_meta.specs.Content.{content};
ghost use Rattle.luks_meta.specs.Objects.{IsAccepted};
ghost use Rattle.luks_reading.specs.Header.{IsAcceptedCopy, IsChosenCopy};
ghost use Rattle.luks_edit.specs.Asked.{MatchOpener};
ghost use Rattle.luks_edit.specs.NewUuids.{uuid_need};
ghost use Rattle.luks2_edit_laws.specs.Likes.{IsLike};
ghost use Rattle.luks2_edit_laws.specs.Refused.{IsUnkeyed2, NeedsLike};
ghost use Rattle.luks2_judging.specs.Keys.{IsAcceptedLike, IsThereLike};
ghost use Rattle.luks2_judging.specs.Needed.{TellsNeed2};

use crate::accepted::judge_without_key;
use crate::keys::own_volume_key;
use crate::keyslots::new_number;
use crate::room::FRESH_STRIPES;
use luks_edit::{Deed, Edit, EditFault, NewUuid, Opener, Place, uuid_need};
use luks_meta::Meta;
use luks_reading::{ChosenCopy, Data};
use luks2_edit_laws::Like;

/// The salts of both copies of the header.
const COPY_SALTS: u64 = 128;

/// The salt of a keyslot.
const KEYSLOT_SALT: u64 = 32;

/// How many random bytes the edit takes of the LUKS2 volume of `total` bytes with this copy, or
/// the first of `NotAccepted`, `Requirements`, `NoSuchSlot`, `SameSlot`, `SlotTaken` and `NoFreeSlot`;
/// before these last two of an addition by the volume key `KeyLength`, `WrongKey` and `Slot`.
///
/// Each edit takes 64 for the salt of each copy of the header; one that seals a keyslot takes 32
/// more for its salt, and for each of its stripes but the last as many as the volume key has; one that
/// makes a random uuid takes 16 more. No keyslot is opened, and no memory is taken.
pub fn needed_luks2(
    copy: &ChosenCopy,
    payload: Data,
    total: u64,
    edit: &Edit<'_>,
) -> Result<u64, EditFault>
    requires { IsAcceptedCopy copy.now }
    ensures own { IfErr result (λ f. is_edit_failure f ≡ false) }
    ensures memory { IfErr result (λ f. f ≢ EditFault.Memory) }
    ensures tells { (v : List ℕ) → IsChosenCopy v copy.now → length v ≡ total
        → TellsNeed2 payload v edit.now result }
{
    judge_without_key(copy, payload, total, edit)?;
    match edit.deed() {
        Deed::Seal(sealed) => match sealed.place {
            Place::New { opener, to } => {
                let like = like_by(&copy.meta, &opener)?;
                new_number(&copy.meta, to)?;
                Ok(sealed_need(&copy.meta, like))
            }
            Place::Opened { slot, secret: _ } => Ok(sealed_need(&copy.meta, Like::Keyslot(slot))),
        },
        Deed::Remove(_) => Ok(COPY_SALTS),
        Deed::Rewrite(rewritten) => Ok(rewritten_need(rewritten.uuid)),
        Deed::Erase => Ok(COPY_SALTS),
    }
}

/// What a new keyslot is made like: the keyslot of the opener, which is there and isn't opened, or by the
/// volume key what that asks for. Refused by `KeyLength`, `WrongKey`, `Slot`, of that alone.
fn like_by(meta: &Meta, opener: &Opener<'_>) -> Result<Like, EditFault>
    requires { IsAccepted (content meta.now) }
    ensures own { IfErr result (λ f. is_edit_failure f ≡ false) }
    ensures memory { IfErr result (λ f. f ≢ EditFault.Memory) }
    ensures is { IfOk result (IsLike (content meta.now) opener.now) }
    ensures accepted { IfOk result (IsAcceptedLike (content meta.now) opener.now) }
    ensures refused { IfErr result (λ f. MatchOpener opener.now (λ slot secret. ⊥)
        (λ key. IsUnkeyed2 key.allowed.older (content meta.now) key.bytes.now f)) }
{
    match opener {
        Opener::Keyslot { slot, secret: _ } => Ok(Like::Keyslot(*slot)),
        Opener::Key(key) => Ok(own_volume_key(meta, key)?.like),
    }
}

/// How many random bytes an edit takes that writes the header anew with this uuid, if one is given.
fn rewritten_need(uuid: Option<NewUuid<'_>>) -> u64
    ensures { result ≡ 64 + 64 + uuid_need uuid.entry }
{
    COPY_SALTS + uuid_need(uuid) as u64
}

/// How many random bytes an edit takes that seals a keyslot like this one, which is there.
pub fn sealed_need(meta: &Meta, like: Like) -> u64
    ensures { IsThereLike (content meta.now) like → NeedsLike (content meta.now) result like }
{
    match like {
        Like::Keyslot(n) => match meta.keyslot(n) {
            None => COPY_SALTS,
            Some(keyslot) => {
                let stripes = u64::from(keyslot.af.stripes.saturating_sub(1));
                COPY_SALTS + KEYSLOT_SALT + stripes * u64::from(keyslot.key_size)
            }
        },
        Like::Digest {
            number: _,
            key_bytes,
        } => COPY_SALTS + KEYSLOT_SALT + (FRESH_STRIPES - 1) * u64::from(key_bytes),
    }
}
