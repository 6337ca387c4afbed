//! Whether a keyslot is the last one that gives its key.
ghost use Rattle.std.specs.Prelude.{◌≡◌, false, IfOk, IsTrue};
ghost use Rattle.luks_making.specs.Naming.{IsDigestOf};
ghost use Rattle.luks_meta.specs.Content.{content};
ghost use Rattle.luks2_edit_laws.specs.Metadata.{IsInUse, IsKeyArea};
ghost use Rattle.luks2_edit_laws.specs.Refused.{IsOnlyOne};
ghost use Rattle.luks2_judging.specs.Judged.{IsOnlyName, Judges};

use crate::keyslots::key_area;
use luks_area::Area;
use luks_edit::EditFault;
use luks_meta::Meta;

/// The area of the keyslot to remove, which is there, where another one gives its key too. Refused by
/// `LastSlot`.
pub(crate) fn judge_removal(meta: &Meta, slot: u8) -> Result<Area, EditFault>
    requires { IsInUse (content meta.now) slot }
    ensures area { IfOk result (IsKeyArea (content meta.now) slot) }
    ensures row { Judges (IsOnlyOne (content meta.now) slot) EditFault.LastSlot result }
{
    if is_only_one(meta, slot) {
        return Err(EditFault::LastSlot);
    }
    Ok(key_area(meta, slot))
}

/// Whether the digest that names the keyslot names no other one.
fn is_only_one(meta: &Meta, slot: u8) -> bool
    ensures only { IsTrue result → IsOnlyOne (content meta.now) slot }
    ensures other { result ≡ false → IsOnlyOne (content meta.now) slot → ⊥ }
{
    match meta.digest_of_keyslot(slot) {
        Some(digest) => is_only_name(meta, digest, slot),
        None => false,
    }
}

/// Whether the digest names no keyslot but this one.
fn is_only_name(meta: &Meta, digest: u8, slot: u8) -> bool
    ensures only { IsTrue result → IsOnlyName (content meta.now) digest slot }
    ensures other { result ≡ false → IsOnlyName (content meta.now) digest slot → ⊥ }
{
    for n in 0..32 {
        if n != slot && is_named(meta, digest, n) {
            return false;
        }
    }
    true
}

/// Whether the digest names the keyslot.
fn is_named(meta: &Meta, digest: u8, n: u8) -> bool
    ensures named { IsTrue result → IsDigestOf (content meta.now) n digest }
    ensures unnamed { result ≡ false → IsDigestOf (content meta.now) n digest → ⊥ }
{
    match meta.digest_of_keyslot(n) {
        Some(m) => m == digest,
        None => false,
    }
}
