//! A keyslot that is made with the members of another.

ghost use Rattle.std.specs.Prelude.{◌≡◌, ◌<◌, IfOk};
ghost use Rattle.serde_json.specs.Data.{Data};
ghost use Rattle.serde_json.specs.View.{view};
ghost use Rattle.luks_making.specs.Conditions.{IsThere};
ghost use Rattle.luks_making.specs.Keyslots.{IsDerivedLike, IsDerivedOr, IsMadeFrom, derivation_of, new_members, slot_members};
ghost use Rattle.luks_making.specs.Naming.{HasUniqueDigests};
ghost use Rattle.luks_making.specs.With.{IsAdded};
ghost use Rattle.luks_meta.specs.Content.{content};
ghost use Rattle.luks_new_meta.specs.Made.{IsMadeLike};
ghost use Rattle.luks_meta.specs.Says.{TellsCost, TellsKeyslot};

use luks_making::{
    Argon2Costs, AskedDerivation, KeyslotDerivation, New, NewKeyslot, slot_value, with_slot,
};
use luks_meta::{Argon2, Cost, Keyslot, Meta};
use serde_json::Value;
use std::alloc::{AllocError, Global};

/// The same costs of Argon2.
fn same_costs(costs: Argon2) -> Argon2Costs
    ensures { result ≡ record { time = costs.time; memory = costs.memory; cpus = costs.cpus } }
{
    Argon2Costs {
        time: costs.time,
        memory: costs.memory,
        cpus: costs.cpus,
    }
}

/// The same derivation, by so many iterations where it is PBKDF2.
fn derived_like<'a>(cost: &Cost<'a>, iterations: u32) -> KeyslotDerivation<'a>
    ensures { (d : Data) → TellsCost d cost.now → IsDerivedLike d iterations (derivation_of result) }
{
    match *cost {
        Cost::Pbkdf2(pbkdf2) => KeyslotDerivation::Pbkdf2 {
            hash: pbkdf2.hash,
            iterations,
        },
        Cost::Argon2i(costs) => KeyslotDerivation::Argon2i(same_costs(costs)),
        Cost::Argon2id(costs) => KeyslotDerivation::Argon2id(same_costs(costs)),
    }
}

/// The derivation of a keyslot that is made with the members of another: the one that is chosen, or the
/// same.
fn derived_as<'a>(keyslot: &Keyslot<'a>, asked: &AskedDerivation) -> KeyslotDerivation<'a>
    ensures { (d : Data) → TellsKeyslot d keyslot.now → IsDerivedOr d asked.now.iterations
        keyslot.now.af.hash.now asked.now.chosen (derivation_of result) }
{
    match &asked.chosen {
        None => derived_like(&keyslot.kdf.cost, asked.iterations),
        Some(chosen) => KeyslotDerivation::of_chosen(chosen, keyslot.af.hash),
    }
}

/// A keyslot with the members of another, except for what is new.
fn made_from<'a>(keyslot: &Keyslot<'a>, new: &New<'a>) -> NewKeyslot<'a>
    ensures { (d : Data) → TellsKeyslot d keyslot.now
        → IsMadeFrom d (new_members new.now) (slot_members result) }
{
    NewKeyslot {
        key_size: keyslot.key_size,
        stripes: keyslot.af.stripes,
        splitter_hash: keyslot.af.hash,
        offset: new.offset,
        size: new.size,
        encryption: keyslot.area.encryption,
        area_key_size: keyslot.area.key_size,
        derivation: derived_as(keyslot, &new.derivation),
        salt: new.salt,
    }
}

/// The value of a keyslot with the members of the keyslot `by`, except for what is new.
fn made_value(alloc: Global, meta: &Meta, by: u8, new: &New<'_>) -> Result<Value, AllocError>
    requires { IsThere (content meta.now) by }
    ensures { IfOk result (λ v.
        IsMadeLike by (new_members new.now) (content meta.now) (view v)) }
{
    let from = meta.keyslot(by).unwrap();
    let keyslot = made_from(&from, new);
    slot_value(alloc, &keyslot)
}

/// The value with the keyslot `to`, which is made with the members of the keyslot `by` except for what is
/// new, and named by its digest. The metadata is given up.
pub(crate) fn added(
    alloc: Global,
    meta: Meta,
    to: u8,
    by: u8,
    new: &New<'_>,
) -> Result<Value, AllocError>
    requires to { to < 32 }
    requires by { IsThere (content meta) by }
    ensures added { IfOk result (λ v. IsAdded to by (new_members new.now) (content meta) (view v)) }
    ensures unique { HasUniqueDigests (content meta) }
{
    let digest = meta.digest_of_keyslot(by).unwrap();
    let keyslot = made_value(alloc, &meta, by, new)?;
    with_slot(alloc, meta.into_value(), to, digest, keyslot)
}
