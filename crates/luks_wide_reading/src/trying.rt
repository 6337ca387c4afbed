//! Trying the keyslots of a volume in whose metadata something is under way, in their order.
ghost use Rattle.std.specs.Prelude.{◌≡◌, ◌≢◌, ◌+◌, ◌^◌, ◌<◌, ℕ, List, length, IfOk, IfErr, IfSome};
ghost use Rattle.luks_area.specs.Device.{CountsFailure, IsUnchanged};
ghost use Rattle.luks_json.specs.AreaText.{Json};
ghost use Rattle.luks_meta.specs.Says.{priority_field};
ghost use Rattle.luks_reading.specs.Failures.{is_open_failure};
ghost use Rattle.luks_reading.specs.PlanAnswers.{IsOfDevice};
ghost use Rattle.luks_reading.specs.Plans.{HasLuks2KeyBytes};
ghost use Rattle.luks_wider.specs.Underways.{content};
ghost use Rattle.luks_wide_reading.specs.Trying.{is_of_rank, is_ranked, passed_over, rank_order, underway_order, IsUnderwayTrial, IsUnderwayUnlocking};

use crate::copy::UnderwayCopy;
use crate::open_fault::WideOpenFault;
use crate::opening::try_underway_slot;
use luks_reading::{Allowed, Device, Key, Nearest, OpenFault};
use luks_underway::WideKeyslot;
use std::alloc::Global;

/// When a keyslot is tried.
#[derive(Clone, Copy)]
pub(crate) enum Rank {
    /// Of priority 2: before all others.
    Preferred,
    /// Of priority 1 or none: after those.
    Normal,
}

/// Tries the keyslots of a volume with this copy in their order, except for those that hold no key: the first
/// that opens by the passphrase, and its volume key, or None where none does.
///
/// A keyslot with a refusal of its own is passed over. `Device` comes exactly where a device call failed;
/// memory is taken for Argon2 alone. How near the passphrase came is noted in `nearest`. No clause speaks of
/// `nearest`.
pub fn try_underway<D: Device>(
    alloc: Global,
    device: &mut D,
    copy: &UnderwayCopy,
    passphrase: &[u8],
    allowed: Allowed,
    nearest: &mut Option<Nearest>,
) -> Result<Option<(u8, Key)>, OpenFault>
    requires room { D.failed device.old + 1 < 2 ^ 64 }
    requires passphrase { 0 < allowed.memory → length passphrase.now < 2 ^ 32 }
    ensures unchanged { IsUnchanged D.tells D.size D.bytes D.unsettled device.old device.new }
    ensures count { CountsFailure is_open_failure result
        (D.failed device.old) (D.failed device.new) }
    ensures answers { (json : List ℕ) → Json json (content copy.now.meta)
        → IsUnderwayUnlocking D.tells (D.size device.old) (D.bytes device.old) json
        allowed passphrase.now (underway_order (content copy.now.meta)) result }
    ensures key_bytes { IfOk result (λ found.
        IfSome found (λ opened. HasLuks2KeyBytes (content copy.now.meta) opened.0 (length opened.1))) }
    ensures kinds { IfErr result IsOfDevice }
    ensures no_memory { allowed.memory ≡ 0 → IfErr result (λ f. f ≢ OpenFault.Memory) }
{
    match try_rank(
        alloc,
        device,
        copy,
        Rank::Preferred,
        passphrase,
        allowed,
        nearest,
    ) {
        Ok(Some(found)) => Ok(Some(found)),
        Ok(None) => try_rank(
            alloc,
            device,
            copy,
            Rank::Normal,
            passphrase,
            allowed,
            nearest,
        ),
        Err(fault) => Err(fault),
    }
}

/// Tries the keyslots of the rank by number.
fn try_rank<D: Device>(
    alloc: Global,
    device: &mut D,
    copy: &UnderwayCopy,
    rank: Rank,
    passphrase: &[u8],
    allowed: Allowed,
    nearest: &mut Option<Nearest>,
) -> Result<Option<(u8, Key)>, OpenFault>
    requires room { D.failed device.old + 1 < 2 ^ 64 }
    requires passphrase { 0 < allowed.memory → length passphrase.now < 2 ^ 32 }
    ensures unchanged { IsUnchanged D.tells D.size D.bytes D.unsettled device.old device.new }
    ensures count { CountsFailure is_open_failure result
        (D.failed device.old) (D.failed device.new) }
    ensures answers { (json : List ℕ) → Json json (content copy.now.meta)
        → IsUnderwayUnlocking D.tells (D.size device.old) (D.bytes device.old) json
        allowed passphrase.now (rank_order rank (content copy.now.meta)) result }
    ensures key_bytes { IfOk result (λ found.
        IfSome found (λ opened. HasLuks2KeyBytes (content copy.now.meta) opened.0 (length opened.1))) }
    ensures kinds { IfErr result IsOfDevice }
    ensures no_memory { allowed.memory ≡ 0 → IfErr result (λ f. f ≢ OpenFault.Memory) }
{
    for n in 0..32 {
        if is_of_rank(copy, rank, n) {
            match try_one(alloc, device, copy, n, passphrase, allowed, nearest) {
                Ok(Some(key)) => return Ok(Some((n, key))),
                Ok(None) => {}
                Err(fault) => return Err(fault),
            }
        }
    }
    Ok(None)
}

/// Whether the keyslot holds a key, and is tried in the rank.
fn is_of_rank(copy: &UnderwayCopy, rank: Rank, n: u8) -> bool
    requires { n < 32 }
    ensures { result ≡ is_of_rank rank (content copy.now.meta) n }
{
    match copy.meta.keyslot(n) {
        Some(WideKeyslot::Luks2(keyslot)) => is_ranked(rank, keyslot.priority),
        Some(WideKeyslot::Reencrypt(_)) => false,
        None => false,
    }
}

/// Whether a keyslot of this priority is tried in the rank.
fn is_ranked(rank: Rank, priority: Option<u8>) -> bool
    ensures { result ≡ is_ranked rank (priority_field priority) }
{
    match (rank, priority) {
        (Rank::Preferred, Some(2)) => true,
        (Rank::Normal, None | Some(1)) => true,
        _ => false,
    }
}

/// Tries the keyslot: a refusal of its own is passed over.
fn try_one<D: Device>(
    alloc: Global,
    device: &mut D,
    copy: &UnderwayCopy,
    n: u8,
    passphrase: &[u8],
    allowed: Allowed,
    nearest: &mut Option<Nearest>,
) -> Result<Option<Key>, OpenFault>
    requires room { D.failed device.old + 1 < 2 ^ 64 }
    requires passphrase { 0 < allowed.memory → length passphrase.now < 2 ^ 32 }
    ensures unchanged { IsUnchanged D.tells D.size D.bytes D.unsettled device.old device.new }
    ensures count { CountsFailure is_open_failure result
        (D.failed device.old) (D.failed device.new) }
    ensures answers { (json : List ℕ) → Json json (content copy.now.meta)
        → IsUnderwayTrial D.tells (D.size device.old) (D.bytes device.old) json
        allowed n passphrase.now result }
    ensures key_bytes { IfOk result
        (λ found. IfSome found (λ key. HasLuks2KeyBytes (content copy.now.meta) n (length key))) }
    ensures kinds { IfErr result IsOfDevice }
    ensures no_memory { allowed.memory ≡ 0 → IfErr result (λ f. f ≢ OpenFault.Memory) }
{
    match try_underway_slot(alloc, device, copy, n, passphrase, allowed, nearest) {
        Ok(found) => Ok(found),
        Err(fault) => passed_over(fault),
    }
}

/// What trying a keyslot that is refused gives: a fault of its own is passed over.
fn passed_over(fault: WideOpenFault) -> Result<Option<Key>, OpenFault>
    ensures { result ≡ passed_over fault }
{
    match fault {
        WideOpenFault::Open(OpenFault::Device) => Err(OpenFault::Device),
        WideOpenFault::Open(OpenFault::Memory) => Err(OpenFault::Memory),
        _ => Ok(None),
    }
}
