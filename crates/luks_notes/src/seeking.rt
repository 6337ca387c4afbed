//! What is found of some copies of a header, where what may be hashed for it is counted.
ghost use Rattle.std.specs.Prelude.{◌≡◌, ◌↔◌, ◌+◌, ◌^◌, ◌<◌, ◌≤◌, ◌⊎◌, IfOk, IfSome, IsTrue, true, false};
ghost use Rattle.luks_area.specs.Device.{CountsFailure, IsUnchanged};
ghost use Rattle.luks2_header.specs.Sizes.{IsListed};
ghost use Rattle.luks_rebuilding.specs.RebuildFaults.{is_rebuild_failure};
ghost use Rattle.luks_vouching.specs.Vouched.{Stands};
ghost use Rattle.luks_notes.specs.Hashed.{CountsSearch, IsOfCommand};

use crate::hashing::Hashing;
use crate::told::Told;
use crate::untried::say_unsought;
use luks_area::Device;
use luks_rebuilding::{Copies, RebuildFault, Untold, Which, find_candidate, find_plain};
use luks_vouching::standing_header;
use std::alloc::Global;
use std::io::Write;

/// What came of a search for the candidate of some copies.
#[derive(Drop)]
pub(crate) struct Search {
    /// What was found, if there is anything.
    pub(crate) found: Option<Told>,
    /// What checksums vouch for was sought: else what was found is the first that is whole.
    pub(crate) is_made: bool,
}

impl Search {
    /// Whether it was made and no checksum vouches for what was found: then it is said of which copies not all was
    /// tried.
    pub(crate) fn is_in_doubt(&self) -> bool {
        self.is_made && !self.is_vouched()
    }

    /// Whether something was found, and a checksum vouches for it.
    fn is_vouched(&self) -> bool {
        match &self.found {
            Some(told) => told.is_vouched,
            None => false,
        }
    }
}

/// Seeks the candidate of these copies. If less is left of what may be hashed than this search may hash, it isn't
/// made, and standard error says so.
pub(crate) fn sought<D: Device, E: Write>(
    alloc: Global,
    device: &mut D,
    which: Which,
    hashing: &mut Hashing,
    err: &mut E,
) -> Result<Search, RebuildFault>
    requires room { D.failed device.old + 1 < 2 ^ 64 }
    requires of_command { IsOfCommand hashing.old }
    ensures unchanged { IsUnchanged D.tells D.size D.bytes D.unsettled device.old device.new }
    ensures count { CountsFailure is_rebuild_failure result
        (D.failed device.old) (D.failed device.new) }
    ensures of_command { IsOfCommand hashing.new }
    ensures hashed { CountsSearch which.effort hashing.old hashing.new ⊎ (hashing.new ≡ hashing.old) }
    ensures more { hashing.old.hashed ≤ hashing.new.hashed }
    ensures made { IfOk result (λ search. search.is_made ≡ true
        → CountsSearch which.effort hashing.old hashing.new) }
    ensures unmade { IfOk result (λ search. search.is_made ≡ false → hashing.new ≡ hashing.old) }
    ensures vouched { IfOk result (λ search. IfSome search.found (λ told. told.is_vouched ≡ true
        → CountsSearch which.effort hashing.old hashing.new)) }
{
    let is_made = hashing.take(which.effort);
    let found = if is_made {
        candidate_of(alloc, device, which)?
    } else {
        say_unsought(which.copies, err);
        whole_of(alloc, device, which.copies)?
    };
    Ok(Search { found, is_made })
}

/// The candidate of these copies, if there is one.
fn candidate_of<D: Device>(
    alloc: Global,
    device: &mut D,
    which: Which,
) -> Result<Option<Told>, RebuildFault>
    requires { D.failed device.old + 1 < 2 ^ 64 }
    ensures unchanged { IsUnchanged D.tells D.size D.bytes D.unsettled device.old device.new }
    ensures count { CountsFailure is_rebuild_failure result
        (D.failed device.old) (D.failed device.new) }
{
    match find_candidate(alloc, device, which, &mut Untold) {
        Ok(found) => Ok(Some(Told::of(found))),
        Err(RebuildFault::NoMetadata) => Ok(None),
        Err(fault) => Err(fault),
    }
}

/// What is whole of these copies, if there is anything. Nothing is sought that checksums vouch for.
pub(crate) fn whole_of<D: Device>(
    alloc: Global,
    device: &mut D,
    copies: Copies,
) -> Result<Option<Told>, RebuildFault>
    requires { D.failed device.old + 1 < 2 ^ 64 }
    ensures unchanged { IsUnchanged D.tells D.size D.bytes D.unsettled device.old device.new }
    ensures count { CountsFailure is_rebuild_failure result
        (D.failed device.old) (D.failed device.new) }
    ensures unvouched { IfOk result (λ found. IfSome found (λ told. told.is_vouched ≡ false)) }
{
    match find_plain(alloc, device, copies) {
        Ok(found) => Ok(Some(Told::of(found))),
        Err(RebuildFault::NoMetadata) => Ok(None),
        Err(fault) => Err(fault),
    }
}

/// Whether a copy of a header of this size stands: of others its checksums vouch for nothing, and nothing is hashed.
pub(crate) fn has_standing<D: Device>(device: &mut D, size: u64) -> Result<bool, RebuildFault>
    requires listed { IsListed size }
    requires room { D.failed device.old + 1 < 2 ^ 64 }
    ensures unchanged { IsUnchanged D.tells D.size D.bytes D.unsettled device.old device.new }
    ensures count { CountsFailure is_rebuild_failure result
        (D.failed device.old) (D.failed device.new) }
    ensures stands { D.tells → IfOk result (λ is. IsTrue is
        ↔ (Stands (D.bytes device.old) size 0 ⊎ Stands (D.bytes device.old) size size)) }
{
    if is_standing(device, size, 0)? {
        return Ok(true);
    }
    is_standing(device, size, size)
}

/// Whether the copy at `at` of a header of this size stands.
fn is_standing<D: Device>(device: &mut D, size: u64, at: u64) -> Result<bool, RebuildFault>
    requires listed { IsListed size }
    requires half { (at ≡ 0) ⊎ (at ≡ size) }
    requires room { D.failed device.old + 1 < 2 ^ 64 }
    ensures unchanged { IsUnchanged D.tells D.size D.bytes D.unsettled device.old device.new }
    ensures count { CountsFailure is_rebuild_failure result
        (D.failed device.old) (D.failed device.new) }
    ensures stands { D.tells → IfOk result (λ is. IsTrue is ↔ Stands (D.bytes device.old) size at) }
{
    match standing_header(device, size, at) {
        Ok(Some(_)) => Ok(true),
        Ok(None) => Ok(false),
        Err(_) => Err(RebuildFault::Device),
    }
}
