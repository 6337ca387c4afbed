//! The search in a LUKS1 header: as it stands, then its digest, then each bit of its fields.
ghost use Rattle.std.specs.Prelude.{◌≡◌, ◌+◌, ◌^◌, ◌<◌, ◌≤◌, ℕ, IfErr, IfNone, IfOk, IfSome};
ghost use Rattle.luks_area.specs.Device.{CountsFailure, IsUnchanged};
ghost use Rattle.luks1_header.specs.Header1.{luks1_size};
ghost use Rattle.luks_trials.specs.Faults.{is_search_failure, IsCutWithoutMemory};
ghost use Rattle.luks_searching.specs.Found1.{HasNone1, IsFound1, IsFoundOf, OpensNoneBut, OpensNoneIn};
ghost use Rattle.luks_trials.specs.Tallies.{Counts};
ghost use Rattle.luks_searching.specs.declared.fields1.Field.{Field as TheField};

use crate::digest1::with_given;
use crate::fields1::{Field, turned_in};
use crate::trial1::{Sought, given_digest};
use luks_area::Device;
use luks_trials::{Progress, SearchFault, Tally};
use luks1_mending::Given;
use std::alloc::Global;

/// What isn't as it is in a header that was found.
#[derive(Debug, Clone, Copy, PartialEq, Eq)]
pub enum Change1 {
    /// Nothing: a keyslot opens by what stands.
    Nothing,
    /// This bit, by its weight, of the byte at the place.
    Bit {
        /// The byte, from the header's start.
        place: usize,
        /// The bit, 0 to 7.
        bit: u8,
    },
    /// So many bits of the digest.
    Digest {
        /// How many, 1 to 8.
        bits: u32,
    },
}

/// A header by which a keyslot opens.
#[derive(Clone, Copy)]
pub struct Found1 {
    /// Its bytes, in place of the first ones of the volume.
    pub header: [u8; 592],
    /// The keyslot, 0 to 7.
    pub slot: u8,
    /// What isn't as it stands.
    pub change: Change1,
}

/// The first header near to that of the source by which the passphrase opens a keyslot, or None where none
/// does: as it stands; with a digest that differs in at most 8 bits; with one bit turned, of the key's
/// length, the digest's salt and iterations, and the entry of a keyslot. The source never changes.
///
/// `tally` counts each derivation before it is made: `Spent` comes only where as many were made as may be.
/// `Device` comes exactly where a device call failed, `Memory` never: none is taken. A keyslot by more than 2^26
/// iterations, or of more than 2^16 stripes, isn't tried.
pub fn search1<D: Device, P: Progress>(
    alloc: Global,
    source: &mut D,
    given: &Given,
    passphrase: &[u8],
    tally: &mut Tally,
    progress: &mut P,
) -> Result<Option<Found1>, SearchFault>
    requires large { luks1_size ≤ D.size source.old }
    requires room { D.failed source.old + 1 < 2 ^ 64 }
    ensures unchanged { IsUnchanged D.tells D.size D.bytes D.unsettled source.old source.new }
    ensures count { CountsFailure is_search_failure result
        (D.failed source.old) (D.failed source.new) }
    ensures counts { Counts tally.old tally.new }
    ensures cut { IfErr result (IsCutWithoutMemory tally.new) }
    ensures found { D.tells → IfOk result (λ found. IfSome found
        (IsFound1 (D.bytes source.old) given.now passphrase.now)) }
    ensures none { D.tells → IfOk result (λ found. IfNone found
        (HasNone1 (D.bytes source.old) given.now passphrase.now)) }
{
    let mut header = [0; 592];
    source.read_at(0, &mut header)?;
    let sought = Sought {
        header: &header,
        given,
        passphrase,
    };
    let found = as_it_stands(alloc, source, &sought, tally, progress)?;
    if found.is_some() {
        return Ok(found);
    }
    by_fields(alloc, source, &sought, tally, progress)
}

/// The first keyslot that opens as the header stands, or by a digest that differs in few bits.
fn as_it_stands<D: Device, P: Progress>(
    alloc: Global,
    source: &mut D,
    sought: &Sought<'_>,
    tally: &mut Tally,
    progress: &mut P,
) -> Result<Option<Found1>, SearchFault>
    requires large { luks1_size ≤ D.size source.old }
    requires room { D.failed source.old + 1 < 2 ^ 64 }
    ensures unchanged { IsUnchanged D.tells D.size D.bytes D.unsettled source.old source.new }
    ensures count { CountsFailure is_search_failure result
        (D.failed source.old) (D.failed source.new) }
    ensures counts { Counts tally.old tally.new }
    ensures cut { IfErr result (IsCutWithoutMemory tally.new) }
    ensures found { D.tells → IfOk result (λ found. IfSome found (IsFoundOf (D.bytes source.old)
        sought.now.header.now sought.now.given.now sought.now.passphrase.now)) }
    ensures none { D.tells → IfOk result (λ found. IfNone found ((n : ℕ) → n < 8 → OpensNoneBut
        (D.bytes source.old) sought.now.header.now sought.now.given.now sought.now.passphrase.now n)) }
{
    for n in 0..8 {
        let found = slot_as_it_stands(alloc, source, sought, n, tally, progress)?;
        if found.is_some() {
            return Ok(found);
        }
    }
    Ok(None)
}

/// Tries the keyslot `n` unchanged.
fn slot_as_it_stands<D: Device, P: Progress>(
    alloc: Global,
    source: &mut D,
    sought: &Sought<'_>,
    n: u8,
    tally: &mut Tally,
    progress: &mut P,
) -> Result<Option<Found1>, SearchFault>
    requires numbered { n < 8 }
    requires large { luks1_size ≤ D.size source.old }
    requires room { D.failed source.old + 1 < 2 ^ 64 }
    ensures unchanged { IsUnchanged D.tells D.size D.bytes D.unsettled source.old source.new }
    ensures count { CountsFailure is_search_failure result
        (D.failed source.old) (D.failed source.new) }
    ensures counts { Counts tally.old tally.new }
    ensures cut { IfErr result (IsCutWithoutMemory tally.new) }
    ensures found { D.tells → IfOk result (λ found. IfSome found (IsFoundOf (D.bytes source.old)
        sought.now.header.now sought.now.given.now sought.now.passphrase.now)) }
    ensures none { D.tells → IfOk result (λ found. IfNone found (OpensNoneBut (D.bytes source.old)
        sought.now.header.now sought.now.given.now sought.now.passphrase.now n)) }
{
    match given_digest(alloc, source, sought, n, tally, progress)? {
        Some(digest) => Ok(with_given(sought.header, n, &digest)),
        None => Ok(None),
    }
}

/// The fields in the order in which their bits are turned: those that may become dear come last.
static FIELDS: [Field; 6] = [
    Field::KeyBytes,
    Field::DigestSalt,
    Field::State,
    Field::SaltAndArea,
    Field::DigestIterations,
    Field::Iterations,
];

/// The first header of which one bit of a field is turned, by which a keyslot opens.
fn by_fields<D: Device, P: Progress>(
    alloc: Global,
    source: &mut D,
    sought: &Sought<'_>,
    tally: &mut Tally,
    progress: &mut P,
) -> Result<Option<Found1>, SearchFault>
    requires large { luks1_size ≤ D.size source.old }
    requires room { D.failed source.old + 1 < 2 ^ 64 }
    ensures unchanged { IsUnchanged D.tells D.size D.bytes D.unsettled source.old source.new }
    ensures count { CountsFailure is_search_failure result
        (D.failed source.old) (D.failed source.new) }
    ensures counts { Counts tally.old tally.new }
    ensures cut { IfErr result (IsCutWithoutMemory tally.new) }
    ensures found { D.tells → IfOk result (λ found. IfSome found (IsFoundOf (D.bytes source.old)
        sought.now.header.now sought.now.given.now sought.now.passphrase.now)) }
    ensures none { D.tells → IfOk result (λ found. IfNone found ((n : ℕ) (field : TheField) → n < 8
        → OpensNoneIn (D.bytes source.old) sought.now.header.now sought.now.given.now
        sought.now.passphrase.now n field)) }
{
    for field in FIELDS.iter() {
        let found = by_field(alloc, source, sought, *field, tally, progress)?;
        if found.is_some() {
            return Ok(found);
        }
    }
    Ok(None)
}

/// Turns the bits of one field, for each keyslot.
fn by_field<D: Device, P: Progress>(
    alloc: Global,
    source: &mut D,
    sought: &Sought<'_>,
    field: Field,
    tally: &mut Tally,
    progress: &mut P,
) -> Result<Option<Found1>, SearchFault>
    requires large { luks1_size ≤ D.size source.old }
    requires room { D.failed source.old + 1 < 2 ^ 64 }
    ensures unchanged { IsUnchanged D.tells D.size D.bytes D.unsettled source.old source.new }
    ensures count { CountsFailure is_search_failure result
        (D.failed source.old) (D.failed source.new) }
    ensures counts { Counts tally.old tally.new }
    ensures cut { IfErr result (IsCutWithoutMemory tally.new) }
    ensures found { D.tells → IfOk result (λ found. IfSome found (IsFoundOf (D.bytes source.old)
        sought.now.header.now sought.now.given.now sought.now.passphrase.now)) }
    ensures none { D.tells → IfOk result (λ found. IfNone found ((n : ℕ) → n < 8 → OpensNoneIn
        (D.bytes source.old) sought.now.header.now sought.now.given.now sought.now.passphrase.now n
        field)) }
{
    for n in 0..8 {
        let found = turned_in(alloc, source, sought, field, n, tally, progress)?;
        if found.is_some() {
            return Ok(found);
        }
    }
    Ok(None)
}
