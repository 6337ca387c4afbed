//! Turning the bits of one field of a LUKS1 header.
ghost use Rattle.std.specs.Prelude.{◌≡◌, ◌↔◌, ◌+◌, ◌^◌, ◌<◌, ◌≤◌, ℕ, IfErr, IfNone, IfOk, IfSome, IsTrue};
ghost use Rattle.luks_area.specs.Device.{CountsFailure, IsUnchanged};
ghost use Rattle.luks1_header.specs.Header1.{luks1_size};
ghost use Rattle.luks_trials.specs.Faults.{is_search_failure, IsCutWithoutMemory};
ghost use Rattle.luks_searching.specs.Fields1.{len_of, start_of};
ghost use Rattle.luks_searching.specs.Found1.{IsFoundOf, OpensNoneIn};
ghost use Rattle.luks_searching.specs.Headed.{OpensHeaded};
ghost use Rattle.luks_trials.specs.Tallies.{Counts};
ghost use Rattle.luks_trials.specs.Turned.{turned};

use crate::searching1::{Change1, Found1};
use crate::trial1::{Sought, distance};
use crate::turning::turned;
use luks_area::Device;
use luks_trials::{Progress, SearchFault, Tally};
use std::alloc::Global;

/// A field by which a keyslot opens.
#[derive(Clone, Copy)]
pub enum Field {
    /// The length of the key.
    KeyBytes,
    /// The salt of the digest.
    DigestSalt,
    /// The iterations of the digest.
    DigestIterations,
    /// Whether the keyslot is in use.
    State,
    /// The keyslot's iterations.
    Iterations,
    /// The keyslot's salt, and where its key material begins and how many stripes it has.
    SaltAndArea,
}

impl Field {
    /// Where it begins, in bytes from the header's start; `n` is the keyslot.
    pub(crate) fn start(self, n: u8) -> usize
        requires { n < 8 }
        ensures value { result ≡ start_of self n }
        ensures inside { result + len_of self ≤ luks1_size }
    {
        let entry = 208 + 48 * usize::from(n);
        match self {
            Field::KeyBytes => 108,
            Field::DigestSalt => 132,
            Field::DigestIterations => 164,
            Field::State => entry,
            Field::Iterations => entry + 4,
            Field::SaltAndArea => entry + 8,
        }
    }

    /// How many bytes it has.
    pub(crate) fn len(self) -> usize
        ensures { result ≡ len_of self }
    {
        match self {
            Field::KeyBytes | Field::DigestIterations | Field::State | Field::Iterations => 4,
            Field::DigestSalt => 32,
            Field::SaltAndArea => 40,
        }
    }
}

/// The header of which one bit of the field is turned, by which the keyslot `n` opens. The last byte comes
/// first, so that a number is turned in its low bits before it becomes dear.
pub(crate) fn turned_in<D: Device, P: Progress>(
    alloc: Global,
    source: &mut D,
    sought: &Sought<'_>,
    field: Field,
    n: u8,
    tally: &mut Tally,
    progress: &mut P,
) -> Result<Option<Found1>, SearchFault>
    requires numbered { n < 8 }
    requires large { luks1_size ≤ D.size source.old }
    requires room { D.failed source.old + 1 < 2 ^ 64 }
    ensures unchanged { IsUnchanged D.tells D.size D.bytes D.unsettled source.old source.new }
    ensures count { CountsFailure is_search_failure result
        (D.failed source.old) (D.failed source.new) }
    ensures counts { Counts tally.old tally.new }
    ensures cut { IfErr result (IsCutWithoutMemory tally.new) }
    ensures found { D.tells → IfOk result (λ found. IfSome found (IsFoundOf (D.bytes source.old)
        sought.now.header.now sought.now.given.now sought.now.passphrase.now)) }
    ensures none { D.tells → IfOk result (λ found. IfNone found (OpensNoneIn (D.bytes source.old)
        sought.now.header.now sought.now.given.now sought.now.passphrase.now n field)) }
{
    let start = field.start(n);
    for behind in 0..field.len() {
        let place = start + field.len() - 1 - behind;
        let found = turned_at(alloc, source, sought, n, place, tally, progress)?;
        if let Some(bit) = found {
            return Ok(Some(Found1 {
                header: turned(sought.header, place, bit),
                slot: n,
                change: Change1::Bit { place, bit },
            }));
        }
    }
    Ok(None)
}

/// The bit of the byte at the place that is turned in the header by which the keyslot `n` opens.
fn turned_at<D: Device, P: Progress>(
    alloc: Global,
    source: &mut D,
    sought: &Sought<'_>,
    n: u8,
    place: usize,
    tally: &mut Tally,
    progress: &mut P,
) -> Result<Option<u8>, SearchFault>
    requires numbered { n < 8 }
    requires inside { place < luks1_size }
    requires large { luks1_size ≤ D.size source.old }
    requires room { D.failed source.old + 1 < 2 ^ 64 }
    ensures unchanged { IsUnchanged D.tells D.size D.bytes D.unsettled source.old source.new }
    ensures count { CountsFailure is_search_failure result
        (D.failed source.old) (D.failed source.new) }
    ensures counts { Counts tally.old tally.new }
    ensures cut { IfErr result (IsCutWithoutMemory tally.new) }
    ensures low { IfOk result (λ found. IfSome found (λ bit. bit < 8)) }
    ensures opens { D.tells → IfOk result (λ found. IfSome found (λ bit. OpensHeaded
        (D.bytes source.old) (turned sought.now.header.now place bit) sought.now.given.now
        sought.now.passphrase.now n)) }
    ensures none { D.tells → IfOk result (λ found. IfNone found ((bit : ℕ) → bit < 8 → OpensHeaded
        (D.bytes source.old) (turned sought.now.header.now place bit) sought.now.given.now
        sought.now.passphrase.now n → ⊥)) }
{
    for bit in 0..8 {
        if is_opened(alloc, source, sought, n, place, bit, tally, progress)? {
            return Ok(Some(bit));
        }
    }
    Ok(None)
}

/// Whether the keyslot `n` opens by the header of which this bit is turned.
fn is_opened<D: Device, P: Progress>(
    alloc: Global,
    source: &mut D,
    sought: &Sought<'_>,
    n: u8,
    place: usize,
    bit: u8,
    tally: &mut Tally,
    progress: &mut P,
) -> Result<bool, SearchFault>
    requires numbered { n < 8 }
    requires inside { place < luks1_size }
    requires low { bit < 8 }
    requires large { luks1_size ≤ D.size source.old }
    requires room { D.failed source.old + 1 < 2 ^ 64 }
    ensures unchanged { IsUnchanged D.tells D.size D.bytes D.unsettled source.old source.new }
    ensures count { CountsFailure is_search_failure result
        (D.failed source.old) (D.failed source.new) }
    ensures counts { Counts tally.old tally.new }
    ensures cut { IfErr result (IsCutWithoutMemory tally.new) }
    ensures opens { D.tells → IfOk result (λ is. IsTrue is ↔ OpensHeaded (D.bytes source.old)
        (turned sought.now.header.now place bit) sought.now.given.now sought.now.passphrase.now n) }
{
    let header = turned(sought.header, place, bit);
    let changed = Sought {
        header: &header,
        given: sought.given,
        passphrase: sought.passphrase,
    };
    match distance(alloc, source, &changed, n, tally, progress)? {
        Some(0) => Ok(true),
        _ => Ok(false),
    }
}
