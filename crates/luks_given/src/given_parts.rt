//! A volume of which ranges are given.
ghost use Rattle.std.specs.Prelude.{◌≡◌, ◌≢◌, ◌+◌, ◌≤◌, ◌<◌, ◌^◌, None, length};
ghost use Rattle.luks_given.specs.PartProps.{apart-prop, parts-prop};
ghost use Rattle.luks_given.specs.Parts.{AreApart, AreGiven, AreParts, HasPlace, IsWanted, parts_length};

use crate::given::Given;
use crate::parts::{Part, find};
use luks_area::{Device, DeviceFault};
use std::marker::PhantomData;

/// A volume whose ranges are in memory, as a device that is only read.
///
/// It tells the bytes of the volume. Those that aren't given may be any: a read that meets one of them
/// fails, so an answer without a failure depends only on the given bytes. A place that can't be read
/// counts as not given. It keeps what the last failing read wanted. A write fails too, and leaves its
/// first place unsettled for good, by which a contract sees that there was none.
#[derive(Drop)]
pub struct GivenParts<'a, K: Given> {
    parts: &'a [Part],
    held: &'a [u8],
    total: u64,
    missing: Part,
    refused: Option<u64>,
    failures: u64,
    given: PhantomData<K>,
    ghost fits: { total < 2 ^ 64 },
    ghost whole: { length K.bytes ≡ total },
    ghost same: { parts.now ≡ K.parts },
    ghost apart: { AreApart 0 parts.now } by { apart-prop 0 parts.now },
    ghost counted: { parts_length parts.now ≡ length held.now },
    ghost known: { AreParts parts.now 0 held.now K.bytes } by { parts-prop parts.now 0 held.now K.bytes },
    ghost far: { refused ≡ None → failures ≢ 0 → IsWanted K.parts total missing },
    ghost inside: { missing.at + missing.len ≤ total },
}

impl<'a, K: Given> GivenParts<'a, K> {
    ghost use Rattle.luks_given.specs.Given.{given_bytes, given_failures, given_size, wanted_by, IsUnwritten};

    /// The volume of `total` bytes that has these in these ranges.
    pub fn new(parts: &'a [Part], held: &'a [u8], total: u64) -> Self
        requires parts { K.parts ≡ parts.now }
        requires given { AreGiven parts.now held.now total K.bytes }
        ensures bytes { given_bytes result ≡ K.bytes }
        ensures size { given_size result ≡ total }
        ensures failures { given_failures result ≡ 0 }
        ensures unwritten { IsUnwritten result }
    {
        GivenParts {
            parts,
            held,
            total,
            missing: Part::default(),
            refused: None,
            failures: 0,
            given: PhantomData,
        }
    }

    /// What the last failing read wanted, from the first place on that isn't given: it has to be given for
    /// that read not to fail. It has no byte where none failed.
    pub fn wanted(&self) -> Part
        ensures value { result ≡ wanted_by self.now }
        ensures missing { IsUnwritten self.now → given_failures self.now ≢ 0
            → HasPlace K.parts result.at → ⊥ }
        ensures some { IsUnwritten self.now → given_failures self.now ≢ 0 → 0 < result.len }
        ensures inside { result.at + result.len ≤ given_size self.now }
    {
        self.missing
    }
}

impl<K: Given> Device for GivenParts<'_, K> {
    ghost use Rattle.luks_given.specs.Given.{given_bytes, given_failures, given_size, IsRefusedAt};

    ghost tells = { Unit {0} };

    ghost bytes = { given_bytes };

    ghost unsettled = { IsRefusedAt };

    ghost size = { given_size };

    ghost failed = { given_failures };

    fn len(&self) -> u64 {
        self.total
    }

    fn failures(&self) -> u64 {
        self.failures
    }

    fn read_at(&mut self, at: u64, into: &mut [u8]) -> Result<(), DeviceFault> {
        if into.is_empty() {
            return Ok(());
        }
        let end = at + into.len() as u64;
        match find(self.parts, at, end) {
            Ok(k) => {
                into.copy_from_slice(&self.held[k..k + into.len()]);
                Ok(())
            }
            Err(place) => {
                self.missing = Part {
                    at: place,
                    len: end - place,
                };
                self.failures += 1;
                Err(DeviceFault)
            }
        }
    }

    fn write_at(&mut self, at: u64, from: &[u8]) -> Result<(), DeviceFault> {
        if from.is_empty() {
            return Ok(());
        }
        if self.refused.is_none() {
            self.refused = Some(at);
        }
        self.failures += 1;
        Err(DeviceFault)
    }

    fn flush(&mut self) -> Result<(), DeviceFault> {
        if self.refused.is_none() {
            return Ok(());
        }
        self.failures += 1;
        Err(DeviceFault)
    }

    ghost sized = { λ d t. d.whole };

    ghost bounded = { λ d. d.fits };
}
