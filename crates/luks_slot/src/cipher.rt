//! The ciphers of key areas.

ghost use Rattle.std.specs.Prelude.{◌≡◌, ◌%◌, ◌≤◌, length, true};
ghost use Rattle.luks_modes.specs.Units.{AreMade};
ghost use Rattle.luks_slot.specs.Ciphers.{is_size_of, keyed, sector_opened, sector_sealed};

use luks_modes::{CbcKey, IvKind, XtsKey};

// A cipher of the sectors of an area, of aes.
#[derive(Clone, Copy)]
pub(crate) enum SectorCipher {
    // XTS, by the sector's number.
    Xts,
    // CBC, with IVs of this kind.
    Cbc(IvKind),
}

// A key of an area.
#[derive(Drop)]
pub(crate) enum AreaKey {
    Xts(XtsKey),
    Cbc(CbcKey),
}

impl AreaKey {
    // The key of these bytes.
    pub(crate) fn new(cipher: SectorCipher, bytes: &[u8]) -> AreaKey
        requires { is_size_of cipher (length bytes.now) ≡ true }
        ensures { result ≡ keyed cipher bytes.now }
    {
        match cipher {
            SectorCipher::Xts => AreaKey::Xts(XtsKey::new(bytes).unwrap()),
            SectorCipher::Cbc(ivs) => AreaKey::Cbc(CbcKey::new(bytes, ivs).unwrap()),
        }
    }

    // Encrypts a run of at most eight sectors, the first under the number `first`.
    pub(crate) fn seal_units(&self, first: u64, sectors: &mut [u8])
        requires whole { length sectors.old % 512 ≡ 0 }
        requires at_most_eight { length sectors.old ≤ 4096 }
        ensures value { AreMade (sector_sealed self.now) first sectors.old sectors.new }
        ensures undone { AreMade (sector_opened self.now) first sectors.new sectors.old }
    {
        match self {
            AreaKey::Xts(key) => key.seal_units(first, sectors),
            AreaKey::Cbc(key) => key.seal_units(first, sectors),
        }
    }

    // Decrypts a run of at most eight sectors, the first under the number `first`.
    pub(crate) fn open_units(&self, first: u64, sectors: &mut [u8])
        requires whole { length sectors.old % 512 ≡ 0 }
        requires at_most_eight { length sectors.old ≤ 4096 }
        ensures value { AreMade (sector_opened self.now) first sectors.old sectors.new }
    {
        match self {
            AreaKey::Xts(key) => key.open_units(first, sectors),
            AreaKey::Cbc(key) => key.open_units(first, sectors),
        }
    }
}
