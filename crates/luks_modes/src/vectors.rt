//! The IVs of sectors, as the names of ciphers have them.

ghost use Rattle.std.specs.Prelude.{◌≡◌, ℕ, List};
ghost use Rattle.sha2.specs.Sha256.{sha256};
ghost use Rattle.luks_modes.specs.Cbc.{iv_of};
ghost use Rattle.luks_modes.specs.Vectors.{are_of, kind_of};

use luks_aes::AesKey;
use sha2::{Digest, Sha256};

/// How a sector's IV is made of the sector's number.
#[derive(Clone, Copy, PartialEq, Eq)]
pub enum IvKind {
    /// `plain`: the number in 32 bits, lowest byte first; of a higher number the lowest 32 bits.
    Plain,
    /// `plain64`: the number in 64 bits, lowest byte first.
    Plain64,
    /// `essiv:sha256`: the IV of `plain64`, encrypted under the SHA-256 of the key.
    Essiv,
}

/// What a key's IVs are made with.
#[derive(Drop)]
pub(crate) enum Ivs {
    Plain,
    Plain64,
    /// The key that the IVs are encrypted under.
    Essiv(AesKey),
}

impl Ivs {
    /// The IVs of this kind under this key.
    pub(crate) fn new(kind: IvKind, key: &[u8]) -> Ivs
        ensures kind { kind_of result ≡ kind }
        ensures made { are_of result key.now }
    {
        match kind {
            IvKind::Plain => Ivs::Plain,
            IvKind::Plain64 => Ivs::Plain64,
            IvKind::Essiv => Ivs::Essiv(hashed_key(key)),
        }
    }

    /// The IV of the sector of this number.
    pub(crate) fn of_sector(&self, sector: u64) -> [u8; 16]
        ensures { (key : List ℕ) → are_of self.now key → result ≡ iv_of (kind_of self.now) key sector }
    {
        match self {
            Ivs::Plain => u128::from(sector % (1 << 32)).to_le_bytes(),
            Ivs::Plain64 => u128::from(sector).to_le_bytes(),
            Ivs::Essiv(key) => key.encrypt(u128::from(sector).to_le_bytes()),
        }
    }
}

/// The key of AES that the SHA-256 of this key is.
fn hashed_key(key: &[u8]) -> AesKey
    ensures { result ≡ sha256 key.now }
{
    let mut hasher = Sha256::new();
    hasher.update(key);
    AesKey::new(&hasher.finalize()).unwrap()
}
