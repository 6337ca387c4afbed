//! The hash that a keyslot names, and what is done by it, whichever it is.

ghost use Rattle.std.specs.Prelude.{◌≡◌, ◌≤◌, ℕ, ◌+◌, ◌*◌, ◌%◌, List, length};
ghost use Rattle.luks_kdf.specs.declared.keyslot_hash.KeyslotHash.{KeyslotHash as ThisHash};
ghost use Rattle.luks_kdf.specs.declared.keyslot_hash.KeyslotHash.TheVariants.{Standard as IsStandard};
ghost use Rattle.luks_kdf.specs.Derivation.{hmac, pbkdf2};
ghost use Rattle.luks_kdf.specs.Splitter.{CanMerge, CanSplit, Merges, Splits, TakesIn, UndoesSplit};
ghost use Rattle.luks_kdf.specs.KeyslotNames.{keyslot_block_size, keyslot_digest, keyslot_digest_size, keyslot_hash_named};

use crate::hash_name::HashName;
use crate::hash_work::{DigestLen, HashWork, Hmac, Merge, Pbkdf2, Split, TakeIn};
use crate::older_hash::OlderHash;

/// A hash function that a keyslot is derived and split with, by its name in a header.
#[derive(Clone, Copy, PartialEq, Eq)]
pub enum KeyslotHash {
    /// One that a new header may name.
    Standard(HashName),
    /// One of older volumes.
    Older(OlderHash),
}

impl From<HashName> for KeyslotHash {
    fn from(hash: HashName) -> KeyslotHash
        ensures { result ≡ IsStandard hash }
    {
        KeyslotHash::Standard(hash)
    }
}

impl KeyslotHash {
    /// The hash that the text names, letter for letter, an older one only where those are accepted; None
    /// for any other text.
    pub fn parse(text: &str, older: bool) -> Option<KeyslotHash>
        ensures { result ≡ keyslot_hash_named older text.now }
    {
        match HashName::parse(text) {
            Some(hash) => Some(KeyslotHash::from(hash)),
            None if older => OlderHash::parse(text).map(KeyslotHash::Older),
            None => None,
        }
    }

    // Does the work by the function that the name stands for.
    fn run<W: HashWork>(self, work: W, out: &mut [u8]) -> W::Answer
        requires { W.fits work (keyslot_digest_size self) out.old }
        ensures { W.gives work (keyslot_digest self) (keyslot_digest_size self) (keyslot_block_size self)
            out.old out.new result }
    {
        match self {
            KeyslotHash::Standard(hash) => hash.run(work, out),
            KeyslotHash::Older(hash) => hash.run(work, out),
        }
    }

    /// The length of a digest in bytes (FIPS 180-4, 1).
    pub fn digest_len(self) -> usize
        ensures value { result ≡ keyslot_digest_size self }
        ensures at_most_64 { result ≤ 64 }
    {
        self.run(DigestLen, &mut [])
    }

    /// Writes the HMAC of `message` under `key`, any bytes, into `out`, which has the length of a
    /// digest (RFC 2104).
    pub fn hmac(self, out: &mut [u8], key: &[u8], message: &[u8])
        requires { length out.old ≡ keyslot_digest_size self }
        ensures { out.new ≡ hmac (keyslot_digest self) (keyslot_block_size self) key.now message.now }
    {
        self.run(Hmac { key, message }, out);
    }

    /// Writes the first `out.len()` bytes, at most 128, that PBKDF2 with HMAC derives from the password
    /// and the salt, both of any length, by at least one iteration (RFC 8018, 5.2).
    pub fn pbkdf2(self, out: &mut [u8], password: &[u8], salt: &[u8], iterations: u32)
        requires some_iterations { 1 ≤ iterations }
        requires at_most_128 { length out.old ≤ 128 }
        ensures { out.new
            ≡ pbkdf2 (keyslot_digest self) (keyslot_block_size self) password.now salt.now iterations (length out.old) }
    {
        let work = Pbkdf2 {
            password,
            salt,
            iterations,
        };
        self.run(work, out);
    }

    /// Writes the stripes into which the key, 1 to 128 bytes, is split: `out` has one stripe more than
    /// `random`, each as long as the key (LUKS1 On-Disk Format 1.2.3, 2.4).
    pub fn split(self, out: &mut [u8], key: &[u8], random: &[u8])
        requires { CanSplit key.now random.now out.old }
        ensures { Splits (keyslot_digest self) (keyslot_digest_size self) key.now random.now out.new }
    {
        self.run(Split { key, random }, out);
    }

    /// Writes the key, 1 to 128 bytes, that the stripes hold, each as long as the key (LUKS1 On-Disk
    /// Format 1.2.3, 2.4).
    pub fn merge(self, key: &mut [u8], stripes: &[u8])
        requires { CanMerge stripes.now key.old }
        ensures { Merges (keyslot_digest self) (keyslot_digest_size self) (length key.old) stripes.now key.new }
    {
        self.run(Merge { stripes }, key);
    }

    /// Takes the next stripe into the running block of the splitter, 1 to 128 bytes, as long as the
    /// stripe: from the standard's `d_i` this makes `d_(i+1)`; `d_0` is zeros (LUKS1 On-Disk Format
    /// 1.2.3, 2.4).
    pub fn take_in(self, block: &mut [u8], stripe: &[u8])
        requires at_most_128 { length block.old ≤ 128 }
        requires stripe_length { length stripe.now ≡ length block.old }
        ensures { TakesIn (keyslot_digest self) (keyslot_digest_size self) block.old stripe.now block.new }
    {
        self.run(TakeIn { stripe }, block);
    }

    /// Does nothing: its contract is the law that merging undoes splitting with each of the hashes.
    pub fn merge_undoes_split()
        ensures { (hash : ThisHash) → UndoesSplit (keyslot_digest hash) (keyslot_digest_size hash) }
    {}
}
