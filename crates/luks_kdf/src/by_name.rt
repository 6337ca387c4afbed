//! What is done by a hash that a header names, whichever it is.

ghost use Rattle.std.specs.Prelude.{◌≡◌, ◌↔◌, ◌≤◌, ℕ, ◌+◌, ◌*◌, ◌%◌, List, length};
ghost use Rattle.luks_kdf.specs.declared.hash_name.HashName.{HashName as ThisName};
ghost use Rattle.luks_kdf.specs.Derivation.{hmac, pbkdf2};
ghost use Rattle.luks_kdf.specs.Splitter.{CanMerge, CanSplit, Merges, Splits, TakesIn, UndoesSplit};
ghost use Rattle.luks_kdf.specs.Names.{name_of, hash_named, hash_of, digest_size_of, block_size_of};

use crate::hash_name::HashName;
use crate::hash_work::{DigestLen, HashWork, Hmac, Merge, Pbkdf2, Split, TakeIn};

impl HashName {
    /// The hash that the text names, letter for letter; None for any text that names none.
    pub fn parse(text: &str) -> Option<HashName>
        ensures value { result ≡ hash_named text.now }
        ensures exact { (name : HashName) → (result ≡ Some name) ↔ (text.now ≡ name_of name) }
    {
        HashName::ALL
            .iter()
            .copied()
            .find(|name| text == name.text())
    }

    /// The length of a digest in bytes (FIPS 180-4, 1).
    pub fn digest_len(self) -> usize
        ensures value { result ≡ digest_size_of self }
        ensures at_most_64 { result ≤ 64 }
    {
        self.run(DigestLen, &mut [])
    }

    /// Writes the HMAC of `message` under `key`, any bytes, into `out`, which has the length of a
    /// digest (RFC 2104).
    pub fn hmac(self, out: &mut [u8], key: &[u8], message: &[u8])
        requires { length out.old ≡ digest_size_of self }
        ensures { out.new ≡ hmac (hash_of self) (block_size_of self) key.now message.now }
    {
        self.run(Hmac { key, message }, out);
    }

    /// Writes the first `out.len()` bytes, at most 128, that PBKDF2 with HMAC derives from the password
    /// and the salt, both of any length, by at least one iteration (RFC 8018, 5.2).
    pub fn pbkdf2(self, out: &mut [u8], password: &[u8], salt: &[u8], iterations: u32)
        requires some_iterations { 1 ≤ iterations }
        requires at_most_128 { length out.old ≤ 128 }
        ensures { out.new
            ≡ pbkdf2 (hash_of self) (block_size_of self) password.now salt.now iterations (length out.old) }
    {
        let work = Pbkdf2 {
            password,
            salt,
            iterations,
        };
        self.run(work, out);
    }

    /// Writes the stripes into which the key, 1 to 128 bytes, is split: `out` has one stripe more than
    /// `random`, each as long as the key (LUKS1 On-Disk Format 1.2.3, 2.4).
    pub fn split(self, out: &mut [u8], key: &[u8], random: &[u8])
        requires { CanSplit key.now random.now out.old }
        ensures { Splits (hash_of self) (digest_size_of self) key.now random.now out.new }
    {
        self.run(Split { key, random }, out);
    }

    /// Writes the key, 1 to 128 bytes, that the stripes hold, each as long as the key (LUKS1 On-Disk
    /// Format 1.2.3, 2.4).
    pub fn merge(self, key: &mut [u8], stripes: &[u8])
        requires { CanMerge stripes.now key.old }
        ensures { Merges (hash_of self) (digest_size_of self) (length key.old) stripes.now key.new }
    {
        self.run(Merge { stripes }, key);
    }

    /// Takes the next stripe into the running block of the splitter, 1 to 128 bytes, as long as the
    /// stripe: from the standard's `d_i` this makes `d_(i+1)`; `d_0` is zeros (LUKS1 On-Disk Format
    /// 1.2.3, 2.4).
    pub fn take_in(self, block: &mut [u8], stripe: &[u8])
        requires at_most_128 { length block.old ≤ 128 }
        requires stripe_length { length stripe.now ≡ length block.old }
        ensures { TakesIn (hash_of self) (digest_size_of self) block.old stripe.now block.new }
    {
        self.run(TakeIn { stripe }, block);
    }

    /// Does nothing: its contract is the law that merging undoes splitting with each of the hashes.
    pub fn merge_undoes_split()
        ensures { (hash : ThisName) → UndoesSplit (hash_of hash) (digest_size_of hash) }
    {}
}
