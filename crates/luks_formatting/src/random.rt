//! The random bytes of a new volume, by their places.
ghost use Rattle.std.specs.Prelude.{◌≡◌, ◌+◌, ◌≤◌, length};
ghost use Rattle.luks_area.specs.Ranges.{part};

/// The `len` bytes at the place `at`.
pub(crate) fn taken(random: &[u8], at: usize, len: usize) -> &[u8]
    requires { at + len ≤ length random.now }
    ensures value { result.now ≡ part random.now at len }
    ensures length { length result.now ≡ len }
{
    &random[at..at + len]
}

/// The `N` bytes at the place `at`.
pub(crate) fn taken_array<const N: usize>(random: &[u8], at: usize) -> [u8; N]
    requires { at + N ≤ length random.now }
    ensures { result ≡ part random.now at N }
{
    let mut owned = [0; N];
    owned.copy_from_slice(taken(random, at, N));
    owned
}

/// The place of the uuid's bytes.
pub(crate) const UUID: usize = 0;

/// The place of the volume key's bytes.
pub(crate) const KEY: usize = 16;

/// The place of the 32 bytes of the digest's salt, the length of the volume key aside.
pub(crate) const DIGEST_SALT: usize = 16;

/// The length of a salt of a keyslot or a digest in bytes.
pub(crate) const SALT_BYTES: usize = 32;

/// How many stripes a volume key is split into.
pub(crate) const STRIPES: u32 = 4000;

/// How many stripes are random, all but the last.
pub(crate) const RANDOM_STRIPES: usize = 3999;
