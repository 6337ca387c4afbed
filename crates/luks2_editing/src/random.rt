//! The random bytes of an edit, by their places.
ghost use Rattle.std.specs.Prelude.{◌≡◌, ◌+◌, ◌≤◌, drop, length};
ghost use Rattle.luks_area.specs.Ranges.{part};
ghost use Rattle.luks2_edit_laws.specs.Copies.{copy_salt, uuid_random};
ghost use Rattle.luks2_edit_laws.specs.Edited.{keyslot_salt};

/// The `N` bytes at the place `at`.
fn taken_array<const N: usize>(random: &[u8], at: usize) -> [u8; N]
    requires { at + N ≤ length random.now }
    ensures { result ≡ part random.now at N }
{
    let mut owned = [0; N];
    owned.copy_from_slice(&random[at..at + N]);
    owned
}

/// The salt of the copy of the header that is at the place `at`: the first 64 random bytes are
/// that of the copy at 0, the next 64 that of the other one.
pub(crate) fn copy_salt(random: &[u8], at: u64) -> [u8; 64]
    requires { 128 ≤ length random.now }
    ensures { result ≡ copy_salt random.now at }
{
    if at == 0 {
        taken_array(random, 0)
    } else {
        taken_array(random, 64)
    }
}

/// The bytes of a uuid: those behind the salts of the copies.
pub(crate) fn uuid_random(random: &[u8]) -> &[u8]
    requires { 128 ≤ length random.now }
    ensures { result.now ≡ uuid_random random.now }
{
    &random[128..]
}

/// The salt of a keyslot that is sealed: the 32 bytes behind the salts of the copies, or zeros where
/// there are too few.
pub(crate) fn keyslot_salt(random: &[u8]) -> [u8; 32]
    ensures salt { 160 ≤ length random.now → result ≡ keyslot_salt random.now }
    ensures long { length result ≡ 32 }
{
    if random.len() < 160 {
        [0; 32]
    } else {
        taken_array(random, 128)
    }
}

/// The stripes but the last of a keyslot that is sealed: they follow its salt.
pub(crate) fn stripes_in(random: &[u8]) -> &[u8]
    requires { 160 ≤ length random.now }
    ensures { result.now ≡ drop 160 random.now }
{
    &random[160..]
}
