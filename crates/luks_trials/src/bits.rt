//! In how many bits two digests differ.
ghost use Rattle.std.specs.Prelude.{◌≡◌, ◌≤◌, length, count_ones, sum_by};
ghost use Rattle.luks_slot.specs.Distance.{differing_bits};

use luks_kdf::xor_into;

/// In how many bits two lists of bytes of one length, at most 64, differ.
pub fn differing_bits(one: &[u8], other: &[u8]) -> u32
    requires long { length one.now ≡ length other.now }
    requires at_most_64 { length one.now ≤ 64 }
    ensures { result ≡ differing_bits one.now other.now }
{
    let mut room = [0u8; 64];
    differing_in(&mut room[..one.len()], one, other)
}

/// The number of differing bits, with room for what is to be compared.
fn differing_in(room: &mut [u8], one: &[u8], other: &[u8]) -> u32
    requires room_length { length room.old ≡ length one.now }
    requires long { length one.now ≡ length other.now }
    requires at_most_64 { length one.now ≤ 64 }
    ensures { result ≡ differing_bits one.now other.now }
{
    room.copy_from_slice(one);
    xor_into(room, other);
    bits_set(room)
}

/// How many bits are set.
fn bits_set(bytes: &[u8]) -> u32
    requires { length bytes.now ≤ 64 }
    ensures { result ≡ sum_by count_ones bytes.now }
{
    bytes.iter().map(|byte| byte.count_ones()).sum()
}
