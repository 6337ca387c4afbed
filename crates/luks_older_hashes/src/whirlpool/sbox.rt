//! The S-box of Whirlpool, by its mini-boxes. Each mini-box is a number of 16 digits of four bits, from which
//! a digit is shifted down: no place of memory depends on the byte.

ghost use Rattle.std.specs.Prelude.{◌≡◌, ◌*◌, ◌/◌, ◌%◌, ◌^◌};
ghost use Rattle.luks_older_hashes.specs.Whirlpool.{sbox};

// The mini-box E, its inverse, and R, with what they take 0 to as the lowest digit.
const MINI_E: u64 = 0x052A_478E_3F6D_C9B1;

const MINI_E_INVERSE: u64 = 0x6843_1C29_A5EB_7D0F;

const MINI_R: u64 = 0x0152_A836_F94E_DBC7;

// The digit of a mini-box at the lower half of x.
#[inline(always)]
fn digit(digits: u64, x: u8) -> u8
    ensures { result ≡ digits / 2 ^ (4 * (x % 16)) % 16 }
{
    ((digits >> (4 * (x % 16))) % 16) as u8
}

/// The S-box at a byte.
#[inline(always)]
pub(crate) fn sbox(x: u8) -> u8
    ensures { result ≡ sbox x }
{
    let upper = digit(MINI_E, x / 16);
    let lower = digit(MINI_E_INVERSE, x);
    let middle = digit(MINI_R, upper ^ lower);
    let high = digit(MINI_E, upper ^ middle);
    let low = digit(MINI_E_INVERSE, lower ^ middle);
    high.wrapping_mul(16) | low
}
