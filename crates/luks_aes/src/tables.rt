//! The powers of 02 that the key schedule adds. The index is a round's number, and no secret.

ghost use Rattle.std.specs.Prelude.{◌≡◌, ◌<◌};
ghost use Rattle.luks_aes.specs.Field as field;

// The powers of 02 that the key schedule adds (FIPS 197, 5.2).
static POWERS_OF_2: [u8; 10] = [0x01, 0x02, 0x04, 0x08, 0x10, 0x20, 0x40, 0x80, 0x1b, 0x36];

// 02 to the power n.
pub(crate) fn power_of_2(n: usize) -> u8
    requires { n < 10 }
    ensures { result ≡ field.gpower n }
{
    POWERS_OF_2[n]
}
