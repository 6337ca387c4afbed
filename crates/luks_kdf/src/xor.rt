//! The exclusive or of bytes, in place.

ghost use Rattle.std.specs.Prelude.{◌≡◌, length};
ghost use Rattle.luks_kdf.specs.Xor.{xor_bytes};

/// Xors the bytes of `mask` into those of `bytes`; both have one length.
#[inline(always)]
pub fn xor_into(bytes: &mut [u8], mask: &[u8])
    requires { length bytes.old ≡ length mask.now }
    ensures { bytes.new ≡ xor_bytes bytes.old mask.now }
{
    for i in 0..bytes.len() {
        bytes[i] ^= mask[i];
    }
}
