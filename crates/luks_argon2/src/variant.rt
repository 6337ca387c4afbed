//! The three variants of Argon2.

ghost use Rattle.std.specs.Prelude.{◌≡◌, ◌<◌};
ghost use Rattle.luks_argon2.specs.Memory.{variant_number};

/// The variants of Argon2, which differ in how a block's reference is chosen (RFC 9106, 3.4.1).
#[derive(Clone, Copy, PartialEq, Eq)]
pub enum Variant {
    /// Argon2d: each reference is read from the block before.
    D,
    /// Argon2i: no reference depends on the password.
    I,
    /// Argon2id: as Argon2i in the first half of the first pass, then as Argon2d.
    Id,
}

/// The number of the variant, y (RFC 9106, 3.1).
pub(crate) fn variant_number(variant: Variant) -> u64
    ensures exact { result ≡ variant_number variant }
    ensures small { result < 3 }
{
    match variant {
        Variant::D => 0,
        Variant::I => 1,
        Variant::Id => 2,
    }
}
