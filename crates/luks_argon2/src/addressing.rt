//! The references that don't depend on the password (RFC 9106, 3.4.1).

ghost use Rattle.std.specs.Prelude.{◌≡◌, ◌<◌, ◌*◌, ◌^◌};
ghost use Rattle.luks_argon2.specs.Argon2.{address_block, is_independent};
ghost use Rattle.luks_argon2.specs.Memory.{HasPairs, HasPairsBefore, variant_number, work_of};

use crate::block_compression::compressed;
use crate::shape::Shape;
use crate::variant::{Variant, variant_number};

/// Whether the references of a slice depend on no password (RFC 9106, 3.4).
pub(crate) fn is_independent(variant: Variant, slice: usize) -> bool
    ensures { result ≡ is_independent (variant_number variant) slice }
{
    match variant {
        Variant::D => false,
        Variant::I => true,
        Variant::Id => slice < 2,
    }
}

/// The block of 128 pairs J1, J2 (RFC 9106, 3.4.1.2).
fn address_block(shape: Shape, slice: usize, lane: usize, counter: u64) -> [u64; 128]
    ensures { result ≡ address_block (work_of shape) slice lane counter }
{
    let zero = [0u64; 128];
    let mut input = [0u64; 128];
    input[0] = (slice / 4) as u64;
    input[1] = lane as u64;
    input[2] = (slice % 4) as u64;
    input[3] = (4 * (shape.lanes * shape.segment)) as u64;
    input[4] = shape.passes as u64;
    input[5] = variant_number(shape.variant);
    input[6] = counter;
    compressed(&zero, &compressed(&zero, &input))
}

/// Makes the pairs that block i of a segment needs.
#[inline(always)]
pub(crate) fn refresh(pairs: &mut [u64; 128], shape: Shape, slice: usize, lane: usize, i: usize)
    ensures { HasPairsBefore (work_of shape) slice lane i pairs.old → HasPairs (work_of shape) slice lane i pairs.new }
{
    if i % 128 == 0 && is_independent(shape.variant, slice) {
        *pairs = address_block(shape, slice, lane, (i / 128) as u64 + 1);
    }
}
