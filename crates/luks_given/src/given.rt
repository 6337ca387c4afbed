ghost use Rattle.std.specs.Prelude.{ℕ, List, []};
ghost use Rattle.luks_given.specs.declared.parts.Part.{Part as ThePart};

use std::marker::Brand;

/// The volume of which ranges are given before a call. No code holds it: a device says by it what it was
/// made of, after calls that are generic over devices too. What is promised of a call for each `K` holds
/// of each volume that has the given bytes in the given ranges.
///
/// Who makes a device picks it: a function that is generic over `K: Given` makes the device, is called
/// with `Brand`, and the proof of that call names the bytes.
pub trait Given {
    /// The bytes of the volume, before the call.
    ghost bytes: { List ℕ };

    /// The ranges that are given.
    ghost parts: { List ThePart };
}

impl Given for Brand {
    ghost bytes = { [] };

    ghost parts = { [] };
}
