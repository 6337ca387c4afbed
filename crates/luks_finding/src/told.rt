//! What a place of a disk tells.

/// The starts of the volumes whose first sign is at one place of a disk.
#[derive(Clone, Copy, PartialEq, Eq)]
pub(crate) enum Told {
    /// There is none.
    Nothing,
    /// One volume begins at this place, in bytes.
    One(u64),
    /// Two begin at these, the first one before the second: a JSON area doesn't say of which copy it
    /// is.
    Two(u64, u64),
}
