//! What a backup may be restored over.

/// What a backup may be restored over.
#[derive(Clone, Copy, PartialEq, Eq)]
pub enum Over {
    /// A device on which no header counts, or one of the backup's volume: with its uuid, or with a digest
    /// of its volume key.
    SameVolume,
    /// Any device.
    AnyVolume,
}
