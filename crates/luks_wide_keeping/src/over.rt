//! What a backup of a volume under way may be restored over.

/// Which headers a backup that was made while something was under way may be put over.
#[derive(Clone, Copy, PartialEq, Eq)]
pub struct OverUnderway {
    /// One with another uuid.
    pub another: bool,
    /// One with the backup's uuid that isn't of the very same state.
    pub progressed: bool,
}
