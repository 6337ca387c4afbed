//! What is asked of a volume's tokens, and which priority a keyslot is to have.

/// The priority that a keyslot is to have (LUKS2 On-Disk Format 1.1, 3.2).
#[derive(Debug, Clone, Copy)]
pub enum AskedPriority {
    /// It isn't tried where no keyslot is named.
    Ignore,
    /// It is tried after those that are preferred: the metadata says no priority.
    Normal,
    /// It is tried before all others.
    Prefer,
}
