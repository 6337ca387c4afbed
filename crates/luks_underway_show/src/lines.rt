//! Which lines are listed.

/// Which lines are listed: those of `show`, or those of `show --all`.
#[derive(Clone, Copy)]
pub enum Lines {
    /// A line for each object.
    Few,
    /// Further ones: the subsystem, the costs and salts of keyslots, and how segments are encrypted.
    All,
}
