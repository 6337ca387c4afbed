//! What a new keyslot is asked to derive by.

/// What a new keyslot is asked to derive by.
#[derive(Debug, Clone, Copy)]
pub enum AskedKdf {
    /// PBKDF2.
    Pbkdf2 {
        /// How many iterations it has.
        iterations: u32,
    },
    /// Argon2.
    Argon2(AskedArgon2),
}

/// Argon2 that is asked for, by its costs.
#[derive(Debug, Clone, Copy)]
pub struct AskedArgon2 {
    /// Its kind.
    pub kind: AskedKind,
    /// How many passes it makes over the memory.
    pub passes: u32,
    /// How many MiB of memory it takes.
    pub memory: u32,
    /// How many lanes it has.
    pub lanes: u32,
}

/// A kind of Argon2.
#[derive(Debug, Clone, Copy)]
pub enum AskedKind {
    /// Argon2i.
    Argon2i,
    /// Argon2id.
    Argon2id,
}
