use luks_kdf::HashName;

/// How a new volume is made; all else is fixed.
#[derive(Debug, Clone, Copy, PartialEq, Eq)]
pub struct Format {
    /// The hash of the derivation, the splitter and the digest.
    pub hash: HashName,
    /// The iterations of the derivation and of the digest, at least 1000.
    pub iterations: u32,
}
