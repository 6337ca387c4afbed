//! Where in its file a volume lies.

/// Which bytes of a file or device are the volume.
#[derive(Debug, Clone, Copy)]
pub struct Place {
    /// The byte of the file that is the volume's first.
    pub offset: u64,
    /// How many bytes the volume has, or fewer where the file ends before; without it the volume goes
    /// to the file's end.
    pub length: Option<u64>,
}
