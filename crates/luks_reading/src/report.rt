use luks_area::Areas;
use luks2_header::Copies;

/// Where the payload lies.
#[derive(Debug, Clone, Copy, PartialEq, Eq)]
pub enum Data {
    /// On the volume itself: its segments are areas of the volume.
    Here,
    /// On another device, the volume being a detached header: no segment is an area.
    Elsewhere,
}

/// The format of a volume.
#[derive(Clone, Copy, PartialEq, Eq)]
pub enum Version {
    /// LUKS1 On-Disk Format.
    Luks1,
    /// LUKS2 On-Disk Format.
    Luks2 {
        /// How the two copies of the header stand to each other.
        copies: Copies,
        /// The sequence number of the copy that counts.
        seqid: u64,
    },
}

/// What `check` says of a volume that it accepts.
#[derive(Drop)]
pub struct Report {
    /// The volume's format.
    pub version: Version,
    /// The volume's areas.
    pub areas: Areas,
}
