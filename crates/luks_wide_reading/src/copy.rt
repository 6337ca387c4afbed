//! The copy that counts of a volume in whose metadata something is under way.

use luks_reading::{Bin2, Copies, MetaFault};
use luks_wider::Underway;

/// The LUKS2 copy that counts, where something is under way in its metadata.
#[derive(Drop)]
pub struct UnderwayCopy {
    /// Its binary header. The copy is at `header.hdr_offset`.
    pub header: Bin2,
    /// How the two copies stand to each other.
    pub copies: Copies,
    /// Its metadata.
    pub meta: Underway,
    /// The fault by which `read_header` refuses it.
    pub narrow_fault: MetaFault,
}
