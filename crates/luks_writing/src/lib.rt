//! Writing to a device: ranges, areas and keyslots, copies of a LUKS2 header, zeros where an older header
//! stood, and areas copied from another device. Each call flushes what it wrote. If one fails, its own
//! range holds any bytes, and every other byte is as it was.
//!
//! Formatting, converting and rebuilding write key areas before the header that names them. An older header
//! on the same device would still count meanwhile, though its key areas are overwritten: so its places are
//! cleared first. What is copied comes from a second device, which stays as it is; either may fail.
#![tactic(auto)]

mod areas;
mod checksums;
mod clearing;
mod copying;
mod header_copy;
mod laws;
mod steps;

pub use areas::copy_area;
pub use checksums::with_checksums;
pub use clearing::clear_places;
pub use header_copy::{write_copy, write_summed_copy};
pub use laws::cleared_counts_no_more;
pub use steps::{seal_area, seal_area_within, wipe_area, write_range};
