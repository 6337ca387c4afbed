//! Areas of a volume, the device that holds a volume, and text fields of headers.
#![tactic(auto)]

mod area;
mod areas;
mod device;
mod faulty;
mod file;
mod filling;
mod fitting;
mod memory;
mod sectors;
mod text;

pub use area::{Area, AreaFault, AreaName};
pub use areas::{Areas, Entry, MOST_AREAS};
pub use device::{Device, DeviceFault};
pub use faulty::{FaultyDevice, Leave};
pub use file::FileDevice;
pub use filling::fill;
pub use fitting::fit;
pub use memory::MemDevice;
pub use sectors::{SECTOR, rounded_to_sectors};
pub use text::text_field;
