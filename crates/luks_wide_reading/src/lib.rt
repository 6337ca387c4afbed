#![tactic(auto)]
//! Reading a volume by the wider reading: the header that counts also where something is under way in its
//! metadata, and the keyslots of such a volume opened. Nothing is written.

mod copy;
mod header;
mod open_fault;
mod opening;
mod read_fault;
mod trying;

pub use copy::UnderwayCopy;
pub use header::{WideHeader, read_wide_header};
pub use luks_underway::{
    Direction, Flags, Mode, Opal, ReencryptArea, Reencryption, Resilience, Side, WideKeyslot,
    WideKind, WideSegment,
};
pub use luks_wider::{Underway, WideFault};
pub use open_fault::WideOpenFault;
pub use opening::try_underway_slot;
pub use read_fault::WideReadFault;
pub use trying::try_underway;
