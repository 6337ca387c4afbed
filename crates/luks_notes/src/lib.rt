//! Says on standard error what a command's answer doesn't tell of a volume: in which copy of a LUKS2 header
//! metadata is whole, of a volume of which no header counts and of one whose header was rebuilt; which
//! keyslots were lost where that was a LUKS1 header; that a volume has no keyslot, or that another program has
//! moved its key areas; which keyslots weren't tried, and why; that the key of one that opens is of no segment;
//! that nobody types a passphrase at a prompt; and what is on a volume that was just made where nothing was
//! written, as second copies of older headers, and the signatures of file systems and of swap.
#![tactic(auto)]

mod ending;
mod front;
mod further;
mod hashing;
mod keyslots;
mod leftover;
mod lost;
mod memory;
mod metadata;
mod moved;
mod noted;
mod older;
mod older_keyslot;
mod passed_over;
mod seeking;
mod taken;
mod telling;
mod told;
mod unbound;
mod untried;
mod untypable;

pub use ending::header_end;
pub use front::{FrontFault, read_front};
pub use hashing::Hashing;
pub use keyslots::note_no_keyslots;
pub use leftover::Leftover;
pub use lost::note_lost;
pub use memory::{MemoryNote, memory_note};
pub use metadata::note_whole;
pub use moved::{has_moved_areas, note_moved_areas};
pub use noted::{leftovers, note_leftovers};
pub use older_keyslot::{OlderNote, older_note};
pub use passed_over::note_passed_over;
pub use taken::note_taken;
pub use telling::{note_all_wanting, note_refused, note_wanting};
pub use unbound::{is_unbound, note_unbound};
pub use untried::note_untried;
pub use untypable::{Untypable, note_new_passphrase, note_tried_passphrase, why_untypable};
