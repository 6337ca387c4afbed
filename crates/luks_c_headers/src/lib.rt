//! Headers that are made of another volume's, backed up, put back and compared, over ranges of both volumes,
//! as the calls for programs in C answer them.
#![tactic(auto)]

mod asking;
mod backing_up;
mod comparing;
mod converting;
mod rebuilding;
mod rebuilding1;
mod restoring;

pub use asking::{NoText, copies_asked, fields_of, text_of};
pub use backing_up::backup_given;
pub use comparing::{LuksCompared, compare_given};
pub use converting::convert_given;
pub use rebuilding::rebuild_given;
pub use rebuilding1::rebuild1_given;
pub use restoring::{over_of, restore_given};
