//! Making a LUKS volume of either version.
#![tactic(auto)]

mod derivation;
mod format_fault;
mod given;
mod judging;
mod laws;
mod luks1;
mod luks2;
mod metadata;
mod new_cipher;
mod new_header1;
mod new_header2;
mod plan;
mod random;
mod sealing;
mod volume2;

pub use format_fault::FormatFault;
pub use given::Given;
pub use laws::{
    formatted1_as_opens, formatted1_opens, formatted2_as_opens, formatted2_by_opens,
    formatted2_opens, none_chosen_is_as_the_digest,
};
pub use luks_making::{Argon2Costs, NewDerivation};
pub use luks_reading::Format;
pub use luks1::{FORMAT1_RANDOM, format1, format1_as, format1_random};
pub use luks2::{FORMAT2_RANDOM, format2, format2_as, format2_by, format2_random};
pub use new_cipher::NewCipher;
