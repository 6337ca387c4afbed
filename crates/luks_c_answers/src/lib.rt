//! How the calls for programs in C are asked and answer: by numbers, in the caller's buffers, and by a
//! plan of writes.
#![tactic(auto)]

mod asking;
mod buffers;
mod numbers;
mod plans;
mod texts;
mod tokens;
mod uses;

pub use asking::{
    Asked, LuksDerivation, LuksEdit, Unasked, allowed_of, asked_of, chosen_of, data_of,
    number_of_slot,
};
pub use buffers::fill_front;
pub use numbers::{
    BEYOND, DONE, MEMORY, ROOM, SHUT, USAGE, backup_number, check_number, convert_number,
    edit_number, fault_of, format_number, key_number, number_of, open_number, read_number,
    rebuild_number, rebuild1_number, restore_number,
};
pub use plans::{LuksPlan, give_plan, tell_either, tell_wanted};
pub use texts::{number_name, number_text};
pub use tokens::{NoToken, token_of};
pub use uses::{number_shown, use_name};
