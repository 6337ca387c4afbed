//! Volumes for the tests, put together by the layout of the formats alone, metadata, numbers and
//! command lines. They have no contracts: what is made here is compared with the SHA-256 that another
//! program gives.
#![tactic(auto)]

mod argon2;
mod folders;
mod images;
mod metadata;
mod numbers;
pub mod shapes;
mod sums;
mod words;

pub use argon2::{ARGON2I_1, ARGON2ID_0, STRIPE_BY_ARGON2I, STRIPE_BY_ARGON2ID};
pub use folders::new_folder;
pub use images::{
    Fields, LUKS1, LUKS2, STRIPE, STRIPE_BY_SHA512, copy_of, luks1, luks2, opening_luks1, put_copy,
    put_front, roomy_luks2, roomy_text,
};
pub use luks_test_devices::is_sum;
pub use metadata::{Edit, THREE, ZEROS, edited, edited_once, filled, text_of};
pub use numbers::counted_modulo_256;
pub use sums::hex_digit;
pub use words::{CHECK, OPEN};
