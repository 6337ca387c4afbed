#![tactic(auto)]
//! The JSON area of a LUKS2 header: its text and value, and what is in the value's texts and arrays.

mod area_text;
mod arrays;
mod compact;
mod decimal;
mod encoded;
mod fault;
mod laws;
mod name_list;
mod number;
mod parsing;
mod values;
mod whole;

pub use arrays::{all_there, are_named, has_repeat, is_named_once, names};
pub use compact::compact_text_of;
pub use decimal::decimal_value;
pub use fault::JsonFault;
pub use laws::{
    arrays_hold_texts, decimals_say_numbers, encodings_say_bytes, names_say_numbers,
    one_kind_of_area, one_value,
};
pub use name_list::numbers_in;
pub use number::{number_named, number_text};
pub use parsing::read_json;
pub use values::{bytes_in, decimal_in, is_text_array, number_in, text_in, whole_number_in};
pub use whole::holds_float;
