#![tactic(auto)]
//! The rules that the metadata of a LUKS2 header has to meet, and the first that it breaks.

mod content;
mod fault;
mod judging;
mod laws;
mod members;
mod nesting;
mod path;
mod place;
mod reading;
mod row_faults;
mod sizes;
mod table;
mod valued;
mod walk;

pub use content::read_content;
pub use fault::MetaFault;
pub use laws::metadata_without_faults;
pub use members::{member_at, object_at, outer_at, section_at, type_at};
pub use nesting::nests_within;
pub use place::Test;
pub use reading::sector_size_in;
pub use row_faults::{row_fault, section_fault};
pub use sizes::{first_segment_below, has_slot_outside, has_small_area, json_size};
pub use table::{
    Listed, Member, Outer, Row, Rule, Section, When, member_name, rows_of, section_name,
};
pub use valued::judge_value;
