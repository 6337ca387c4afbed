//! Places in the metadata, and the tests of a value and of a place.

use crate::table::{Row, Section};
use serde_json::Value;

/// A value, and the length in bytes of the JSON area that it is in.
#[derive(Clone, Copy)]
pub(crate) struct Content<'a> {
    pub len: usize,
    pub value: &'a Value,
}

/// A section, an object of it with a number as its name, or a member of the one or the other.
#[derive(Clone, Copy)]
pub(crate) struct Place {
    pub section: Section,
    pub number: Option<u8>,
    pub row: Option<Row>,
}

/// What may be wrong at a place.
#[derive(Clone, Copy)]
pub enum Test {
    /// A member is missing or breaks its rule.
    Shape,
    /// A type is a text that isn't listed.
    Kind,
    /// An array names an object that isn't there.
    NoSuchName,
    /// An array repeats a name, or an object isn't named by exactly one digest.
    Assigned,
}

/// What may be wrong with the sizes that an object tells.
#[derive(Clone, Copy)]
pub(crate) enum SizeTest {
    SmallArea,
    SlotOutside,
    SegmentBelow,
}
