//! Why a JSON area holds no value.

use std::error::Error;
use std::fmt;

/// Why no value was read from a JSON area.
#[derive(Debug, Clone, Copy, PartialEq, Eq, Drop)]
pub enum JsonFault {
    /// The area isn't a text that begins with a brace, then one or more zero bytes and nothing else.
    JsonArea,
    /// The text isn't UTF-8, is no JSON text, or nests deeper than 127.
    BadJson,
    /// Memory was refused.
    Memory,
}

impl fmt::Display for JsonFault {
    ghost use Rattle.std.specs.Prelude.{Some};
    ghost use Rattle.luks_json.specs.AreaText.{fault_text};

    ghost output = { λ f. Some (fault_text f) };

    fn fmt<W: fmt::Write>(&self, f: &mut fmt::Formatter<W>) -> fmt::Result {
        match self {
            JsonFault::JsonArea => f.write_str("JsonArea"),
            JsonFault::BadJson => f.write_str("BadJson"),
            JsonFault::Memory => f.write_str("Memory"),
        }
    }
}

impl Error for JsonFault {}
