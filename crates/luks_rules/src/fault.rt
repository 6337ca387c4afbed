//! What a JSON area may be refused for.

ghost use Rattle.std.specs.Prelude.{◌≡◌};

use arrayvec::ArrayString;
use luks_area::AreaName;
use luks_json::JsonFault;
use std::error::Error;
use std::fmt;

/// Why a JSON area was refused. The first of the variants that applies is answered, and of a
/// variant with a path the least path by the order of its bytes, with a number the least number.
#[derive(Debug, Clone, Copy, PartialEq, Eq, Drop)]
pub enum MetaFault {
    /// The area isn't a text that begins with a brace, then one or more zero bytes and nothing else.
    JsonArea,
    /// The text isn't UTF-8, is no JSON text, or nests deeper than 127.
    BadJson,
    /// A number anywhere has a fraction or an exponent, or lies beyond 64 bits.
    NotWhole,
    /// The member at the path is missing or breaks its rule.
    Shape(ArrayString<32>),
    /// The type at the path is a text that isn't listed.
    Kind(ArrayString<32>),
    /// The array at the path names an object that isn't there.
    NoSuchName(ArrayString<32>),
    /// The array at the path repeats a name, or the object isn't named by exactly one digest.
    Assigned(ArrayString<32>),
    /// `config.json_size` isn't the JSON area's length in bytes.
    Sizes,
    /// The keyslot's area has fewer bytes than the sectors that its stripes need.
    AreaTooSmall(u8),
    /// The keyslot's area isn't within the region of key areas, or the segment begins before the
    /// region's end.
    Region(AreaName),
    /// Memory was refused.
    Memory,
}

impl fmt::Display for MetaFault {
    ghost use Rattle.std.specs.Prelude.{Some};
    ghost use Rattle.luks_rules.specs.MetaFault.{fault_text};

    ghost output = { λ f. Some (fault_text f) };

    fn fmt<W: fmt::Write>(&self, f: &mut fmt::Formatter<W>) -> fmt::Result {
        match self {
            MetaFault::JsonArea => f.write_str("JsonArea"),
            MetaFault::BadJson => f.write_str("BadJson"),
            MetaFault::NotWhole => f.write_str("NotWhole"),
            MetaFault::Shape(path) => write!(f, "Shape({path})"),
            MetaFault::Kind(path) => write!(f, "Kind({path})"),
            MetaFault::NoSuchName(path) => write!(f, "NoSuchName({path})"),
            MetaFault::Assigned(path) => write!(f, "Assigned({path})"),
            MetaFault::Sizes => f.write_str("Sizes"),
            MetaFault::AreaTooSmall(number) => write!(f, "AreaTooSmall({number})"),
            MetaFault::Region(name) => write!(f, "Region({name})"),
            MetaFault::Memory => f.write_str("Memory"),
        }
    }
}

impl Error for MetaFault {}

impl From<JsonFault> for MetaFault {
    ghost use Rattle.luks_rules.specs.MetaFault.{of_json};

    ghost from_gives = { λ fault f. f ≡ of_json fault };

    fn from(fault: JsonFault) -> MetaFault {
        match fault {
            JsonFault::JsonArea => MetaFault::JsonArea,
            JsonFault::BadJson => MetaFault::BadJson,
            JsonFault::Memory => MetaFault::Memory,
        }
    }
}
