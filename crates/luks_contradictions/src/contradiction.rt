//! The places where what is under way may contradict itself.

ghost use Rattle.std.specs.Prelude.{◌≡◌, ◌<◌};
ghost use Rattle.luks_json.specs.Number.{number_text};
ghost use Rattle.luks_contradictions.specs.Contradicted.{contradiction_path, IsNamed};

use arrayvec::ArrayString;
use luks_json::number_text;

/// A place where what is under way contradicts itself.
#[derive(Clone, Copy, PartialEq, Eq)]
pub enum Contradiction {
    /// `config.requirements`: what is under way isn't asked for.
    Requirements,
    /// A keyslot says what is under way, and so does one of a lesser number.
    Keyslot(u8),
    /// The segments as a whole: how many there are of a kind, or their numbers.
    Segments,
    /// A segment that data is read by isn't where or what it may be.
    Segment(u8),
}

/// The path of the place: names joined by points.
pub fn contradiction_path(place: Contradiction) -> ArrayString<32>
    requires { IsNamed place }
    ensures { result.bytes ≡ contradiction_path place }
{
    let mut path = ArrayString::new();
    match place {
        Contradiction::Requirements => path.push_str("config.requirements"),
        Contradiction::Keyslot(number) => {
            path.push_str("keyslots.");
            path.push_str(number_text(number));
        }
        Contradiction::Segments => path.push_str("segments"),
        Contradiction::Segment(number) => {
            path.push_str("segments.");
            path.push_str(number_text(number));
        }
    }
    path
}
