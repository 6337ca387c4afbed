//! The digest of a segment's key.

ghost use Rattle.std.specs.Prelude.{◌≡◌, ◌<◌};
ghost use Rattle.serde_json.specs.View.{view};
ghost use Rattle.luks_underway_tables.specs.Table.{segment_digest};

use luks_underway::is_named;
use serde_json::Value;

/// The least digest that names the segment, if one does.
pub(crate) fn digest_of(value: &Value, segment: u8) -> Option<u8>
    requires { segment < 32 }
    ensures { result ≡ segment_digest (view value.now) segment }
{
    for digest in 0..32u8 {
        if is_named(value, "segments", segment, digest) {
            return Some(digest);
        }
    }
    None
}
