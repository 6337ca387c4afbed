//! Numbers that are written as text.

ghost use Rattle.std.specs.Prelude.{◌≡◌, ◌<◌, ◌↔◌, ◌≢◌, length, slice_index, IsTrue};
ghost use Rattle.luks_json.specs.Decimal.{decimal_of};

/// The number of 64 bits whose decimal digits the text is, without a sign or leading zeros.
pub fn decimal_value(text: &str) -> Option<u64>
    ensures { result ≡ decimal_of text.now }
{
    if !is_plain(text) {
        return None;
    }
    match text.parse::<u64>() {
        Ok(n) => Some(n),
        Err(_) => None,
    }
}

// Whether the text isn't empty and begins with neither a plus sign nor, unless it is that alone, a zero.
fn is_plain(text: &str) -> bool
    ensures { IsTrue result ↔ ((0 < length text.now) × (slice_index text.now 0 ≢ 43)
        × (slice_index text.now 0 ≡ 48 → length text.now ≡ 1)) }
{
    match text.as_bytes() {
        [] => false,
        [b'0'] => true,
        [first, ..] => *first != b'+' && *first != b'0',
    }
}
