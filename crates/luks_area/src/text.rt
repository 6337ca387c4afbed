ghost use Rattle.std.specs.Prelude.{◌≡◌, ◌==◌, IfSome, IsSome, ◌↔◌, IsTrue, position};
ghost use Rattle.luks_area.specs.Text.{text_of, is_plain, is_printable};

use std::str;

/// The text of a header's field: what precedes its first zero byte, or the whole field (LUKS1
/// On-Disk Format 1.2.3, 3.1, has such fields, and so has the LUKS2 On-Disk Format 1.1, 2.1).
///
/// None where that text holds a byte outside 0x20 to 0x7E, which is this project's rule. What
/// follows the zero isn't looked at. An empty text is a text.
pub fn text_field(field: &[u8]) -> Option<&str>
    ensures text { IfSome result (λ t. t.now ≡ text_of field.now) }
    ensures plain { IsSome result ↔ IsTrue (is_plain (text_of field.now)) }
{
    let text = before_zero(field);
    if !is_plain(text) {
        return None;
    }
    match str::from_utf8(text) {
        Ok(text) => Some(text),
        Err(_) => None,
    }
}

fn is_plain(text: &[u8]) -> bool
    ensures { result ≡ is_plain text.now }
{
    text.iter().all(|c| is_printable(*c))
}

fn before_zero(field: &[u8]) -> &[u8]
    ensures { result.now ≡ text_of field.now }
{
    match first_zero(field) {
        Some(end) => &field[..end],
        None => field,
    }
}

fn first_zero(field: &[u8]) -> Option<usize>
    ensures { result ≡ position (λ c. c == 0) field.now }
{
    field.iter().position(|c| *c == 0)
}

fn is_printable(c: u8) -> bool
    ensures { result ≡ is_printable c }
{
    (0x20..=0x7E).contains(&c)
}
