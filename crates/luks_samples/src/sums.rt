//! Hexadecimal digits.

/// The digit of a value below 16, in lower case.
pub fn hex_digit(value: u8) -> u8 {
    if value < 10 {
        value.wrapping_add(b'0')
    } else {
        value.wrapping_add(b'a' - 10)
    }
}
