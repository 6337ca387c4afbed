//! The names of keyslots, segments, digests and tokens: `"0"` to `"31"`.

ghost use Rattle.std.specs.Prelude.{◌≡◌, ◌<◌, [], ◌∷◌};
ghost use Rattle.luks_json.specs.Number.{number_text, number_of};

/// The name of the object with number `n`.
pub fn number_text(n: u8) -> &'static str
    requires { n < 32 }
    ensures { result.now ≡ number_text n }
{
    match n {
        0 => "0",
        1 => "1",
        2 => "2",
        3 => "3",
        4 => "4",
        5 => "5",
        6 => "6",
        7 => "7",
        8 => "8",
        9 => "9",
        10 => "10",
        11 => "11",
        12 => "12",
        13 => "13",
        14 => "14",
        15 => "15",
        16 => "16",
        17 => "17",
        18 => "18",
        19 => "19",
        20 => "20",
        21 => "21",
        22 => "22",
        23 => "23",
        24 => "24",
        25 => "25",
        26 => "26",
        27 => "27",
        28 => "28",
        29 => "29",
        30 => "30",
        _ => "31",
    }
}

/// The number of the object that the text names, from 0 to 31 without leading zeros.
pub fn number_named(text: &str) -> Option<u8>
    ensures { result ≡ number_of text.now }
{
    match text.as_bytes() {
        [ones] if ones.is_ascii_digit() => Some(*ones - b'0'),
        [tens, ones] => two_digits(*tens, *ones),
        _ => None,
    }
}

fn two_digits(tens: u8, ones: u8) -> Option<u8>
    ensures { result ≡ number_of (tens ∷ ones ∷ []) }
{
    match (tens, ones) {
        (b'1'..=b'2', b'0'..=b'9') | (b'3', b'0'..=b'1') => Some(
            10 * (tens - b'0') + (ones - b'0'),
        ),
        _ => None,
    }
}
