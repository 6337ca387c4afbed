//! The number that comes before an object as its name.
ghost use Rattle.std.specs.Prelude.{◌≡◌, ◌↔◌, ◌<◌, ◌≤◌, length, IsTrue};
ghost use Rattle.luks_fragments.specs.Fragments.{quoted, HasName, IsNamedAt};

/// The number that is the name of the object at this place: `"0":` to `"31":` stands right before it.
pub(crate) fn number_before(area: &[u8], start: usize) -> Option<u8>
    requires { start ≤ length area.now }
    ensures { HasName area.now start result }
{
    for n in 0..32 {
        if is_named(area, start, n) {
            return Some(n);
        }
    }
    None
}

/// Whether the bytes before the place end with this name.
fn is_named(area: &[u8], start: usize, n: u8) -> bool
    requires low { n < 32 }
    requires inside { start ≤ length area.now }
    ensures { IsTrue result ↔ IsNamedAt area.now start n }
{
    let name = quoted(n).as_bytes();
    if start < name.len() {
        return false;
    }
    &area[start - name.len()..start] == name
}

/// The name in quotes, and a colon.
fn quoted(n: u8) -> &'static str
    requires { n < 32 }
    ensures { result.now ≡ quoted n }
{
    match n {
        0 => "\"0\":",
        1 => "\"1\":",
        2 => "\"2\":",
        3 => "\"3\":",
        4 => "\"4\":",
        5 => "\"5\":",
        6 => "\"6\":",
        7 => "\"7\":",
        8 => "\"8\":",
        9 => "\"9\":",
        10 => "\"10\":",
        11 => "\"11\":",
        12 => "\"12\":",
        13 => "\"13\":",
        14 => "\"14\":",
        15 => "\"15\":",
        16 => "\"16\":",
        17 => "\"17\":",
        18 => "\"18\":",
        19 => "\"19\":",
        20 => "\"20\":",
        21 => "\"21\":",
        22 => "\"22\":",
        23 => "\"23\":",
        24 => "\"24\":",
        25 => "\"25\":",
        26 => "\"26\":",
        27 => "\"27\":",
        28 => "\"28\":",
        29 => "\"29\":",
        30 => "\"30\":",
        _ => "\"31\":",
    }
}
