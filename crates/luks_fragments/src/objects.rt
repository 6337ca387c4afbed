//! Objects by their braces.
ghost use Rattle.std.specs.Prelude.{◌≡◌, ◌≢◌, ◌⊎◌, ◌+◌, ◌<◌, ◌≤◌, ℕ, length, IfNone, IfSome};
ghost use Rattle.luks_fragments.specs.Objects.{IsObjectAt};
ghost use Rattle.luks_fragments.specs.Levels.{closes, opens};

/// An object has no more bytes.
const LONGEST: usize = 4096;

/// Its braces nest no deeper.
const DEEPEST: u8 = 2;

/// How many bytes the object has that begins at this place, if one does whose braces are balanced and nest at most 2 deep
/// within 4096 bytes. Strings aren't looked at.
///
/// No byte is looked at behind the third brace that opens, so a search from each place walks over a byte three times at most.
pub fn object_len(area: &[u8], start: usize) -> Option<usize>
    requires { start ≤ length area.now }
    ensures some { IfSome result (IsObjectAt area.now start) }
    ensures none { IfNone result ((len : ℕ) → IsObjectAt area.now start len → ⊥) }
{
    let end = LONGEST.min(area.len() - start);
    let mut level = 0;
    for done in 0..end {
        level = level_after(level, area[start + done])?;
        if level == 0 {
            return Some(done + 1);
        }
    }
    None
}

/// How many braces are open behind this byte, where so many are before it: none where it is no byte of an object.
fn level_after(level: u8, byte: u8) -> Option<u8>
    requires { level ≤ 2 }
    ensures counts { IfSome result (λ next. next + closes byte ≡ level + opens byte) }
    ensures shallow { IfSome result (λ next. next ≤ 2) }
    ensures begins { level ≡ 0 → IfSome result (λ next. next ≡ 1) }
    ensures none { IfNone result (((level ≡ 2) × (opens byte ≡ 1) × (closes byte ≡ 0)) ⊎ ((level ≡ 0) × (opens byte ≡ 0))) }
{
    match byte {
        b'{' if level < DEEPEST => Some(level + 1),
        b'{' => None,
        b'}' if level > 0 => Some(level - 1),
        _ if level > 0 => Some(level),
        _ => None,
    }
}
