//! The text of a JSON area.

ghost use Rattle.std.specs.Prelude.{◌≡◌, ◌≢◌, ℕ, ◌<◌, ◌≤◌, ◌↔◌, List, length, slice_index, All, IsTrue, IfSome, IsNone};
ghost use Rattle.luks_json.specs.AreaText.{JsonText};

/// The text before the first zero byte, where the area is a text that begins with a brace, then one or more zeros and nothing
/// else.
pub(crate) fn json_text(area: &[u8]) -> Option<&[u8]>
    ensures some { IfSome result (λ t. JsonText area.now t.now) }
    ensures none { IsNone result → (t : List ℕ) → JsonText area.now t → ⊥ }
{
    if area.is_empty() || area[0] != b'{' {
        return None;
    }
    let end = first_zero(area);
    if end == area.len() || !are_zeros(&area[end..]) {
        return None;
    }
    Some(&area[..end])
}

// The place of the first zero byte, or the length if there is none.
fn first_zero(bytes: &[u8]) -> usize
    ensures within { result ≤ length bytes.now }
    ensures before { (k : ℕ) → k < result → slice_index bytes.now k ≢ 0 }
    ensures found { result < length bytes.now → slice_index bytes.now result ≡ 0 }
{
    for (i, byte) in bytes.iter().enumerate() {
        if *byte == 0 {
            return i;
        }
    }
    bytes.len()
}

fn are_zeros(bytes: &[u8]) -> bool
    ensures { IsTrue result ↔ All (λ c. c ≡ 0) bytes.now }
{
    bytes.iter().all(|byte| *byte == 0)
}
