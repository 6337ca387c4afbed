//! The caller's buffers.
ghost use Rattle.std.specs.Prelude.{◌≡◌, ◌≤◌, ◌+◌, length};
ghost use Rattle.luks_area.specs.Ranges.{written};
ghost use Rattle.luks_c_answers.specs.Buffers.{filled};

/// So many bytes are moved before the memory that they took is given back.
const PIECE: usize = 1 << 16;

/// Writes as much of the items as fits to the front of the buffer, and leaves the rest of it as it was.
pub fn fill_front<T: Copy>(buffer: &mut [T], items: &[T])
    ensures { buffer.new ≡ filled buffer.old items.now }
{
    let len = items.len().min(buffer.len());
    buffer[..len].copy_from_slice(&items[..len]);
}

/// Moves the bytes to the front of the buffer, which has room for them, and leaves the rest of it as it was:
/// piece by piece from the last on, and gives the memory of each back, so that no more than one stands
/// twice.
pub(crate) fn move_front(buffer: &mut [u8], bytes: Vec<u8>)
    requires { length bytes.items ≤ length buffer.old }
    ensures { buffer.new ≡ filled buffer.old bytes.items }
{
    let mut left = bytes;
    while !left.is_empty() {
        let start = left.len().saturating_sub(PIECE);
        copy_over(buffer, start, &left[start..]);
        left.truncate(start);
        left.shrink_to_fit();
    }
}

/// Writes `from` over the bytes from the one numbered `at` on.
fn copy_over(bytes: &mut [u8], at: usize, from: &[u8])
    requires { at + length from.now ≤ length bytes.old }
    ensures { bytes.new ≡ written bytes.old at from.now }
{
    bytes[at..at + from.len()].copy_from_slice(from);
}
