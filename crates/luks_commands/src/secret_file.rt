//! Reading the first bytes of a file that are secret.
ghost use Rattle.std.specs.Prelude.{◌≡◌, ◌≢◌, [], IfOk, IfErr, IfSome, take};

use crate::inputs::InputFault;
use luks_wiping::Secret;
use std::alloc::Global;
use std::io::Read;

/// Memory for `count` bytes and one more, so that it doesn't grow, which would copy them, while so many
/// are read.
pub(crate) fn room_for(alloc: Global, count: usize) -> Result<Vec<u8>, InputFault>
    ensures empty { IfOk result (λ b. b.items ≡ []) }
    ensures kinds { IfErr result (λ f. f ≡ InputFault.NoMemory) }
{
    let mut room = Vec::new(alloc);
    match room.try_reserve_exact(count.saturating_add(1)) {
        Ok(()) => Ok(room),
        Err(_) => Err(InputFault::NoMemory),
    }
}

/// The first `count` bytes of a file, or all of a shorter one, read into this memory.
pub(crate) fn read_first<R: Read>(
    reader: &mut R,
    count: u64,
    mut room: Vec<u8>,
) -> Result<Secret, InputFault>
    requires empty { room.items ≡ [] }
    ensures bytes { IfOk result (λ b. IfSome (R.remaining reader.old) (λ known. b ≡ take count known)) }
    ensures kinds { IfErr result (λ f. f ≢ InputFault.Absent) }
{
    let read = reader.take(count).read_to_end(&mut room);
    let secret = Secret::new(room);
    let _ = read?;
    Ok(secret)
}
