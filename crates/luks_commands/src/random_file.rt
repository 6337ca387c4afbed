//! Reading random bytes from their file.
ghost use Rattle.std.specs.Prelude.{◌≡◌, ◌≢◌, IfOk, IfErr, IfSome, take};
ghost use Rattle.luks_commands.specs.Files.{AreFirstBytes, IsUnreadRandom};
ghost use Rattle.luks_commands.specs.declared.answers.Answer.TheVariants.{Refused};

use crate::answers::{Answer, Refusal};
use crate::inputs::InputFault;
use crate::secret_file::{read_first, room_for};
use luks_wiping::Secret;
use std::alloc::Global;
use std::io::{Read, Write};

/// The random bytes that a command needs, and those that it has.
#[derive(Clone, Copy)]
pub struct RandomBytes<'a> {
    /// Their file, where the command line names one.
    pub file: Option<&'a str>,
    /// How many are needed.
    pub needed: u64,
    /// The first bytes of the file, as many as are needed or as it has; none without a file.
    pub bytes: &'a [u8],
}

/// So many random bytes: the first of their file, and no more; fewer where the file ends before, and
/// none where none is named. The file isn't touched where no byte is asked for.
pub fn random_bytes<R: Read>(
    alloc: Global,
    file: &mut Result<R, InputFault>,
    count: u64,
) -> Result<Secret, InputFault>
    ensures taken { IfOk result (λ b. AreFirstBytes count R.remaining file.old b) }
    ensures unread { IfErr result (IsUnreadRandom count file.old) }
    ensures unasked { count ≡ 0 → file.new ≡ file.old }
{
    if count == 0 {
        return Ok(Secret::new(Vec::new(alloc)));
    }
    match file {
        Ok(reader) => first_random_bytes(alloc, reader, count),
        Err(InputFault::Absent) => Ok(Secret::new(Vec::new(alloc))),
        Err(fault) => Err(*fault),
    }
}

fn first_random_bytes<R: Read>(
    alloc: Global,
    reader: &mut R,
    count: u64,
) -> Result<Secret, InputFault>
    ensures kinds { IfErr result (λ f. f ≢ InputFault.Absent) }
    ensures bytes { IfOk result (λ b. IfSome (R.remaining reader.old) (λ known. b ≡ take count known)) }
{
    let room = room_for(alloc, count as usize)?;
    read_first(reader, count, room)
}

/// What is answered where a command is refused since it has fewer random bytes than it needs: to `err`
/// goes how many it needs, and how many the file has.
pub fn few_random_bytes<E: Write>(refusal: Refusal, random: &RandomBytes<'_>, err: &mut E) -> Answer
    ensures { result ≡ Refused refusal }
{
    let needed = random.needed;
    let had = random.bytes.len();
    let _ = match random.file {
        Some(file) => writeln!(
            err,
            "luks: {needed} random bytes are needed, {file} has {had}"
        ),
        None => writeln!(
            err,
            "luks: {needed} random bytes are needed: --random /dev/urandom"
        ),
    };
    Answer::Refused(refusal)
}
