//! Reading a passphrase from its file.
ghost use Rattle.std.specs.Prelude.{◌≡◌, ◌≢◌, ◌==◌, ◌≤◌, ◌<◌, IfOk, IfErr, IfSome, length, position, take};
ghost use Rattle.luks_commands.specs.Files.{IsLong, IsUnread, IsWhole};
ghost use Rattle.luks_commands.specs.FirstLine.{first_line};

use crate::inputs::InputFault;
use crate::secret_file::{read_first, room_for};
use luks_wiping::Secret;
use std::alloc::Global;
use std::io::{BufRead, BufReader, Read};

/// The most bytes that a passphrase has.
const MOST_BYTES: usize = 65536;

/// Why there is no passphrase.
#[derive(Clone, Copy)]
pub enum PassphraseFault {
    /// The file has more bytes than a passphrase may have.
    TooLong,
    /// The file can't be read.
    Input(InputFault),
}

impl From<InputFault> for PassphraseFault {
    ghost use Rattle.luks_commands.specs.declared.passphrase_file.PassphraseFault.TheVariants.{Input};

    ghost from_gives = { λ fault outer. outer ≡ Input fault };

    fn from(fault: InputFault) -> PassphraseFault {
        PassphraseFault::Input(fault)
    }
}

/// The whole bytes of a passphrase's file, a last newline too.
#[tactic(auto, using(crate::proofs::Fronts::whole_of))]
pub fn passphrase<R: Read>(
    alloc: Global,
    file: &mut Result<R, InputFault>,
) -> Result<Secret, PassphraseFault>
    ensures length { IfOk result (λ p. length p ≤ 65536) }
    ensures whole { IfOk result (λ p. IsWhole R.remaining file.old p) }
    ensures unread { IfErr result (λ f. (fault : InputFault)
        → f ≡ PassphraseFault.Input fault → IsUnread file.old fault) }
    ensures long { IfErr result (λ f. f ≡ PassphraseFault.TooLong → IsLong R.remaining file.old) }
{
    let reader = match file {
        Ok(reader) => reader,
        Err(fault) => return Err(PassphraseFault::Input(*fault)),
    };
    let room = room_for(alloc, MOST_BYTES + 1)?;
    let bytes = read_first(reader, MOST_BYTES as u64 + 1, room)?;
    if bytes.as_slice().len() > MOST_BYTES {
        return Err(PassphraseFault::TooLong);
    }
    Ok(bytes)
}

/// The bytes of a passphrase's file to its end, but at most 65537: one more than a passphrase has,
/// which tells that the file is too long.
pub fn first_bytes<R: Read>(alloc: Global, reader: &mut R) -> Result<Secret, InputFault>
    ensures bytes { IfOk result (λ p. IfSome (R.remaining reader.old) (λ bytes. p ≡ take 65537 bytes)) }
    ensures kinds { IfErr result (λ f. f ≢ InputFault.Absent) }
{
    let room = room_for(alloc, MOST_BYTES + 1)?;
    read_first(reader, MOST_BYTES as u64 + 1, room)
}

/// The first line of a passphrase's file, without its newline, but at most 65537 bytes of it: one
/// more than a passphrase has, which tells that the line is too long. It reads on until it has met a
/// newline, byte by byte, so that no copy of the line stays in a buffer and what follows isn't read.
pub fn first_line<R: Read>(alloc: Global, reader: &mut R) -> Result<Secret, InputFault>
    ensures line { IfOk result (λ p. IfSome (R.remaining reader.old)
        (λ bytes. p ≡ first_line (take 65537 bytes))) }
    ensures kinds { IfErr result (λ f. f ≢ InputFault.Absent) }
{
    let mut line = room_for(alloc, MOST_BYTES + 1)?;
    let mut front = BufReader::with_capacity(alloc, 1, reader.take(MOST_BYTES as u64 + 1))?;
    let read = front.read_until(b'\n', &mut line);
    cut_at_newline(&mut line);
    let secret = Secret::new(line);
    let _ = read?;
    Ok(secret)
}

/// Keeps what precedes the first newline.
fn cut_at_newline(bytes: &mut Vec<u8>)
    ensures { bytes.new.items ≡ first_line bytes.old.items }
{
    if let Some(end) = first_newline(bytes.as_slice()) {
        bytes.truncate(end);
    }
}

fn first_newline(bytes: &[u8]) -> Option<usize>
    ensures { result ≡ position (λ c. c == 10) bytes.now }
{
    bytes.iter().position(|byte| *byte == b'\n')
}
