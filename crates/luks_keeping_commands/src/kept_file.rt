//! A file that a key or a token is kept in.
ghost use Rattle.std.specs.Prelude.{◌≡◌, ◌+◌, ◌<◌, ◌^◌, IfOk, OnOk, length};
ghost use Rattle.luks_area.specs.Device.{CountsFailure, IsSettled, is_failure};
ghost use Rattle.luks_keeping_commands.specs.KeptFile.{IsKept, unmade_answer};

use luks_commands::{Answer, InputFault, Reason, Refusal, device_fault, unread};
use luks_reading::{Device, DeviceFault};
use std::io::Write;

/// What the file is to keep.
#[derive(Clone, Copy)]
pub(crate) enum Kept {
    Key,
    Token,
}

impl Kept {
    /// Why the file isn't one for it.
    fn unfit(self) -> &'static str {
        match self {
            Kept::Key => "can't have the key's bytes and no others",
            Kept::Token => "can't have the token's bytes and no others",
        }
    }

    /// That a write failed.
    fn unwritten(self) -> &'static str {
        match self {
            Kept::Key => "writing failed, the key isn't kept",
            Kept::Token => "writing failed, the token isn't kept",
        }
    }

    /// Says what the file of a key is.
    fn note<E: Write>(self, file: &str, err: &mut E) {
        if let Kept::Key = self {
            let _ = writeln!(
                err,
                "luks: {file}: whoever has this key reads the data, and no change of passphrases revokes it"
            );
        }
    }
}

/// Writes the bytes to the file of this name, if that was made; standard error says what a key's is.
pub(crate) fn keep_in<D: Device, E: Write>(
    made: &mut Result<D, InputFault>,
    bytes: &[u8],
    file: &str,
    kept: Kept,
    err: &mut E,
) -> Answer
    requires { IfOk made.old (λ d. D.failed d ≡ 0) }
    ensures { IsKept D.Device bytes.now made.new result }
{
    let device = match made {
        Ok(device) => device,
        Err(fault) => return unmade(*fault, file, err),
    };
    if device.len() != bytes.len() as u64 {
        return device_fault(file, kept.unfit(), err);
    }
    match write_whole(device, bytes) {
        Ok(()) => {
            kept.note(file, err);
            Answer::Done(None)
        }
        Err(DeviceFault) => device_fault(file, kept.unwritten(), err),
    }
}

/// Writes the bytes over all that the file has, and flushes it.
fn write_whole<D: Device>(file: &mut D, bytes: &[u8]) -> Result<(), DeviceFault>
    requires room { D.failed file.old + 1 < 2 ^ 64 }
    requires size { D.size file.old ≡ length bytes.now }
    ensures count { CountsFailure is_failure result (D.failed file.old) (D.failed file.new) }
    ensures size { D.size file.new ≡ D.size file.old }
    ensures wrote { D.tells → OnOk result (D.bytes file.new ≡ bytes.now) }
    ensures settled { D.tells → OnOk result (IsSettled D.unsettled file.new) }
{
    file.write_at(0, bytes)?;
    file.flush()
}

/// What is answered where the file isn't made by this fault.
fn unmade<E: Write>(fault: InputFault, file: &str, err: &mut E) -> Answer
    ensures { result ≡ unmade_answer fault }
{
    match fault {
        InputFault::Unreadable(Reason::Exists) => Answer::Refused(Refusal::Exists),
        InputFault::Unreadable(Reason::SameFile) => Answer::Refused(Refusal::SameFile),
        fault => unread(fault, file, err),
    }
}
