//! What a command answers, how that is printed, and the exit status that it ends with.
ghost use Rattle.std.specs.Prelude.{◌≡◌, ◌≢◌, ◌+◌, ◌<◌, ◌^◌, Some};
ghost use Rattle.luks_commands.specs.Answer.{answer_status, backup_fault_answer, check_fault_answer};
ghost use Rattle.luks_commands.specs.Answer.{convert_fault_answer, edit_fault_answer, restore_fault_answer};
ghost use Rattle.luks_commands.specs.Answer.{format_fault_answer, IsPrinted, key_fault_answer, line_of, open_fault_answer};
ghost use Rattle.luks_commands.specs.Answer.{rebuild_fault_answer, rebuild1_fault_answer, refusal_text, unread_answer};

use crate::inputs::InputFault;
use crate::printer::{Printer, Unprinted};
use crate::underway_refusal::UnderwayRefusal;
use crate::underway_shown::UnderwayShown;
use luks_converting::ConvertFault;
use luks_edit::EditFault;
use luks_formatting::FormatFault;
use luks_keeping::{BackupFault, Comparison, LostKeyslots, RestoreFault};
use luks_map::HeaderMap;
use luks_reading::{CheckFault, Copies, KeyFault, OpenFault, Version};
use luks_rebuilding::RebuildFault;
use luks_show::{FullListing, Listing, TokenListing, copies_name};
use luks_signatures::OtherUse;
use luks1_rebuilding::Rebuild1Fault;
use std::fmt;
use std::io::Write;

/// How a command ends; the numbers are the program's exit statuses. Status 2, for a wrong command
/// line, is given before any command runs.
#[derive(Clone, Copy)]
pub enum Status {
    /// Accepted, shown, opened or done.
    Done = 0,
    /// Refused, or it doesn't open; or not all could be done.
    Refused = 1,
    /// Accepted, but the two copies of the header aren't in step.
    NotInStep = 3,
    /// A file can't be read, or memory was refused.
    Fault = 4,
}

/// Why a command is refused.
#[derive(Clone, Copy, Drop)]
pub enum Refusal {
    /// The passphrase's file has more bytes than a passphrase may have.
    LongPassphrase,
    /// The volume isn't accepted, or its header can't be shown.
    Check(CheckFault),
    /// The keyslot, or the volume, can't be opened whatever the passphrase.
    Open(OpenFault),
    /// It can't be told whether the key is the volume's.
    Key(KeyFault),
    /// The edit is refused.
    Edit(EditFault),
    /// The volume isn't made.
    Format(FormatFault),
    /// The volume isn't converted.
    Convert(ConvertFault),
    /// No header is made of the volume's metadata.
    Rebuild(RebuildFault),
    /// No header is made of what is left of a LUKS1 header.
    Rebuild1(Rebuild1Fault),
    /// No backup of the volume's header is made.
    Backup(BackupFault),
    /// The backup isn't put back onto the volume.
    Restore(RestoreFault),
    /// What is to be written, or compared, is the volume itself.
    SameFile,
    /// What a backup is to be written to is there and isn't empty.
    Exists,
    /// The disk has another use by now, which would be written over.
    OtherUse(OtherUse),
    /// Another volume's header is on what would be written over.
    OtherVolume,
    /// The metadata of a reencryption is on what would be written over.
    Reencrypting,
    /// Something is under way in the volume's metadata.
    Underway(UnderwayRefusal),
    /// A table of what is under way is asked for, and nothing is.
    NotUnderWay,
}

impl fmt::Display for Refusal {
    ghost output = { λ r. Some (refusal_text r) };

    fn fmt<W: fmt::Write>(&self, f: &mut fmt::Formatter<W>) -> fmt::Result {
        match self {
            Refusal::LongPassphrase => f.write_str("Passphrase"),
            Refusal::Check(fault) => write!(f, "{fault}"),
            Refusal::Open(fault) => write!(f, "{fault}"),
            Refusal::Key(fault) => write!(f, "{fault}"),
            Refusal::Edit(fault) => write!(f, "{fault}"),
            Refusal::Format(fault) => write!(f, "{fault}"),
            Refusal::Convert(fault) => write!(f, "{fault}"),
            Refusal::Rebuild(fault) => write!(f, "{fault}"),
            Refusal::Rebuild1(fault) => write!(f, "{fault}"),
            Refusal::Backup(fault) => write!(f, "{fault}"),
            Refusal::Restore(fault) => write!(f, "{fault}"),
            Refusal::SameFile => f.write_str("SameFile"),
            Refusal::Exists => f.write_str("Exists"),
            Refusal::OtherUse(found) => write!(f, "OtherUse({found})"),
            Refusal::OtherVolume => f.write_str("OtherVolume"),
            Refusal::Reencrypting => f.write_str("Reencrypting"),
            Refusal::Underway(refusal) => write!(f, "{refusal}"),
            Refusal::NotUnderWay => f.write_str("NotUnderWay"),
        }
    }
}

/// What a command answers, before it is printed.
#[derive(Drop)]
pub enum Answer {
    /// The volume is accepted.
    Accepted {
        /// Its version.
        version: Version,
        /// How many areas it has.
        areas: usize,
    },
    /// The header is shown, line by line.
    Listed(Listing),
    /// The header is shown, line by line, with all that they may tell.
    ListedFully(FullListing),
    /// The header's areas are shown.
    Mapped(HeaderMap),
    /// The header's tokens are shown, line by line.
    Tokens(TokenListing),
    /// The header is shown as this JSON object, or a token of it.
    Json(String),
    /// This is shown of a volume in whose metadata something is under way.
    Underway(UnderwayShown),
    /// The passphrase opens the keyslot of this number.
    Opens(u8),
    /// It doesn't open the keyslot of this number.
    Closed(u8),
    /// It opens no keyslot.
    NoneOpens,
    /// The key is the volume's.
    Matches,
    /// It is another.
    Differs,
    /// The edit is done, or the volume made; the keyslot that was made or sealed again.
    Done(Option<u8>),
    /// How a backup stands to the volume.
    Compared(Comparison),
    /// The backup is made, except for the key areas of these keyslots, which couldn't be read in full.
    Rescued(LostKeyslots),
    /// The command is refused.
    Refused(Refusal),
    /// A device call failed, or a file can't be read.
    DeviceFault,
    /// Memory was refused.
    NoMemory,
}

impl fmt::Display for Answer {
    ghost output = { λ a. line_of a };

    fn fmt<W: fmt::Write>(&self, f: &mut fmt::Formatter<W>) -> fmt::Result {
        match self {
            Answer::Accepted {
                version: Version::Luks1,
                areas,
            } => writeln!(f, "accepted luks1 areas {areas}"),
            Answer::Accepted {
                version: Version::Luks2 { copies, seqid },
                areas,
            } => {
                let name = copies_name(*copies);
                writeln!(f, "accepted luks2 {name} seqid {seqid} areas {areas}")
            }
            Answer::Listed(listing) => write!(f, "{listing}"),
            Answer::ListedFully(listing) => write!(f, "{listing}"),
            Answer::Mapped(map) => write!(f, "{map}"),
            Answer::Tokens(listing) => write!(f, "{listing}"),
            Answer::Json(text) => writeln!(f, "{text}"),
            Answer::Underway(shown) => write!(f, "{shown}"),
            Answer::Opens(n) => writeln!(f, "slot {n} opens"),
            Answer::Closed(n) => writeln!(f, "slot {n} does not open"),
            Answer::NoneOpens => writeln!(f, "no slot opens"),
            Answer::Matches => writeln!(f, "key matches"),
            Answer::Differs => writeln!(f, "key does not match"),
            Answer::Done(Some(n)) => writeln!(f, "done slot {n}"),
            Answer::Done(None) => writeln!(f, "done"),
            Answer::Compared(comparison) => write!(f, "{comparison}"),
            Answer::Rescued(lost) => write!(f, "{lost}"),
            Answer::Refused(refusal) => writeln!(f, "refused {refusal}"),
            Answer::DeviceFault => writeln!(f, "device fault"),
            Answer::NoMemory => writeln!(f, "no memory"),
        }
    }
}

impl Answer {
    /// How the command ends.
    pub fn status(&self) -> Status
        ensures { result ≡ answer_status self.now }
    {
        match self {
            Answer::Accepted {
                version: Version::Luks1,
                ..
            } => Status::Done,
            Answer::Accepted {
                version: Version::Luks2 { copies, .. },
                ..
            } => match copies {
                Copies::InStep => Status::Done,
                _ => Status::NotInStep,
            },
            Answer::Listed(_) | Answer::ListedFully(_) => Status::Done,
            Answer::Mapped(_) | Answer::Tokens(_) | Answer::Json(_) => Status::Done,
            Answer::Underway(_) => Status::Done,
            Answer::Opens(_) | Answer::Done(_) => Status::Done,
            Answer::Matches => Status::Done,
            Answer::Compared(comparison) if comparison.is_current() => Status::Done,
            Answer::Compared(_) | Answer::Rescued(_) => Status::Refused,
            Answer::Closed(_) | Answer::NoneOpens | Answer::Refused(_) => Status::Refused,
            Answer::Differs => Status::Refused,
            Answer::DeviceFault | Answer::NoMemory => Status::Fault,
        }
    }
}

/// Prints the answer, and gives the exit status. It is 4 where the answer can't be printed.
pub fn end<P: Printer>(answer: &Answer, out: &mut P) -> u8
    requires { P.failures out.old + 1 < 2 ^ 64 }
    ensures { IsPrinted answer.now (P.failures out.old) (P.failures out.new)
        (P.printed out.old) (P.printed out.new) result }
{
    match out.print(answer) {
        Ok(()) => answer.status() as u8,
        Err(Unprinted) => Status::Fault as u8,
    }
}

impl From<CheckFault> for Answer {
    ghost from_gives = { λ fault answer. answer ≡ check_fault_answer fault };

    fn from(fault: CheckFault) -> Answer {
        match fault {
            CheckFault::Device => Answer::DeviceFault,
            CheckFault::Memory => Answer::NoMemory,
            fault => Answer::Refused(Refusal::Check(fault)),
        }
    }
}

impl From<OpenFault> for Answer {
    ghost from_gives = { λ fault answer. answer ≡ open_fault_answer fault };

    fn from(fault: OpenFault) -> Answer {
        match fault {
            OpenFault::Device => Answer::DeviceFault,
            OpenFault::Memory => Answer::NoMemory,
            fault => Answer::Refused(Refusal::Open(fault)),
        }
    }
}

impl From<KeyFault> for Answer {
    ghost from_gives = { λ fault answer. answer ≡ key_fault_answer fault };

    fn from(fault: KeyFault) -> Answer {
        match fault {
            KeyFault::Device => Answer::DeviceFault,
            KeyFault::Memory => Answer::NoMemory,
            fault => Answer::Refused(Refusal::Key(fault)),
        }
    }
}

impl From<EditFault> for Answer {
    ghost from_gives = { λ fault answer. answer ≡ edit_fault_answer fault };

    fn from(fault: EditFault) -> Answer {
        match fault {
            EditFault::Device => Answer::DeviceFault,
            EditFault::Memory => Answer::NoMemory,
            fault => Answer::Refused(Refusal::Edit(fault)),
        }
    }
}

impl From<FormatFault> for Answer {
    ghost from_gives = { λ fault answer. answer ≡ format_fault_answer fault };

    fn from(fault: FormatFault) -> Answer {
        match fault {
            FormatFault::Device => Answer::DeviceFault,
            FormatFault::Memory => Answer::NoMemory,
            fault => Answer::Refused(Refusal::Format(fault)),
        }
    }
}

impl From<ConvertFault> for Answer {
    ghost from_gives = { λ fault answer. answer ≡ convert_fault_answer fault };

    fn from(fault: ConvertFault) -> Answer {
        match fault {
            ConvertFault::Device => Answer::DeviceFault,
            ConvertFault::Memory => Answer::NoMemory,
            fault => Answer::Refused(Refusal::Convert(fault)),
        }
    }
}

impl From<RebuildFault> for Answer {
    ghost from_gives = { λ fault answer. answer ≡ rebuild_fault_answer fault };

    fn from(fault: RebuildFault) -> Answer {
        match fault {
            RebuildFault::Device => Answer::DeviceFault,
            RebuildFault::Memory => Answer::NoMemory,
            fault => Answer::Refused(Refusal::Rebuild(fault)),
        }
    }
}

impl From<Rebuild1Fault> for Answer {
    ghost from_gives = { λ fault answer. answer ≡ rebuild1_fault_answer fault };

    fn from(fault: Rebuild1Fault) -> Answer {
        match fault {
            Rebuild1Fault::Device => Answer::DeviceFault,
            fault => Answer::Refused(Refusal::Rebuild1(fault)),
        }
    }
}

impl From<BackupFault> for Answer {
    ghost from_gives = { λ fault answer. answer ≡ backup_fault_answer fault };

    fn from(fault: BackupFault) -> Answer {
        match fault {
            BackupFault::Device => Answer::DeviceFault,
            BackupFault::Memory => Answer::NoMemory,
            fault => Answer::Refused(Refusal::Backup(fault)),
        }
    }
}

impl From<RestoreFault> for Answer {
    ghost from_gives = { λ fault answer. answer ≡ restore_fault_answer fault };

    fn from(fault: RestoreFault) -> Answer {
        match fault {
            RestoreFault::Device => Answer::DeviceFault,
            RestoreFault::Memory => Answer::NoMemory,
            fault => Answer::Refused(Refusal::Restore(fault)),
        }
    }
}

/// What is answered where a device call on the volume of this name failed: to `err` goes which volume
/// it is, and `what` failed.
pub fn device_fault<E: Write>(volume: &str, what: &str, err: &mut E) -> Answer
    ensures { result ≡ Answer.DeviceFault }
{
    let _ = writeln!(err, "luks: {volume}: {what}");
    Answer::DeviceFault
}

/// What is answered where the volume of this name isn't accepted, or its header isn't read.
#[tactic(auto, using(crate::proofs::CheckFacts::check_kinds))]
pub fn refused<E: Write>(fault: CheckFault, volume: &str, err: &mut E) -> Answer
    ensures answer { result ≡ check_fault_answer fault }
    ensures kinds { answer_status result ≢ Status.NotInStep }
{
    match fault {
        CheckFault::Device => device_fault(volume, "reading failed", err),
        fault => Answer::from(fault),
    }
}

/// What is answered where the file of this name can't be read.
pub fn unread<E: Write>(fault: InputFault, file: &str, err: &mut E) -> Answer
    ensures answer { result ≡ unread_answer fault }
    ensures status { answer_status result ≡ Status.Fault }
{
    let _ = match fault {
        InputFault::NoMemory => writeln!(err, "luks: {file}: no memory to read it"),
        InputFault::Absent => writeln!(err, "luks: {file}: not opened"),
        InputFault::Unreadable(reason) => writeln!(err, "luks: {file}: {reason}"),
    };
    match fault {
        InputFault::NoMemory => Answer::NoMemory,
        InputFault::Absent | InputFault::Unreadable(_) => Answer::DeviceFault,
    }
}
