//! Why an edit isn't completed.
ghost use Rattle.std.specs.Prelude.{Some};
ghost use Rattle.luks_edit.specs.FaultTexts.{edit_fault_text, run_fault_text};

use luks_reading::CheckFault;
use luks_rules::MetaFault;
use luks_slot::SlotFault;
use std::error::Error;
use std::fmt;

/// Why an edit isn't completed: the first in this order, except for a failed allocation and the device's
/// failure.
///
/// All but the device's failure leave every byte as it was.
#[derive(Debug, Clone, Copy, Drop)]
pub enum EditFault {
    /// `check` refuses the volume.
    NotAccepted(CheckFault),
    /// LUKS2: the metadata names requirements that this program doesn't know.
    Requirements,
    /// The keyslot to open, or the one to remove, isn't there or, in LUKS1, isn't enabled.
    NoSuchSlot,
    /// The keyslot to remove is the one that was named to open by.
    SameSlot,
    /// The passphrase doesn't open the keyslot.
    Locked,
    /// No key of the keyslot, or of the volume where no keyslot is asked for it, has so many bytes.
    KeyLength,
    /// The key isn't the keyslot's own, or the volume's.
    WrongKey,
    /// What the keyslot says of its derivation or cipher can't be opened here.
    Slot(SlotFault),
    /// The keyslot to make is in use.
    SlotTaken,
    /// There is no keyslot of that number, or none is free.
    NoFreeSlot,
    /// LUKS2: no gap of the key areas' region holds the new area.
    NoRoom,
    /// No other keyslot would be left.
    LastSlot,
    /// Fewer than 1000 iterations, or no pass of the Argon2 that is chosen.
    Iterations,
    /// The Argon2 that is chosen takes more memory than is allowed, or is outside its bounds; LUKS1 has
    /// none.
    Argon2,
    /// LUKS1 has no label, subsystem or metadata; a label or a subsystem of LUKS2 has at most 47 bytes of
    /// 0x20 to 0x7E.
    BadLabel,
    /// LUKS2: the token to remove isn't there.
    NoSuchToken,
    /// LUKS2: the number that is asked for a token is in use.
    TokenTaken,
    /// LUKS2: there is no token of that number, or none is free.
    NoFreeToken,
    /// LUKS2: cryptsetup doesn't read metadata with the new token: its type is the empty text, or arrays
    /// and objects nest in it deeper than 29 levels.
    UnreadableToken,
    /// The uuid to set isn't 32 hexadecimal digits with hyphens at places 8, 13, 18 and 23.
    BadUuid,
    /// LUKS2: the metadata with the new token breaks a rule.
    BadToken(MetaFault),
    /// LUKS2: there is no higher sequence number.
    SeqExhausted,
    /// LUKS2: the new metadata is longer than the JSON area holds.
    MetadataFull,
    /// The random bytes aren't exactly as many as the edit takes.
    RandomLength,
    /// Memory was refused.
    Memory,
    /// A device call failed.
    Device,
}

impl fmt::Display for EditFault {
    ghost output = { λ f. Some (edit_fault_text f) };

    fn fmt<W: fmt::Write>(&self, f: &mut fmt::Formatter<W>) -> fmt::Result {
        match self {
            EditFault::NotAccepted(fault) => write!(f, "{fault}"),
            EditFault::Requirements => f.write_str("Requirements"),
            EditFault::NoSuchSlot => f.write_str("NoSuchSlot"),
            EditFault::SameSlot => f.write_str("SameSlot"),
            EditFault::Locked => f.write_str("Locked"),
            EditFault::KeyLength => f.write_str("KeyLength"),
            EditFault::WrongKey => f.write_str("WrongKey"),
            EditFault::Slot(fault) => write!(f, "{fault}"),
            EditFault::SlotTaken => f.write_str("SlotTaken"),
            EditFault::NoFreeSlot => f.write_str("NoFreeSlot"),
            EditFault::NoRoom => f.write_str("NoRoom"),
            EditFault::LastSlot => f.write_str("LastSlot"),
            EditFault::Iterations => f.write_str("Iterations"),
            EditFault::Argon2 => f.write_str("Argon2"),
            EditFault::BadLabel => f.write_str("BadLabel"),
            EditFault::NoSuchToken => f.write_str("NoSuchToken"),
            EditFault::TokenTaken => f.write_str("TokenTaken"),
            EditFault::NoFreeToken => f.write_str("NoFreeToken"),
            EditFault::UnreadableToken => f.write_str("UnreadableToken"),
            EditFault::BadUuid => f.write_str("BadUuid"),
            EditFault::BadToken(fault) => write!(f, "{fault}"),
            EditFault::SeqExhausted => f.write_str("SeqExhausted"),
            EditFault::MetadataFull => f.write_str("MetadataFull"),
            EditFault::RandomLength => f.write_str("RandomLength"),
            EditFault::Memory => f.write_str("Memory"),
            EditFault::Device => f.write_str("Device"),
        }
    }
}

impl Error for EditFault {}

/// Why a list of edits wasn't begun.
#[derive(Debug, Clone, Copy, PartialEq, Eq, Drop)]
pub enum RunFault {
    /// Memory for the replies was refused; nothing ran.
    Memory,
}

impl fmt::Display for RunFault {
    ghost output = { λ f. Some (run_fault_text f) };

    fn fmt<W: fmt::Write>(&self, f: &mut fmt::Formatter<W>) -> fmt::Result {
        match self {
            RunFault::Memory => f.write_str("Memory"),
        }
    }
}

impl Error for RunFault {}
