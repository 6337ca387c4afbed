//! The numbers by which the calls answer. `luks.h` lists them; a number stays its own in each later
//! version.
ghost use Rattle.std.specs.Prelude.{◌≡◌, ◌<◌};
ghost use Rattle.std.specs.Option.{option_map_or};
ghost use Rattle.luks_c_answers.specs.Numbers.{backup_number, check_number, convert_number, edit_number, fault_number, fault_numbered, format_number, key_number, open_number, read_number, rebuild1_number, rebuild_number, restore_number};

use luks_converting::ConvertFault;
use luks_edit::EditFault;
use luks_explain::Fault;
use luks_formatting::FormatFault;
use luks_keeping::{BackupFault, RestoreFault};
use luks_reading::{CheckFault, KeyFault, OpenFault, ReadFault};
use luks_rebuilding::RebuildFault;
use luks1_rebuilding::Rebuild1Fault;

/// Done: the volume is accepted, the keyslot opens, the text or the plan is given.
pub const DONE: u32 = 0;

/// No fault: the device's failure and a failed allocation have numbers of their own, and are never told by
/// this one.
const UNKNOWN: u32 = 99;

/// What the caller asks can't be: more bytes than the volume has, a passphrase that is too long.
pub const USAGE: u32 = 101;

/// Another range of the volume has to be given.
pub const BEYOND: u32 = 102;

/// Memory was refused.
pub const MEMORY: u32 = 103;

/// The passphrase opens no keyslot that was tried, or the key isn't the volume's.
pub const SHUT: u32 = 105;

/// The caller's buffer is too short for what is to be written there.
pub const ROOM: u32 = 106;

/// The fault of this number.
pub fn fault_of(number: u32) -> Option<Fault>
    ensures { result ≡ fault_numbered number }
{
    Fault::ALL
        .iter()
        .copied()
        .find(|fault| number_of(*fault) == number)
}

/// The number of the fault.
pub fn number_of(fault: Fault) -> u32
    ensures { result ≡ fault_number fault }
{
    match fault {
        Fault::TooShort => 1,
        Fault::NotLuks => 2,
        Fault::Version => 3,
        Fault::NoSoundCopy => 4,
        Fault::Text => 5,
        Fault::Uuid => 6,
        Fault::SlotState => 7,
        Fault::KeyBytes => 8,
        Fault::Stripes => 9,
        Fault::Iterations => 10,
        Fault::JsonArea => 11,
        Fault::BadJson => 12,
        Fault::NotWhole => 13,
        Fault::Shape => 14,
        Fault::Kind => 15,
        Fault::NoSuchName => 16,
        Fault::Assigned => 17,
        Fault::Sizes => 18,
        Fault::AreaTooSmall => 19,
        Fault::Region => 20,
        Fault::Outside => 21,
        Fault::Overlap => 22,
        fault => number_of_call(fault),
    }
}

/// The number of a fault that a call may have where `check` finds none.
fn number_of_call(fault: Fault) -> u32
    ensures { 22 < fault_number fault → result ≡ fault_number fault }
{
    match fault {
        Fault::NoSuchSlot => 23,
        Fault::SlotFree => 24,
        Fault::Argon2 => 25,
        Fault::Cipher => 26,
        Fault::Hash => 27,
        Fault::KeySize => 28,
        Fault::Locked => 29,
        Fault::Passphrase => 30,
        Fault::Requirements => 31,
        Fault::SlotTaken => 32,
        Fault::NoFreeSlot => 33,
        Fault::NoRoom => 34,
        Fault::LastSlot => 35,
        Fault::BadLabel => 36,
        Fault::SeqExhausted => 37,
        Fault::MetadataFull => 38,
        Fault::RandomLength => 39,
        Fault::TooSmall => 40,
        Fault::NotLuks1 => 41,
        Fault::SameFile => 42,
        Fault::Counts => 43,
        Fault::NoMetadata => 44,
        Fault::Exists => 45,
        Fault::NotAccepted => 46,
        Fault::DoesNotFit => 47,
        Fault::OtherVolume => 48,
        Fault::OtherUse => 49,
        Fault::SameSlot => 50,
        Fault::NoHeader => 51,
        Fault::Reencrypting => 52,
        Fault::NoSuchDigest => 53,
        Fault::KeyLength => 54,
        Fault::Payload => 55,
        Fault::SectorSize => 56,
        Fault::Uneven => 57,
        Fault::WrongKey => 58,
        Fault::NoSuchToken => 59,
        Fault::TokenTaken => 60,
        Fault::NoFreeToken => 61,
        Fault::UnreadableToken => 62,
        Fault::BadUuid => 63,
        Fault::UnderWay => 64,
        Fault::NoKey => 65,
        Fault::Progressed => 66,
        Fault::NotUnderWay => 67,
        _ => UNKNOWN,
    }
}

/// The number of what `check` answers in place of a report.
pub fn check_number(fault: &CheckFault) -> u32
    ensures { result ≡ check_number fault.now }
{
    match fault {
        CheckFault::Head(fault) => told_number(Fault::of_head(fault)),
        CheckFault::Meta(fault) => told_number(Fault::of_meta(fault)),
        CheckFault::Area(fault) => told_number(Fault::of_area(fault)),
        CheckFault::Device => BEYOND,
        CheckFault::Memory => MEMORY,
    }
}

/// The number of what reading the header answers in place of one.
pub fn read_number(fault: &ReadFault) -> u32
    ensures { result ≡ read_number fault.now }
{
    match fault {
        ReadFault::Head(fault) => told_number(Fault::of_head(fault)),
        ReadFault::Meta(fault) => told_number(Fault::of_meta(fault)),
        ReadFault::Device => BEYOND,
        ReadFault::Memory => MEMORY,
    }
}

/// The number of what opening a keyslot answers in place of a key.
pub fn open_number(fault: &OpenFault) -> u32
    ensures { result ≡ open_number fault.now }
{
    match fault {
        OpenFault::Head(fault) => told_number(Fault::of_head(fault)),
        OpenFault::Meta(fault) => told_number(Fault::of_meta(fault)),
        OpenFault::NoSuchSlot => number_of(Fault::NoSuchSlot),
        OpenFault::SlotFree => number_of(Fault::SlotFree),
        OpenFault::Outside => number_of(Fault::Outside),
        OpenFault::Slot(fault) => told_number(Fault::of_slot(fault)),
        OpenFault::Device => BEYOND,
        OpenFault::Memory => MEMORY,
    }
}

/// The number of what judging a key answers in place of whether it is the volume's.
pub fn key_number(fault: &KeyFault) -> u32
    ensures { result ≡ key_number fault.now }
{
    match fault {
        KeyFault::Head(fault) => told_number(Fault::of_head(fault)),
        KeyFault::Meta(fault) => told_number(Fault::of_meta(fault)),
        KeyFault::NoSuchDigest => number_of(Fault::NoSuchDigest),
        KeyFault::KeyLength => number_of(Fault::KeyLength),
        KeyFault::Hash => number_of(Fault::Hash),
        KeyFault::Device => BEYOND,
        KeyFault::Memory => MEMORY,
    }
}

/// The number of what an edit answers in place of what it made.
pub fn edit_number(fault: &EditFault) -> u32
    ensures { result ≡ edit_number fault.now }
{
    match fault {
        EditFault::NotAccepted(fault) => told_number(Fault::of_check(fault)),
        EditFault::Requirements => number_of(Fault::Requirements),
        EditFault::NoSuchSlot => number_of(Fault::NoSuchSlot),
        EditFault::SameSlot => number_of(Fault::SameSlot),
        EditFault::Locked => number_of(Fault::Locked),
        EditFault::KeyLength => number_of(Fault::KeyLength),
        EditFault::WrongKey => number_of(Fault::WrongKey),
        EditFault::Slot(fault) => told_number(Fault::of_slot(fault)),
        EditFault::SlotTaken => number_of(Fault::SlotTaken),
        EditFault::NoFreeSlot => number_of(Fault::NoFreeSlot),
        EditFault::NoRoom => number_of(Fault::NoRoom),
        EditFault::LastSlot => number_of(Fault::LastSlot),
        EditFault::Iterations => number_of(Fault::Iterations),
        EditFault::Argon2 => number_of(Fault::Argon2),
        EditFault::BadLabel => number_of(Fault::BadLabel),
        EditFault::NoSuchToken => number_of(Fault::NoSuchToken),
        EditFault::TokenTaken => number_of(Fault::TokenTaken),
        EditFault::NoFreeToken => number_of(Fault::NoFreeToken),
        EditFault::UnreadableToken => number_of(Fault::UnreadableToken),
        EditFault::BadUuid => number_of(Fault::BadUuid),
        EditFault::BadToken(fault) => told_number(Fault::of_meta(fault)),
        EditFault::SeqExhausted => number_of(Fault::SeqExhausted),
        EditFault::MetadataFull => number_of(Fault::MetadataFull),
        EditFault::RandomLength => number_of(Fault::RandomLength),
        EditFault::Memory => MEMORY,
        EditFault::Device => BEYOND,
    }
}

/// The number of what formatting answers in place of a volume.
pub fn format_number(fault: &FormatFault) -> u32
    ensures { result ≡ format_number fault.now }
{
    match fault {
        FormatFault::Payload => number_of(Fault::Payload),
        FormatFault::TooSmall => number_of(Fault::TooSmall),
        FormatFault::SectorSize => number_of(Fault::SectorSize),
        FormatFault::Uneven => number_of(Fault::Uneven),
        FormatFault::Uuid => number_of(Fault::Uuid),
        FormatFault::BadLabel => number_of(Fault::BadLabel),
        FormatFault::Cipher => number_of(Fault::Cipher),
        FormatFault::KeyLength => number_of(Fault::KeyLength),
        FormatFault::Iterations => number_of(Fault::Iterations),
        FormatFault::Argon2 => number_of(Fault::Argon2),
        FormatFault::RandomLength => number_of(Fault::RandomLength),
        FormatFault::Memory => MEMORY,
        FormatFault::Device => BEYOND,
    }
}

/// The number of what converting answers in place of a header.
pub fn convert_number(fault: &ConvertFault) -> u32
    ensures { result ≡ convert_number fault.now }
{
    match fault {
        ConvertFault::NotAccepted(fault) => told_number(Fault::of_check(fault)),
        ConvertFault::NotLuks1 => number_of(Fault::NotLuks1),
        ConvertFault::TooSmall => number_of(Fault::TooSmall),
        ConvertFault::NoRoom => number_of(Fault::NoRoom),
        ConvertFault::MetadataFull => number_of(Fault::MetadataFull),
        ConvertFault::RandomLength => number_of(Fault::RandomLength),
        ConvertFault::Memory => MEMORY,
        ConvertFault::Device => BEYOND,
    }
}

/// The number of what rebuilding answers in place of a LUKS2 header.
pub fn rebuild_number(fault: &RebuildFault) -> u32
    ensures { result ≡ rebuild_number fault.now }
{
    match fault {
        RebuildFault::Counts => number_of(Fault::Counts),
        RebuildFault::NoMetadata => number_of(Fault::NoMetadata),
        RebuildFault::Area(fault) => told_number(Fault::of_area(fault)),
        RebuildFault::TooSmall => number_of(Fault::TooSmall),
        RebuildFault::Uuid => number_of(Fault::Uuid),
        RebuildFault::RandomLength => number_of(Fault::RandomLength),
        RebuildFault::Memory => MEMORY,
        RebuildFault::Device => BEYOND,
    }
}

/// The number of what rebuilding answers in place of a LUKS1 header.
pub fn rebuild1_number(fault: &Rebuild1Fault) -> u32
    ensures { result ≡ rebuild1_number fault.now }
{
    match fault {
        Rebuild1Fault::Counts => number_of(Fault::Counts),
        Rebuild1Fault::Reencrypting => number_of(Fault::Reencrypting),
        Rebuild1Fault::NoHeader => number_of(Fault::NoHeader),
        Rebuild1Fault::Text(_) => number_of(Fault::Text),
        Rebuild1Fault::KeyBytes => number_of(Fault::KeyBytes),
        Rebuild1Fault::Iterations => number_of(Fault::Iterations),
        Rebuild1Fault::TooSmall => number_of(Fault::TooSmall),
        Rebuild1Fault::Area(fault) => told_number(Fault::of_area(fault)),
        Rebuild1Fault::Device => BEYOND,
    }
}

/// The number of what backing up answers in place of a backup.
pub fn backup_number(fault: &BackupFault) -> u32
    ensures { result ≡ backup_number fault.now }
{
    match fault {
        BackupFault::NotAccepted(fault) => told_number(Fault::of_check(fault)),
        BackupFault::TooSmall => number_of(Fault::TooSmall),
        BackupFault::Memory => MEMORY,
        BackupFault::Device => BEYOND,
    }
}

/// The number of what restoring answers in place of a volume.
pub fn restore_number(fault: &RestoreFault) -> u32
    ensures { result ≡ restore_number fault.now }
{
    match fault {
        RestoreFault::NotAccepted(_) => number_of(Fault::NotAccepted),
        RestoreFault::DoesNotFit(_) => number_of(Fault::DoesNotFit),
        RestoreFault::OtherVolume => number_of(Fault::OtherVolume),
        RestoreFault::Memory => MEMORY,
        RestoreFault::Device => BEYOND,
    }
}

/// The number of a fault, or of none.
fn told_number(fault: Option<Fault>) -> u32
    ensures { result ≡ option_map_or fault_number fault 99 }
{
    match fault {
        Some(fault) => number_of(fault),
        None => UNKNOWN,
    }
}
