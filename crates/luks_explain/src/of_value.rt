//! The fault of a value that a call or a command is refused by.
ghost use Rattle.std.specs.Prelude.{◌≡◌, Some};
ghost use Rattle.luks_area.specs.Printed.{area_fault_text};
ghost use Rattle.luks1_header.specs.FaultTexts.{fault_text as head_fault_text};
ghost use Rattle.luks_rules.specs.MetaFault.{fault_text as meta_fault_text};
ghost use Rattle.luks_slot.specs.Fault.{fault_text as slot_fault_text};
ghost use Rattle.luks_reading.specs.FaultTexts.{check_fault_text, key_fault_text, open_fault_text};
ghost use Rattle.luks_edit.specs.FaultTexts.{edit_fault_text};
ghost use Rattle.luks_formatting.specs.FormatFaults.{fault_text as format_fault_text};
ghost use Rattle.luks_converting.specs.FaultTexts.{convert_fault_text};
ghost use Rattle.luks_rebuilding.specs.FaultTexts.{rebuild_fault_text};
ghost use Rattle.luks1_rebuilding.specs.FaultTexts.{rebuild_fault_text as rebuild1_fault_text};
ghost use Rattle.luks_keeping.specs.FaultTexts.{backup_fault_text, restore_fault_text};
ghost use Rattle.luks_wider.specs.WideFaults.{wide_fault_text};
ghost use Rattle.luks_explain.specs.Names.{fault_named, name_in};

use crate::fault::Fault;
use luks_converting::ConvertFault;
use luks_edit::EditFault;
use luks_formatting::FormatFault;
use luks_keeping::{BackupFault, RestoreFault};
use luks_reading::{AreaFault, CheckFault, HeadFault, KeyFault, MetaFault, OpenFault};
use luks_rebuilding::RebuildFault;
use luks_slot::SlotFault;
use luks_wider::WideFault;
use luks1_rebuilding::Rebuild1Fault;

// That the device failed, and that memory was refused, is no fault of a volume, and has none.
impl Fault {
    /// That of a header's fields.
    pub fn of_head(fault: &HeadFault) -> Option<Fault>
        ensures { result ≡ fault_named (name_in (head_fault_text fault.now)) }
    {
        match fault {
            HeadFault::TooShort => Some(Fault::TooShort),
            HeadFault::NotLuks => Some(Fault::NotLuks),
            HeadFault::Version => Some(Fault::Version),
            HeadFault::NoSoundCopy => Some(Fault::NoSoundCopy),
            HeadFault::Text(_) => Some(Fault::Text),
            HeadFault::Uuid => Some(Fault::Uuid),
            HeadFault::SlotState(_) => Some(Fault::SlotState),
            HeadFault::KeyBytes => Some(Fault::KeyBytes),
            HeadFault::Stripes(_) => Some(Fault::Stripes),
            HeadFault::Iterations(_) => Some(Fault::Iterations),
            HeadFault::Device | HeadFault::Memory => None,
        }
    }

    /// That of the metadata.
    pub fn of_meta(fault: &MetaFault) -> Option<Fault>
        ensures { result ≡ fault_named (name_in (meta_fault_text fault.now)) }
    {
        match fault {
            MetaFault::JsonArea => Some(Fault::JsonArea),
            MetaFault::BadJson => Some(Fault::BadJson),
            MetaFault::NotWhole => Some(Fault::NotWhole),
            MetaFault::Shape(_) => Some(Fault::Shape),
            MetaFault::Kind(_) => Some(Fault::Kind),
            MetaFault::NoSuchName(_) => Some(Fault::NoSuchName),
            MetaFault::Assigned(_) => Some(Fault::Assigned),
            MetaFault::Sizes => Some(Fault::Sizes),
            MetaFault::AreaTooSmall(_) => Some(Fault::AreaTooSmall),
            MetaFault::Region(_) => Some(Fault::Region),
            MetaFault::Memory => None,
        }
    }

    /// That of metadata in which something is under way.
    pub fn of_wide(fault: &WideFault) -> Option<Fault>
        ensures { result ≡ fault_named (name_in (wide_fault_text fault.now)) }
    {
        match fault {
            WideFault::Meta(fault) => Fault::of_meta(fault),
            WideFault::UnderWay(_) => Some(Fault::UnderWay),
        }
    }

    /// That of areas.
    pub fn of_area(fault: &AreaFault) -> Option<Fault>
        ensures { result ≡ fault_named (name_in (area_fault_text fault.now)) }
    {
        match fault {
            AreaFault::Outside(_) => Some(Fault::Outside),
            AreaFault::Overlap(_, _) => Some(Fault::Overlap),
        }
    }

    /// That of a keyslot's parameters.
    pub fn of_slot(fault: &SlotFault) -> Option<Fault>
        ensures { result ≡ fault_named (name_in (slot_fault_text fault.now)) }
    {
        match fault {
            SlotFault::Argon2 => Some(Fault::Argon2),
            SlotFault::Cipher => Some(Fault::Cipher),
            SlotFault::Hash => Some(Fault::Hash),
            SlotFault::KeySize => Some(Fault::KeySize),
            SlotFault::Device | SlotFault::Memory => None,
        }
    }

    /// That of a volume that isn't accepted.
    pub fn of_check(fault: &CheckFault) -> Option<Fault>
        ensures { result ≡ fault_named (name_in (check_fault_text fault.now)) }
    {
        match fault {
            CheckFault::Head(fault) => Fault::of_head(fault),
            CheckFault::Meta(fault) => Fault::of_meta(fault),
            CheckFault::Area(fault) => Fault::of_area(fault),
            CheckFault::Device | CheckFault::Memory => None,
        }
    }

    /// That of a keyslot, or a volume, that can't be opened whatever the passphrase.
    pub fn of_open(fault: &OpenFault) -> Option<Fault>
        ensures { result ≡ fault_named (name_in (open_fault_text fault.now)) }
    {
        match fault {
            OpenFault::Head(fault) => Fault::of_head(fault),
            OpenFault::Meta(fault) => Fault::of_meta(fault),
            OpenFault::NoSuchSlot => Some(Fault::NoSuchSlot),
            OpenFault::SlotFree => Some(Fault::SlotFree),
            OpenFault::Outside => Some(Fault::Outside),
            OpenFault::Slot(fault) => Fault::of_slot(fault),
            OpenFault::Device | OpenFault::Memory => None,
        }
    }

    /// That of a key of which it can't be told whether it is the volume's.
    pub fn of_key(fault: &KeyFault) -> Option<Fault>
        ensures { result ≡ fault_named (name_in (key_fault_text fault.now)) }
    {
        match fault {
            KeyFault::Head(fault) => Fault::of_head(fault),
            KeyFault::Meta(fault) => Fault::of_meta(fault),
            KeyFault::NoSuchDigest => Some(Fault::NoSuchDigest),
            KeyFault::KeyLength => Some(Fault::KeyLength),
            KeyFault::Hash => Some(Fault::Hash),
            KeyFault::Device | KeyFault::Memory => None,
        }
    }

    /// That of a refused edit.
    pub fn of_edit(fault: &EditFault) -> Option<Fault>
        ensures { result ≡ fault_named (name_in (edit_fault_text fault.now)) }
    {
        match fault {
            EditFault::NotAccepted(fault) => Fault::of_check(fault),
            EditFault::Requirements => Some(Fault::Requirements),
            EditFault::NoSuchSlot => Some(Fault::NoSuchSlot),
            EditFault::SameSlot => Some(Fault::SameSlot),
            EditFault::Locked => Some(Fault::Locked),
            EditFault::KeyLength => Some(Fault::KeyLength),
            EditFault::WrongKey => Some(Fault::WrongKey),
            EditFault::Slot(fault) => Fault::of_slot(fault),
            EditFault::SlotTaken => Some(Fault::SlotTaken),
            EditFault::NoFreeSlot => Some(Fault::NoFreeSlot),
            EditFault::NoRoom => Some(Fault::NoRoom),
            EditFault::LastSlot => Some(Fault::LastSlot),
            EditFault::Iterations => Some(Fault::Iterations),
            EditFault::Argon2 => Some(Fault::Argon2),
            EditFault::BadLabel => Some(Fault::BadLabel),
            EditFault::NoSuchToken => Some(Fault::NoSuchToken),
            EditFault::TokenTaken => Some(Fault::TokenTaken),
            EditFault::NoFreeToken => Some(Fault::NoFreeToken),
            EditFault::UnreadableToken => Some(Fault::UnreadableToken),
            EditFault::BadUuid => Some(Fault::BadUuid),
            EditFault::BadToken(fault) => Fault::of_meta(fault),
            EditFault::SeqExhausted => Some(Fault::SeqExhausted),
            EditFault::MetadataFull => Some(Fault::MetadataFull),
            EditFault::RandomLength => Some(Fault::RandomLength),
            EditFault::Device | EditFault::Memory => None,
        }
    }

    /// That of a volume that isn't made.
    pub fn of_format(fault: &FormatFault) -> Option<Fault>
        ensures { result ≡ fault_named (name_in (format_fault_text fault.now)) }
    {
        match fault {
            FormatFault::Payload => Some(Fault::Payload),
            FormatFault::TooSmall => Some(Fault::TooSmall),
            FormatFault::SectorSize => Some(Fault::SectorSize),
            FormatFault::Uneven => Some(Fault::Uneven),
            FormatFault::Uuid => Some(Fault::Uuid),
            FormatFault::BadLabel => Some(Fault::BadLabel),
            FormatFault::Cipher => Some(Fault::Cipher),
            FormatFault::KeyLength => Some(Fault::KeyLength),
            FormatFault::Iterations => Some(Fault::Iterations),
            FormatFault::Argon2 => Some(Fault::Argon2),
            FormatFault::RandomLength => Some(Fault::RandomLength),
            FormatFault::Device | FormatFault::Memory => None,
        }
    }

    /// That of a volume that isn't converted.
    pub fn of_convert(fault: &ConvertFault) -> Option<Fault>
        ensures { result ≡ fault_named (name_in (convert_fault_text fault.now)) }
    {
        match fault {
            ConvertFault::NotAccepted(fault) => Fault::of_check(fault),
            ConvertFault::NotLuks1 => Some(Fault::NotLuks1),
            ConvertFault::TooSmall => Some(Fault::TooSmall),
            ConvertFault::NoRoom => Some(Fault::NoRoom),
            ConvertFault::MetadataFull => Some(Fault::MetadataFull),
            ConvertFault::RandomLength => Some(Fault::RandomLength),
            ConvertFault::Device | ConvertFault::Memory => None,
        }
    }

    /// That of metadata of which no LUKS2 header is made.
    pub fn of_rebuild(fault: &RebuildFault) -> Option<Fault>
        ensures { result ≡ fault_named (name_in (rebuild_fault_text fault.now)) }
    {
        match fault {
            RebuildFault::Counts => Some(Fault::Counts),
            RebuildFault::NoMetadata => Some(Fault::NoMetadata),
            RebuildFault::Area(fault) => Fault::of_area(fault),
            RebuildFault::TooSmall => Some(Fault::TooSmall),
            RebuildFault::Uuid => Some(Fault::Uuid),
            RebuildFault::RandomLength => Some(Fault::RandomLength),
            RebuildFault::Device | RebuildFault::Memory => None,
        }
    }

    /// That of fields of which no LUKS1 header is made.
    pub fn of_rebuild1(fault: &Rebuild1Fault) -> Option<Fault>
        ensures { result ≡ fault_named (name_in (rebuild1_fault_text fault.now)) }
    {
        match fault {
            Rebuild1Fault::Counts => Some(Fault::Counts),
            Rebuild1Fault::Reencrypting => Some(Fault::Reencrypting),
            Rebuild1Fault::NoHeader => Some(Fault::NoHeader),
            Rebuild1Fault::Text(_) => Some(Fault::Text),
            Rebuild1Fault::KeyBytes => Some(Fault::KeyBytes),
            Rebuild1Fault::Iterations => Some(Fault::Iterations),
            Rebuild1Fault::TooSmall => Some(Fault::TooSmall),
            Rebuild1Fault::Area(fault) => Fault::of_area(fault),
            Rebuild1Fault::Device => None,
        }
    }

    /// That of a volume of which no backup is made.
    pub fn of_backup(fault: &BackupFault) -> Option<Fault>
        ensures { result ≡ fault_named (name_in (backup_fault_text fault.now)) }
    {
        match fault {
            BackupFault::NotAccepted(fault) => Fault::of_check(fault),
            BackupFault::TooSmall => Some(Fault::TooSmall),
            BackupFault::Device | BackupFault::Memory => None,
        }
    }

    /// That of a backup that isn't put back.
    pub fn of_restore(fault: &RestoreFault) -> Option<Fault>
        ensures { result ≡ fault_named (name_in (restore_fault_text fault.now)) }
    {
        match fault {
            RestoreFault::NotAccepted(_) => Some(Fault::NotAccepted),
            RestoreFault::DoesNotFit(_) => Some(Fault::DoesNotFit),
            RestoreFault::OtherVolume => Some(Fault::OtherVolume),
            RestoreFault::Device | RestoreFault::Memory => None,
        }
    }
}
