//! The fault by which an answer refuses.
ghost use Rattle.std.specs.Prelude.{◌≡◌};
ghost use Rattle.luks_commands.specs.Answer.{refusal_text};
ghost use Rattle.luks_commands.specs.UnderwayTexts.{underway_refusal_text};
ghost use Rattle.luks_explain.specs.Names.{fault_named, name_in};

use luks_commands::UnderwayRefusal;
use luks_execution::Refusal;
use luks_explain::Fault;

/// The fault by which a command is refused, as `explain` knows it.
pub(crate) fn fault_of(refusal: &Refusal) -> Option<Fault>
    ensures { result ≡ fault_named (name_in (refusal_text refusal.now)) }
{
    match refusal {
        Refusal::LongPassphrase => Some(Fault::Passphrase),
        Refusal::Check(fault) => Fault::of_check(fault),
        Refusal::Open(fault) => Fault::of_open(fault),
        Refusal::Key(fault) => Fault::of_key(fault),
        Refusal::Edit(fault) => Fault::of_edit(fault),
        Refusal::Format(fault) => Fault::of_format(fault),
        Refusal::Convert(fault) => Fault::of_convert(fault),
        Refusal::Rebuild(fault) => Fault::of_rebuild(fault),
        Refusal::Rebuild1(fault) => Fault::of_rebuild1(fault),
        Refusal::Backup(fault) => Fault::of_backup(fault),
        Refusal::Restore(fault) => Fault::of_restore(fault),
        Refusal::SameFile => Some(Fault::SameFile),
        Refusal::Exists => Some(Fault::Exists),
        Refusal::OtherUse(_) => Some(Fault::OtherUse),
        Refusal::OtherVolume => Some(Fault::OtherVolume),
        Refusal::Reencrypting => Some(Fault::Reencrypting),
        Refusal::Underway(refusal) => underway_fault_of(refusal),
        Refusal::NotUnderWay => Some(Fault::NotUnderWay),
    }
}

/// The fault by which a volume is refused in which something is under way.
fn underway_fault_of(refusal: &UnderwayRefusal) -> Option<Fault>
    ensures { result ≡ fault_named (name_in (underway_refusal_text refusal.now)) }
{
    match refusal {
        UnderwayRefusal::Metadata(fault) => Fault::of_wide(fault),
        UnderwayRefusal::NoKey => Some(Fault::NoKey),
        UnderwayRefusal::Progressed => Some(Fault::Progressed),
    }
}
