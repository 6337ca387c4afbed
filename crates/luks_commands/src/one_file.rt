//! Whether a volume and the file beside it are one.
ghost use Rattle.std.specs.Prelude.{◌≡◌, ◌↔◌, Err, IsTrue};
ghost use Rattle.luks_commands.specs.declared.inputs.InputFault.TheVariants.{Unreadable};
ghost use Rattle.luks_commands.specs.declared.inputs.Reason.TheVariants as reason;
ghost use Rattle.luks_commands.specs.Beside.{AreOneFile};

use crate::inputs::{InputFault, Reason};

/// Whether the volume of this name and the file of that name are one: they have one name, or were found
/// to be one. `opened` is that file as it was opened.
pub fn are_one_file<D>(volume: &str, file: &str, opened: &Result<D, InputFault>) -> bool
    ensures one { IsTrue result ↔ AreOneFile volume.now file.now opened.now }
{
    volume == file || is_volume_itself(opened)
}

/// Whether the file was found to be the volume itself.
fn is_volume_itself<D>(opened: &Result<D, InputFault>) -> bool
    ensures { IsTrue result ↔ (opened.now ≡ Err (Unreadable reason.SameFile)) }
{
    matches!(opened, Err(InputFault::Unreadable(Reason::SameFile)))
}
