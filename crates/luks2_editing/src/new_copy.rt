//! Copies of the LUKS2 header that take the place of older ones.
ghost use Rattle.std.specs.Prelude.{◌≡◌, ◌+◌, ◌^◌, ◌<◌};
ghost use Rattle.luks2_editing.specs.NewCopy.{IsNewHeader};

use luks2_header::Bin2;
use luks2_judging::TextFields;

/// The binary header of the copy at the place `at` that takes the place of the copy of `old`, with
/// these texts and this salt: its sequence number is one higher. Its checksum is made where it is written.
pub(crate) fn new_header(old: &Bin2, at: u64, texts: TextFields, salt: [u8; 64]) -> Bin2
    requires { old.now.seqid + 1 < 2 ^ 64 }
    ensures { IsNewHeader old.now at texts salt result }
{
    let uuid = texts.uuid;
    let label = texts.label;
    let subsystem = texts.subsystem;
    Bin2 {
        uuid,
        label,
        subsystem,
        ..old.renewed(at, old.seqid + 1, salt)
    }
}
