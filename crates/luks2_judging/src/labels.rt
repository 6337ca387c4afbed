//! Judging an edit that writes the header anew, by the texts that it sets.
ghost use Rattle.std.specs.Prelude.{◌≡◌, ◌≢◌, ◌++◌, ◌-◌, ◌<◌, ◌≤◌, ◌⊎◌, length, replicate, false, true, IfErr, IfOk};
ghost use Rattle.luks_area.specs.Text.{is_plain, is_printable};
ghost use Rattle.luks_edit.specs.EditFaults.{is_edit_failure};
ghost use Rattle.luks2_edit_laws.specs.Copies.{field_after};
ghost use Rattle.luks2_edit_laws.specs.Refused.{HasBadText, IsBadText};
ghost use Rattle.luks2_judging.specs.Judged.{Judges};
ghost use Rattle.luks2_judging.specs.Texts.{texts_after};

use crate::judged::TextFields;
use luks_edit::{EditFault, Rewritten};

/// The most bytes of a text; a zero byte ends it.
const MOST_TEXT: usize = 47;

/// The fields of the header that is written anew: by the label and the subsystem that are given, or else
/// as they were, as that of the uuid is. Refused by `BadLabel`.
pub(crate) fn judge_texts(
    rewritten: &Rewritten<'_>,
    kept: &TextFields,
) -> Result<TextFields, EditFault>
    ensures own { IfErr result (λ f. is_edit_failure f ≡ false) }
    ensures memory { IfErr result (λ f. f ≢ EditFault.Memory) }
    ensures row { Judges (HasBadText rewritten.now) EditFault.BadLabel result }
    ensures fields { IfOk result (λ it. it ≡ texts_after rewritten.now kept.now) }
{
    // Not by `?`: the kit makes no proof of it where no parameter holds a fault of the metadata.
    let label = match judge_text(rewritten.label, kept.label) {
        Ok(field) => field,
        Err(fault) => return Err(fault),
    };
    match judge_text(rewritten.subsystem, kept.subsystem) {
        Ok(subsystem) => Ok(TextFields {
            uuid: kept.uuid,
            label,
            subsystem,
        }),
        Err(fault) => Err(fault),
    }
}

/// The field of the text that is given, or else the one that was there. Refused by `BadLabel`.
fn judge_text(given: Option<&[u8]>, kept: [u8; 48]) -> Result<[u8; 48], EditFault>
    ensures row { Judges (IsBadText given.entry) EditFault.BadLabel result }
    ensures field { IfOk result (λ it. it ≡ field_after given.entry kept) }
{
    match given {
        None => Ok(kept),
        Some(text) => text_field(text),
    }
}

/// The text, which has at most 47 bytes, all printable, and zeros to the end of the field. Refused by
/// `BadLabel`.
fn text_field(text: &[u8]) -> Result<[u8; 48], EditFault>
    ensures row { Judges ((47 < length text.now) ⊎ (is_plain text.now ≡ true → ⊥))
        EditFault.BadLabel result }
    ensures field { IfOk result
        (λ field. field ≡ text.now ++ replicate (48 - length text.now) 0) }
{
    if text.len() > MOST_TEXT || !is_plain(text) {
        return Err(EditFault::BadLabel);
    }
    Ok(padded(text))
}

/// Whether each byte is printable.
fn is_plain(text: &[u8]) -> bool
    ensures { result ≡ is_plain text.now }
{
    text.iter().all(|c| is_printable(*c))
}

/// Whether the byte is one from the space, 0x20, to the tilde, 0x7E.
fn is_printable(c: u8) -> bool
    ensures { result ≡ is_printable c }
{
    (0x20..=0x7E).contains(&c)
}

/// The text, and zeros to the end of the field.
fn padded(text: &[u8]) -> [u8; 48]
    requires { length text.now ≤ 48 }
    ensures { result ≡ text.now ++ replicate (48 - length text.now) 0 }
{
    let mut field = [0; 48];
    field[..text.len()].copy_from_slice(text);
    field
}
