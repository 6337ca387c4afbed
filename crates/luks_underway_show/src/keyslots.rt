//! The lines of keyslots.

ghost use Rattle.std.specs.Prelude.{◌≡◌, ◌<◌, Some};
ghost use Rattle.std.specs.Fmt.{WritesOnOk};
ghost use Rattle.serde_json.specs.Data.{Data};
ghost use Rattle.luks_rules.specs.declared.table.Section.TheVariants.{Keyslots};
ghost use Rattle.luks_rules.specs.Faults.{object_at};
ghost use Rattle.luks_wider.specs.Underways.{content};
ghost use Rattle.luks_underway_show.specs.KeyslotLines.{keyslot_lines};
ghost use Rattle.luks_underway_show.specs.RecordLines.{further_key_text, keyslot_text};
ghost use Rattle.luks_underway_show.specs.Shown.{keyslot_digest, object_listed, section_listed};

use crate::lines::Lines;
use crate::reencryption::ReencryptionLine;
use luks_meta::Keyslot;
use luks_show::{CostsLine, KeyslotLine, SaltLine};
use luks_underway::WideKeyslot;
use luks_wider::Underway;
use std::fmt;

/// Lists each keyslot.
pub(crate) fn list_keyslots<W: fmt::Write>(
    meta: &Underway,
    lines: Lines,
    f: &mut fmt::Formatter<W>,
) -> fmt::Result
    ensures { WritesOnOk W.write_str_gives f.old result
        (section_listed (keyslot_lines lines (content meta.now)) (content meta.now) Keyslots) f.new }
{
    for n in 0..32 {
        list_keyslot(meta, n, lines, f)?;
    }
    Ok(())
}

/// Lists the keyslot of this number, if it is there.
fn list_keyslot<W: fmt::Write>(
    meta: &Underway,
    n: u8,
    lines: Lines,
    f: &mut fmt::Formatter<W>,
) -> fmt::Result
    requires { n < 32 }
    ensures { WritesOnOk W.write_str_gives f.old result
        (object_listed (keyslot_lines lines (content meta.now)) (content meta.now) Keyslots n) f.new }
{
    let Some(keyslot) = meta.keyslot(n) else {
        return Ok(());
    };
    list_members(n, &keyslot, digest_of(meta, n), lines, f)
}

/// The digest that names the keyslot of this number, if one does.
pub(crate) fn digest_of(meta: &Underway, n: u8) -> Option<u8>
    requires { n < 32 }
    ensures { (d : Data) → object_at (content meta.now) Keyslots n ≡ Some d
        → keyslot_digest (content meta.now) n ≡ result }
{
    meta.digest_of_keyslot(n)
}

fn list_members<W: fmt::Write>(
    n: u8,
    keyslot: &WideKeyslot<'_>,
    digest: Option<u8>,
    lines: Lines,
    f: &mut fmt::Formatter<W>,
) -> fmt::Result
    ensures { WritesOnOk W.write_str_gives f.old result (keyslot_text lines n keyslot.now digest) f.new }
{
    match keyslot {
        WideKeyslot::Luks2(keyslot) => {
            f.write(KeyslotLine(n, keyslot, digest))?;
            list_further(n, keyslot, lines, f)
        }
        WideKeyslot::Reencrypt(members) => f.write(ReencryptionLine(n, *members, digest)),
    }
}

/// Lists what the derivation costs, and its salt.
fn list_further<W: fmt::Write>(
    n: u8,
    keyslot: &Keyslot<'_>,
    lines: Lines,
    f: &mut fmt::Formatter<W>,
) -> fmt::Result
    ensures { WritesOnOk W.write_str_gives f.old result (further_key_text lines n keyslot.now) f.new }
{
    match lines {
        Lines::Few => Ok(()),
        Lines::All => {
            f.write(CostsLine(n, keyslot.kdf.cost))?;
            f.write(SaltLine(usize::from(n), keyslot.kdf.salt.as_slice()))
        }
    }
}
