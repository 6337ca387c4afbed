//! The members of objects in which something is under way, each with its rule, in the order of their paths' bytes.

ghost use Rattle.std.specs.Prelude.{◌≡◌, ◌≤◌, length};
ghost use Rattle.luks_wider.specs.Rows.{new_path, opal_rows, reencrypt_rows};

use luks_rules::Row;

/// A row: one that `luks_rules` has, or a new one.
#[derive(Clone, Copy)]
pub(crate) enum WideRow {
    Known(Row),
    New(NewRow),
}

/// The rows that `luks_rules` doesn't have: of `config`, of a keyslot of the type `reencrypt`, of a
/// segment.
#[derive(Clone, Copy)]
pub(crate) enum NewRow {
    Area,
    AreaHash,
    AreaOffset,
    AreaSector,
    AreaShift,
    AreaSize,
    AreaKind,
    Direction,
    Encryption,
    Flags,
    IvTweak,
    KeySize,
    Mode,
    Offset,
    OpalKey,
    OpalNumber,
    OpalSize,
    Priority,
    Requirements,
    Sector,
    Size,
}

/// The rows of a keyslot of the type `reencrypt`.
const REENCRYPT: [NewRow; 11] = [
    NewRow::Area,
    NewRow::AreaHash,
    NewRow::AreaOffset,
    NewRow::AreaSector,
    NewRow::AreaShift,
    NewRow::AreaSize,
    NewRow::AreaKind,
    NewRow::Direction,
    NewRow::KeySize,
    NewRow::Mode,
    NewRow::Priority,
];

/// The rows of a segment of a disk that encrypts itself.
const OPAL: [NewRow; 9] = [
    NewRow::Encryption,
    NewRow::Flags,
    NewRow::IvTweak,
    NewRow::Offset,
    NewRow::OpalKey,
    NewRow::OpalNumber,
    NewRow::OpalSize,
    NewRow::Sector,
    NewRow::Size,
];

pub(crate) fn reencrypt_rows() -> &'static [NewRow]
    ensures { result.now ≡ reencrypt_rows }
{
    &REENCRYPT
}

pub(crate) fn opal_rows() -> &'static [NewRow]
    ensures { result.now ≡ opal_rows }
{
    &OPAL
}

/// The path of a new row, behind that of its object.
pub(crate) fn new_path(row: NewRow) -> &'static str
    ensures path { result.now ≡ new_path row }
    ensures short { length result.now ≤ 19 }
{
    match row {
        NewRow::Area => "area",
        NewRow::AreaHash => "area.hash",
        NewRow::AreaOffset => "area.offset",
        NewRow::AreaSector => "area.sector_size",
        NewRow::AreaShift => "area.shift_size",
        NewRow::AreaSize => "area.size",
        NewRow::AreaKind => "area.type",
        NewRow::Direction => "direction",
        NewRow::Encryption => "encryption",
        NewRow::Flags => "flags",
        NewRow::IvTweak => "iv_tweak",
        NewRow::KeySize => "key_size",
        NewRow::Mode => "mode",
        NewRow::Offset => "offset",
        NewRow::OpalKey => "opal_key_size",
        NewRow::OpalNumber => "opal_segment_number",
        NewRow::OpalSize => "opal_segment_size",
        NewRow::Priority => "priority",
        NewRow::Requirements => "requirements",
        NewRow::Sector => "sector_size",
        NewRow::Size => "size",
    }
}
