//! The members of the metadata, each with its rule, in the order of their paths' bytes.

ghost use Rattle.std.specs.Prelude.{◌≡◌, ◌≤◌, length};
ghost use Rattle.luks_rules.specs.Table.{member_name, rows_of, section_name};

/// The five members of the metadata that are read.
#[derive(Clone, Copy)]
pub enum Section {
    /// `config`, one object (LUKS2 On-Disk Format 1.1, 3.5).
    Config,
    /// `digests`, objects by their numbers (3.4).
    Digests,
    /// `keyslots`, objects by their numbers, 0 to 31 (3.2).
    Keyslots,
    /// `segments`, objects by their numbers (3.3).
    Segments,
    /// `tokens`, objects by their numbers (3.6).
    Tokens,
}

/// The object that a member is in: the named object itself, or an object inside it.
#[derive(Clone, Copy)]
pub enum Outer {
    /// The named object itself.
    Top,
    /// `af` in it, of a keyslot (LUKS2 On-Disk Format 1.1, 3.2.4).
    Af,
    /// `area` in it, of a keyslot (3.2.3).
    Area,
    /// `kdf` in it, of a keyslot (3.2.5).
    Kdf,
}

/// The names of members.
#[derive(Clone, Copy)]
pub enum Member {
    /// `af`: how a key is split over its area.
    Af,
    /// `area`: where a keyslot's key material lies.
    Area,
    /// `cpus`: the lanes of Argon2.
    Cpus,
    /// `digest`: what PBKDF2 of the volume key has to give.
    Digest,
    /// `encryption`: a cipher with its mode.
    Encryption,
    /// `hash`: the name of a hash.
    Hash,
    /// `iterations`: those of PBKDF2.
    Iterations,
    /// `iv_tweak`: the number of a segment's first sector.
    IvTweak,
    /// `json_size`: the length of the JSON area in bytes.
    JsonSize,
    /// `kdf`: how a passphrase gives the key of an area.
    Kdf,
    /// `key_size`: the length of a key in bytes.
    KeySize,
    /// `keyslots`: the keyslots that a digest or a token names.
    Keyslots,
    /// `keyslots_size`: the length of the region of the key areas in bytes.
    KeyslotsSize,
    /// `type`.
    Kind,
    /// `memory`: that of Argon2 in KiB.
    Memory,
    /// `offset`: where an area or a segment begins, in bytes.
    Offset,
    /// `priority`: when a keyslot is tried, 0 to 2.
    Priority,
    /// `salt`: that of PBKDF2 or of Argon2.
    Salt,
    /// `sector_size`: that of a segment in bytes.
    SectorSize,
    /// `segments`: the segments that a digest names.
    Segments,
    /// `size`: the length of an area or a segment in bytes.
    Size,
    /// `stripes`: how many a key is split into.
    Stripes,
    /// `time`: the passes of Argon2.
    Time,
}

/// The objects whose types are listed.
#[derive(Clone, Copy)]
pub enum Listed {
    /// A keyslot: `luks2` (LUKS2 On-Disk Format 1.1, 3.2.1).
    Keyslot,
    /// The `af` of a keyslot: `luks1` (3.2.4).
    Splitter,
    /// The `area` of a keyslot: `raw` (3.2.3).
    KeyArea,
    /// The `kdf` of a keyslot: `pbkdf2`, `argon2i` or `argon2id` (3.2.5).
    Derivation,
    /// A segment: `crypt` or `linear` (3.3).
    Segment,
    /// A digest: `pbkdf2` (3.4).
    Digest,
}

/// What a member's value has to be.
#[derive(Clone, Copy)]
pub enum Rule {
    /// An object.
    Object,
    /// A text, any.
    Text,
    /// A text, one of the listed types.
    Type(Listed),
    /// A number from the first to the second.
    Number(u64, u64),
    /// Absent, or a number from the first to the second.
    MayBeNumber(u64, u64),
    /// 512, 1024, 2048 or 4096.
    SectorSize,
    /// A decimal text.
    Decimal,
    /// A decimal text, or `dynamic`.
    DecimalOrDynamic,
    /// Base64 of as many bytes as from the first to the second.
    Base64(u64, u64),
    /// An array of texts, each the name of an object of the section.
    Names(Section),
}

/// When a row is judged, by the type of the object that the member is in.
#[derive(Clone, Copy)]
pub enum When {
    /// Whatever its type.
    Always,
    /// Where it is `pbkdf2`.
    Pbkdf2,
    /// Where it is `argon2i` or `argon2id`.
    Argon2,
    /// Where it is `crypt`.
    Crypt,
}

/// One row: a member, its rule, and when it is judged.
#[derive(Clone, Copy)]
pub struct Row {
    /// The object that the member is in.
    pub outer: Outer,
    /// The member's name.
    pub name: Member,
    /// What its value has to be.
    pub rule: Rule,
    /// When that is judged.
    pub when: When,
}

macro_rules! row {
    ($outer:ident, $name:ident, $rule:expr, $when:ident) => {
        Row {
            outer: Outer::$outer,
            name: Member::$name,
            rule: $rule,
            when: When::$when,
        }
    };
}

/// The members of `config`.
const CONFIG: [Row; 2] = [
    row!(Top, JsonSize, Rule::Decimal, Always),
    row!(Top, KeyslotsSize, Rule::Decimal, Always),
];

/// The members of a digest.
const DIGEST: [Row; 7] = [
    row!(Top, Digest, Rule::Base64(20, 64), Always),
    row!(Top, Hash, Rule::Text, Always),
    row!(Top, Iterations, Rule::Number(1, 4294967295), Always),
    row!(Top, Keyslots, Rule::Names(Section::Keyslots), Always),
    row!(Top, Salt, Rule::Base64(1, 128), Always),
    row!(Top, Segments, Rule::Names(Section::Segments), Always),
    row!(Top, Kind, Rule::Type(Listed::Digest), Always),
];

/// The members of a keyslot.
const KEYSLOT: [Row; 21] = [
    row!(Top, Af, Rule::Object, Always),
    row!(Af, Hash, Rule::Text, Always),
    row!(Af, Stripes, Rule::Number(1, 4294967295), Always),
    row!(Af, Kind, Rule::Type(Listed::Splitter), Always),
    row!(Top, Area, Rule::Object, Always),
    row!(Area, Encryption, Rule::Text, Always),
    row!(Area, KeySize, Rule::Number(1, 128), Always),
    row!(Area, Offset, Rule::Decimal, Always),
    row!(Area, Size, Rule::Decimal, Always),
    row!(Area, Kind, Rule::Type(Listed::KeyArea), Always),
    row!(Top, Kdf, Rule::Object, Always),
    row!(Kdf, Cpus, Rule::Number(1, 4294967295), Argon2),
    row!(Kdf, Hash, Rule::Text, Pbkdf2),
    row!(Kdf, Iterations, Rule::Number(1, 4294967295), Pbkdf2),
    row!(Kdf, Memory, Rule::Number(1, 4294967295), Argon2),
    row!(Kdf, Salt, Rule::Base64(1, 128), Always),
    row!(Kdf, Time, Rule::Number(1, 4294967295), Argon2),
    row!(Kdf, Kind, Rule::Type(Listed::Derivation), Always),
    row!(Top, KeySize, Rule::Number(1, 128), Always),
    row!(Top, Priority, Rule::MayBeNumber(0, 2), Always),
    row!(Top, Kind, Rule::Type(Listed::Keyslot), Always),
];

/// The members of a segment.
const SEGMENT: [Row; 6] = [
    row!(Top, Encryption, Rule::Text, Crypt),
    row!(Top, IvTweak, Rule::Decimal, Crypt),
    row!(Top, Offset, Rule::Decimal, Always),
    row!(Top, SectorSize, Rule::SectorSize, Crypt),
    row!(Top, Size, Rule::DecimalOrDynamic, Always),
    row!(Top, Kind, Rule::Type(Listed::Segment), Always),
];

/// The members of a token.
const TOKEN: [Row; 2] = [
    row!(Top, Keyslots, Rule::Names(Section::Keyslots), Always),
    row!(Top, Kind, Rule::Text, Always),
];

/// The rows of a section's objects.
pub fn rows_of(section: Section) -> &'static [Row]
    ensures { result.now ≡ rows_of section }
{
    match section {
        Section::Config => &CONFIG,
        Section::Digests => &DIGEST,
        Section::Keyslots => &KEYSLOT,
        Section::Segments => &SEGMENT,
        Section::Tokens => &TOKEN,
    }
}

/// The name of a section.
pub fn section_name(section: Section) -> &'static str
    ensures name { result.now ≡ section_name section }
    ensures short { length result.now ≤ 8 }
{
    match section {
        Section::Config => "config",
        Section::Digests => "digests",
        Section::Keyslots => "keyslots",
        Section::Segments => "segments",
        Section::Tokens => "tokens",
    }
}

/// The name of a member.
pub fn member_name(member: Member) -> &'static str
    ensures name { result.now ≡ member_name member }
    ensures short { length result.now ≤ 13 }
{
    match member {
        Member::Af => "af",
        Member::Area => "area",
        Member::Cpus => "cpus",
        Member::Digest => "digest",
        Member::Encryption => "encryption",
        Member::Hash => "hash",
        Member::Iterations => "iterations",
        Member::IvTweak => "iv_tweak",
        Member::JsonSize => "json_size",
        Member::Kdf => "kdf",
        Member::KeySize => "key_size",
        Member::Keyslots => "keyslots",
        Member::KeyslotsSize => "keyslots_size",
        Member::Kind => "type",
        Member::Memory => "memory",
        Member::Offset => "offset",
        Member::Priority => "priority",
        Member::Salt => "salt",
        Member::SectorSize => "sector_size",
        Member::Segments => "segments",
        Member::Size => "size",
        Member::Stripes => "stripes",
        Member::Time => "time",
    }
}
