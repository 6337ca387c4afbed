//! The faults of formatting that come before any byte is written.
ghost use Rattle.std.specs.Prelude.{◌≡◌, ◌↔◌, ◌≤◌, length, true, false, None, IfErr, IfSome, IsSomeAnd, IsTrue, OnOk};
ghost use Rattle.luks_area.specs.First.{IsLeast};
ghost use Rattle.luks_area.specs.Text.{is_plain, is_printable};
ghost use Rattle.luks1_header.specs.Bytes.{IsUuid};
ghost use Rattle.luks_making.specs.Derivations.{chosen_beyond, chosen_few};
ghost use Rattle.luks_formatting.specs.FormatFaults.{format_key, HasNoFault, IsFormatFaultAs, IsFormattable};
ghost use Rattle.luks_rules.specs.Reading.{is_sector_size};
ghost use Rattle.luks_formatting.specs.Encrypting.{takes_key};
ghost use Rattle.luks_formatting.specs.RandomBytes.{needed_bytes};
ghost use Rattle.luks_formatting.specs.Given.{are_uneven, first_sector, number_or, own_start, takes_sectors, HasNoName, IsMisplaced, IsNoKey, IsNoName, IsNoUuid, IsSmall};

use crate::format_fault::FormatFault;
use crate::given::Given;
use luks_making::{LEAST_ITERATIONS, NewDerivation};
use luks_reading::{Data, Format};
use luks_slot::Allowed;
use luks2_header::is_uuid;

/// The most bytes of a label or a subsystem; a zero byte ends it.
const MOST_LABEL: usize = 47;

/// What a version wants of a volume and of what is given.
#[derive(Clone, Copy)]
pub(crate) struct Wanted {
    /// Below which sector the payload begins.
    pub(crate) most: u64,
    /// How many bytes the volume has at least.
    pub(crate) least: u64,
    /// Whether it is LUKS2, which may have a label and a subsystem, and larger sectors.
    pub(crate) second: bool,
}

/// The first fault of formatting a volume of `total` bytes, where so much is allowed.
pub(crate) fn judge(
    wanted: Wanted,
    total: u64,
    given: &Given<'_>,
    format: &Format,
    chosen: Option<NewDerivation>,
    allowed: Allowed,
    random: &[u8],
) -> Result<(), FormatFault>
    ensures fault { IfErr result (IsLeast format_key
        (IsFormatFaultAs wanted.most wanted.least wanted.second given.now
        allowed.older chosen allowed.memory total format.now random.now)) }
    ensures faultless { OnOk result (HasNoFault
        (IsFormatFaultAs wanted.most wanted.least wanted.second given.now
        allowed.older chosen allowed.memory total format.now random.now)) }
    ensures formattable { OnOk result
        (IsFormattable wanted.most wanted.least wanted.second given.now
        chosen allowed.memory total format.now random.now) }
{
    if is_misplaced(wanted, given) {
        Err(FormatFault::Payload)
    } else if is_small(wanted.least, given, total) {
        Err(FormatFault::TooSmall)
    } else if !takes_sectors(wanted.second, given.sector_size) {
        Err(FormatFault::SectorSize)
    } else if is_uneven(wanted.second, given, total) {
        Err(FormatFault::Uneven)
    } else if is_no_uuid(given.uuid) {
        Err(FormatFault::Uuid)
    } else if has_no_name(wanted.second, given) {
        Err(FormatFault::BadLabel)
    } else if given.cipher.is_older() && !allowed.older {
        Err(FormatFault::Cipher)
    } else if is_no_key(given) {
        Err(FormatFault::KeyLength)
    } else if format.iterations < LEAST_ITERATIONS || has_few_turns(chosen) {
        Err(FormatFault::Iterations)
    } else if is_beyond(chosen, allowed.memory) {
        Err(FormatFault::Argon2)
    } else if random.len() as u64 != needed_bytes(wanted.second, given.key_bytes) {
        Err(FormatFault::RandomLength)
    } else {
        Ok(())
    }
}

/// The payload doesn't begin at the sector that is given.
fn is_misplaced(wanted: Wanted, given: &Given<'_>) -> bool
    ensures bad { IsTrue result ↔ IsSomeAnd given.now.sector
        (IsMisplaced (first_sector wanted.second given.now.key_bytes) wanted.most given.now.payload) }
{
    let first = first_sector(wanted.second, given.key_bytes);
    match (given.sector, given.payload) {
        (None, _) => false,
        (Some(sector), Data::Here) => sector < first || wanted.most <= sector,
        (Some(sector), Data::Elsewhere) => wanted.most <= sector,
    }
}

/// The volume has fewer than `least` bytes, or ends before the payload that is given begins.
fn is_small(least: u64, given: &Given<'_>, total: u64) -> bool
    ensures { IsTrue result ↔ IsSmall least given.now.sector given.now.payload total }
{
    match (given.sector, given.payload) {
        (Some(sector), Data::Here) => total < least || total / 512 < sector,
        _ => total < least,
    }
}

/// The first sector behind the key areas of keys of so many bytes: of LUKS1 behind that of keyslot 7, of LUKS2
/// behind their region.
fn first_sector(second: bool, key_bytes: u32) -> u64
    ensures { result ≡ first_sector second key_bytes }
{
    if second {
        return 32768;
    }
    let stripes = u64::from(key_bytes) * 4000;
    8 + 7 * (stripes.next_multiple_of(4096) / 512) + stripes.div_ceil(512)
}

/// How many random bytes a volume with a key of so many takes.
pub(crate) fn needed_bytes(second: bool, key_bytes: u32) -> u64
    ensures { result ≡ needed_bytes second key_bytes }
{
    let stripes = 4000 * u64::from(key_bytes);
    if second { 208 + stripes } else { 80 + stripes }
}

/// Whether the version has sectors of so many bytes.
fn takes_sectors(second: bool, size: u32) -> bool
    ensures taken { result ≡ takes_sectors second size }
    ensures large { result ≡ true → 512 ≤ size }
    ensures listed { result ≡ true → is_sector_size size ≡ true }
{
    if second {
        size == 512 || size == 1024 || size == 2048 || size == 4096
    } else {
        size == 512
    }
}

/// The sectors of 512 bytes from where the payload begins to the end of the volume that has it aren't whole larger
/// ones.
fn is_uneven(second: bool, given: &Given<'_>, total: u64) -> bool
    requires { 512 ≤ given.now.sector_size }
    ensures { result ≡ are_uneven given.now.sector_size given.now.payload
        (number_or given.now.sector (own_start second)) total }
{
    if given.sector_size == 512 {
        return false;
    }
    let start = match given.sector {
        Some(sector) => sector,
        None => own_start(second),
    };
    let size = u64::from(given.sector_size) / 512;
    match given.payload {
        Data::Here => (total / 512).saturating_sub(start) % size != 0,
        Data::Elsewhere => false,
    }
}

/// Where a payload on the volume begins if nothing is given, in sectors.
fn own_start(second: bool) -> u64
    ensures { result ≡ own_start second }
{
    if second { 32768 } else { 4096 }
}

/// A uuid is given that isn't one.
fn is_no_uuid(uuid: Option<&str>) -> bool
    ensures bad { result ≡ true → IsNoUuid uuid.entry }
    ensures good { result ≡ false → IfSome uuid.entry (λ text. IsUuid text.now) }
{
    match uuid {
        Some(text) => !is_uuid(text),
        None => false,
    }
}

/// A label or a subsystem is given that the volume can't have.
fn has_no_name(second: bool, given: &Given<'_>) -> bool
    ensures bad { IsTrue result ↔ HasNoName second given.now.label given.now.subsystem }
    ensures label { result ≡ false → IfSome given.now.label (λ text. length text.now ≤ 47) }
    ensures subsystem { result ≡ false → IfSome given.now.subsystem (λ text. length text.now ≤ 47) }
{
    match (given.label, given.subsystem) {
        (None, None) => false,
        (Some(text), None) | (None, Some(text)) => is_no_name(second, text),
        (Some(label), Some(subsystem)) => is_no_name(second, label)
            || is_no_name(second, subsystem),
    }
}

/// The text is no label or subsystem of LUKS2, or of LUKS1, which has none.
fn is_no_name(second: bool, text: &str) -> bool
    ensures bad { IsTrue result ↔ IsNoName second text.now }
    ensures short { result ≡ false → length text.now ≤ 47 }
{
    !second || text.len() > MOST_LABEL || !is_plain(text.as_bytes())
}

/// Whether each byte is printable.
fn is_plain(text: &[u8]) -> bool
    ensures { result ≡ is_plain text.now }
{
    text.iter().all(|c| is_printable(*c))
}

/// Whether the byte is one from the space, 0x20, to the tilde, 0x7E.
fn is_printable(c: u8) -> bool
    ensures { result ≡ is_printable c }
{
    (0x20..=0x7E).contains(&c)
}

/// The cipher takes no key of so many bytes, or the key that is given hasn't so many.
fn is_no_key(given: &Given<'_>) -> bool
    ensures bad { IsTrue result ↔ IsNoKey given.now.cipher given.now.key_bytes given.now.key }
    ensures takes { result ≡ false → takes_key given.now.cipher given.now.key_bytes ≡ true }
    ensures good { result ≡ false → IfSome given.now.key (λ key. length key.now ≡ given.now.key_bytes) }
{
    let taken = given.cipher.takes_key(given.key_bytes);
    match given.key {
        Some(key) => !taken || key.len() != given.key_bytes as usize,
        None => !taken,
    }
}

/// What is chosen has fewer than 1000 iterations, or no pass.
fn has_few_turns(chosen: Option<NewDerivation>) -> bool
    ensures { result ≡ chosen_few chosen }
{
    match chosen {
        Some(derivation) => derivation.has_few_turns(),
        None => false,
    }
}

/// What is chosen is refused where so many KiB are allowed.
fn is_beyond(chosen: Option<NewDerivation>, allowed: u32) -> bool
    ensures { result ≡ chosen_beyond allowed chosen }
{
    match chosen {
        Some(derivation) => derivation.is_beyond(allowed),
        None => false,
    }
}
