//! The signs of a volume that are seen in a block of a disk.
ghost use Rattle.std.specs.Prelude.{◌≡◌, ◌↔◌, ◌+◌, ◌*◌, ◌≤◌, IsTrue, IfSome, length};
ghost use Rattle.luks_area.specs.Ranges.{part};
ghost use Rattle.luks_finding.specs.Blocks.{BeginsFields, BeginsSecond, BeginsSign, BeginsText, FindsIn, MayBegin};
ghost use Rattle.luks_finding.specs.Starts.{BeginsHeader, BeginsLuks, BeginsReencrypting};

use byteorder::{BigEndian, ByteOrder};
use luks1_header::fields::{field, u16_at};
use luks1_header::luks1_places::{MAGIC, VERSION};

/// The bytes of a sector: volumes begin at multiples of it.
pub(crate) const SECTOR: usize = 512;

/// The bytes of a magic and of the version behind it.
pub(crate) const BEGINNING: usize = 8;

/// The place of the length of the volume key in a LUKS1 header, and where that field ends.
const KEY_BYTES: usize = 108;

const FIELDS: usize = 112;

/// The magic of a second copy: `SKUL`, 0xBA, 0xBE.
pub(crate) const SECOND_MAGIC: [u8; 6] = [0x53, 0x4B, 0x55, 0x4C, 0xBA, 0xBE];

/// The magic of a LUKS1 header while cryptsetup reencrypts its volume: `LUKS`, 0xDE, 0xAD.
pub(crate) const REENCRYPTING_MAGIC: [u8; 6] = [0x4C, 0x55, 0x4B, 0x53, 0xDE, 0xAD];

/// Whether a header begins with these 8 bytes: one that counts, or that of a LUKS1 volume which is being
/// reencrypted.
pub(crate) fn is_header(beginning: &[u8]) -> bool
    requires { length beginning.now ≡ 8 }
    ensures { IsTrue result ↔ BeginsHeader beginning.now }
{
    is_luks(beginning) || is_reencrypting(beginning)
}

/// Whether one begins with the magic of LUKS.
pub(crate) fn is_luks(beginning: &[u8]) -> bool
    requires { length beginning.now ≡ 8 }
    ensures { IsTrue result ↔ BeginsLuks beginning.now }
{
    field(beginning, 0, 6) == MAGIC.as_slice() && matches!(u16_at(beginning, VERSION), 1 | 2)
}

/// Whether one of LUKS1 begins with the magic that it has while its volume is reencrypted.
pub(crate) fn is_reencrypting(beginning: &[u8]) -> bool
    requires { length beginning.now ≡ 8 }
    ensures { IsTrue result ↔ BeginsReencrypting beginning.now }
{
    field(beginning, 0, 6) == REENCRYPTING_MAGIC.as_slice() && u16_at(beginning, VERSION) == 1
}

/// Whether a second copy begins with these 8 bytes.
fn is_second(beginning: &[u8]) -> bool
    requires { length beginning.now ≡ 8 }
    ensures { IsTrue result ↔ BeginsSecond beginning.now }
{
    field(beginning, 0, 6) == SECOND_MAGIC.as_slice() && u16_at(beginning, VERSION) == 2
}

/// Whether a JSON area may begin with these 8 bytes.
pub(crate) fn is_text(beginning: &[u8]) -> bool
    requires { length beginning.now ≡ 8 }
    ensures { IsTrue result ↔ BeginsText beginning.now }
{
    field(beginning, 0, 1) == b"{".as_slice()
}

/// Whether a header, a second copy or a JSON area begins with these 8 bytes.
fn is_sign(beginning: &[u8]) -> bool
    requires { length beginning.now ≡ 8 }
    ensures { IsTrue result ↔ BeginsSign beginning.now }
{
    is_header(beginning) || is_second(beginning) || is_text(beginning)
}

/// Whether a length of a volume key ends the 112 bytes from the place `at` of a block on, as it does in
/// a LUKS1 header.
fn begins_fields(block: &[u8], at: usize) -> bool
    requires { at ≤ length block.now }
    ensures { IsTrue result ↔ BeginsFields (part block.now at 112) }
{
    if block.len() - at < FIELDS {
        return false;
    }
    let fields = field(block, at, FIELDS);
    let key_bytes = BigEndian::read_u32(field(fields, KEY_BYTES, 4));
    key_bytes >= 1 && key_bytes <= 128
}

/// Whether a header, a second copy or a JSON area may begin at the place `at` of a block.
fn may_begin(block: &[u8], at: usize) -> bool
    requires { at + 8 ≤ length block.now }
    ensures { IsTrue result ↔ MayBegin block.now at }
{
    is_sign(field(block, at, BEGINNING)) || begins_fields(block, at)
}

/// The first sector of a block at which a header, a second copy or a JSON area may begin. The block
/// begins at a sector.
pub(crate) fn first_sign(block: &[u8]) -> Option<usize>
    requires { length block.now ≤ 1048576 }
    ensures within { IfSome result (λ n. 512 * n + 8 ≤ length block.now) }
    ensures found { FindsIn block.now result }
{
    let whole = (block.len() + (SECTOR - BEGINNING)) / SECTOR;
    for index in 0..whole {
        let at = SECTOR * index;
        if may_begin(block, at) {
            return Some(index);
        }
    }
    None
}
