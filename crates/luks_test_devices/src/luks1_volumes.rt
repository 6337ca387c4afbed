//! Small LUKS1 volumes, put together by the layout of the format alone.
ghost use Rattle.std.specs.Prelude.{◌≡◌, length, IfOk};

use crate::bytes::put;
use crate::sealed::{VOLUME_KEY, key_area};
use luks_kdf::HashName;
use std::alloc::{AllocError, Global};

/// The first two words of a keyslot in use, of 1000 iterations.
pub const ENABLED: &[u8] = &[0, 0xAC, 0x71, 0xF3, 0, 0, 3, 0xE8];

/// Writes the header by this hash.
fn put_header(image: &mut [u8], hash: HashName) {
    put(image, 0, b"LUKS\xBA\xBE\x00\x01aes");
    put(image, 40, b"xts-plain64");
    put(image, 72, hash.text().as_bytes());
    put(image, 104, &[0, 0, 0, 128, 0, 0, 0, 64]);
    let mut digest = [0; 20];
    hash.pbkdf2(&mut digest, &VOLUME_KEY, &[0x22; 32], 1000);
    put(image, 112, &digest);
    put(image, 132, &[0x22; 32]);
    put(image, 164, &[0, 0, 3, 0xE8]);
    put(image, 168, b"00000000-0000-4000-8000-000000000000");
    put_keyslots(image);
}

/// Writes the eight entries of keyslots.
fn put_keyslots(image: &mut [u8]) {
    for n in 0..8u8 {
        let entry = 208 + 48 * n as usize;
        put(image, entry, &[0, 0, 0xDE, 0xAD]);
        put(image, entry + 40, &[0, 0, 0, 8 + 8 * n, 0, 0, 0, 40]);
    }
    put(image, 208, ENABLED);
    put(image, 216, &[0x11; 32]);
}

/// The small LUKS1 volume by this hash, of 66048 bytes: keyslot n of 40 stripes at sector 8 + 8 n, the
/// payload at 128; keyslot 0 opens by `one`.
pub fn small1(alloc: Global, hash: HashName) -> Result<Vec<u8>, AllocError>
    ensures { IfOk result (λ volume. length volume.items ≡ 66048) }
{
    let area = key_area(alloc, hash, b"one")?;
    let mut image = vec![in alloc; 0u8; 66048]?;
    put_header(&mut image, hash);
    put(&mut image, 4096, &area);
    Ok(image)
}

/// The bytes of the volume with large key areas.
pub const LARGE: usize = 20972032;

/// The front of a LUKS1 volume of `LARGE` bytes whose keyslots 0 to 6 have 40000 stripes and key areas
/// of 5000 sectors, its payload behind them; so many keyslots are in use.
pub fn large_areas(alloc: Global, used: usize) -> Result<Vec<u8>, AllocError> {
    let mut volume = small1(alloc, HashName::Sha256)?;
    put(&mut volume, 104, &[0, 0, 0xA0, 0]);
    put(&mut volume, 208, &[0, 0, 0xDE, 0xAD]);
    for n in 0..7usize {
        let entry = n.wrapping_mul(48).wrapping_add(208);
        let sectors = (n as u32).wrapping_mul(5000).wrapping_add(8);
        if n < used {
            put(&mut volume, entry, ENABLED);
        }
        put(&mut volume, entry.wrapping_add(40), &sectors.to_be_bytes());
        put(&mut volume, entry.wrapping_add(44), &[0, 0, 0x9C, 0x40]);
    }
    put(&mut volume, 584, &35008u32.to_be_bytes());
    put(&mut volume, 588, &[0, 0, 0, 1]);
    Ok(volume)
}
