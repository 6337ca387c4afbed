//! A volume key, and the key area that holds it.
ghost use Rattle.std.specs.Prelude.{◌≡◌, length, IfOk};

use crate::sums::counted;
use luks_kdf::HashName;
use luks_modes::XtsKey;
use std::alloc::{AllocError, Global};

/// The volume key: 00 01 .. 3f.
pub const VOLUME_KEY: [u8; 64] = [
    0, 1, 2, 3, 4, 5, 6, 7, 8, 9, 10, 11, 12, 13, 14, 15, 16, 17, 18, 19, 20, 21, 22, 23, 24, 25,
    26, 27, 28, 29, 30, 31, 32, 33, 34, 35, 36, 37, 38, 39, 40, 41, 42, 43, 44, 45, 46, 47, 48, 49,
    50, 51, 52, 53, 54, 55, 56, 57, 58, 59, 60, 61, 62, 63,
];

/// The five sectors of a key area: 40 stripes, sealed by the passphrase.
///
/// Salt 32 bytes 0x11, 1000 iterations; byte i of the stripes but the last is i modulo 251.
pub fn key_area(alloc: Global, hash: HashName, passphrase: &[u8]) -> Result<Vec<u8>, AllocError>
    ensures { IfOk result (λ area. length area.items ≡ 2560) }
{
    let random = counted(alloc, 0, 2496)?;
    let mut area = vec![in alloc; 0u8; 2560]?;
    hash.split(&mut area, &VOLUME_KEY, &random);
    let mut slot_key = [0; 64];
    hash.pbkdf2(&mut slot_key, passphrase, &[0x11; 32], 1000);
    seal(&slot_key, &mut area);
    Ok(area)
}

/// Encrypts the sectors, numbered from 0.
fn seal(key: &[u8; 64], area: &mut [u8]) {
    let Some(cipher) = XtsKey::new(key) else {
        return;
    };
    let mut left = area;
    for n in 0..5 {
        match left.split_at_mut_checked(512) {
            Some((sector, later)) => {
                cipher.seal_unit(n, sector);
                left = later;
            }
            None => return,
        }
    }
}
