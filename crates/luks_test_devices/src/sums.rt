//! Volumes by their SHA-256, and bytes in place of random ones.
ghost use Rattle.std.specs.Prelude.{◌≡◌, ◌↔◌, ◌+◌, ◌%◌, length, IfOk, IsTrue};
ghost use Rattle.hex.specs.Hex.{encode_lower};
ghost use Rattle.luks_test_devices.specs.Numbers.{counted_from};
ghost use Rattle.sha2.specs.Sha256.{sha256};

use sha2::{Digest, Sha256};
use std::alloc::{AllocError, Global};

/// As many bytes, counted from the number on, modulo 251.
pub fn counted(alloc: Global, from: usize, len: usize) -> Result<Vec<u8>, AllocError>
    ensures bytes { IfOk result (λ bytes. bytes.items ≡ counted_from from len) }
    ensures len { IfOk result (λ bytes. length bytes.items ≡ len) }
{
    let mut bytes = Vec::with_capacity(alloc, len)?;
    for i in 0..len {
        bytes.push(sum_modulo_251(from, i))?;
    }
    Ok(bytes)
}

fn sum_modulo_251(a: usize, b: usize) -> u8
    ensures { result ≡ (a + b) % 251 }
{
    ((a % 251 + b % 251) % 251) as u8
}

/// Whether this text of hexadecimal digits is the SHA-256 of the bytes.
pub fn is_sum(bytes: &[u8], want: &str) -> bool
    ensures { IsTrue result ↔ (want.now ≡ encode_lower (sha256 bytes.now)) }
{
    let mut text = [0; 64];
    match hex::encode_to_slice(Sha256::digest(bytes), &mut text) {
        Ok(()) => want.as_bytes() == text.as_slice(),
        Err(_) => false,
    }
}
