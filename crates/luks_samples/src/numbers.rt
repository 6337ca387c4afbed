//! Bytes in place of random ones.
use std::alloc::{AllocError, Global};

/// As many bytes, counted up from the first, modulo 256.
pub fn counted_modulo_256(alloc: Global, first: u8, len: usize) -> Result<Vec<u8>, AllocError> {
    let mut bytes = vec![in alloc; 0u8; len]?;
    let mut next = first;
    for byte in bytes.iter_mut() {
        *byte = next;
        next = next.wrapping_add(1);
    }
    Ok(bytes)
}
