//! Where the fields of a binary LUKS2 header stand, in bytes from its start
//! (LUKS2 On-Disk Format 1.1, 2.1).

/// The bytes of the whole binary header.
pub(crate) const SIZE: usize = 4096;

/// The magic of the second copy: `SKUL`, 0xBA, 0xBE.
pub(crate) const SECOND_MAGIC: [u8; 6] = [0x53, 0x4B, 0x55, 0x4C, 0xBA, 0xBE];

/// The version.
pub(crate) const VERSION: usize = 6;

/// The length of the copy.
pub(crate) const HDR_SIZE: usize = 8;

/// The sequence number.
pub(crate) const SEQID: usize = 16;

/// The label.
pub(crate) const LABEL: usize = 24;

/// The name of the checksum's hash, a text.
pub(crate) const CSUM_ALG: usize = 72;

/// The bytes of that text.
pub(crate) const CSUM_ALG_SIZE: usize = 32;

/// `sha256` and zeros.
pub(crate) const SHA256: [u8; 32] = [
    b's', b'h', b'a', b'2', b'5', b'6', 0, 0, 0, 0, 0, 0, 0, 0, 0, 0, 0, 0, 0, 0, 0, 0, 0, 0, 0, 0,
    0, 0, 0, 0, 0, 0,
];

/// The salt.
pub(crate) const SALT: usize = 104;

/// The uuid.
pub(crate) const UUID: usize = 168;

/// The subsystem's label.
pub(crate) const SUBSYSTEM: usize = 208;

/// The place of the copy.
pub(crate) const HDR_OFFSET: usize = 256;

/// The checksum.
pub(crate) const CSUM: usize = 448;

/// The bytes of the checksum's field.
pub(crate) const CSUM_SIZE: usize = 64;

/// The first byte after the checksum.
pub(crate) const CSUM_END: usize = 512;

/// The bytes of a SHA-256, which stand first in the checksum's field.
pub(crate) const SHA256_SIZE: usize = 32;
