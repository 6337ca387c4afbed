//! Where the fields of a LUKS1 header stand: in bytes from its start, and those of a keyslot from
//! the start of its entry (LUKS1 On-Disk Format 1.2.3, "The partition header").

/// The bytes of the whole header.
pub const SIZE: usize = 592;

/// The magic of a LUKS1 header and of the first copy of a LUKS2 header: `LUKS`, 0xBA, 0xBE.
pub const MAGIC: [u8; 6] = [0x4C, 0x55, 0x4B, 0x53, 0xBA, 0xBE];

/// The version, which is there in every header of LUKS.
pub const VERSION: usize = 6;

/// The cipher's name, a text of 32 bytes.
pub(crate) const CIPHER_NAME: usize = 8;

/// The cipher's mode, a text of 32 bytes.
pub(crate) const CIPHER_MODE: usize = 40;

/// The hash, a text of 32 bytes.
pub(crate) const HASH_SPEC: usize = 72;

/// The bytes of each of these three texts.
pub(crate) const TEXT_SIZE: usize = 32;

/// The sector at which the payload begins.
pub(crate) const PAYLOAD_OFFSET: usize = 104;

/// The length of the volume key.
pub(crate) const KEY_BYTES: usize = 108;

/// The digest of the volume key.
pub(crate) const MK_DIGEST: usize = 112;

/// The salt of that digest.
pub(crate) const MK_DIGEST_SALT: usize = 132;

/// The iterations of that digest.
pub(crate) const MK_DIGEST_ITERATIONS: usize = 164;

/// The volume's uuid, a text.
pub(crate) const UUID: usize = 168;

/// The bytes of that text.
pub(crate) const UUID_SIZE: usize = 40;

/// The first of the eight keyslots.
pub(crate) const KEYSLOTS: usize = 208;

/// The bytes of a keyslot's entry.
pub(crate) const ENTRY_SIZE: usize = 48;

/// The word that says whether the keyslot is in use.
pub(crate) const ACTIVE_WORD: usize = 0;

/// The active word of an enabled keyslot.
pub(crate) const ENABLED: u32 = 0x00AC_71F3;

/// The active word of a disabled keyslot.
pub(crate) const DISABLED: u32 = 0x0000_DEAD;

/// The iterations of the key derivation.
pub(crate) const ITERATIONS: usize = 4;

/// The salt of the key derivation.
pub(crate) const SALT: usize = 8;

/// The sector at which the key material begins.
pub(crate) const KEY_MATERIAL_OFFSET: usize = 40;

/// The number of stripes.
pub(crate) const STRIPES: usize = 44;
