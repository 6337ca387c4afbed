//! The binary header of a LUKS2 copy.
ghost use Rattle.std.specs.Prelude.{◌≡◌, ◌↔◌, ◌++◌, ℕ, List, length, replicate, IsOk, IfOk, IfErr};
ghost use Rattle.sha2.specs.Hashers.{Holds256};
ghost use Rattle.sha2.specs.Sha256.{sha256};
ghost use Rattle.luks_area.specs.First.{IsLeast};
ghost use Rattle.luks_area.specs.Text.{text_of};
ghost use Rattle.luks1_header.specs.Faults.{head_key};

use crate::bin2_places as place;
use crate::bin2_places::{SECOND_MAGIC, SHA256};
use crate::bin2_writing::put_header;
use crate::copies::digest_of_header;
use luks_area::text_field;
use luks1_header::fields::{array_at, put, u16_at, u64_at};
use luks1_header::luks1_places::MAGIC;
use luks1_header::{HeadFault, TextField, is_uuid};
use sha2::{Digest, Sha256};

/// The binary header of a copy of a LUKS2 header, field by field as it is there
/// (LUKS2 On-Disk Format 1.1, 2.1). Nothing in it is judged yet.
#[derive(Debug, Clone, Copy, PartialEq, Eq)]
pub struct Bin2 {
    /// The magic, which differs between the first and the second copy.
    pub magic: [u8; 6],
    /// The version, 2.
    pub version: u16,
    /// The length in bytes of this header and its JSON area.
    pub hdr_size: u64,
    /// The sequence number: the copy with the higher one is the newer.
    pub seqid: u64,
    /// The volume's label, a text.
    pub label: [u8; 48],
    /// The name of the checksum's hash, a text.
    pub csum_alg: [u8; 32],
    /// The salt, which makes the two copies differ.
    pub salt: [u8; 64],
    /// The volume's uuid, a text.
    pub uuid: [u8; 40],
    /// The subsystem's label, a text.
    pub subsystem: [u8; 48],
    /// The place of this copy, in bytes from the volume's start.
    pub hdr_offset: u64,
    /// The checksum of the whole copy, in as many bytes as its hash has.
    pub csum: [u8; 64],
}

impl Bin2 {
    ghost use Rattle.luks2_header.specs.Written.{IsRenewed, WritesBin2};
    ghost use Rattle.luks2_header.specs.Header2.{binary_header_size, sha256_size, with_zero_checksum, HoldsBin2, IsUuidFault, IsUuidField};

    /// Reads a binary header. Any bytes will do; padding isn't looked at.
    pub fn read(bytes: &[u8]) -> Bin2
        requires { length bytes.now ≡ binary_header_size }
        ensures { HoldsBin2 bytes.now result }
    {
        Bin2 {
            magic: array_at(bytes, 0),
            version: u16_at(bytes, place::VERSION),
            hdr_size: u64_at(bytes, place::HDR_SIZE),
            seqid: u64_at(bytes, place::SEQID),
            label: array_at(bytes, place::LABEL),
            csum_alg: array_at(bytes, place::CSUM_ALG),
            salt: array_at(bytes, place::SALT),
            uuid: array_at(bytes, place::UUID),
            subsystem: array_at(bytes, place::SUBSYSTEM),
            hdr_offset: u64_at(bytes, place::HDR_OFFSET),
            csum: array_at(bytes, place::CSUM),
        }
    }

    /// The header's 4096 bytes, with zeros in its padding.
    pub fn write(&self) -> [u8; 4096]
        ensures { WritesBin2 result self.now }
    {
        let mut bytes = [0; place::SIZE];
        put_header(&mut bytes, self);
        bytes
    }

    /// The header of the copy at the place `at` that is to take the place of this one's: with this
    /// sequence number and salt, the same uuid, label and subsystem, and a checksum of zeros, which
    /// `with_checksum` makes good.
    pub fn renewed(&self, at: u64, seqid: u64, salt: [u8; 64]) -> Bin2
        ensures { IsRenewed self.now at seqid salt result }
    {
        Bin2 {
            magic: if at == 0 { MAGIC } else { SECOND_MAGIC },
            version: 2,
            seqid,
            csum_alg: SHA256,
            salt,
            hdr_offset: at,
            csum: [0; place::CSUM_SIZE],
            ..*self
        }
    }

    /// A hasher that was fed this header's 4096 bytes, those of the checksum as zeros. Fed the JSON
    /// area too, window by window, it holds what the checksum of the copy is made of.
    pub fn hasher(&self) -> Sha256
        ensures { (b csum : List ℕ) → WritesBin2 b (record self.now { csum = csum })
            → Holds256 result (with_zero_checksum b) }
    {
        digest_of_header(&self.write())
    }

    /// This header with the checksum of the copy that the hasher was fed.
    pub fn with_checksum(&self, hasher: Sha256) -> Bin2
        ensures { (copy : List ℕ) → Holds256 hasher copy
            → result ≡ record self.now { csum = sha256 copy ++ replicate sha256_size 0 } }
    {
        let mut csum = [0; place::CSUM_SIZE];
        put(&mut csum, 0, &hasher.finalize());
        Bin2 { csum, ..*self }
    }

    /// The text of the volume's uuid, 36 bytes in either letter case.
    ///
    /// Refused by `Text(uuid)`, or else by `Uuid`.
    pub fn uuid(&self) -> Result<&str, HeadFault>
        ensures text { IfOk result (λ t. t.now ≡ text_of self.now.uuid) }
        ensures accepted { IsOk result ↔ IsUuidField self.now.uuid }
        ensures fault { IfErr result (IsLeast head_key (IsUuidFault self.now.uuid)) }
    {
        match text_field(&self.uuid) {
            Some(text) if is_uuid(text) => Ok(text),
            Some(_) => Err(HeadFault::Uuid),
            None => Err(HeadFault::Text(TextField::Uuid)),
        }
    }
}
