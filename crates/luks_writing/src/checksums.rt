//! The checksums of copies of a LUKS2 header that are to be written.
ghost use Rattle.std.specs.Prelude.{◌≡◌, ◌%◌, ◌++◌, length, replicate};
ghost use Rattle.luks2_header.specs.Header2.{csum_size, sha256_size};
ghost use Rattle.luks2_header.specs.Written.{WritesBin2};
ghost use Rattle.luks_writing.specs.Copy.{IsSummed};

use luks_lanes::PairHasher;
use luks1_header::fields::put;
use luks2_header::Bin2;
use sha2::{Digest, Sha256};

/// The bytes of a checksum's field.
const CSUM_SIZE: usize = 64;

/// The bytes of a block that SHA-256 takes in.
const BLOCK: usize = 64;

/// Both headers, each with the checksum of the copy that it makes with this JSON area.
///
/// The checksums are taken side by side, where the area is of whole blocks of 64 bytes, as that of
/// every copy of a listed size is; else one after the other.
pub fn with_checksums(first: &Bin2, second: &Bin2, json: &[u8]) -> (Bin2, Bin2)
    ensures first { IsSummed first.now json.now result.0 }
    ensures second { IsSummed second.now json.now result.1 }
{
    if json.len() % BLOCK == 0 {
        side_by_side(first, second, json)
    } else {
        (with_checksum(first, json), with_checksum(second, json))
    }
}

/// The header with the checksum of the copy that it makes with this JSON area.
pub(crate) fn with_checksum(header: &Bin2, json: &[u8]) -> Bin2
    ensures { IsSummed header.now json.now result }
{
    let mut hasher = Sha256::new();
    hasher.update(zero_summed(header).as_slice());
    hasher.update(json);
    with_digest(header, &hasher.finalize())
}

/// Both headers with their checksums, over an area of whole blocks.
fn side_by_side(first: &Bin2, second: &Bin2, json: &[u8]) -> (Bin2, Bin2)
    requires { length json.now % 64 ≡ 0 }
    ensures first { IsSummed first.now json.now result.0 }
    ensures second { IsSummed second.now json.now result.1 }
{
    let mut hasher = PairHasher::new();
    hasher.update(&zero_summed(first), &zero_summed(second));
    hasher.update(json, json);
    let digests = hasher.finalize();
    (
        with_digest(first, &digests.0),
        with_digest(second, &digests.1),
    )
}

/// The bytes of the header, those of its checksum as zeros.
fn zero_summed(header: &Bin2) -> [u8; 4096]
    ensures { WritesBin2 result (record header.now { csum = replicate csum_size 0 }) }
{
    let zeroed = Bin2 {
        csum: [0; CSUM_SIZE],
        ..*header
    };
    zeroed.write()
}

/// The header with this digest as its checksum, and zeros behind it.
fn with_digest(header: &Bin2, digest: &[u8]) -> Bin2
    requires { length digest.now ≡ sha256_size }
    ensures { result ≡ record header.now { csum = digest.now ++ replicate sha256_size 0 } }
{
    let mut csum = [0; CSUM_SIZE];
    put(&mut csum, 0, digest);
    Bin2 { csum, ..*header }
}
