//! Copies of LUKS2 headers, and whether they are sound in a volume that begins with them or before them.
ghost use Rattle.std.specs.Prelude.{◌≡◌, ◌↔◌, ◌+◌, ◌^◌, ◌<◌, ◌≤◌, codes, IsTrue, IfOk, IfSome, length};
ghost use Rattle.sha2.specs.Hashers.{Holds256};
ghost use Rattle.sha2.specs.Sha256.{sha256};
ghost use Rattle.luks_area.specs.Device.{CountsFailure, IsUnchanged, is_failure};
ghost use Rattle.luks_area.specs.Ranges.{part};
ghost use Rattle.luks_area.specs.Text.{text_of};
ghost use Rattle.luks2_header.specs.Header2.{binary_header_size, csum_at, hdr_size, header_at, sha256_size, with_zero_checksum, IsFormed, IsSound};
ghost use Rattle.luks2_header.specs.Sizes.{is_listed, IsListed};
ghost use Rattle.luks_finding.specs.Starts.{volume_at, IsSoundOf};
ghost use Rattle.luks_finding.specs.Telling.{FindsSize, HasNearerCopy};

use crate::signs::SECOND_MAGIC;
use luks_area::{Device, DeviceFault, text_field};
use luks1_header::fields::field;
use luks1_header::luks1_places::MAGIC;
use luks2_header::Bin2;
use sha2::{Digest, Sha256};

/// The bytes of a binary header.
pub(crate) const HEAD: usize = 4096;

/// The place of the checksum of a copy in its binary header, and where that field ends.
const CSUM: usize = 448;

const CSUM_END: usize = 512;

/// The bytes of a SHA-256, which stand first in that field.
const SHA256_SIZE: usize = 32;

/// The most bytes of a copy that are read at once for its checksum.
const WINDOW: usize = 32768;

/// The sizes that a header may have, which are also the places of its second copy.
pub(crate) const LISTED_SIZES: [u64; 9] = [
    0x4000, 0x8000, 0x1_0000, 0x2_0000, 0x4_0000, 0x8_0000, 0x10_0000, 0x20_0000, 0x40_0000,
];

fn is_listed(size: u64) -> bool
    ensures { result ≡ is_listed size }
{
    LISTED_SIZES.contains(&size)
}

/// The size that the binary header at the place `at` of a disk names, where it is a listed one and
/// leaves room for a start so far before.
pub(crate) fn named_size<D: Device>(device: &mut D, at: u64) -> Result<Option<u64>, DeviceFault>
    requires room { D.failed device.old + 1 < 2 ^ 64 }
    ensures unchanged { IsUnchanged D.tells D.size D.bytes D.unsettled device.old device.new }
    ensures count { CountsFailure is_failure result (D.failed device.old) (D.failed device.new) }
    ensures within { IfOk result
        (λ named. IfSome named (λ size. IsListed size × (size ≤ at) × (at + 4096 ≤ D.size device.old))) }
    ensures named { D.tells → IfOk result (FindsSize (D.bytes device.old) at) }
{
    let total = device.len();
    if total < HEAD as u64 || at > total - HEAD as u64 {
        return Ok(None);
    }
    let mut head = [0; HEAD];
    device.read_at(at, &mut head)?;
    let size = Bin2::read(&head).hdr_size;
    if is_listed(size) && size <= at {
        Ok(Some(size))
    } else {
        Ok(None)
    }
}

fn has_sha256(header: &Bin2) -> bool
    ensures { IsTrue result ↔ (text_of header.now.csum_alg ≡ codes "sha256") }
{
    match text_field(&header.csum_alg) {
        Some(text) => text == "sha256",
        None => false,
    }
}

/// Whether the binary header of a second copy, read `size` bytes behind the start of a volume of
/// `total` bytes, is of the right form.
fn is_formed(head: &[u8], size: u64, total: u64) -> bool
    requires header { length head.now ≡ binary_header_size }
    requires listed { IsListed size }
    ensures { IsTrue result ↔ IsFormed head.now size total }
{
    let header = Bin2::read(head);
    header.magic == SECOND_MAGIC
        && header.version == 2
        && header.hdr_size == size
        && header.hdr_offset == size
        && size <= total
        && size <= total - size
        && has_sha256(&header)
}

/// Whether the first copy, of `size` bytes, is formed so.
fn is_formed_first(head: &[u8], size: u64, total: u64) -> bool
    requires header { length head.now ≡ binary_header_size }
    requires listed { IsListed size }
    ensures { IsTrue result ↔ (IsFormed head.now 0 total × (hdr_size head.now ≡ size)) }
{
    let header = Bin2::read(head);
    header.magic == MAGIC
        && header.version == 2
        && header.hdr_size == size
        && header.hdr_offset == 0
        && size <= total
        && has_sha256(&header)
}

/// A hasher that was fed the binary header with the 64 bytes of its checksum as zeros.
fn digest_of_header(head: &[u8]) -> Sha256
    requires { length head.now ≡ binary_header_size }
    ensures { Holds256 result (with_zero_checksum head.now) }
{
    let mut hasher = Sha256::new();
    hasher.update(field(head, 0, CSUM));
    hasher.update([0; CSUM_END - CSUM].as_slice());
    hasher.update(&head[CSUM_END..]);
    hasher
}

/// The SHA-256 of the copy of `size` bytes at `at`, of whose first 4096 bytes, `head`, the 64 bytes
/// of its checksum are taken as zeros. The others are read by as many as fit a window on the stack.
fn digest_of_copy<D: Device>(
    device: &mut D,
    at: u64,
    size: u64,
    head: &[u8],
) -> Result<[u8; 32], DeviceFault>
    requires listed { IsListed size }
    requires within { at + size ≤ D.size device.old }
    requires fits { at + size < 2 ^ 64 }
    requires header { length head.now ≡ binary_header_size }
    requires head { D.tells → head.now ≡ header_at (D.bytes device.old) at }
    requires room { D.failed device.old + 1 < 2 ^ 64 }
    ensures unchanged { IsUnchanged D.tells D.size D.bytes D.unsettled device.old device.new }
    ensures count { CountsFailure is_failure result (D.failed device.old) (D.failed device.new) }
    ensures digest { D.tells
        → IfOk result (λ d. d ≡ sha256 (with_zero_checksum (part (D.bytes device.old) at size))) }
{
    let mut hasher = digest_of_header(head);
    let mut window = [0; WINDOW];
    let mut done = HEAD as u64;
    while done < size {
        let len = (size - done).min(WINDOW as u64);
        let piece = &mut window[..len as usize];
        device.read_at(at + done, piece)?;
        hasher.update(&*piece);
        done += len;
    }
    Ok(hasher.finalize())
}

fn has_sum(head: &[u8], digest: &[u8]) -> bool
    requires { length head.now ≡ binary_header_size }
    ensures { IsTrue result ↔ (part head.now csum_at sha256_size ≡ digest.now) }
{
    field(head, CSUM, SHA256_SIZE) == digest
}

/// Whether the volume that begins at `start` has a sound second copy of `size` bytes, so far behind
/// its start. Reads a binary header, and only where that is of the right form the whole copy.
pub(crate) fn is_sound<D: Device>(
    device: &mut D,
    start: u64,
    size: u64,
) -> Result<bool, DeviceFault>
    requires listed { IsListed size }
    requires inside { start ≤ D.size device.old }
    requires room { D.failed device.old + 1 < 2 ^ 64 }
    ensures unchanged { IsUnchanged D.tells D.size D.bytes D.unsettled device.old device.new }
    ensures count { CountsFailure is_failure result (D.failed device.old) (D.failed device.new) }
    ensures sound { D.tells → IfOk result
        (λ is. IsTrue is ↔ IsSound (volume_at (D.bytes device.old) start) size) }
{
    let total = device.len() - start;
    if total < HEAD as u64 || size > total - HEAD as u64 {
        return Ok(false);
    }
    let mut head = [0; HEAD];
    device.read_at(start + size, &mut head)?;
    if !is_formed(&head, size, total) {
        return Ok(false);
    }
    let digest = digest_of_copy(device, start + size, size, &head)?;
    Ok(has_sum(&head, &digest))
}

/// Whether the volume that begins at `start` has a sound first copy of `size` bytes. Reads as much.
pub(crate) fn is_sound_first<D: Device>(
    device: &mut D,
    start: u64,
    size: u64,
) -> Result<bool, DeviceFault>
    requires listed { IsListed size }
    requires inside { start + size ≤ D.size device.old }
    requires room { D.failed device.old + 1 < 2 ^ 64 }
    ensures unchanged { IsUnchanged D.tells D.size D.bytes D.unsettled device.old device.new }
    ensures count { CountsFailure is_failure result (D.failed device.old) (D.failed device.new) }
    ensures sound { D.tells → IfOk result
        (λ is. IsTrue is ↔ IsSoundOf (volume_at (D.bytes device.old) start) size 0) }
{
    let total = device.len() - start;
    let mut head = [0; HEAD];
    device.read_at(start, &mut head)?;
    if !is_formed_first(&head, size, total) {
        return Ok(false);
    }
    let sum = digest_of_copy(device, start, size, &head)?;
    Ok(has_sum(&head, &sum))
}

/// Whether the volume that begins at `start` has a sound second copy nearer than `size` bytes.
pub(crate) fn has_nearer_copy<D: Device>(
    device: &mut D,
    start: u64,
    size: u64,
) -> Result<bool, DeviceFault>
    requires inside { start ≤ D.size device.old }
    requires room { D.failed device.old + 1 < 2 ^ 64 }
    ensures unchanged { IsUnchanged D.tells D.size D.bytes D.unsettled device.old device.new }
    ensures count { CountsFailure is_failure result (D.failed device.old) (D.failed device.new) }
    ensures nearer { D.tells → IfOk result
        (λ has. IsTrue has ↔ HasNearerCopy (volume_at (D.bytes device.old) start) size) }
{
    let mut left = LISTED_SIZES.as_slice();
    while let [nearer, later @ ..] = left {
        if *nearer >= size {
            return Ok(false);
        }
        if is_sound(device, start, *nearer)? {
            return Ok(true);
        }
        left = later;
    }
    Ok(false)
}
