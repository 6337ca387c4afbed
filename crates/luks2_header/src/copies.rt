//! Copies of a LUKS2 header on a device, and whether they are sound.
ghost use Rattle.std.specs.Prelude.{◌≡◌, ◌↔◌, ◌+◌, ◌*◌, ◌^◌, ◌<◌, ◌≤◌, codes, length, take, IsTrue, IfOk, IfSome, MatchOption, MatchResult};
ghost use Rattle.sha2.specs.Hashers.{Holds256};
ghost use Rattle.sha2.specs.Sha256.{sha256};
ghost use Rattle.luks_area.specs.Device.{is_failure, CountsFailure, IsUnchanged};
ghost use Rattle.luks_area.specs.Ranges.{part};
ghost use Rattle.luks_area.specs.Text.{text_of};
ghost use Rattle.luks1_header.specs.Header1.{luks1_size};
ghost use Rattle.luks2_header.specs.Header2.{binary_header_size, csum_at, csum_size, csum_alg_field, header_at, magic_of, sha256_size, with_zero_checksum, HoldsBin2, IsFormed, IsSound};
ghost use Rattle.luks2_header.specs.SoundCopies.{kept_size, FindsSoundCopy, FindsSecondCopy, IsBegun, IsFoundWithin, KeepsJson};
ghost use Rattle.luks2_header.specs.Sizes.{is_listed, IsListed};

use crate::bin2::Bin2;
use crate::bin2_places::{self as place, SECOND_MAGIC};
use luks_area::{Device, DeviceFault, text_field};
use luks1_header::fields::{field, put, u16_at, u64_at};
use luks1_header::luks1_places::{self, MAGIC};
use sha2::{Digest, Sha256};

/// The bytes of a binary header, by which a copy is read.
pub(crate) const WINDOW: u64 = place::SIZE as u64;

/// The bytes of a larger copy that are read at once, behind the first 16384.
const LARGE_WINDOW: usize = 32768;

/// The bytes of a copy of the least size. So many of any copy are fed to its checksum first.
pub(crate) const BEGINNING: u64 = 16384;

/// The bytes of the JSON area in a copy of the least size. So many are kept of the area of any copy.
pub const KEPT_JSON: usize = 12288;

/// The bytes of the first copy that are read before it is known to be one of LUKS2.
const BEGUN: usize = luks1_places::SIZE;

/// The sizes that a header may have, which are also the places of its second copy.
const LISTED_SIZES: [u64; 9] = [
    0x4000, 0x8000, 0x1_0000, 0x2_0000, 0x4_0000, 0x8_0000, 0x10_0000, 0x20_0000, 0x40_0000,
];

fn is_listed(size: u64) -> bool
    ensures { result ≡ is_listed size }
{
    LISTED_SIZES.contains(&size)
}

fn has_magic(head: &[u8], at: u64) -> bool
    requires { 6 ≤ length head.now }
    ensures { IsTrue result ↔ (part head.now 0 6 ≡ magic_of at) }
{
    let magic = if at == 0 { MAGIC } else { SECOND_MAGIC };
    field(head, 0, 6) == magic.as_slice()
}

fn has_sha256(head: &[u8]) -> bool
    requires { binary_header_size ≤ length head.now }
    ensures { IsTrue result ↔ (text_of (csum_alg_field head.now) ≡ codes "sha256") }
{
    match text_field(field(head, place::CSUM_ALG, place::CSUM_ALG_SIZE)) {
        Some(text) => text == "sha256",
        None => false,
    }
}

/// Whether the binary header, read at `at` on a device of `total` bytes, is of the right form.
fn is_formed(head: &[u8], at: u64, total: u64) -> bool
    requires { length head.now ≡ binary_header_size }
    ensures { IsTrue result ↔ IsFormed head.now at total }
{
    let size = u64_at(head, place::HDR_SIZE);
    has_magic(head, at)
        && u16_at(head, place::VERSION) == 2
        && is_listed(size)
        && (at == 0 || size == at)
        && u64_at(head, place::HDR_OFFSET) == at
        && size <= total
        && at <= total - size
        && has_sha256(head)
}

/// A hasher that was fed the binary header with the 64 bytes of its checksum as zeros.
pub(crate) fn digest_of_header(head: &[u8]) -> Sha256
    requires { csum_at + csum_size ≤ length head.now }
    ensures { Holds256 result (with_zero_checksum head.now) }
{
    let mut hasher = Sha256::new();
    hasher.update(field(head, 0, place::CSUM));
    hasher.update([0; place::CSUM_SIZE].as_slice());
    hasher.update(&head[place::CSUM_END..]);
    hasher
}

/// The SHA-256 of the copy of `size` bytes at `at`, which begins with `head` and `json`; of the 4096
/// bytes of `head` the 64 bytes of its checksum are taken as zeros.
fn digest_of_copy<D: Device>(
    device: &mut D,
    at: u64,
    size: u64,
    head: &[u8],
    json: &[u8],
) -> Result<[u8; 32], DeviceFault>
    requires listed { IsListed size }
    requires within { at + size ≤ D.size device.old }
    requires fits { at + size < 2 ^ 64 }
    requires header { length head.now ≡ binary_header_size }
    requires begun { D.tells → IsBegun (D.bytes device.old) at head.now json.now }
    requires room { D.failed device.old + 1 < 2 ^ 64 }
    ensures unchanged { IsUnchanged D.tells D.size D.bytes D.unsettled device.old device.new }
    ensures count { CountsFailure is_failure result (D.failed device.old) (D.failed device.new) }
    ensures digest { D.tells
        → IfOk result (λ d. d ≡ sha256 (with_zero_checksum (part (D.bytes device.old) at size))) }
{
    let mut hasher = digest_of_header(head);
    hasher.update(json);
    digest_from(device, at, size, hasher)
}

/// The same by a hasher that was fed the first 16384 bytes. It is fed the others, up to 32768 at a
/// time, in a window of as many bytes on the stack, which no frame of its caller holds.
#[inline(never)]
fn digest_from<D: Device>(
    device: &mut D,
    at: u64,
    size: u64,
    mut hasher: Sha256,
) -> Result<[u8; 32], DeviceFault>
    requires listed { IsListed size }
    requires within { at + size ≤ D.size device.old }
    requires fits { at + size < 2 ^ 64 }
    requires fed { D.tells → Holds256 hasher
        (take 16384 (with_zero_checksum (part (D.bytes device.old) at size))) }
    requires room { D.failed device.old + 1 < 2 ^ 64 }
    ensures unchanged { IsUnchanged D.tells D.size D.bytes D.unsettled device.old device.new }
    ensures count { CountsFailure is_failure result (D.failed device.old) (D.failed device.new) }
    ensures digest { D.tells
        → IfOk result (λ d. d ≡ sha256 (with_zero_checksum (part (D.bytes device.old) at size))) }
{
    let mut window = [0; LARGE_WINDOW];
    let mut done = BEGINNING;
    while done < size {
        let len = (size - done).min(LARGE_WINDOW as u64);
        let piece = &mut window[..len as usize];
        device.read_at(at + done, piece)?;
        hasher.update(&*piece);
        done += len;
    }
    Ok(hasher.finalize())
}

fn has_sum(head: &[u8], digest: &[u8]) -> bool
    requires { length head.now ≡ binary_header_size }
    ensures { IsTrue result ↔ (part head.now csum_at sha256_size ≡ digest.now) }
{
    field(head, place::CSUM, place::SHA256_SIZE) == digest
}

/// The binary header with these bytes, where `digest` is its checksum.
pub(crate) fn with_sum(head: &[u8], digest: &[u8]) -> Option<Bin2>
    requires { length head.now ≡ binary_header_size }
    ensures { MatchOption result (part head.now csum_at sha256_size ≡ digest.now → ⊥)
        (λ h. HoldsBin2 head.now h × (part head.now csum_at sha256_size ≡ digest.now)) }
{
    if has_sum(head, digest) {
        Some(Bin2::read(head))
    } else {
        None
    }
}

/// Whether `head`, the first 4096 bytes of the copy at `at`, is of the right form. Then `json` holds
/// what is kept of the copy's JSON area.
pub(crate) fn begins_copy<D: Device>(
    device: &mut D,
    at: u64,
    head: &[u8],
    json: &mut [u8],
) -> Result<bool, DeviceFault>
    requires header { length head.now ≡ binary_header_size }
    requires head { D.tells → head.now ≡ header_at (D.bytes device.old) at }
    requires kept { length json.old ≡ kept_size }
    requires room { D.failed device.old + 1 < 2 ^ 64 }
    ensures unchanged { IsUnchanged D.tells D.size D.bytes D.unsettled device.old device.new }
    ensures count { CountsFailure is_failure result (D.failed device.old) (D.failed device.new) }
    ensures formed { IfOk result (λ it. IsTrue it → IsFormed head.now at (D.size device.old)) }
    ensures unsound { D.tells → IfOk result (λ it. IsSound (D.bytes device.old) at → IsTrue it) }
    ensures begun { D.tells
        → IfOk result (λ it. IsTrue it → IsBegun (D.bytes device.old) at head.now json.new) }
{
    if !is_formed(head, at, device.len()) {
        return Ok(false);
    }
    device.read_at(at + WINDOW, json)?;
    Ok(true)
}

/// Begins to judge the copy at `at`, whose first 4096 bytes are read into `head`.
pub(crate) fn begins_at<D: Device>(
    device: &mut D,
    at: u64,
    head: &mut [u8],
    json: &mut [u8],
) -> Result<bool, DeviceFault>
    requires header { length head.old ≡ binary_header_size }
    requires kept { length json.old ≡ kept_size }
    requires room { D.failed device.old + 1 < 2 ^ 64 }
    ensures unchanged { IsUnchanged D.tells D.size D.bytes D.unsettled device.old device.new }
    ensures count { CountsFailure is_failure result (D.failed device.old) (D.failed device.new) }
    ensures formed { IfOk result (λ it. IsTrue it → IsFormed head.new at (D.size device.old)) }
    ensures unsound { D.tells → IfOk result (λ it. IsSound (D.bytes device.old) at → IsTrue it) }
    ensures begun { D.tells
        → IfOk result (λ it. IsTrue it → IsBegun (D.bytes device.old) at head.new json.new) }
{
    let total = device.len();
    if total < WINDOW || at > total - WINDOW {
        return Ok(false);
    }
    device.read_at(at, head)?;
    begins_copy(device, at, head, json)
}

/// The binary header of the copy at `at`, which begins with `head` and `json`, where that copy is
/// sound.
pub(crate) fn judged_copy<D: Device>(
    device: &mut D,
    at: u64,
    head: &[u8],
    json: &[u8],
) -> Result<Option<Bin2>, DeviceFault>
    requires header { length head.now ≡ binary_header_size }
    requires formed { IsFormed head.now at (D.size device.old) }
    requires begun { D.tells → IsBegun (D.bytes device.old) at head.now json.now }
    requires room { D.failed device.old + 1 < 2 ^ 64 }
    ensures unchanged { IsUnchanged D.tells D.size D.bytes D.unsettled device.old device.new }
    ensures count { CountsFailure is_failure result (D.failed device.old) (D.failed device.new) }
    ensures within { IfOk result (IsFoundWithin (D.size device.old)) }
    ensures judged { D.tells → IfOk result (FindsSoundCopy (D.bytes device.old) at) }
{
    let size = u64_at(head, place::HDR_SIZE);
    let digest = digest_of_copy(device, at, size, head, json)?;
    Ok(with_sum(head, &digest))
}

/// The binary header of the copy at `at`, where that copy is sound. Then `json` holds what is kept
/// of its JSON area.
pub(crate) fn sound_copy<D: Device>(
    device: &mut D,
    at: u64,
    json: &mut [u8],
) -> Result<Option<Bin2>, DeviceFault>
    requires kept { length json.old ≡ kept_size }
    requires room { D.failed device.old + 1 < 2 ^ 64 }
    ensures unchanged { IsUnchanged D.tells D.size D.bytes D.unsettled device.old device.new }
    ensures count { CountsFailure is_failure result (D.failed device.old) (D.failed device.new) }
    ensures within { IfOk result (IsFoundWithin (D.size device.old)) }
    ensures judged { D.tells → IfOk result (FindsSoundCopy (D.bytes device.old) at) }
    ensures kept { D.tells
        → IfOk result (λ found. IfSome found (KeepsJson (D.bytes device.old) json.new)) }
{
    let mut head = [0; place::SIZE];
    if begins_at(device, at, &mut head, json)? {
        judged_copy(device, at, &head, json)
    } else {
        Ok(None)
    }
}

/// The first 4096 bytes, which begin with `begun`: these aren't read again.
pub(crate) fn first_header<D: Device>(
    device: &mut D,
    begun: &[u8],
) -> Result<[u8; 4096], DeviceFault>
    requires size { length begun.now ≡ luks1_size }
    requires begun { D.tells → begun.now ≡ part (D.bytes device.old) 0 luks1_size }
    requires within { binary_header_size ≤ D.size device.old }
    requires room { D.failed device.old + 1 < 2 ^ 64 }
    ensures unchanged { IsUnchanged D.tells D.size D.bytes D.unsettled device.old device.new }
    ensures count { CountsFailure is_failure result (D.failed device.old) (D.failed device.new) }
    ensures read { D.tells → IfOk result (λ head. head ≡ header_at (D.bytes device.old) 0) }
{
    let mut rest = [0; place::SIZE - BEGUN];
    device.read_at(BEGUN as u64, &mut rest)?;
    let mut head = [0; place::SIZE];
    put(&mut head, 0, begun);
    put(&mut head, BEGUN, &rest);
    Ok(head)
}

/// The binary header of the sound copy at the least listed place. Then `json` holds what is kept of
/// its JSON area.
pub(crate) fn least_second<D: Device>(
    device: &mut D,
    json: &mut [u8],
) -> Result<Option<Bin2>, DeviceFault>
    requires kept { length json.old ≡ kept_size }
    requires room { D.failed device.old + 1 < 2 ^ 64 }
    ensures unchanged { IsUnchanged D.tells D.size D.bytes D.unsettled device.old device.new }
    ensures count { CountsFailure is_failure result (D.failed device.old) (D.failed device.new) }
    ensures within { IfOk result (IsFoundWithin (D.size device.old)) }
    ensures found { D.tells → IfOk result (FindsSecondCopy (D.bytes device.old)) }
    ensures kept { D.tells
        → IfOk result (λ found. IfSome found (KeepsJson (D.bytes device.old) json.new)) }
{
    let mut left = LISTED_SIZES.as_slice();
    while let [at, later @ ..] = left {
        match sound_copy(device, *at, json)? {
            Some(header) => return Ok(Some(header)),
            None => left = later,
        }
    }
    Ok(None)
}
