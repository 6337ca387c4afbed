//! Both copies of a LUKS2 header, whose checksums are taken side by side.
ghost use Rattle.std.specs.Prelude.{◌≡◌, ◌+◌, ◌^◌, ◌<◌, ◌≤◌, ◌++◌, length, take, IfOk, MatchResult};
ghost use Rattle.sha2.specs.Sha256.{sha256};
ghost use Rattle.luks_area.specs.Device.{is_failure, CountsFailure, IsUnchanged};
ghost use Rattle.luks_area.specs.Ranges.{part};
ghost use Rattle.luks_lanes.specs.PairHasher.{HoldsPair};
ghost use Rattle.luks2_header.specs.Header2.{binary_header_size, hdr_size, with_zero_checksum, IsFormed};
ghost use Rattle.luks2_header.specs.Sizes.{IsListed};
ghost use Rattle.luks2_header.specs.SoundCopies.{kept_size, FindsSoundCopy, IsBegun, IsFoundWithin};

use crate::bin2::Bin2;
use crate::bin2_places as place;
use crate::copies::{BEGINNING, with_sum};
use luks_area::{Device, DeviceFault};
use luks_lanes::PairHasher;
use luks1_header::fields::{field, u64_at};

/// The bytes of each copy that are read at once, behind the first 16384.
const PAIR_WINDOW: usize = 12288;

/// The binary headers of the first copy and of the second, which are of one size, where each is
/// sound. Each begins with these bytes.
pub(crate) fn judged_both<D: Device>(
    device: &mut D,
    first: &[u8],
    first_json: &[u8],
    second: &[u8],
    second_json: &[u8],
) -> Result<(Option<Bin2>, Option<Bin2>), DeviceFault>
    requires first_long { length first.now ≡ binary_header_size }
    requires second_long { length second.now ≡ binary_header_size }
    requires first_kept { length first_json.now ≡ kept_size }
    requires second_kept { length second_json.now ≡ kept_size }
    requires first_formed { IsFormed first.now 0 (D.size device.old) }
    requires second_formed { IsFormed second.now (hdr_size first.now) (D.size device.old) }
    requires first_begun { D.tells → IsBegun (D.bytes device.old) 0 first.now first_json.now }
    requires second_begun { D.tells
        → IsBegun (D.bytes device.old) (hdr_size first.now) second.now second_json.now }
    requires room { D.failed device.old + 1 < 2 ^ 64 }
    ensures unchanged { IsUnchanged D.tells D.size D.bytes D.unsettled device.old device.new }
    ensures count { CountsFailure is_failure result (D.failed device.old) (D.failed device.new) }
    ensures within { IfOk result (λ found. IsFoundWithin (D.size device.old) found.0
        × IsFoundWithin (D.size device.old) found.1) }
    ensures first { D.tells → IfOk result (λ found. FindsSoundCopy (D.bytes device.old) 0 found.0) }
    ensures second { D.tells → IfOk result
        (λ found. FindsSoundCopy (D.bytes device.old) (hdr_size first.now) found.1) }
{
    let size = u64_at(first, place::HDR_SIZE);
    let hasher = hasher_of_both(first, first_json, second, second_json);
    let digests = digests_from(device, size, hasher)?;
    Ok((with_sum(first, &digests.0), with_sum(second, &digests.1)))
}

/// A hasher that was fed the beginning of each copy, with the 64 bytes of its checksum as zeros.
fn hasher_of_both(first: &[u8], first_json: &[u8], second: &[u8], second_json: &[u8]) -> PairHasher
    requires first { length first.now ≡ binary_header_size }
    requires second { length second.now ≡ binary_header_size }
    requires first_json { length first_json.now ≡ kept_size }
    requires second_json { length second_json.now ≡ kept_size }
    ensures { HoldsPair result (with_zero_checksum first.now ++ first_json.now)
        (with_zero_checksum second.now ++ second_json.now) }
{
    let mut hasher = PairHasher::new();
    hasher.update(field(first, 0, place::CSUM), field(second, 0, place::CSUM));
    let zeros = [0; place::CSUM_SIZE];
    hasher.update(&zeros, &zeros);
    hasher.update(&first[place::CSUM_END..], &second[place::CSUM_END..]);
    hasher.update(first_json, second_json);
    hasher
}

/// The SHA-256 of the copy at 0 and of that at `size`, each of `size` bytes, by a hasher that was fed
/// the first 16384 of each. It is fed the others, up to 12288 of each at a time, in two windows on the
/// stack, which no frame of its caller holds.
#[inline(never)]
fn digests_from<D: Device>(
    device: &mut D,
    size: u64,
    mut hasher: PairHasher,
) -> Result<([u8; 32], [u8; 32]), DeviceFault>
    requires listed { IsListed size }
    requires within { size + size ≤ D.size device.old }
    requires fits { size + size < 2 ^ 64 }
    requires fed { D.tells → HoldsPair hasher
        (take 16384 (with_zero_checksum (part (D.bytes device.old) 0 size)))
        (take 16384 (with_zero_checksum (part (D.bytes device.old) size size))) }
    requires room { D.failed device.old + 1 < 2 ^ 64 }
    ensures unchanged { IsUnchanged D.tells D.size D.bytes D.unsettled device.old device.new }
    ensures count { CountsFailure is_failure result (D.failed device.old) (D.failed device.new) }
    ensures first { D.tells
        → IfOk result (λ d. d.0 ≡ sha256 (with_zero_checksum (part (D.bytes device.old) 0 size))) }
    ensures second { D.tells
        → IfOk result (λ d. d.1 ≡ sha256 (with_zero_checksum (part (D.bytes device.old) size size))) }
{
    let mut first_window = [0; PAIR_WINDOW];
    let mut second_window = [0; PAIR_WINDOW];
    let mut done = BEGINNING;
    while done < size {
        let len = (size - done).min(PAIR_WINDOW as u64);
        let first = &mut first_window[..len as usize];
        device.read_at(done, first)?;
        let second = &mut second_window[..len as usize];
        device.read_at(size + done, second)?;
        hasher.update(first, second);
        done += len;
    }
    Ok(hasher.finalize())
}
