//! Which block is referred to (RFC 9106, 3.4.2).

ghost use Rattle.std.specs.Prelude.{◌≡◌, ◌≢◌, ◌≤◌, ◌<◌, ◌+◌, ◌-◌, ◌*◌, ◌%◌, ◌^◌, false};
ghost use Rattle.luks_argon2.specs.Indexing.{place_in_window, reference_lane, reference, window_length, window_start};

use crate::shape::Shape;

/// How far into a window the block lies.
#[inline(always)]
fn place_in_window(count: usize, low: u32) -> usize
    requires some { 1 ≤ count }
    requires fits { count < 2 ^ 32 }
    ensures exact { result ≡ place_in_window count low }
    ensures within { result < count }
{
    let square = (low as u64 * low as u64) >> 32;
    let back = (count as u64 * square) >> 32;
    count - 1 - back as usize
}

/// The first block of a lane that may be referred to: three segments before the slice.
#[inline(always)]
fn window_start(slice: usize, segment: usize) -> usize
    requires { slice * segment < 2 ^ 64 }
    ensures exact { result ≡ window_start slice segment }
    ensures near { slice * segment ≤ result + 3 * segment }
    ensures before { 1 ≤ slice → result + segment ≤ slice * segment }
{
    slice.saturating_sub(3) * segment
}

/// How many blocks may be referred to, of those from `start`. The slice begins at `end`.
#[inline(always)]
fn window_length(start: usize, end: usize, i: usize, is_own: bool) -> usize
    requires ordered { start ≤ end }
    requires fits { end + i < 2 ^ 64 }
    requires own { start + 2 ≤ end + i }
    requires other { is_own ≡ false → start + 2 ≤ end }
    ensures exact { result ≡ window_length start end i is_own }
    ensures some { 1 ≤ result }
    ensures within { start + result < end + i + 1 }
    ensures other { is_own ≡ false → start + result ≤ end }
    ensures own { is_own ≢ false → start + result + 1 ≤ end + i }
{
    if is_own {
        end + i - 1 - start
    } else if i == 0 {
        end - 1 - start
    } else {
        end - start
    }
}

#[inline(always)]
fn reference_lane(slice: usize, lane: usize, lanes: usize, high: usize) -> usize
    requires { lane < lanes }
    ensures exact { result ≡ reference_lane slice lane lanes high }
    ensures lane_in { result < lanes }
    ensures first { slice ≡ 0 → result ≡ lane }
{
    if slice == 0 { lane } else { high % lanes }
}

/// The lane and the number of the block that is referred to.
#[inline(always)]
pub(crate) fn reference(
    shape: Shape,
    slice: usize,
    lane: usize,
    i: usize,
    pair: u64,
) -> (usize, usize)
    requires lane_in { lane < shape.lanes }
    requires slice_fits { slice * shape.segment + shape.segment < 2 ^ 64 }
    requires i_in { i < shape.segment }
    requires not_first { 2 ≤ slice * shape.segment + i }
    ensures exact { result ≡ reference slice shape.segment shape.lanes lane i pair }
    ensures lane_in { result.0 < shape.lanes }
    ensures from { window_start slice shape.segment ≤ result.1 }
    ensures near { slice * shape.segment ≤ result.1 + 3 * shape.segment }
    ensures own { result.0 ≡ lane → result.1 + 1 < slice * shape.segment + i }
    ensures other { result.0 ≢ lane → result.1 < slice * shape.segment }
{
    let low = (pair & 0xFFFF_FFFF) as u32;
    let high = (pair >> 32) as usize;
    let other = reference_lane(slice, lane, shape.lanes, high);
    let start = window_start(slice, shape.segment);
    let count = window_length(start, slice * shape.segment, i, other == lane);
    (other, start + place_in_window(count, low))
}

/// The place of block number n of a lane in the memory.
#[inline(always)]
pub(crate) fn place_of(shape: Shape, lane: usize, n: usize) -> usize
    requires lane_in { lane < shape.lanes }
    ensures exact { result ≡ lane * (4 * shape.segment) + n % (4 * shape.segment) }
    ensures within { result < 4 * (shape.lanes * shape.segment) }
{
    lane * (4 * shape.segment) + n % (4 * shape.segment)
}
