//! The blocks after the first two of each lane (RFC 9106, 3.2, steps 5 and 6).

ghost use Rattle.std.specs.Prelude.{◌≡◌, ◌≢◌, ℕ, ◌≤◌, ◌<◌, ◌+◌, ◌-◌, ◌*◌, ◌%◌, ◌^◌, List, [], get_or, length, slice_set};
ghost use Rattle.luks_argon2.specs.Argon2.{extended, lanes_before, next_block, pair, slice_added};
ghost use Rattle.luks_argon2.specs.Indexing.{window_start};
ghost use Rattle.luks_argon2.specs.Memory.{HoldsAll, HoldsLane, HoldsOthers, HasPairs, HasPairsBefore, IsBefore, work_of};

use crate::addressing::{is_independent, refresh};
use crate::block_compression::Scratch;
use crate::indexing::{place_of, reference};
use crate::shape::Shape;

/// Makes the block number `slice * segment + i` of a lane, and puts it in its place.
#[inline(always)]
fn next_block(
    memory: &mut [[u64; 128]],
    shape: Shape,
    slice: usize,
    lane: usize,
    i: usize,
    word: u64,
    scratch: &mut Scratch,
)
    requires whole { length memory.old ≡ 4 * (shape.lanes * shape.segment) }
    requires lane_in { lane < shape.lanes }
    requires slice_in { slice * shape.segment + shape.segment < 2 ^ 64 }
    requires i_in { i < shape.segment }
    requires not_first { 2 ≤ slice * shape.segment + i }
    ensures kept { (k r : ℕ) → k ≢ lane → r < 4 * shape.segment
        → get_or memory.new (k * (4 * shape.segment) + r) [] ≡ get_or memory.old (k * (4 * shape.segment) + r) [] }
    ensures made { (lanes : List (List (List ℕ))) (own : List (List ℕ))
        → HoldsLane memory.old (4 * shape.segment) lane own (slice * shape.segment + i - 4 * shape.segment) (slice * shape.segment + i)
        → HoldsOthers memory.old shape lanes slice lane
        → word ≡ pair (work_of shape) slice lane i (get_or own (slice * shape.segment + i - 1) [])
        → memory.new ≡ slice_set memory.old (lane * (4 * shape.segment) + (slice * shape.segment + i) % (4 * shape.segment))
        (next_block (work_of shape) lanes own slice lane i) }
{
    let n = slice * shape.segment + i;
    let previous = place_of(shape, lane, n - 1);
    let (lane_there, number) = reference(shape, slice, lane, i, word);
    let there = place_of(shape, lane_there, number);
    scratch.compress(&memory[previous], &memory[there]);
    let place = place_of(shape, lane, n);
    if slice < 4 {
        scratch.put(&mut memory[place]);
    } else {
        scratch.put_over(&mut memory[place]);
    }
}

/// Makes that block with the pair that it needs.
#[inline(always)]
fn fill_one(
    memory: &mut [[u64; 128]],
    shape: Shape,
    slice: usize,
    lane: usize,
    i: usize,
    pairs: &[u64; 128],
    scratch: &mut Scratch,
)
    requires whole { length memory.old ≡ 4 * (shape.lanes * shape.segment) }
    requires lane_in { lane < shape.lanes }
    requires slice_in { slice * shape.segment + shape.segment < 2 ^ 64 }
    requires i_in { i < shape.segment }
    requires not_first { 2 ≤ slice * shape.segment + i }
    ensures kept { (k r : ℕ) → k ≢ lane → r < 4 * shape.segment
        → get_or memory.new (k * (4 * shape.segment) + r) [] ≡ get_or memory.old (k * (4 * shape.segment) + r) [] }
    ensures made { (lanes : List (List (List ℕ))) (own : List (List ℕ))
        → HoldsLane memory.old (4 * shape.segment) lane own (slice * shape.segment + i - 4 * shape.segment) (slice * shape.segment + i)
        → HoldsOthers memory.old shape lanes slice lane
        → HasPairs (work_of shape) slice lane i pairs.now
        → memory.new ≡ slice_set memory.old (lane * (4 * shape.segment) + (slice * shape.segment + i) % (4 * shape.segment))
        (next_block (work_of shape) lanes own slice lane i) }
{
    let previous = place_of(shape, lane, slice * shape.segment + i - 1);
    let word = if is_independent(shape.variant, slice) {
        pairs[i % 128]
    } else {
        memory[previous][0]
    };
    next_block(memory, shape, slice, lane, i, word, scratch);
}

/// The blocks of a slice in one lane.
pub(crate) fn fill_segment(memory: &mut [[u64; 128]], shape: Shape, slice: usize, lane: usize)
    requires whole { length memory.old ≡ 4 * (shape.lanes * shape.segment) }
    requires lane_in { lane < shape.lanes }
    requires slice_in { slice < 2 ^ 34 }
    requires slice_fits { slice * shape.segment + shape.segment < 2 ^ 64 }
    ensures long { (lanes : List (List (List ℕ))) → IsBefore memory.old shape lanes slice lane
        → length (extended (work_of shape) lanes slice lane shape.segment) ≡ slice * shape.segment + shape.segment }
    ensures own { (lanes : List (List (List ℕ))) → IsBefore memory.old shape lanes slice lane
        → HoldsLane memory.new (4 * shape.segment) lane (extended (work_of shape) lanes slice lane shape.segment)
        (slice * shape.segment + shape.segment - 4 * shape.segment) (slice * shape.segment + shape.segment) }
    ensures kept { (k r : ℕ) → k ≢ lane → r < 4 * shape.segment
        → get_or memory.new (k * (4 * shape.segment) + r) [] ≡ get_or memory.old (k * (4 * shape.segment) + r) [] }
{
    let mut pairs = [0u64; 128];
    let mut scratch = Scratch::new();
    'each: for i in 0..shape.segment {
        refresh(&mut pairs, shape, slice, lane, i);
        let n = slice * shape.segment + i;
        if n >= 2 {
            fill_one(memory, shape, slice, lane, i, &pairs, &mut scratch);
        }
    }
}

/// A slice of all lanes.
fn fill_slice(memory: &mut [[u64; 128]], shape: Shape, slice: usize)
    requires whole { length memory.old ≡ 4 * (shape.lanes * shape.segment) }
    requires slice_in { slice < 2 ^ 34 }
    requires slice_fits { slice * shape.segment + shape.segment < 2 ^ 64 }
    ensures { (lanes : List (List (List ℕ))) → HoldsAll memory.old shape lanes slice
        → HoldsAll memory.new shape (slice_added (work_of shape) lanes slice) (slice + 1) }
{
    'all: for lane in 0..shape.lanes {
        fill_segment(memory, shape, slice, lane);
    }
}

/// All slices of all passes.
pub(crate) fn fill(memory: &mut [[u64; 128]], shape: Shape)
    requires whole { length memory.old ≡ 4 * (shape.lanes * shape.segment) }
    ensures { (lanes : List (List (List ℕ))) → HoldsAll memory.old shape lanes 0
        → HoldsAll memory.new shape (lanes_before (work_of shape) lanes (4 * shape.passes)) (4 * shape.passes) }
{
    'all: for slice in 0..4 * shape.passes {
        fill_slice(memory, shape, slice);
    }
}
