//! What a derivation costs, and the shape of its memory.

ghost use Rattle.std.specs.Prelude.{◌≡◌, ◌≤◌, ◌<◌, ◌*◌, ◌/◌, ◌^◌};

use crate::variant::Variant;

/// What a derivation costs (RFC 9106, 3.1).
#[derive(Clone, Copy)]
pub struct Costs {
    /// How many passes over the memory: t, at least 1.
    pub time: u32,
    /// The memory in KiB: m, at least 8 for each lane.
    pub memory: u32,
    /// How many lanes: p, 1 to 2^24 - 1.
    pub lanes: u32,
    ghost some_pass: { 1 ≤ time },
    ghost enough_memory: { 8 * lanes ≤ memory },
    ghost some_lane: { 1 ≤ lanes },
    ghost few_lanes: { lanes < 2 ^ 24 },
}

/// The shape of the work: lanes, blocks of a segment, passes. A lane has four segments.
#[derive(Clone, Copy)]
pub(crate) struct Shape {
    pub(crate) lanes: usize,
    pub(crate) segment: usize,
    pub(crate) passes: usize,
    pub(crate) variant: Variant,
    ghost some_lane: { 1 ≤ lanes },
    ghost few_lanes: { lanes < 2 ^ 24 },
    ghost two: { 2 ≤ segment },
    ghost fits: { lanes * segment < 2 ^ 30 },
    ghost segment_fits: { segment < 2 ^ 30 },
    ghost passes_fit: { passes < 2 ^ 32 },
}

/// The shape of a derivation.
pub(crate) fn shape_of(variant: Variant, costs: Costs) -> Shape
    ensures lanes { result.lanes ≡ costs.lanes }
    ensures segment { result.segment ≡ costs.memory / (4 * costs.lanes) }
    ensures passes { result.passes ≡ costs.time }
    ensures variant { result.variant ≡ variant }
{
    let lanes = costs.lanes as usize;
    Shape {
        lanes,
        segment: costs.memory as usize / (4 * lanes),
        passes: costs.time as usize,
        variant,
    }
}
