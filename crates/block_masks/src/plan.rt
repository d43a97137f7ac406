// The parameters of a plane, and what the weights determine for all of its blocks.

ghost use Rattle.std.specs.Prelude.{◌≡◌, ◌<◌, ◌≤◌, ◌+◌, ◌*◌, ℕ, slice_index};
ghost use Rattle.plane_defs.specs.Sets.{coded as is_coded_at};
ghost use Rattle.block_masks.specs.Masks.{Shows};
ghost use Rattle.block_masks.specs.Places.{IsOneBand};
ghost use Rattle.block_masks.specs.SetMasks.{AreSets, AreQuads};

use crate::mask_sets::{joined, masked};
use crate::sets::{Sets, quads_of};
use base_122::Weights;
use block_families::place_of;

/// A bit plane and how far it is sent (docs/formats.md, "Bit planes").
#[derive(Clone, Copy, Debug, PartialEq, Eq)]
pub struct PlanePlan {
    /// The plane's number, at most 26: bits of weight 2^plane.
    pub plane: u8,
    /// The number of low bits of the DC numbers that the DC part left out.
    pub q: u8,
    pub weights: Weights,
    /// The last stage that is sent, 0 to 4.
    pub last: u8,
}

/// A plane as it is for all of its blocks: at which positions a number can have a bit of it, and which sets are live in
/// it (docs/formats.md, "Bit planes").
#[derive(Drop)]
pub struct CodedPlane {
    /// The plane's number.
    pub plane: u8,
    /// The number of low bits of the DC numbers that the DC part left out.
    pub q: u8,
    pub weights: Weights,
    /// The positions that are coded in the plane.
    pub coded: u64,
    /// The sets that have such a position.
    pub live: Sets,
    /// For each family, its sets of four grandchildren that have such a position.
    pub live_quads: [u64; 3],
    ghost low: { plane < 27 },
    ghost shown: { Shows coded (is_coded_at weights.shifts plane) 0 64 },
    ghost live_shown: { AreSets (is_coded_at weights.shifts plane) live },
    ghost quads_shown: { (i : ℕ) → i < 3 → AreQuads (is_coded_at weights.shifts plane) i (slice_index live_quads i) },
}

// Returns whether a bit of the plane can be other than 0 at the position.
#[tactic(auto, unfolding(plane_defs::specs::Sets::coded))]
fn can_have_bit(plan: &PlanePlan, position: u8) -> bool
    requires { position < 64 }
    ensures { result ≡ is_coded_at plan.now.weights.shifts plan.now.plane position }
{
    plan.weights.shift(place_of(position, 0).band) <= plan.plane
}

// Returns the `count` positions of one band from `start` on, if they can have a bit of the plane. A band has one
// shift, so the first of them decides.
fn coded_in_band(plan: &PlanePlan, start: u8, count: u8) -> u64
    requires start { start < 64 }
    requires count { count < 64 }
    requires band { IsOneBand start count }
    ensures { Shows result (is_coded_at plan.now.weights.shifts plan.now.plane) start count }
{
    masked((1 << count) - 1, can_have_bit(plan, start))
}

// Returns those of the three families of a level, each with `count` positions of a band of its own (docs/formats.md, "Blocks").
fn coded_in_level(plan: &PlanePlan, start: u8, count: u8) -> u64
    requires within { start + 3 * count ≤ 64 }
    requires some { 0 < count }
    requires bands { (i : ℕ) → i < 3 → IsOneBand (start + i * count) count }
    ensures { Shows result (is_coded_at plan.now.weights.shifts plan.now.plane) start (3 * count) }
{
    let first = coded_in_band(plan, start, count);
    let second = coded_in_band(plan, start + count, count);
    let third = coded_in_band(plan, start + 2 * count, count);
    joined(joined(first, second, count), third, 2 * count)
}

// Returns the positions at which a number can have a bit of the plane.
fn coded_positions(plan: &PlanePlan) -> u64
    ensures { Shows result (is_coded_at plan.now.weights.shifts plan.now.plane) 0 64 }
{
    let dc = coded_in_band(plan, 0, 1);
    let parents = coded_in_level(plan, 1, 1);
    let children = coded_in_level(plan, 4, 4);
    let grandchildren = coded_in_level(plan, 16, 16);
    joined(
        joined(joined(dc, parents, 1), children, 4),
        grandchildren,
        16,
    )
}

impl CodedPlane {
    /// Returns the plane of a plan.
    pub fn new(plan: &PlanePlan) -> CodedPlane
        requires { plan.now.plane < 27 }
        ensures plane { result.plane ≡ plan.now.plane }
        ensures q { result.q ≡ plan.now.q }
        ensures weights { result.weights ≡ plan.now.weights }
    {
        let coded = coded_positions(plan);
        CodedPlane {
            plane: plan.plane,
            q: plan.q,
            weights: plan.weights,
            coded,
            live: Sets::of(coded),
            live_quads: [quads_of(coded, 0), quads_of(coded, 1), quads_of(coded, 2)],
        }
    }
}
