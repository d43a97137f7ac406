// The refinement bits of a block.

ghost use Rattle.std.specs.Prelude.{◌+◌, ◌-◌, ◌*◌, ◌≤◌, ◌<◌};
ghost use Rattle.plane_defs.specs.Sets.{refined as is_refined};
ghost use Rattle.base_122.specs.declared.book.Book.{Book as BookValue};
ghost use Rattle.block_masks.specs.Masks.{Shows};
ghost use Rattle.plane_coder.specs.Appends.{Appends, load};
ghost use Rattle.plane_coder.specs.Refining.{refining};
ghost use Rattle.plane_coder.specs.Refined.{IsRefined};
ghost use Rattle.plane_coder.specs.Viewed.{block_in};

use crate::pending::PendingBits;
use crate::plane_masks::PlaneMasks;
use block_masks::{PairedFours, is_any_of};

// The positions whose bits refine a number, and the same beside their bits.
#[derive(Clone, Copy)]
pub(crate) struct Refined {
    pub mask: u64,
    pub fours: PairedFours,
}

// Adds the refinement bits of the positions from 4 times `from` to 4 times `to`.
#[inline(always)]
pub(crate) fn push_refinement(
    pending: &mut PendingBits,
    plane_masks: &PlaneMasks,
    refined: &Refined,
    from: u8,
    to: u8,
)
    requires order { from < to }
    requires start { 0 < from }
    requires within { to ≤ 16 }
    requires shown { Shows refined.now.mask
        (is_refined (block_in plane_masks.now) plane_masks.now.plan.now.weights.shifts plane_masks.now.plan.now.plane) 0 64 }
    requires fours { IsRefined plane_masks.now refined.now.fours }
    requires room { load pending.old + 4 * (to - from) ≤ 63 }
    ensures { (book : BookValue) → Appends book pending.old pending.new
        (refining (block_in plane_masks.now) plane_masks.now.plan.now.weights.shifts plane_masks.now.plan.now.plane (4 * from) (4 * (to - from)))
        (4 * (to - from)) }
{
    if !is_any_of(refined.mask, 4 * from, 4 * (to - from)) {
        return;
    }
    for k in from..to {
        pending.raws(plane_masks.refinement_four(&refined.fours, k));
    }
}
