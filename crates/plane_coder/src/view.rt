// The inputs of a call, which do not change while its stages are put.

ghost use Rattle.std.specs.Prelude.{◌≡◌, ◌+◌, ◌*◌, ◌<◌, length};
ghost use Rattle.wave_defs.specs.Held.{block_at};
ghost use Rattle.block_masks.specs.SegmentNumbers.{AreAbove};
ghost use Rattle.plane_coder.specs.Viewed.{IsView, block_in};

use crate::masks::Masks;
use crate::plane_masks::PlaneMasks;
use crate::tables::CodeTables;
use block_masks::{CodedPlane, SegmentMasks};

// The masks of a segment, with the plane and the codes, and the bits of words that are kept.
#[derive(Drop)]
pub(crate) struct View<'a> {
    pub segment: &'a SegmentMasks,
    pub plan: &'a CodedPlane,
    pub tables: &'a CodeTables,
    // 32 masks for each gaggle, as far as there are.
    pub kept: &'a [u64],
    ghost low: { plan.now.plane < 27 },
    ghost above: { AreAbove (plan.now.plane + 1) segment.now },
}

impl<'a> View<'a> {
    #[inline(always)]
    fn masks(&self, r: usize) -> Masks
        requires { 64 * r < length self.now.segment.now.numbers }
        ensures { IsView (block_at self.now.segment.now.numbers r) self.now.plan.now.plane result }
    {
        Masks {
            above: self.segment.above(r),
            bits: self.segment.bits(self.plan.plane, r),
            negative: self.segment.negative(r),
        }
    }

    // Returns the masks of block r in the plane.
    #[inline(always)]
    pub fn plane_masks(&self, r: usize) -> PlaneMasks<'a>
        requires { 64 * r < length self.now.segment.now.numbers }
        ensures block { block_in result ≡ block_at self.now.segment.now.numbers r }
        ensures plan { result.plan.now ≡ self.now.plan.now }
    {
        PlaneMasks::new(self.segment, r, self.plan, self.masks(r))
    }
}
