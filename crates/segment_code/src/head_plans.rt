// What the writers and the readers of a text's parts need of a head.
ghost use Rattle.std.specs.Prelude.{◌≡◌, ◌≤◌, ℕ, length};
ghost use Rattle.base_122.specs.Weights.{shift_of};
ghost use Rattle.base_122.specs.declared.weights.Band.TheVariants.{Ll3};
ghost use Rattle.segment_defs.specs.Coded.{choice_of};
ghost use Rattle.segment_defs.specs.Head.{IsHead};
ghost use Rattle.segment_defs.specs.SegmentItems.{dc_shift, q_of, stages_sent};
ghost use Rattle.plane_reader.specs.Planes.{stages_of};
ghost use Rattle.gaggle_codes.specs.Options.{choice_of as choice_of_select};

use base_122::{Band, Select};
use dc_depths::DcPlan;
use plane_reader::SentPlanes;
use segment_head::SegmentHead;

// Returns the plan of the DC part.
pub(crate) fn plan_of(head: &SegmentHead) -> DcPlan
    ensures dc { result.depth_dc ≡ head.now.depth_dc }
    ensures ac { result.depth_ac ≡ head.now.depth_ac }
    ensures shift { result.shift ≡ dc_shift head.now }
    ensures ten { length head.now.image.weights.shifts ≡ 10 }
{
    DcPlan {
        depth_dc: head.depth_dc,
        depth_ac: head.depth_ac,
        shift: ll3_shift(&head.image.weights.shifts),
    }
}

fn ll3_shift(shifts: &[u8; 10]) -> u8
    ensures shift { result ≡ shift_of shifts.now Ll3 }
    ensures ten { length shifts.now ≡ 10 }
{
    shifts[Band::Ll3 as usize]
}

pub(crate) fn select_of(best: bool) -> Select
    ensures { choice_of_select result ≡ choice_of best }
{
    if best {
        Select::Optimal
    } else {
        Select::Heuristic
    }
}

// Returns the planes that are sent, and whether the numbers are restored.
pub(crate) fn sent_planes(head: &SegmentHead, restore: bool) -> SentPlanes
    requires fits { IsHead head.now }
    ensures weights { result.weights ≡ head.now.image.weights }
    ensures q { result.q ≡ q_of head.now }
    ensures below { result.below ≡ head.now.depth_ac }
    ensures restore { result.restore ≡ restore }
    ensures last { result.last ≤ 4 }
    ensures stages { (plane : ℕ) → stages_sent head.now plane ≡ stages_of result plane }
{
    SentPlanes {
        weights: head.image.weights,
        q: plan_of(head).q(),
        below: head.depth_ac,
        stop: head.stop.plane,
        last: head.stop.stage + 1,
        restore,
    }
}
