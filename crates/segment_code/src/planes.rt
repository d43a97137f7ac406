// The writer of the bit planes of a segment.
ghost use Rattle.std.specs.Prelude.{◌≡◌, ◌<◌, ◌≤◌, ◌+◌, ◌-◌};
ghost use Rattle.item_defs.specs.Items.{text};
ghost use Rattle.bit_pipe.specs.SinkState.{IsReady, Writes};
ghost use Rattle.wave_defs.specs.Held.{blocks_in};
ghost use Rattle.block_masks.specs.SegmentNumbers.{AreAbove};
ghost use Rattle.segment_defs.specs.Depths.{depth_ac_of};
ghost use Rattle.segment_defs.specs.Head.{IsHead};
ghost use Rattle.segment_defs.specs.SegmentItems.{stages_sent, q_of};
ghost use Rattle.segment_code.specs.CodedParts.{coded_plane, coded_planes};

use crate::blocks::SegmentBlocks;
use crate::head_plans::plan_of;
use bit_pipe::{BitOut, OctetOut, PutFault};
use plane_coder::{CodeTables, PlanePlan, PlaneSource, put_plane};
use segment_head::SegmentHead;

// Returns how many stages of a plane are sent.
fn stages_sent(head: &SegmentHead, plane: u8) -> u8
    requires { head.now.stop.stage < 4 }
    ensures is { result ≡ stages_sent head.now plane }
    ensures most { result ≤ 5 }
    ensures some { head.now.stop.plane ≤ plane → 0 < result }
{
    if plane > head.stop.plane {
        5
    } else if plane == head.stop.plane {
        head.stop.stage + 2
    } else {
        0
    }
}

// Returns the plan of a plane up to its last stage.
pub(crate) fn plane_plan(head: &SegmentHead, plane: u8, last: u8) -> PlanePlan
    ensures plane { result.plane ≡ plane }
    ensures q { result.q ≡ q_of head.now }
    ensures weights { result.weights ≡ head.now.image.weights }
    ensures last { result.last ≡ last }
{
    PlanePlan {
        plane,
        q: plan_of(head).q(),
        weights: head.image.weights,
        last,
    }
}

// Puts what is sent of the nth plane from the top, which is not below the stop.
fn put_nth_plane<O: OctetOut>(
    out: &mut BitOut<O>,
    head: &SegmentHead,
    blocks: &mut SegmentBlocks,
    tables: &CodeTables,
    n: u8,
) -> Result<(), PutFault>
    requires fits { IsHead head.now }
    requires open { IsReady O.sink out.old }
    requires within { n + head.now.stop.plane < head.now.depth_ac }
    requires above { AreAbove (head.now.depth_ac - n) blocks.old }
    ensures puts { Writes O.sink result out.old out.new (text (coded_plane tables.now.book head.now (blocks_in blocks.old.numbers) n)) }
    ensures numbers { blocks.new.numbers ≡ blocks.old.numbers }
    ensures most { blocks.new.most ≡ blocks.old.most }
    ensures above { AreAbove (head.now.depth_ac - (n + 1)) blocks.new }
{
    let plane = head.depth_ac - 1 - n;
    let plan = plane_plan(head, plane, stages_sent(head, plane) - 1);
    let source = PlaneSource {
        plan: &plan,
        tables,
    };
    put_plane(
        out,
        &mut blocks.masks,
        &mut blocks.marks,
        &mut blocks.room,
        &source,
    )
}

// Puts the planes from the top down, up to the stop.
pub(crate) fn put_planes<O: OctetOut>(
    out: &mut BitOut<O>,
    head: &SegmentHead,
    blocks: &mut SegmentBlocks,
    tables: &CodeTables,
) -> Result<(), PutFault>
    requires fits { IsHead head.now }
    requires open { IsReady O.sink out.old }
    requires ac { head.now.depth_ac ≡ depth_ac_of (blocks_in blocks.old.numbers) }
    ensures puts { Writes O.sink result out.old out.new (text (coded_planes tables.now.book head.now (blocks_in blocks.old.numbers) head.now.depth_ac)) }
    ensures numbers { blocks.new.numbers ≡ blocks.old.numbers }
    ensures most { blocks.new.most ≡ blocks.old.most }
{
    if head.depth_ac <= head.stop.plane {
        return Ok(());
    }
    blocks.masks.begin(head.depth_ac);
    for n in 0..head.depth_ac - head.stop.plane {
        put_nth_plane(out, head, blocks, tables, n)?;
    }
    Ok(())
}
