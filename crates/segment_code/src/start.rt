// The reader of the DC part and the block depths.
ghost use Rattle.std.specs.Prelude.{◌≡◌, ◌≤◌, ◌*◌, length};
ghost use Rattle.bit_pipe.specs.SourceState.{source_state, IsIn};
ghost use Rattle.base_122.specs.declared.book.Book.{Book};
ghost use Rattle.dc_depths.specs.Dcs.{HasRoom};
ghost use Rattle.segment_defs.specs.Head.{IsHead};
ghost use Rattle.segment_defs.specs.SegmentItems.{q_of};
ghost use Rattle.segment_code.specs.Starts.{AreClear, EndsAtDcs, TakesStart};

use crate::head_plans::plan_of;
use bit_pipe::{BitIn, OctetIn, Part, TextFault};
use dc_depths::{DcReach, restore_dcs, take_dc_reach, take_depths};
use segment_defs::SegmentHead;

// Restores the DCs of a text that ends before its planes, if that is wished: they are given this far.
fn end_at_dcs(blocks: &mut [i32], head: &SegmentHead, reach: DcReach, restore: bool)
    requires fits { IsHead head.now }
    requires low { reach.plane ≤ q_of head.now }
    requires room { HasRoom 536870912 blocks.old }
    ensures { EndsAtDcs restore head.now reach blocks.old blocks.new }
{
    if restore {
        restore_dcs(blocks, &plan_of(head), reach);
    }
}

/// Reads the DC part and the block depths of a segment, into blocks whose numbers are all 0, and into one state for each
/// block, which the call overwrites (docs/formats.md, "Reading a segment"). Returns none if the bit planes follow:
/// otherwise `Whole`, if the text stops at the DC numbers, or `Ended`. A part after one that is cut is not read. If the bit planes do not
/// follow, the numbers are restored if `restore` is set (docs/formats.md, "Restored numbers").
///
/// # Errors
///
/// The name by which the text is refused, or how the input ended. The numbers have no meaning then.
pub(crate) fn take_start<I: OctetIn>(
    input: &mut BitIn<I>,
    head: &SegmentHead,
    restore: bool,
    blocks: &mut [i32],
    marks: &mut [i32],
) -> Result<Option<Part>, TextFault>
    requires fits { IsHead head.now }
    requires open { IsIn (source_state input.old) }
    requires count { length blocks.old ≡ 64 * length marks.old }
    requires marks { length marks.old ≡ head.now.blocks }
    requires clear { AreClear blocks.old }
    ensures { (book : Book) → TakesStart I.source (record { book = book; restore = restore }) head.now result (source_state input.old)
        (source_state input.new) blocks.new marks.new }
{
    let plan = plan_of(head);
    let (part, reach) = take_dc_reach(input, blocks, &plan)?;
    let Part::Whole = part else {
        end_at_dcs(blocks, head, reach, restore);
        return Ok(Some(Part::Ended));
    };
    if head.stop.dc {
        end_at_dcs(blocks, head, reach, restore);
        return Ok(Some(Part::Whole));
    }
    let Part::Whole = take_depths(input, marks, head.depth_ac)? else {
        end_at_dcs(blocks, head, reach, restore);
        return Ok(Some(Part::Ended));
    };
    Ok(None)
}
