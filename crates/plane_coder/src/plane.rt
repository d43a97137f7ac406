// The writer of a plane of a segment.

ghost use Rattle.std.specs.Prelude.{◌≡◌, ◌+◌, ◌*◌, ◌≤◌, ◌<◌, length, vec_len};
ghost use Rattle.item_defs.specs.Items.{text};
ghost use Rattle.bit_pipe.specs.SinkState.{Puts, IsReady, Writes};
ghost use Rattle.plane_defs.specs.Marks.{depths_of};
ghost use Rattle.plane_defs.specs.Planes.{chosen};
ghost use Rattle.plane_coder.specs.Sends.{chosen_items};
ghost use Rattle.plane_coder.specs.Chosen.{AreChosen};
ghost use Rattle.plane_coder.specs.Kept.{AreKept};
ghost use Rattle.block_masks.specs.SegmentNumbers.{AreAbove};
ghost use Rattle.plane_coder.specs.Views.{plane_of, plane_in};

use crate::choose::choose_all;
use crate::collect::GaggleWords;
use crate::room::GaggleRoom;
use crate::stages::put_stage;
use crate::tables::CodeTables;
use crate::view::View;
use bit_pipe::{BitOut, OctetOut, PutFault};
use block_masks::{CodedPlane, PlanePlan, SegmentMasks};

// Puts the stages of a plane up to its last one, with the options that are chosen in the states.
pub(crate) fn put_stages<O: OctetOut>(
    out: &mut BitOut<O>,
    view: &View,
    marks: &mut [i32],
    words: &mut GaggleWords,
    last: u8,
) -> Result<(), PutFault>
    requires open { IsReady O.sink out.old }
    requires whole { length view.now.segment.now.numbers ≡ 64 * length marks.old }
    requires last { last ≤ 4 }
    requires chosen { AreChosen view.now.tables.now.book (plane_in view.now (depths_of marks.old)) marks.old }
    requires kept { AreKept view.now.tables.now.book (chosen view.now.tables.now.book (plane_in view.now (depths_of marks.old)))
        (plane_in view.now (depths_of marks.old)) view.now.kept.now }
    ensures puts { Writes O.sink result out.old out.new (text (chosen_items view.now.tables.now.book (plane_in view.now (depths_of marks.old)) last)) }
    ensures depths { depths_of marks.new ≡ depths_of marks.old }
{
    for number in 0..last + 1 {
        put_stage(out, number, view, marks, words)?;
    }
    Ok(())
}

/// What is put of a plane beside its blocks: the plan that all of them have, and the codes. The tables are those of a sound book.
#[derive(Drop)]
pub struct PlaneSource<'a> {
    pub plan: &'a PlanePlan,
    pub tables: &'a CodeTables,
}

/// Puts a bit plane of a segment up to the plan's last stage (docs/formats.md, "Bit planes" and "Words
/// and codes").
///
/// `segment` has the masks of the numbers, as `SegmentMasks::begin` or the call for the plane above left them, and `marks` one number
/// for each block, its state, whose lowest five bits are the block's depth. The words of a gaggle are coded with the options that
/// take the fewest bits over its words of stages 1 to 3, whichever stages are sent. `room` keeps the bits of words meanwhile, as far as it
/// has room. Returns `Stopped` exactly if the bits do not all fit in the bound; those that fit were put. The plane is at most 26 and
/// the last stage at most 4.
///
/// Whatever it returns, the masks are those that the plane below needs afterwards, and the depths stay. The other bits of `marks` are
/// free, and the call overwrites them.
pub fn put_plane<O: OctetOut>(
    out: &mut BitOut<O>,
    segment: &mut SegmentMasks,
    marks: &mut [i32],
    room: &mut GaggleRoom,
    source: &PlaneSource,
) -> Result<(), PutFault>
    requires open { IsReady O.sink out.old }
    requires whole { length segment.old.numbers ≡ 64 * length marks.old }
    requires plane { source.now.plan.now.plane ≤ 26 }
    requires last { source.now.plan.now.last ≤ 4 }
    requires above { AreAbove (source.now.plan.now.plane + 1) segment.old }
    ensures puts { Writes O.sink result out.old out.new
        (text (chosen_items source.now.tables.now.book (plane_of segment.old.numbers (depths_of marks.old) source.now.plan.now) source.now.plan.now.last)) }
    ensures depths { depths_of marks.new ≡ depths_of marks.old }
    ensures numbers { segment.new.numbers ≡ segment.old.numbers }
    ensures most { segment.new.most ≡ segment.old.most }
    ensures above { AreAbove source.now.plan.now.plane segment.new }
    ensures room { vec_len room.new.kept ≡ vec_len room.old.kept }
{
    let plan = source.plan;
    let coded = CodedPlane::new(plan);
    choose_all(segment, marks, room, &coded, source.tables);
    let view = View {
        segment,
        plan: &coded,
        tables: source.tables,
        kept: &room.kept,
    };
    let result = put_stages(out, &view, marks, &mut room.words, plan.last);
    segment.settle(plan.plane);
    result
}
