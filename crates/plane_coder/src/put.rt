// The stages of a block, and the words of a list.

ghost use Rattle.std.specs.Prelude.{◌≡◌, ◌+◌, ◌*◌, ◌&&◌, ◌<◌, ◌≤◌, ◌%◌, false, length, nat_lt, pos, slice_index_or};
ghost use Rattle.std.specs.Bool.{OnTrue};
ghost use Rattle.bit_pipe.specs.SinkState.{sink_state, IsReady};
ghost use Rattle.wave_defs.specs.Held.{block_at};
ghost use Rattle.plane_defs.specs.Sets.{coded};
ghost use Rattle.plane_defs.specs.Entries.{twos_bit, dc_bits, refinement, block_entries, stage_number};
ghost use Rattle.plane_coder.specs.Listed.{listed};
ghost use Rattle.plane_coder.specs.Collected.{HasNoWords};
ghost use Rattle.plane_coder.specs.Spells.{Spells};
ghost use Rattle.plane_coder.specs.Viewed.{block_in};
ghost use Rattle.base_122.specs.declared.book.Book.{Book as BookValue};
ghost use Rattle.block_masks.specs.declared.gaggle.Gaggle.{Gaggle as GaggleValue};

use crate::option_codes::OptionCodes;
use crate::pending::PendingBits;
use crate::plane_masks::PlaneMasks;
use crate::pushes::{Refined, push_refinement};
use crate::view::View;
use crate::words::Words;
use bit_pipe::{BitOut, OctetOut, PutFault};
use block_masks::{CodedPlane, SegmentMasks, has, is_any_of};

// Returns the bit of weight 2^place of a two's complement form.
fn twos_bit_at(number: i32, place: u8) -> bool
    requires { place < 32 }
    ensures { result ≡ twos_bit number place }
{
    (number >> place) & 1 == 1
}

// Returns whether the plane's bit of the DC was not in the DC part and can be other than 0.
fn is_dc_bit_due(plan: &CodedPlane) -> bool
    ensures { result ≡ (coded plan.now.weights.shifts plan.now.plane 0 && nat_lt plan.now.plane plan.now.q) }
{
    has(plan.coded, 0) && plan.plane < plan.q
}

// No block sends anything in this stage: it has the bits of the DC numbers, and they are not due.
pub(crate) fn is_quiet(plan: &CodedPlane, number: u8) -> bool
    ensures { OnTrue result ((number ≡ 0) × ((coded plan.now.weights.shifts plan.now.plane 0 && nat_lt plan.now.plane plan.now.q) ≡ false)) }
{
    number == 0 && !is_dc_bit_due(plan)
}

#[inline(always)]
fn put_dc_bit<O: OctetOut>(
    out: &mut BitOut<O>,
    segment: &SegmentMasks,
    r: usize,
    plan: &CodedPlane,
) -> Result<(), PutFault>
    requires open { IsReady O.sink out.old }
    requires block { 64 * r < length segment.now.numbers }
    ensures { (book : BookValue) (gaggle : GaggleValue) → Spells O.sink book gaggle gaggle result (sink_state O.sink out.old) (sink_state O.sink out.new)
        (dc_bits (block_at segment.now.numbers r) plan.now.weights.shifts plan.now.plane plan.now.q) }
{
    if !is_dc_bit_due(plan) {
        return Ok(());
    }
    out.put(twos_bit_at(segment.dcs()[r], plan.plane))
}

// Puts the words of a list.
#[inline(always)]
pub(crate) fn put_words<O: OctetOut, const MOST: usize>(
    out: &mut BitOut<O>,
    pending: &mut PendingBits,
    option_codes: &OptionCodes,
    words: &Words<MOST>,
) -> Result<(), PutFault>
    requires open { IsReady O.sink out.old }
    requires same { option_codes.now.options ≡ pending.old.gaggle.options }
    requires silent { pending.old.count ≡ 0 }
    ensures spells { Spells O.sink option_codes.now.tables.now.book pending.old.gaggle pending.new.gaggle result (sink_state O.sink out.old)
        (sink_state O.sink out.new) (listed words.now) }
    ensures silent { pending.new.count ≡ 0 }
{
    for i in 0..words.count() {
        if !pending.has_room() {
            pending.put(out)?;
        }
        pending.typed(option_codes, words.at(i));
    }
    pending.put(out)
}

#[inline(always)]
fn put_refinement<O: OctetOut>(
    out: &mut BitOut<O>,
    pending: &mut PendingBits,
    plane_masks: &PlaneMasks,
) -> Result<(), PutFault>
    requires open { IsReady O.sink out.old }
    requires silent { pending.old.count ≡ 0 }
    ensures spells { (book : BookValue) → Spells O.sink book pending.old.gaggle pending.new.gaggle result (sink_state O.sink out.old)
        (sink_state O.sink out.new)
        (refinement (block_in plane_masks.now) plane_masks.now.plan.now.weights.shifts plane_masks.now.plan.now.plane) }
    ensures silent { pending.new.count ≡ 0 }
{
    let refined = plane_masks.refined();
    if !is_any_of(refined, 1, 63) {
        return Ok(());
    }
    let fours = plane_masks.refined_fours();
    let paired = Refined {
        mask: refined,
        fours,
    };
    pending.raws(plane_masks.refinement(refined, 1, 3));
    push_refinement(pending, plane_masks, &paired, 1, 4);
    push_refinement(pending, plane_masks, &paired, 4, 8);
    pending.put(out)?;
    push_refinement(pending, plane_masks, &paired, 8, 12);
    push_refinement(pending, plane_masks, &paired, 12, 16);
    pending.put(out)
}

// Puts the stage of this number of block r, which has this depth: the first or the last, in which no words are sent. The
// number is known to the compiler, so each stage has code of its own.
#[inline(always)]
pub(crate) fn put_block_stage<O: OctetOut, const STAGE: u8>(
    out: &mut BitOut<O>,
    pending: &mut PendingBits,
    view: &View,
    depth: u8,
    r: usize,
) -> Result<(), PutFault>
    requires open { IsReady O.sink out.old }
    requires stage { HasNoWords STAGE }
    requires block { 64 * r < length view.now.segment.now.numbers }
    requires silent { pending.old.count ≡ 0 }
    ensures spells { (book : BookValue) → Spells O.sink book pending.old.gaggle pending.new.gaggle result (sink_state O.sink out.old)
        (sink_state O.sink out.new)
        (block_entries (stage_number STAGE) (block_at view.now.segment.now.numbers r) depth view.now.plan.now.weights.shifts view.now.plan.now.plane
        view.now.plan.now.q) }
    ensures silent { pending.new.count ≡ 0 }
{
    if STAGE == 0 {
        return put_dc_bit(out, view.segment, r, view.plan);
    }
    if depth <= view.plan.plane {
        return Ok(());
    }
    put_refinement(out, pending, &view.plane_masks(r))
}
