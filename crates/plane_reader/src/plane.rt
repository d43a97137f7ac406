// The reader of a plane, stage by stage and gaggle by gaggle.

ghost use Rattle.std.specs.Prelude.{◌≡◌, ◌≤◌, ◌<◌, ◌+◌, ◌-◌, ◌*◌, ◌%◌, ◌^◌, ℕ, ℤ, List, [], length, nat_lt, min};
ghost use Rattle.bit_pipe.specs.SourceState.{source_state, IsIn};
ghost use Rattle.block_masks.specs.Gaggles.{AreKnown};
ghost use Rattle.block_masks.specs.Masks.{Shows};
ghost use Rattle.block_masks.specs.Slices.{IsColumn, numbers_in};
ghost use Rattle.item_defs.specs.Scripts.{around, in_turn};
ghost use Rattle.bit_pipe.specs.ScriptSources.{ReadsAs, by_part};
ghost use Rattle.plane_defs.specs.Marks.{depths_of};
ghost use Rattle.plane_defs.specs.PlaneScript.{PlaneState, nothing_yet, blocks_script, plane_script, blocks_with};
ghost use Rattle.plane_reader.specs.Above.{AreReady, AwaitDcs};
ghost use Rattle.plane_reader.specs.Blocks.{terms_of, OnWhole};
ghost use Rattle.plane_reader.specs.Gaggles.{AreDeep, AreAbove, HaveRead, KeepSlots, TakesStage};
ghost use Rattle.plane_reader.specs.Joined.{AreBelow};
ghost use Rattle.plane_reader.specs.Planes.{Clears, ClearsRaw, KeepPlanes, TakesStages, TakesPlane};
ghost use Rattle.wave_defs.specs.Held.{blocks_in};
ghost use lib.ListN.{get_or};

use crate::dc_bits::take_dcs;
use crate::deep::deep_blocks;
use crate::gaggles::{Blocks, Terms, take_gaggle};
use bit_pipe::{BitIn, OctetIn, Part, TextFault};
use block_masks::{Column, Gaggle, RAW, depth_of, mark_of, put_mask, settle_above};

// The number of blocks of a gaggle.
const GAGGLE: usize = 16;

// Clears each state: it keeps its depth, and nothing of a gaggle or of families.
fn clear(marks: &mut [i32])
    ensures { Clears marks.old marks.new }
{
    let none = Gaggle {
        options: [0; 3],
        sent: [false; 3],
    };
    for place in 0..marks.len() {
        marks[place] = mark_of(depth_of(marks[place]), none);
    }
}

// Clears the masks of raw bits.
fn clear_raw(cells: &mut [i32])
    requires whole { length cells.old % 64 ≡ 0 }
    ensures { ClearsRaw cells.old cells.new }
{
    let count = cells.len() / 64;
    for g in 0..count.div_ceil(GAGGLE) {
        let first = Column::of(cells, GAGGLE * g);
        for k in 0..(count - first.block).min(GAGGLE) {
            let column = first.further(cells, k);
            put_mask(cells, column, RAW, 0);
        }
    }
}

// Returns the blocks of gaggle g.
#[inline(always)]
fn gaggle_of(cells: &[i32], marks: &[i32], g: usize, plane: u8) -> Blocks
    requires whole { length cells.now ≡ 64 * length marks.now }
    requires within { 16 * g < length marks.now }
    requires low { plane < 27 }
    ensures column { IsColumn cells.now result.first }
    ensures block { result.first.block ≡ 16 * g }
    ensures count { result.count ≡ min (length marks.now - 16 * g) 16 }
    ensures deep { AreDeep plane (depths_of marks.now) result }
    ensures small { result.deep < 2 ^ result.count }
{
    let first = Column::of(cells, GAGGLE * g);
    let count = (marks.len() - first.block).min(GAGGLE) as u8;
    Blocks {
        first,
        count,
        deep: deep_blocks(marks, first.block, count, plane),
    }
}

// Reads stage 1, 2, 3 or 4 of all blocks, gaggle by gaggle. Each stage has a loop of its own, which is compiled for this stage alone.
fn take_gaggles<I: OctetIn, const STAGE: u8>(
    input: &mut BitIn<I>,
    terms: &Terms,
    cells: &mut [i32],
    marks: &mut [i32],
) -> Result<Part, TextFault>
    requires open { IsIn (source_state input.old) }
    requires some { 1 ≤ STAGE }
    requires stage { STAGE < 5 }
    requires known { AreKnown marks.old }
    requires whole { length cells.old ≡ 64 * length marks.old }
    ensures stage { (numbers : List (List ℤ)) (p : PlaneState) → AreAbove terms.now.plan.now.plane cells.old numbers →
        HaveRead terms.now.plan.now.plane cells.old marks.old numbers p →
        TakesStage I.source terms.now.plan.now.plane numbers (blocks_script (terms_of terms.now.plan.now terms.now.tables.now.words.book)
        (depths_of marks.old) numbers STAGE p) result cells.new marks.new (source_state input.old) (source_state input.new) }
    ensures keeps { KeepSlots terms.now.plan.now.plane cells.old cells.new }
    ensures known { OnWhole result (AreKnown marks.new) }
    ensures depths { depths_of marks.new ≡ depths_of marks.old }
    ensures is_in { IsIn (source_state input.new) }
{
    for g in 0..marks.len().div_ceil(GAGGLE) {
        let blocks = gaggle_of(cells, marks, g, terms.plan.plane);
        let Part::Whole = take_gaggle::<I, STAGE>(input, terms, blocks, cells, marks)? else {
            return Ok(Part::Ended);
        };
    }
    Ok(Part::Whole)
}

// Reads stage 1, 2, 3 or 4 of all blocks.
fn take_stage<I: OctetIn>(
    input: &mut BitIn<I>,
    terms: &Terms,
    number: u8,
    cells: &mut [i32],
    marks: &mut [i32],
) -> Result<Part, TextFault>
    requires open { IsIn (source_state input.old) }
    requires some { 1 ≤ number }
    requires number { number < 5 }
    requires known { AreKnown marks.old }
    requires whole { length cells.old ≡ 64 * length marks.old }
    ensures stage { (numbers : List (List ℤ)) (p : PlaneState) → AreAbove terms.now.plan.now.plane cells.old numbers →
        HaveRead terms.now.plan.now.plane cells.old marks.old numbers p →
        TakesStage I.source terms.now.plan.now.plane numbers (blocks_script (terms_of terms.now.plan.now terms.now.tables.now.words.book)
        (depths_of marks.old) numbers number p) result cells.new marks.new (source_state input.old) (source_state input.new) }
    ensures keeps { KeepSlots terms.now.plan.now.plane cells.old cells.new }
    ensures known { OnWhole result (AreKnown marks.new) }
    ensures depths { depths_of marks.new ≡ depths_of marks.old }
    ensures is_in { IsIn (source_state input.new) }
{
    match number {
        1 => take_gaggles::<I, 1>(input, terms, cells, marks),
        2 => take_gaggles::<I, 2>(input, terms, cells, marks),
        3 => take_gaggles::<I, 3>(input, terms, cells, marks),
        _ => take_gaggles::<I, 4>(input, terms, cells, marks),
    }
}

// Reads the stages of a plane up to the last one that is sent.
fn take_stages<I: OctetIn>(
    input: &mut BitIn<I>,
    terms: &Terms,
    last: u8,
    cells: &mut [i32],
    marks: &mut [i32],
) -> Result<Part, TextFault>
    requires open { IsIn (source_state input.old) }
    requires last { last ≤ 4 }
    requires whole { length cells.old ≡ 64 * length marks.old }
    requires ready { AreReady (terms.now.plan.now.plane + 1) cells.old }
    requires dcs { AwaitDcs (terms.now.plan.now.plane + 1) terms.now.plan.now.q (blocks_in (numbers_in cells.old)) }
    ensures stages { TakesStages I.source terms.now.plan.now.plane (blocks_in (numbers_in cells.old))
        (plane_script (terms_of terms.now.plan.now terms.now.tables.now.words.book) (depths_of marks.old) (blocks_in (numbers_in
        cells.old)) (last + 1)) result cells.new (source_state input.old) (source_state input.new) }
    ensures keeps { KeepPlanes terms.now.plan.now.plane cells.old cells.new }
    ensures depths { depths_of marks.new ≡ depths_of marks.old }
    ensures is_in { IsIn (source_state input.new) }
{
    clear(marks);
    clear_raw(cells);
    let Part::Whole = take_dcs(input, terms, cells)? else {
        return Ok(Part::Ended);
    };
    for number in 1..last + 1 {
        let Part::Whole = take_stage(input, terms, number, cells, marks)? else {
            return Ok(Part::Ended);
        };
    }
    Ok(Part::Whole)
}

// Reads a plane up to its last stage that is sent, and prepares the masks for the next lower plane.
pub(crate) fn take_plane<I: OctetIn>(
    input: &mut BitIn<I>,
    terms: &Terms,
    last: u8,
    cells: &mut [i32],
    marks: &mut [i32],
) -> Result<Part, TextFault>
    requires open { IsIn (source_state input.old) }
    requires last { last ≤ 4 }
    requires whole { length cells.old ≡ 64 * length marks.old }
    requires ready { AreReady (terms.now.plan.now.plane + 1) cells.old }
    requires dcs { AwaitDcs (terms.now.plan.now.plane + 1) terms.now.plan.now.q (blocks_in (numbers_in cells.old)) }
    ensures plane { TakesPlane I.source terms.now.plan.now.plane (blocks_in (numbers_in cells.old))
        (plane_script (terms_of terms.now.plan.now terms.now.tables.now.words.book) (depths_of marks.old) (blocks_in (numbers_in
        cells.old)) (last + 1)) result cells.new (source_state input.old) (source_state input.new) }
    ensures ready { AreReady terms.now.plan.now.plane cells.new }
    ensures dcs { AwaitDcs terms.now.plan.now.plane terms.now.plan.now.q (blocks_in (numbers_in cells.new)) }
    ensures below { (planes : ℕ) → terms.now.plan.now.plane < planes → AreBelow planes cells.old → AreBelow planes cells.new }
    ensures depths { depths_of marks.new ≡ depths_of marks.old }
    ensures size { length cells.new ≡ length cells.old }
    ensures is_in { IsIn (source_state input.new) }
{
    let read = take_stages(input, terms, last, cells, marks);
    settle_above(cells, terms.plan.plane);
    read
}
