// The reader of the stages of a block.

ghost use Rattle.std.specs.Prelude.{◌≡◌, ◌+◌, ◌%◌, ◌<◌, ◌≤◌, ◌||◌, ℕ, ℤ, List, length};
ghost use Rattle.item_defs.specs.Bits.{bit};
ghost use Rattle.bit_pipe.specs.SourceState.{source_state, IsIn};
ghost use Rattle.plane_defs.specs.Sets.{significant};
ghost use Rattle.plane_defs.specs.StepLaws.{IsAc};
ghost use Rattle.plane_defs.specs.Marks.{depth_of as depth_in};
ghost use Rattle.block_masks.specs.Gaggles.{families_in, options_in, sent_in};
ghost use Rattle.block_masks.specs.Masks.{Shows};
ghost use Rattle.block_masks.specs.Slices.{mask_in, above_slot, IsColumn};
ghost use Rattle.plane_defs.specs.States.{State};
ghost use Rattle.plane_defs.specs.StageScripts.{parents_script};
ghost use Rattle.plane_reader.specs.Takes.{AreIn, IsState, OnSome};
ghost use Rattle.plane_reader.specs.Held.{Holds, point};
ghost use Rattle.plane_reader.specs.HeldTakes.{IsReading, HeldState};
ghost use Rattle.plane_reader.specs.Blocks.{terms_of, IsAbove, KeepsMasks, HasRead, HeldStage, TakesBlock, OnWhole, part_from, stage_part};

use crate::apply::apply;
use crate::children::take_children;
use crate::found::Found;
use crate::grandchildren::{Seen, take_grandchildren};
use crate::reading::Reading;
use crate::refine::take_refinement;
use crate::types::Group;
use bit_pipe::{BitIn, OctetIn, Part, TextFault};
use block_masks::{ABOVE, CodedPlane, Column, either, except, families_of, mask_of, with_families};

// Reads the types of the parents, and their signs.
#[inline(always)]
fn take_parents<I: OctetIn>(
    input: &mut BitIn<I>,
    plan: &CodedPlane,
    reading: &mut Reading,
    above: u64,
) -> Result<Option<()>, TextFault>
    requires reading { IsReading I.source (source_state input.old) reading.old }
    ensures parents { (block : List ℤ) (s : State) → IsState reading.old.gaggle reading.old.found s → IsAbove above block plan.now.plane →
        HeldState I.source (parents_script (terms_of plan.now reading.old.tables.now.words.book) block s) result reading.new.gaggle reading.new.found
        (point (source_state input.old) reading.old.cursor) (point (source_state input.new) reading.new.cursor) }
    ensures tables { reading.new.tables ≡ reading.old.tables }
    ensures raw { reading.new.found.raw ≡ reading.old.found.raw }
    ensures reading { OnSome result (λ x. IsReading I.source (source_state input.new) reading.new) }
    ensures holds { Holds I.source (source_state input.new) reading.new.cursor }
    ensures is_in { IsIn (source_state input.new) }
{
    let group = Group {
        start: 1,
        count: 3,
        is_wanted: false,
    };
    reading.types(input, except(above, plan.coded), group)
}

// Reads what a block sends in stage 1, 3 or 4.
#[inline(always)]
fn take_numbers<I: OctetIn, const STAGE: u8>(
    input: &mut BitIn<I>,
    plan: &CodedPlane,
    reading: &mut Reading,
    seen: Seen,
) -> Result<Option<()>, TextFault>
    requires reading { IsReading I.source (source_state input.old) reading.old }
    requires some { 1 ≤ STAGE }
    requires stage { STAGE < 5 }
    requires other { STAGE ≡ 2 → ⊥ }
    ensures numbers { (block : List ℤ) (earlier s : State) → IsState reading.old.gaggle reading.old.found s → IsAbove seen.above block plan.now.plane →
        Shows seen.families earlier.families 0 3 →
        ((p : ℕ) → IsAc p → bit seen.now p ≡ (significant block (plan.now.plane + 1) p || earlier.bits p)) →
        HeldState I.source (part_from (terms_of plan.now reading.old.tables.now.words.book) STAGE block earlier s) result reading.new.gaggle reading.new.found
        (point (source_state input.old) reading.old.cursor) (point (source_state input.new) reading.new.cursor) }
    ensures tables { reading.new.tables ≡ reading.old.tables }
    ensures raw { (STAGE ≡ 4 → ⊥) → reading.new.found.raw ≡ reading.old.found.raw }
    ensures reading { OnSome result (λ x. IsReading I.source (source_state input.new) reading.new) }
    ensures holds { Holds I.source (source_state input.new) reading.new.cursor }
    ensures is_in { IsIn (source_state input.new) }
{
    match STAGE {
        1 => take_parents(input, plan, reading, seen.above),
        3 => take_grandchildren(input, plan, reading, seen),
        _ => take_refinement(input, plan, reading, seen.above),
    }
}

// Reads what a block sends in stage 1, 2, 3 or 4, and returns which families are significant then.
#[inline(always)]
fn take_words<I: OctetIn, const STAGE: u8>(
    input: &mut BitIn<I>,
    plan: &CodedPlane,
    reading: &mut Reading,
    seen: Seen,
) -> Result<Option<u64>, TextFault>
    requires reading { IsReading I.source (source_state input.old) reading.old }
    requires some { 1 ≤ STAGE }
    requires stage { STAGE < 5 }
    requires bits { reading.old.found.bits ≡ 0 }
    requires minus { reading.old.found.minus ≡ 0 }
    requires raw { reading.old.found.raw ≡ 0 }
    requires few { seen.families < 8 }
    ensures words { (block : List ℤ) (s : State) → AreIn reading.old.gaggle s.options → IsAbove seen.above block plan.now.plane →
        Shows seen.families s.families 0 3 →
        ((p : ℕ) → IsAc p → bit seen.now p ≡ (significant block (plan.now.plane + 1) p || s.bits p)) →
        HeldStage I.source (stage_part (terms_of plan.now reading.old.tables.now.words.book) STAGE block s) s result reading.new.gaggle reading.new.found
        (point (source_state input.old) reading.old.cursor) (point (source_state input.new) reading.new.cursor) }
    ensures small { OnSome result (λ families. families < 8) }
    ensures same { (STAGE ≡ 2 → ⊥) → OnSome result (λ families. families ≡ seen.families) }
    ensures tables { reading.new.tables ≡ reading.old.tables }
    ensures raw { (STAGE ≡ 4 → ⊥) → reading.new.found.raw ≡ reading.old.found.raw }
    ensures reading { OnSome result (λ x. IsReading I.source (source_state input.new) reading.new) }
    ensures holds { Holds I.source (source_state input.new) reading.new.cursor }
    ensures is_in { IsIn (source_state input.new) }
{
    if STAGE == 2 {
        return take_children(input, plan, reading, seen.above);
    }
    let Some(()) = take_numbers::<I, STAGE>(input, plan, reading, seen)? else {
        return Ok(None);
    };
    Ok(Some(seen.families))
}

// Returns the state of a block with the families that are significant after a stage, which only stage 2 changes.
#[inline(always)]
fn mark_after<const STAGE: u8>(mark: i32, families: u64) -> i32
    requires few { families < 8 }
    requires same { (STAGE ≡ 2 → ⊥) → families ≡ families_in mark }
    ensures families { families_in result ≡ families }
    ensures depth { depth_in result ≡ depth_in mark }
    ensures options { options_in result ≡ options_in mark }
    ensures sent { sent_in result ≡ sent_in mark }
{
    if STAGE == 2 {
        with_families(mark, families)
    } else {
        mark
    }
}

// A block: where its masks are, and its state, which has its families.
#[derive(Clone, Copy)]
pub(crate) struct Block {
    pub column: Column,
    pub mark: i32,
}

// Reads what a block sends in stage 1, 2, 3 or 4, and puts what it gives into the masks and the state of the block.
#[inline(always)]
pub(crate) fn take_block<I: OctetIn, const STAGE: u8>(
    input: &mut BitIn<I>,
    plan: &CodedPlane,
    reading: &mut Reading,
    block: &mut Block,
    cells: &mut [i32],
) -> Result<Part, TextFault>
    requires reading { IsReading I.source (source_state input.old) reading.old }
    requires some { 1 ≤ STAGE }
    requires stage { STAGE < 5 }
    requires whole { length cells.old % 64 ≡ 0 }
    requires column { IsColumn cells.old block.old.column }
    ensures block { (numbers : List ℤ) (s : State) → AreIn reading.old.gaggle s.options → IsAbove (mask_in
        cells.old block.old.column.block above_slot) numbers plan.now.plane →
        HasRead plan.now.plane block.old.column.block cells.old numbers s → Shows (families_in block.old.mark) s.families 0 3 →
        TakesBlock I.source plan.now.plane block.old.column.block numbers (stage_part
        (terms_of plan.now reading.old.tables.now.words.book) STAGE numbers s) result reading.new.gaggle block.new.mark cells.new
        (point (source_state input.old) reading.old.cursor) (point (source_state input.new) reading.new.cursor) }
    ensures keeps { KeepsMasks block.old.column.block plan.now.plane cells.old cells.new }
    ensures depth { depth_in block.new.mark ≡ depth_in block.old.mark }
    ensures options { options_in block.new.mark ≡ options_in block.old.mark }
    ensures sent { sent_in block.new.mark ≡ sent_in block.old.mark }
    ensures tables { reading.new.tables ≡ reading.old.tables }
    ensures reading { OnWhole result (IsReading I.source (source_state input.new) reading.new) }
    ensures holds { Holds I.source (source_state input.new) reading.new.cursor }
    ensures is_in { IsIn (source_state input.new) }
{
    let above = mask_of(cells, block.column, ABOVE);
    let seen = Seen {
        above,
        now: either(above, mask_of(cells, block.column, plan.plane)),
        families: families_of(block.mark),
    };
    reading.found = Found::NOTHING;
    let read = take_words::<I, STAGE>(input, plan, reading, seen);
    apply::<STAGE>(reading.found, plan.plane, cells, block.column);
    let Some(families) = read? else {
        return Ok(Part::Ended);
    };
    block.mark = mark_after::<STAGE>(block.mark, families);
    Ok(Part::Whole)
}
