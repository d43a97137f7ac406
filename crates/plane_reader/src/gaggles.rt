// The reader of a stage of a gaggle, with a window that is held.

ghost use Rattle.std.specs.Prelude.{◌≡◌, ◌≤◌, ◌<◌, ◌+◌, ◌*◌, ◌/◌, ◌%◌, ◌^◌, ℕ, ℤ, List, length};
ghost use Rattle.bit_pipe.specs.SourceState.{source_state, IsIn};
ghost use Rattle.block_masks.specs.Slices.{IsColumn};
ghost use Rattle.plane_defs.specs.PlaneScript.{PlaneState};
ghost use Rattle.plane_reader.specs.Takes.{AreIn};
ghost use Rattle.plane_reader.specs.Held.{Holds, point};
ghost use Rattle.plane_reader.specs.HeldTakes.{IsReading};
ghost use Rattle.plane_reader.specs.Blocks.{terms_of, OnWhole};
ghost use Rattle.plane_reader.specs.Gaggles.{AreDeep, AreAbove, HavePlane, HaveFamilies, KeepSlots, KeepStates, gaggle_at, gaggle_script, TakesBlocks};
ghost use Rattle.plane_reader.specs.Gaggles.{TakesGaggle};
ghost use Rattle.block_masks.specs.Gaggles.{AreOptions, options_at, sent_at};
ghost use Rattle.plane_defs.specs.Marks.{depths_of};

use crate::places::PlaceTables;
use crate::reading::Reading;
use crate::stages::{Block, take_block};
use bit_pipe::{BitIn, OctetIn, Part, TextFault};
use block_masks::{CodedPlane, Column, first_in, load, store, without};

// The blocks of a gaggle: the first, their number, at most 16, and those that are deep enough to have bits of the plane, of which bit k is
// for the k-th.
#[derive(Clone, Copy)]
pub(crate) struct Blocks {
    pub first: Column,
    pub count: u8,
    pub deep: u64,
}

// The blocks of a gaggle, and the plane in which they are read.
#[derive(Clone, Copy)]
struct Planned<'a> {
    plan: &'a CodedPlane,
    blocks: Blocks,
}

// Reads what the blocks of a gaggle send in stage 1, 2, 3 or 4.
fn take_blocks<I: OctetIn, const STAGE: u8>(
    input: &mut BitIn<I>,
    of: &Planned,
    reading: &mut Reading,
    cells: &mut [i32],
    marks: &mut [i32],
) -> Result<Part, TextFault>
    requires reading { IsReading I.source (source_state input.old) reading.old }
    requires some { 1 ≤ STAGE }
    requires stage { STAGE < 5 }
    requires whole { length cells.old ≡ 64 * length marks.old }
    requires column { IsColumn cells.old of.now.blocks.first }
    requires gaggle { of.now.blocks.first.block % 16 ≡ 0 }
    requires count { of.now.blocks.count ≤ 16 }
    requires small { of.now.blocks.deep < 2 ^ of.now.blocks.count }
    requires within { of.now.blocks.first.block + of.now.blocks.count ≤ length marks.old }
    ensures blocks { (depths : List ℕ) (numbers : List (List ℤ)) (p : PlaneState) → AreDeep of.now.plan.now.plane depths of.now.blocks →
        AreAbove of.now.plan.now.plane cells.old numbers → HavePlane of.now.plan.now.plane cells.old numbers p → HaveFamilies marks.old p →
        AreIn reading.old.gaggle (p.options (of.now.blocks.first.block / 16)) →
        TakesBlocks I.source of.now.plan.now.plane (of.now.blocks.first.block / 16) numbers p (gaggle_script
        (terms_of of.now.plan.now reading.old.tables.now.words.book) STAGE depths numbers of.now.blocks.first.block of.now.blocks.count p) result
        reading.new.gaggle cells.new marks.new
        (point (source_state input.old) reading.old.cursor) (point (source_state input.new) reading.new.cursor) }
    ensures states { KeepStates marks.old marks.new }
    ensures keeps { KeepSlots of.now.plan.now.plane cells.old cells.new }
    ensures tables { reading.new.tables ≡ reading.old.tables }
    ensures reading { OnWhole result (IsReading I.source (source_state input.new) reading.new) }
    ensures holds { Holds I.source (source_state input.new) reading.new.cursor }
    ensures is_in { IsIn (source_state input.new) }
{
    let mut left = of.blocks.deep;
    while left != 0 {
        let k = first_in(left);
        let column = of.blocks.first.further(cells, usize::from(k));
        let mut block = Block {
            column,
            mark: marks[column.block],
        };
        let read = take_block::<I, STAGE>(input, of.plan, reading, &mut block, cells);
        marks[column.block] = block.mark;
        let Part::Whole = read? else {
            return Ok(Part::Ended);
        };
        left = without(left, k);
    }
    Ok(Part::Whole)
}

// A plane, and the codes of its words.
#[derive(Clone, Copy)]
pub(crate) struct Terms<'a> {
    pub plan: &'a CodedPlane,
    pub tables: &'a PlaceTables,
}

// Reads stage 1, 2, 3 or 4 of a gaggle, and adds what was read to the masks of its blocks, after a fault too.
//
// The masks of the plane must have what was read of the blocks in it before. `marks` has the state of each block: its families that are
// significant in the plane, and in that of a gaggle's first block the options that were read in this gaggle and plane.
pub(crate) fn take_gaggle<I: OctetIn, const STAGE: u8>(
    input: &mut BitIn<I>,
    terms: &Terms,
    blocks: Blocks,
    cells: &mut [i32],
    marks: &mut [i32],
) -> Result<Part, TextFault>
    requires open { IsIn (source_state input.old) }
    requires some { 1 ≤ STAGE }
    requires stage { STAGE < 5 }
    requires known { AreOptions (options_at marks.old (blocks.first.block / 16)) }
    requires whole { length cells.old ≡ 64 * length marks.old }
    requires column { IsColumn cells.old blocks.first }
    requires gaggle { blocks.first.block % 16 ≡ 0 }
    requires count { blocks.count ≤ 16 }
    requires small { blocks.deep < 2 ^ blocks.count }
    requires within { blocks.first.block + blocks.count ≤ length marks.old }
    ensures blocks { (depths : List ℕ) (numbers : List (List ℤ)) (p : PlaneState) → AreDeep terms.now.plan.now.plane depths blocks →
        AreAbove terms.now.plan.now.plane cells.old numbers → HavePlane terms.now.plan.now.plane cells.old numbers p → HaveFamilies marks.old p →
        AreIn (gaggle_at marks.old (blocks.first.block / 16)) (p.options (blocks.first.block / 16)) →
        TakesGaggle I.source terms.now.plan.now.plane (blocks.first.block / 16) numbers p (gaggle_script
        (terms_of terms.now.plan.now terms.now.tables.now.words.book) STAGE depths numbers blocks.first.block blocks.count p) result cells.new marks.new
        (source_state input.old) (source_state input.new) }
    ensures keeps { KeepSlots terms.now.plan.now.plane cells.old cells.new }
    ensures options { OnWhole result (AreOptions (options_at marks.new (blocks.first.block / 16))) }
    ensures others { (g : ℕ) → (g ≡ blocks.first.block / 16 → ⊥) → (options_at marks.new g ≡ options_at marks.old g) ×
        (sent_at marks.new g ≡ sent_at marks.old g) }
    ensures depths { depths_of marks.new ≡ depths_of marks.old }
    ensures is_in { IsIn (source_state input.new) }
{
    let g = blocks.first.block / 16;
    let mut reading = Reading::open(input, terms.tables, load(marks, g));
    let of = Planned {
        plan: terms.plan,
        blocks,
    };
    let read = take_blocks::<I, STAGE>(input, &of, &mut reading, cells, marks);
    reading.close(input);
    let Part::Whole = read? else {
        return Ok(Part::Ended);
    };
    store(marks, g, reading.gaggle);
    Ok(Part::Whole)
}
