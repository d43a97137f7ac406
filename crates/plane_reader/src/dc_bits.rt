// Stage 0 of a plane: the bits of the DC numbers.

ghost use Rattle.std.specs.Prelude.{◌≡◌, ◌<◌, ◌+◌, ◌*◌, ◌/◌, ◌%◌, ◌&&◌, ℕ, ℤ, pos, List, [], length, nat_lt, true};
ghost use Rattle.bit_pipe.specs.SourceState.{source_state, IsIn};
ghost use Rattle.block_masks.specs.Slices.{IsColumn};
ghost use Rattle.plane_defs.specs.Sets.{coded};
ghost use Rattle.plane_defs.specs.PlaneScript.{nothing_yet, blocks_script};
ghost use Rattle.plane_reader.specs.Above.{AwaitDcs, HasNoneBelow};
ghost use Rattle.plane_reader.specs.Held.{Holds, point};
ghost use Rattle.plane_reader.specs.HeldTakes.{IsReading};
ghost use Rattle.plane_reader.specs.Blocks.{terms_of};
ghost use Rattle.plane_reader.specs.Gaggles.{HaveRead, TakesStage};
ghost use Rattle.plane_reader.specs.Planes.{AddsDc, GivesDc, KeepOthers, HeldDcs, dc_item};
ghost use Rattle.item_defs.specs.Scripts.{in_turn};
ghost use lib.ListN.{get_or};

use crate::gaggles::Terms;
use crate::reading::Reading;
use bit_pipe::{BitIn, OctetIn, Part, TextFault};
use block_masks::{CodedPlane, Column, DC, Gaggle, RAW, has, mask_of, put_mask};

// Returns whether the plane's bit of the DC was not in the DC part and can be other than 0.
#[inline]
fn is_due(plan: &CodedPlane) -> bool
    ensures { result ≡ (coded plan.now.weights.shifts plan.now.plane 0 && nat_lt plan.now.plane plan.now.q) }
{
    has(plan.coded, 0) && plan.plane < plan.q
}

// Adds the plane's bit, 1 or 0, to the DC of a block. There is no branch: a raw bit is as often 1 as 0.
#[inline(always)]
pub(crate) fn add_dc(is_one: bool, plane: u8, cells: &mut [i32], column: Column)
    requires whole { length cells.old % 64 ≡ 0 }
    requires column { IsColumn cells.old column }
    requires low { plane < 27 }
    ensures { AddsDc plane column.block is_one cells.old cells.new }
{
    let dc = (mask_of(cells, column, DC) % 0x1_0000_0000) as u32;
    let sum = dc.wrapping_add(u32::from(is_one) << plane);
    put_mask(cells, column, DC, u64::from(sum));
}

// Puts the plane's bit of a block's DC, a raw bit.
#[inline(always)]
fn give_dc(is_one: bool, plane: u8, cells: &mut [i32], column: Column)
    requires whole { length cells.old % 64 ≡ 0 }
    requires column { IsColumn cells.old column }
    requires low { plane < 27 }
    ensures { GivesDc plane column.block is_one cells.old cells.new }
{
    put_mask(cells, column, RAW, 1);
    add_dc(is_one, plane, cells, column);
}

// Reads the plane's bit of each block's DC.
fn take_bits<I: OctetIn>(
    input: &mut BitIn<I>,
    plane: u8,
    reading: &mut Reading,
    cells: &mut [i32],
) -> Result<Part, TextFault>
    requires reading { IsReading I.source (source_state input.old) reading.old }
    requires whole { length cells.old % 64 ≡ 0 }
    requires low { plane < 27 }
    ensures bits { (numbers : List (List ℤ)) (marks : List ℤ) → length cells.old ≡ 64 * length numbers → ((r : ℕ) → r < length numbers →
        HasNoneBelow (plane + 1) (get_or (get_or numbers r []) 0 (pos 0))) →
        HaveRead plane cells.old marks numbers nothing_yet →
        HeldDcs I.source plane numbers (in_turn (dc_item true) 0 (length numbers) nothing_yet) result cells.new marks (point
        (source_state input.old) reading.old.cursor) (point (source_state input.new) reading.new.cursor) }
    ensures keeps { KeepOthers cells.old cells.new }
    ensures holds { Holds I.source (source_state input.new) reading.new.cursor }
    ensures is_in { IsIn (source_state input.new) }
{
    for r in 0..cells.len() / 64 {
        let Some(bit) = reading.flag(input)? else {
            return Ok(Part::Ended);
        };
        let column = Column::of(cells, r);
        give_dc(bit, plane, cells, column);
    }
    Ok(Part::Whole)
}

// No option is known.
const NONE: Gaggle = Gaggle {
    options: [0; 3],
    sent: [false; 3],
};

// Reads stage 0 of a plane, of which nothing was read yet: the bit of each block's DC, if it is due.
pub(crate) fn take_dcs<I: OctetIn>(
    input: &mut BitIn<I>,
    terms: &Terms,
    cells: &mut [i32],
) -> Result<Part, TextFault>
    requires open { IsIn (source_state input.old) }
    requires whole { length cells.old % 64 ≡ 0 }
    ensures stage { (depths : List ℕ) (numbers : List (List ℤ)) (marks : List ℤ) → length depths ≡ length numbers → length cells.old ≡ 64 * length numbers →
        AwaitDcs (terms.now.plan.now.plane + 1) terms.now.plan.now.q numbers →
        HaveRead terms.now.plan.now.plane cells.old marks numbers nothing_yet →
        TakesStage I.source terms.now.plan.now.plane numbers (blocks_script
        (terms_of terms.now.plan.now terms.now.tables.now.words.book) depths numbers 0 nothing_yet) result cells.new marks (source_state input.old)
        (source_state input.new) }
    ensures keeps { KeepOthers cells.old cells.new }
    ensures is_in { IsIn (source_state input.new) }
{
    if !is_due(terms.plan) {
        return Ok(Part::Whole);
    }
    let mut reading = Reading::open(input, terms.tables, NONE);
    let read = take_bits(input, terms.plan.plane, &mut reading, cells);
    reading.close(input);
    read
}
