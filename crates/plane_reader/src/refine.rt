// The reader of the refinement bits of a block.

ghost use Rattle.std.specs.Prelude.{◌≡◌, ◌<◌, ◌≤◌, ◌+◌, ◌^◌, ℕ, ℤ, Bool, List};
ghost use Rattle.bit_pipe.specs.SourceState.{source_state, IsIn};
ghost use Rattle.block_masks.specs.Masks.{Shows};
ghost use Rattle.item_defs.specs.Scripts.{in_turn};
ghost use Rattle.plane_defs.specs.States.{State};
ghost use Rattle.plane_defs.specs.StageScripts.{refinement_script};
ghost use Rattle.plane_reader.specs.Takes.{IsState, OnSome};
ghost use Rattle.plane_reader.specs.Held.{Holds, point};
ghost use Rattle.plane_reader.specs.HeldTakes.{IsReading, HeldState, marked_script};
ghost use Rattle.plane_reader.specs.Blocks.{terms_of, IsAbove};

use crate::reading::{HALF, Reading};
use bit_pipe::{BitIn, OctetIn, TextFault};
use block_masks::{CodedPlane, both, first_in, one, part, without};

// Reads the plane's bit of each position of a mask of 32 from `start` on, one after another.
#[inline(never)]
fn take_bits<I: OctetIn>(
    input: &mut BitIn<I>,
    reading: &mut Reading,
    here: u64,
    start: u8,
) -> Result<Option<()>, TextFault>
    requires reading { IsReading I.source (source_state input.old) reading.old }
    requires start { start ≤ 32 }
    requires few { here < 2 ^ 32 }
    ensures bits { (s : State) (g : ℕ → Bool) → IsState reading.old.gaggle reading.old.found s → Shows here g start 32 →
        HeldState I.source (in_turn (marked_script g) start 32 s) result reading.new.gaggle reading.new.found
        (point (source_state input.old) reading.old.cursor) (point (source_state input.new) reading.new.cursor) }
    ensures tables { reading.new.tables ≡ reading.old.tables }
    ensures reading { OnSome result (λ x. IsReading I.source (source_state input.new) reading.new) }
    ensures holds { Holds I.source (source_state input.new) reading.new.cursor }
    ensures is_in { IsIn (source_state input.new) }
{
    let mut left = here;
    while left != 0 {
        let j = first_in(left);
        let Some(bit) = reading.flag(input)? else {
            return Ok(None);
        };
        reading.found.add_bits(one(bit), start + j);
        reading.found.add_raw(1, start + j);
        left = without(left, j);
    }
    Ok(Some(()))
}

// Reads the plane's bit of each position of a mask of all 64 that is one of the 32 from `start` on.
#[inline(always)]
fn take_half<I: OctetIn>(
    input: &mut BitIn<I>,
    reading: &mut Reading,
    positions: u64,
    start: u8,
) -> Result<Option<()>, TextFault>
    requires reading { IsReading I.source (source_state input.old) reading.old }
    requires start { start ≤ 32 }
    ensures bits { (s : State) (g : ℕ → Bool) → IsState reading.old.gaggle reading.old.found s → Shows positions g 0 64 →
        HeldState I.source (in_turn (marked_script g) start 32 s) result reading.new.gaggle reading.new.found
        (point (source_state input.old) reading.old.cursor) (point (source_state input.new) reading.new.cursor) }
    ensures tables { reading.new.tables ≡ reading.old.tables }
    ensures reading { OnSome result (λ x. IsReading I.source (source_state input.new) reading.new) }
    ensures holds { Holds I.source (source_state input.new) reading.new.cursor }
    ensures is_in { IsIn (source_state input.new) }
{
    let here = part(positions, start, HALF);
    if here == 0 {
        return Ok(Some(()));
    }
    if reading.deal(input, here, start) {
        return Ok(Some(()));
    }
    let mut singly = *reading;
    let read = take_bits(input, &mut singly, here, start);
    *reading = singly;
    read
}

// Reads the bits that refine the AC numbers that are significant above the plane.
#[inline(always)]
pub(crate) fn take_refinement<I: OctetIn>(
    input: &mut BitIn<I>,
    plan: &CodedPlane,
    reading: &mut Reading,
    above: u64,
) -> Result<Option<()>, TextFault>
    requires reading { IsReading I.source (source_state input.old) reading.old }
    ensures refinement { (block : List ℤ) (s : State) → IsState reading.old.gaggle reading.old.found s → IsAbove above block plan.now.plane →
        HeldState I.source (refinement_script (terms_of plan.now reading.old.tables.now.words.book) block s) result reading.new.gaggle reading.new.found
        (point (source_state input.old) reading.old.cursor) (point (source_state input.new) reading.new.cursor) }
    ensures tables { reading.new.tables ≡ reading.old.tables }
    ensures reading { OnSome result (λ x. IsReading I.source (source_state input.new) reading.new) }
    ensures holds { Holds I.source (source_state input.new) reading.new.cursor }
    ensures is_in { IsIn (source_state input.new) }
{
    let refined = without(both(above, plan.coded), 0);
    let Some(()) = take_half(input, reading, refined, 0)? else {
        return Ok(None);
    };
    take_half(input, reading, refined, HALF)
}
