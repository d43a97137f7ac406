// The grandchildren of a block: the flags of its sets of sixteen, and for each of these that is significant the flags of its sets
// of four and the types of those that are.

ghost use Rattle.std.specs.Prelude.{◌≡◌, ◌<◌, ◌+◌, ◌||◌, not, true, ℕ, ℤ, Bool, List};
ghost use Rattle.std.specs.List.{list_any};
ghost use Rattle.item_defs.specs.Bits.{bit};
ghost use Rattle.plane_defs.specs.Spans.{span};
ghost use Rattle.plane_defs.specs.declared.sets.Set.TheVariants.{Grandchildren};
ghost use Rattle.plane_defs.specs.Sets.{coded, significant, children_of};
ghost use Rattle.plane_defs.specs.StepLaws.{IsAc};
ghost use Rattle.block_masks.specs.Masks.{Shows};
ghost use Rattle.bit_pipe.specs.SourceState.{source_state, IsIn};
ghost use Rattle.item_defs.specs.Scripts.{in_turn};
ghost use Rattle.plane_defs.specs.States.{State};
ghost use Rattle.plane_defs.specs.StageScripts.{quads_script};
ghost use Rattle.plane_reader.specs.Takes.{IsState, OnSome};
ghost use Rattle.plane_reader.specs.Held.{Holds, point};
ghost use Rattle.plane_reader.specs.HeldTakes.{IsReading, HeldState};
ghost use Rattle.plane_reader.specs.Blocks.{terms_of, IsAbove};
ghost use Rattle.plane_reader.specs.Grandchildren.{MayBeNew, sixteen_script, grandchildren_from};

use crate::groups::{Groups, take_groups};
use crate::reading::Reading;
use bit_pipe::{BitIn, OctetIn, TextFault};
use block_masks::{
    CodedPlane, Sets, both, either, except, first_in, has, is_any_of, part, quads_of, three,
    without,
};

// A significant set of sixteen grandchildren in a family: it is new in the plane, or was significant above it.
#[derive(Clone, Copy)]
struct Sixteen {
    family: u8,
    is_new: bool,
}

// Reads what a significant set of sixteen grandchildren sends.
#[inline(always)]
fn take_quads<I: OctetIn>(
    input: &mut BitIn<I>,
    plan: &CodedPlane,
    reading: &mut Reading,
    above: u64,
    set: Sixteen,
) -> Result<Option<()>, TextFault>
    requires reading { IsReading I.source (source_state input.old) reading.old }
    requires family { set.family < 3 }
    requires new { set.is_new ≡ true → MayBeNew above (coded plan.now.weights.shifts plan.now.plane) (Grandchildren set.family) }
    ensures quads { (block : List ℤ) (s : State) → IsState reading.old.gaggle reading.old.found s → IsAbove above block plan.now.plane →
        HeldState I.source (quads_script (terms_of plan.now reading.old.tables.now.words.book) block set.family set.is_new s) result reading.new.gaggle
        reading.new.found
        (point (source_state input.old) reading.old.cursor) (point (source_state input.new) reading.new.cursor) }
    ensures tables { reading.new.tables ≡ reading.old.tables }
    ensures raw { reading.new.found.raw ≡ reading.old.found.raw }
    ensures reading { OnSome result (λ x. IsReading I.source (source_state input.new) reading.new) }
    ensures holds { Holds I.source (source_state input.new) reading.new.cursor }
    ensures is_in { IsIn (source_state input.new) }
{
    let before = quads_of(above, set.family);
    let due = except(before, plan.live_quads[set.family as usize]);
    let Some(new) = reading.some_places(input, due, set.is_new)? else {
        return Ok(None);
    };
    let groups = Groups {
        first: 16 + 16 * set.family,
        count: 4,
        now: either(before, new),
        wanted: new,
    };
    let types = except(above, plan.coded);
    take_groups(input, reading, types, groups)
}

// The sets of sixteen grandchildren that are significant, and those of them that are new in the plane: bit i is for family i.
#[derive(Clone, Copy)]
struct Sixteens {
    now: u64,
    new: u64,
}

// Reads what the significant sets of sixteen grandchildren send.
#[inline(always)]
fn take_sixteens<I: OctetIn>(
    input: &mut BitIn<I>,
    plan: &CodedPlane,
    reading: &mut Reading,
    above: u64,
    sets: Sixteens,
) -> Result<Option<()>, TextFault>
    requires reading { IsReading I.source (source_state input.old) reading.old }
    requires new { (i : ℕ) → i < 3 → bit sets.new i ≡ true → MayBeNew above (coded plan.now.weights.shifts plan.now.plane) (Grandchildren i) }
    ensures sixteens { (block : List ℤ) (s : State) (now new : ℕ → Bool) → IsState reading.old.gaggle reading.old.found s →
        IsAbove above block plan.now.plane → Shows sets.now now 0 3 → Shows sets.new new 0 3 →
        HeldState I.source (in_turn (sixteen_script (terms_of plan.now reading.old.tables.now.words.book) block now new) 0 3 s) result reading.new.gaggle
        reading.new.found
        (point (source_state input.old) reading.old.cursor) (point (source_state input.new) reading.new.cursor) }
    ensures tables { reading.new.tables ≡ reading.old.tables }
    ensures raw { reading.new.found.raw ≡ reading.old.found.raw }
    ensures reading { OnSome result (λ x. IsReading I.source (source_state input.new) reading.new) }
    ensures holds { Holds I.source (source_state input.new) reading.new.cursor }
    ensures is_in { IsIn (source_state input.new) }
{
    let sent = part(sets.now, 0, 3);
    let mut left = sent;
    while left != 0 {
        let i = first_in(left);
        let set = Sixteen {
            family: i,
            is_new: has(sets.new, i),
        };
        let Some(()) = take_quads(input, plan, reading, above, set)? else {
            return Ok(None);
        };
        left = without(left, i);
    }
    Ok(Some(()))
}

// Returns the families of which no child is in a mask of all positions.
#[inline]
fn without_child(mask: u64) -> u64
    ensures { Shows result (λ i. not (list_any (bit mask) (span (children_of i) 4))) 0 3 }
{
    three(
        !is_any_of(mask, 4, 4),
        !is_any_of(mask, 8, 4),
        !is_any_of(mask, 12, 4),
    )
}

// Which numbers and sets of a block are significant before stage 3: the AC numbers above the plane, the AC numbers in the plane as far as
// they were read, and the families in the plane.
#[derive(Clone, Copy)]
pub(crate) struct Seen {
    pub above: u64,
    pub now: u64,
    pub families: u64,
}

// Reads what a block sends of its grandchildren.
#[inline(always)]
pub(crate) fn take_grandchildren<I: OctetIn>(
    input: &mut BitIn<I>,
    plan: &CodedPlane,
    reading: &mut Reading,
    seen: Seen,
) -> Result<Option<()>, TextFault>
    requires reading { IsReading I.source (source_state input.old) reading.old }
    ensures grandchildren { (block : List ℤ) (earlier s : State) → IsState reading.old.gaggle reading.old.found s → IsAbove seen.above block plan.now.plane →
        Shows seen.families earlier.families 0 3 →
        ((p : ℕ) → IsAc p → bit seen.now p ≡ (significant block (plan.now.plane + 1) p || earlier.bits p)) →
        HeldState I.source (grandchildren_from (terms_of plan.now reading.old.tables.now.words.book) block earlier s) result reading.new.gaggle
        reading.new.found
        (point (source_state input.old) reading.old.cursor) (point (source_state input.new) reading.new.cursor) }
    ensures tables { reading.new.tables ≡ reading.old.tables }
    ensures raw { reading.new.found.raw ≡ reading.old.found.raw }
    ensures reading { OnSome result (λ x. IsReading I.source (source_state input.new) reading.new) }
    ensures holds { Holds I.source (source_state input.new) reading.new.cursor }
    ensures is_in { IsIn (source_state input.new) }
{
    let before = Sets::of(seen.above);
    let live = except(before.grandchildren, plan.live.grandchildren);
    let due = both(live, seen.families);
    let forced = both(
        except(before.families, seen.families),
        without_child(seen.now),
    );
    let Some(new) = reading.wanted_places(input, due, both(due, forced))? else {
        return Ok(None);
    };
    let sets = Sixteens {
        now: either(before.grandchildren, new),
        new,
    };
    take_sixteens(input, plan, reading, seen.above, sets)
}
