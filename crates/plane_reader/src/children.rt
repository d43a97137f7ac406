// The children of a block: the flags of its families, and the types of those that are significant.

ghost use Rattle.std.specs.Prelude.{◌≡◌, ◌<◌, ◌&&◌, not, true, false, ℕ, ℤ, List};
ghost use Rattle.bit_pipe.specs.SourceState.{source_state, IsIn};
ghost use Rattle.plane_defs.specs.States.{State};
ghost use Rattle.plane_defs.specs.StageScripts.{children_script};
ghost use Rattle.plane_reader.specs.Takes.{IsState, OnSome};
ghost use Rattle.plane_reader.specs.Held.{Holds, point};
ghost use Rattle.plane_reader.specs.HeldTakes.{IsReading, HeldSetFlag, HeldFamilies};
ghost use Rattle.plane_reader.specs.Blocks.{terms_of, IsAbove};

use crate::groups::{Groups, take_groups};
use crate::reading::Reading;
use bit_pipe::{BitIn, OctetIn, TextFault};
use block_masks::{CodedPlane, Sets, either, except, masked};

// Returns whether all descendants are significant: their flag, if it is due.
#[inline(always)]
fn take_descendants<I: OctetIn>(
    input: &mut BitIn<I>,
    reading: &mut Reading,
    is_live: bool,
    was: bool,
) -> Result<Option<bool>, TextFault>
    requires reading { IsReading I.source (source_state input.old) reading.old }
    ensures flag { HeldSetFlag I.source is_live was result (point (source_state input.old) reading.old.cursor)
        (point (source_state input.new) reading.new.cursor) }
    ensures live { OnSome result (λ all. all ≡ true → was ≡ false → is_live ≡ true) }
    ensures gaggle { reading.new.gaggle ≡ reading.old.gaggle }
    ensures tables { reading.new.tables ≡ reading.old.tables }
    ensures found { reading.new.found ≡ reading.old.found }
    ensures reading { OnSome result (λ x. IsReading I.source (source_state input.new) reading.new) }
    ensures holds { Holds I.source (source_state input.new) reading.new.cursor }
    ensures is_in { IsIn (source_state input.new) }
{
    if was || !is_live {
        return Ok(Some(was));
    }
    reading.flag(input)
}

// Returns whether a set is significant in the plane and was not above it.
#[inline]
fn is_new(now: bool, was: bool) -> bool
    ensures { result ≡ (now && not was) }
{
    now && !was
}

// Reads what a block sends of its children, and returns which families are significant.
#[inline(always)]
pub(crate) fn take_children<I: OctetIn>(
    input: &mut BitIn<I>,
    plan: &CodedPlane,
    reading: &mut Reading,
    above: u64,
) -> Result<Option<u64>, TextFault>
    requires reading { IsReading I.source (source_state input.old) reading.old }
    ensures children { (block : List ℤ) (s : State) → IsState reading.old.gaggle reading.old.found s → IsAbove above block plan.now.plane →
        HeldFamilies I.source (children_script (terms_of plan.now reading.old.tables.now.words.book) block s) result reading.new.gaggle reading.new.found
        (point (source_state input.old) reading.old.cursor) (point (source_state input.new) reading.new.cursor) }
    ensures small { OnSome result (λ families. families < 8) }
    ensures tables { reading.new.tables ≡ reading.old.tables }
    ensures raw { reading.new.found.raw ≡ reading.old.found.raw }
    ensures reading { OnSome result (λ x. IsReading I.source (source_state input.new) reading.new) }
    ensures holds { Holds I.source (source_state input.new) reading.new.cursor }
    ensures is_in { IsIn (source_state input.new) }
{
    let before = Sets::of(above);
    let Some(all) = take_descendants(input, reading, plan.live.descendants, before.descendants)?
    else {
        return Ok(None);
    };
    let due = masked(except(before.families, plan.live.families), all);
    let is_wanted = is_new(all, before.descendants);
    let Some(new) = reading.some_places(input, due, is_wanted)? else {
        return Ok(None);
    };
    let families = either(before.families, new);
    let groups = Groups {
        first: 4,
        count: 3,
        now: families,
        wanted: except(plan.live.grandchildren, new),
    };
    let types = except(above, plan.coded);
    let Some(()) = take_groups(input, reading, types, groups)? else {
        return Ok(None);
    };
    Ok(Some(families))
}
