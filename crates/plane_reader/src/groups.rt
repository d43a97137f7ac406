// Groups of four positions, one after another.

ghost use Rattle.std.specs.Prelude.{◌≡◌, ◌≤◌, ◌<◌, ◌+◌, ◌*◌, ◌^◌, ℕ, Bool, true};
ghost use Rattle.std.specs.List.{list_any};
ghost use Rattle.item_defs.specs.Bits.{bit};
ghost use Rattle.plane_defs.specs.Spans.{span};
ghost use Rattle.bit_pipe.specs.SourceState.{source_state, IsIn};
ghost use Rattle.block_masks.specs.Masks.{Shows};
ghost use Rattle.item_defs.specs.Scripts.{in_turn};
ghost use Rattle.plane_defs.specs.States.{State};
ghost use Rattle.plane_defs.specs.WordScripts.{group_script};
ghost use Rattle.plane_reader.specs.Groups.{Covers};
ghost use Rattle.plane_reader.specs.Takes.{IsState, Marks, OnSome};
ghost use Rattle.plane_reader.specs.Held.{Holds, point};
ghost use Rattle.plane_reader.specs.HeldTakes.{IsReading, HeldState};

use crate::reading::Reading;
use crate::types::Group;
use bit_pipe::{BitIn, OctetIn, TextFault};
use block_masks::{both, either, first_in, fours_of, has, without};

// Groups of four positions from `first` on: the groups whose types are sent, and those in which at least one type must be 1.
#[derive(Clone, Copy)]
pub(crate) struct Groups {
    pub first: u8,
    pub count: u8,
    pub now: u64,
    pub wanted: u64,
}

// Returns the groups that have bits: those of which a type is due, and those that must have a type of 1.
#[inline(always)]
fn groups_with_bits(due: u64, groups: Groups) -> u64
    requires first { groups.first < 64 }
    requires count { groups.count ≤ 4 }
    requires few { groups.now < 2 ^ groups.count }
    ensures few { result < 2 ^ groups.count }
    ensures covers { (now wanted : ℕ → Bool) → Shows groups.now now 0 groups.count → Shows groups.wanted wanted 0 groups.count →
        Covers groups.first groups.count now wanted due result }
{
    let some_due = fours_of(due, groups.first);
    both(groups.now, either(some_due, groups.wanted))
}

// Reads the types of these groups, of which these are due, and their signs, one group after another.
#[inline(always)]
pub(crate) fn take_groups<I: OctetIn>(
    input: &mut BitIn<I>,
    reading: &mut Reading,
    due: u64,
    groups: Groups,
) -> Result<Option<()>, TextFault>
    requires reading { IsReading I.source (source_state input.old) reading.old }
    requires first { groups.first < 64 }
    requires count { groups.count ≤ 4 }
    requires within { groups.first + 4 * groups.count ≤ 64 }
    requires few { groups.now < 2 ^ groups.count }
    requires some { (j : ℕ) → j < groups.count → bit groups.wanted j ≡ true → list_any (bit due) (span (groups.first + 4 * j) 4) ≡ true }
    ensures groups { (s : State) (g now wanted : ℕ → Bool) → IsState reading.old.gaggle reading.old.found s → Marks due g groups.first (4 * groups.count) →
        Shows groups.now now 0 groups.count → Shows groups.wanted wanted 0 groups.count →
        HeldState I.source (in_turn (group_script reading.old.tables.now.words.book g groups.first now wanted) 0 groups.count s) result reading.new.gaggle
        reading.new.found
        (point (source_state input.old) reading.old.cursor) (point (source_state input.new) reading.new.cursor) }
    ensures tables { reading.new.tables ≡ reading.old.tables }
    ensures raw { reading.new.found.raw ≡ reading.old.found.raw }
    ensures reading { OnSome result (λ x. IsReading I.source (source_state input.new) reading.new) }
    ensures holds { Holds I.source (source_state input.new) reading.new.cursor }
    ensures is_in { IsIn (source_state input.new) }
{
    let sent = groups_with_bits(due, groups);
    let mut left = sent;
    while left != 0 {
        let j = first_in(left);
        let group = Group {
            start: groups.first + 4 * j,
            count: 4,
            is_wanted: has(groups.wanted, j),
        };
        let Some(()) = reading.types(input, due, group)? else {
            return Ok(None);
        };
        left = without(left, j);
    }
    Ok(Some(()))
}
