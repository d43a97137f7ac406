// The reader of the types of numbers with their signs, one item after another.

ghost use Rattle.std.specs.Prelude.{◌≡◌, ◌≤◌, ◌<◌, ◌+◌, ◌^◌, ℕ, Bool, true};
ghost use Rattle.bit_pipe.specs.SourceState.{source_state, IsIn};
ghost use Rattle.block_masks.specs.Gaggles.{AreOptions};
ghost use Rattle.block_masks.specs.Masks.{Shows};
ghost use Rattle.plane_defs.specs.Spans.{span};
ghost use Rattle.plane_defs.specs.States.{State};
ghost use Rattle.plane_defs.specs.WordScripts.{types_script};
ghost use Rattle.plane_reader.specs.Takes.{IsState, TakesState};

use crate::found::Found;
use crate::signs::take_signs;
use crate::word::take_due;
use bit_pipe::{BitIn, OctetIn, TextFault};
use block_masks::Gaggle;
use word_codes::WordTables;

// A group of positions whose types are one word, of which at least one must be 1 if `is_wanted` is set.
#[derive(Clone, Copy)]
pub(crate) struct Group {
    pub start: u8,
    pub count: u8,
    pub is_wanted: bool,
}

// Reads the types of a group's due positions, and the signs of those that are 1.
#[inline(never)]
pub(crate) fn take_types<I: OctetIn>(
    input: &mut BitIn<I>,
    tables: &WordTables,
    gaggle: &mut Gaggle,
    found: &mut Found,
    due: u64,
    group: Group,
) -> Result<Option<()>, TextFault>
    requires open { IsIn (source_state input.old) }
    requires known { AreOptions gaggle.old.options }
    requires start { group.start ≤ 60 }
    requires few { group.count ≤ 4 }
    requires due { due < 2 ^ group.count }
    requires some { group.is_wanted ≡ true → 0 < due }
    ensures types { (s : State) (g : ℕ → Bool) → IsState gaggle.old found.old s → Shows due g group.start group.count →
        TakesState I.source (types_script tables.now.book g group.is_wanted (span group.start group.count) s) result gaggle.new found.new
        (source_state input.old)
        (source_state input.new) }
    ensures raw { found.new.raw ≡ found.old.raw }
    ensures options { AreOptions gaggle.new.options }
    ensures is_in { IsIn (source_state input.new) }
{
    let Some(new) = take_due(input, tables, gaggle, due)? else {
        return Ok(None);
    };
    if group.is_wanted && new == 0 {
        return Err(TextFault::FalseFlag);
    }
    found.add_bits(new, group.start);
    take_signs(input, found, new, group.start, group.count)
}
