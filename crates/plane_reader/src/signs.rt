// The reader of the signs of some positions.

ghost use Rattle.std.specs.Prelude.{◌≡◌, ◌<◌, ◌≤◌, ◌+◌, ◌^◌, ℕ, Bool};
ghost use Rattle.bit_pipe.specs.SourceState.{source_state, IsIn};
ghost use Rattle.plane_defs.specs.States.{State};
ghost use Rattle.block_masks.specs.Masks.{Shows};
ghost use Rattle.plane_reader.specs.Takes.{TakesSigns, positions};

use crate::found::Found;
use crate::word::{count_of, take_flag};
use bit_pipe::{BitIn, OctetIn, TextFault};
use block_masks::{first_in, one, spread, without};

// Reads the signs of some positions, one after another.
#[cold]
fn take_signs_singly<I: OctetIn>(
    input: &mut BitIn<I>,
    found: &mut Found,
    new: u64,
    start: u8,
    count: u8,
) -> Result<Option<()>, TextFault>
    requires open { IsIn (source_state input.old) }
    requires start { start < 64 }
    requires within { start + count ≤ 64 }
    requires few { new < 2 ^ count }
    ensures signs { (s : State) → Shows found.old.minus s.minus 0 64 →
        TakesSigns I.source (positions new start count) s result found.new.minus (source_state input.old) (source_state input.new) }
    ensures bits { found.new.bits ≡ found.old.bits }
    ensures raw { found.new.raw ≡ found.old.raw }
    ensures is_in { IsIn (source_state input.new) }
{
    let mut left = new;
    while left != 0 {
        let k = first_in(left);
        let Some(minus) = take_flag(input)? else {
            return Ok(None);
        };
        found.add_minus(one(minus), start + k);
        left = without(left, k);
    }
    Ok(Some(()))
}

// Reads the signs of at most four positions, all at once if a window has them.
#[inline(always)]
pub(crate) fn take_signs<I: OctetIn>(
    input: &mut BitIn<I>,
    found: &mut Found,
    new: u64,
    start: u8,
    count: u8,
) -> Result<Option<()>, TextFault>
    requires open { IsIn (source_state input.old) }
    requires start { start ≤ 60 }
    requires within { start + count ≤ 64 }
    requires four { count ≤ 4 }
    requires few { new < 2 ^ count }
    ensures signs { (s : State) → Shows found.old.minus s.minus 0 64 →
        TakesSigns I.source (positions new start count) s result found.new.minus (source_state input.old) (source_state input.new) }
    ensures bits { found.new.bits ≡ found.old.bits }
    ensures raw { found.new.raw ≡ found.old.raw }
    ensures is_in { IsIn (source_state input.new) }
{
    if new == 0 {
        return Ok(Some(()));
    }
    let Some(window) = input.window() else {
        return take_signs_singly(input, found, new, start, count);
    };
    let due = count_of(new);
    input.take_window(window, due);
    let word = (window >> 1 >> (63 - due)) as u8;
    found.add_minus(spread(new, word), start);
    Ok(Some(()))
}
