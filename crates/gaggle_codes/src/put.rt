// The writer of numbers, gaggle by gaggle.
ghost use Rattle.std.specs.Prelude.{◌≡◌, ◌<◌, ◌≤◌, ◌*◌, ◌++◌, ℕ, Bool, length};
ghost use Rattle.item_defs.specs.Items.{text};
ghost use Rattle.bit_pipe.specs.SinkState.{Puts, IsReady, Writes};
ghost use Rattle.number_defs.specs.Cells.{AreInRange};
ghost use Rattle.number_defs.specs.Gaggles.{gaggle_values, number_items};
ghost use Rattle.number_defs.specs.Choice.{choices};
ghost use Rattle.gaggle_codes.specs.Options.{choice_of, name_of};
ghost use Rattle.gaggle_codes.specs.Written.{heights, heights_of, kind_of};
ghost use Rattle.gaggle_codes.specs.GaggleBits.{lead_bits, gaggle_bits};

use crate::choice::choose;
use crate::numbers::Numbers;
use crate::range::NumberRange;
use crate::values::{put_identifier, put_mapped};
use base_122::Select;
use bit_pipe::{BitOut, OctetOut, PutFault};

// The number of numbers of a gaggle.
const GAGGLE: usize = 16;

// Puts the reference, which only the first gaggle has.
fn put_lead<O: OctetOut>(
    out: &mut BitOut<O>,
    numbers: &Numbers,
    gaggle: usize,
) -> Result<(), PutFault>
    requires open { IsReady O.sink out.old }
    requires some { 0 < length (heights_of numbers.now) }
    ensures { Writes O.sink result out.old out.new
        (lead_bits numbers.now.range.signed numbers.now.range.bits (heights_of numbers.now) gaggle) }
{
    if gaggle > 0 {
        return Ok(());
    }
    out.put_bits(numbers.reference() as u32, numbers.range.bits)
}

fn put_gaggle<O: OctetOut>(
    out: &mut BitOut<O>,
    numbers: &Numbers,
    gaggle: usize,
    select: Select,
) -> Result<(), PutFault>
    requires open { IsReady O.sink out.old }
    requires within { 16 * gaggle < length (heights_of numbers.now) }
    ensures { Writes O.sink result out.old out.new
        (gaggle_bits numbers.now.range.signed numbers.now.range.bits (heights_of numbers.now)
        (name_of numbers.now.range.bits (choices (choice_of select) numbers.now.range.bits (heights_of numbers.now) gaggle)) gaggle) }
{
    let from = (GAGGLE * gaggle).max(1);
    let to = numbers.len().min(GAGGLE * gaggle + GAGGLE);
    let bits = numbers.range.bits;
    let mut room = [0u16; GAGGLE];
    let values = &mut room[..to - from];
    numbers.map_values(from, values);
    let option = choose(values, bits, select);
    put_identifier(out, bits, option)?;
    put_lead(out, numbers, gaggle)?;
    put_mapped(out, values, bits, option)
}

/// Puts the numbers of a range by their differences (docs/formats.md, "Numbers by differences"). The numbers
/// are every `stride`-th cell over 2^shift, rounded down: the stride is at least 1, the shift at most 27, and each number is
/// one of the range, which has 2 to 10 bits.
pub fn put_values<O: OctetOut>(
    out: &mut BitOut<O>,
    cells: &[i32],
    stride: usize,
    shift: u8,
    range: NumberRange,
    select: Select,
) -> Result<(), PutFault>
    requires open { IsReady O.sink out.old }
    requires stride { 1 ≤ stride }
    requires shift { shift ≤ 27 }
    requires low { 2 ≤ range.bits }
    requires high { range.bits ≤ 10 }
    requires in_range { AreInRange range.signed range.bits shift stride cells.now }
    ensures { (too_great : ℕ → Bool) → Writes O.sink result out.old out.new
        (text (number_items (kind_of range too_great) (heights range shift stride cells.now)
        (choices (choice_of select) range.bits (heights range shift stride cells.now)))) }
{
    let numbers = Numbers {
        cells,
        stride,
        shift,
        range,
    };
    for gaggle in 0..numbers.len().div_ceil(GAGGLE) {
        put_gaggle(out, &numbers, gaggle, select)?;
    }
    Ok(())
}
