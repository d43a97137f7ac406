// The reader of the block depths.
ghost use Rattle.std.specs.Prelude.{◌≡◌, ◌≤◌, ◌<◌, ◌^◌, ℕ, pos, length, slice_index_or};
ghost use Rattle.bit_pipe.specs.SourceState.{source_state, IsIn};
ghost use Rattle.number_defs.specs.Depths.{depth_bits};
ghost use Rattle.dc_depths.specs.Depths.{TakesDepths};

use bit_pipe::{BitIn, OctetIn, Part, TextFault};
use gaggle_codes::{BoundedRange, NumberRange, take_bounded};

// Returns the number of bits of each depth, if the greatest is at least 2.
fn depth_bits_of(depth_ac: u8) -> u8
    requires low { 2 ≤ depth_ac }
    requires high { depth_ac ≤ 27 }
    ensures is { result ≡ depth_bits depth_ac }
    ensures low { 2 ≤ result }
    ensures high { result ≤ 5 }
    ensures holds { depth_ac < 2 ^ result }
{
    match depth_ac {
        0..=3 => 2,
        4..=7 => 3,
        8..=15 => 4,
        _ => 5,
    }
}

// Sets each number of `marks` to 0.
fn clear(marks: &mut [i32])
    ensures { (i : ℕ) → slice_index_or marks.new i (pos 0) ≡ pos 0 }
{
    for place in 0..marks.len() {
        marks[place] = 0;
    }
}

// Takes depths of 0 or 1, one bit each.
fn take_raw<I: OctetIn>(input: &mut BitIn<I>, marks: &mut [i32]) -> Result<Part, TextFault>
    requires open { IsIn (source_state input.old) }
    requires none { (i : ℕ) → slice_index_or marks.old i (pos 0) ≡ pos 0 }
    ensures { TakesDepths I.source 1 result (source_state input.old) (source_state input.new) marks.new }
{
    for place in 0..marks.len() {
        let Some(bit) = input.take_bits(1)? else {
            return Ok(Part::Ended);
        };
        marks[place] = bit as i32;
    }
    Ok(Part::Whole)
}

/// Takes the block depths, one for each number of `marks` (docs/formats.md, "DC part and block depths"). `marks` has
/// the depths that are given, and 0 for further ones. Returns whether all items were in the text.
///
/// `depth_ac` is at most 27, and `marks` has fewer than 2^20 numbers.
///
/// # Errors
///
/// `BadOption`, `BadDelta` and `BadDepth`, a depth above `depth_ac`, at the first item that is refused, and the faults
/// of the input. `marks` also has the depths that are given then.
pub fn take_depths<I: OctetIn>(
    input: &mut BitIn<I>,
    marks: &mut [i32],
    depth_ac: u8,
) -> Result<Part, TextFault>
    requires open { IsIn (source_state input.old) }
    requires ac { depth_ac ≤ 27 }
    requires few { length marks.old < 2 ^ 20 }
    ensures { TakesDepths I.source depth_ac result (source_state input.old) (source_state input.new) marks.new }
{
    clear(marks);
    match depth_ac {
        0 => Ok(Part::Whole),
        1 => take_raw(input, marks),
        _ => {
            let range = NumberRange {
                signed: false,
                bits: depth_bits_of(depth_ac),
            };
            let bounded = BoundedRange {
                range,
                most: u16::from(depth_ac),
            };
            let (part, _) = take_bounded(input, marks, 1, 0, bounded)?;
            Ok(part)
        }
    }
}
