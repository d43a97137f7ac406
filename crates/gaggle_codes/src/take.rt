// The reader of numbers, gaggle by gaggle.
ghost use Rattle.std.specs.Prelude.{◌≡◌, ◌<◌, ◌≤◌, ◌+◌, ◌-◌, ◌*◌, ◌^◌, ℕ, Bool, length, slice_index};
ghost use Rattle.std.specs.Int.{div_ceil};
ghost use Rattle.bit_pipe.specs.SourceState.{source_state, IsIn};
ghost use Rattle.gaggle_codes.specs.Given.{IsBound, kind_of, any_of};
ghost use Rattle.gaggle_codes.specs.Cells.{TakesNumbers};

use crate::gaggle_heights::{GAGGLE, GaggleHeights};
use crate::range::{BoundedRange, NumberRange};
use crate::strided_cells::{StridedCells, clear, set_numbers};
use crate::take_gaggle::take_gaggle;
use bit_pipe::{BitIn, OctetIn, Part, TextFault};

/// Takes numbers of a range by their differences, and refuses those that are too great for the bound
/// (docs/formats.md, "Numbers by differences"). The numbers times 2^shift are put into every `stride`-th cell, as
/// far as they are given; further ones are 0, and all other cells stay. Returns whether all items were in the text,
/// and the number of numbers that are given.
///
/// `stride` is at least 1, the bits of the range and `shift` are at most 28 together, and there are fewer than 2^20 numbers.
///
/// # Errors
///
/// `BadOption`, `BadDelta` and `BadDepth` at the first item that is refused, and the faults of the input. The cells
/// also have the numbers that are given then.
pub fn take_bounded<I: OctetIn>(
    input: &mut BitIn<I>,
    cells: &mut [i32],
    stride: usize,
    shift: u8,
    bounded: BoundedRange,
) -> Result<(Part, u32), TextFault>
    requires open { IsIn (source_state input.old) }
    requires stride { 1 ≤ stride }
    requires low { 2 ≤ bounded.range.bits }
    requires high { bounded.range.bits ≤ 10 }
    requires both { bounded.range.bits + shift ≤ 28 }
    requires few { div_ceil (length cells.old) stride < 2 ^ 20 }
    ensures { (too_great : ℕ → Bool) → IsBound bounded.most bounded.range.bits too_great →
        TakesNumbers I.source (kind_of bounded.range too_great) bounded.range bounded.most shift stride result (source_state input.old)
        (source_state input.new) cells.old cells.new }
{
    let strided = StridedCells {
        stride,
        shift,
        range: bounded.range,
    };
    clear(cells, strided);
    let count = cells.len().div_ceil(stride);
    let mut before = 0;
    for gaggle in 0..count.div_ceil(GAGGLE) {
        let from = GAGGLE * gaggle;
        let size = (count - from).min(GAGGLE);
        let mut numbers = GaggleHeights::new(before);
        let result = take_gaggle(input, bounded, gaggle, size, &mut numbers);
        let heights = numbers.as_slice();
        set_numbers(cells, strided, from, heights);
        let given = (from + heights.len()) as u32;
        let Part::Whole = result? else {
            return Ok((Part::Ended, given));
        };
        before = numbers.last();
    }
    Ok((Part::Whole, count as u32))
}

/// Takes numbers of a range by their differences (docs/formats.md, "Numbers by differences"). The numbers times
/// 2^shift are put into every `stride`-th cell, as far as they are given; further ones are 0, and all other cells
/// stay. Returns whether all items were in the text, and the number of numbers that are given.
///
/// `stride` is at least 1, `range.bits` and `shift` are at most 28 together, and there are fewer than 2^20 numbers.
///
/// # Errors
///
/// `BadOption` and `BadDelta` at the first item that is refused, and the faults of the input. The cells also
/// have the numbers that are given then.
pub fn take_values<I: OctetIn>(
    input: &mut BitIn<I>,
    cells: &mut [i32],
    stride: usize,
    shift: u8,
    range: NumberRange,
) -> Result<(Part, u32), TextFault>
    requires open { IsIn (source_state input.old) }
    requires stride { 1 ≤ stride }
    requires low { 2 ≤ range.bits }
    requires high { range.bits ≤ 10 }
    requires both { range.bits + shift ≤ 28 }
    requires few { div_ceil (length cells.old) stride < 2 ^ 20 }
    ensures { TakesNumbers I.source (any_of range) range (2 ^ range.bits - 1) shift stride result (source_state input.old) (source_state input.new)
        cells.old cells.new }
{
    let greatest = (1 << range.bits) - 1;
    let bounded = BoundedRange {
        range,
        most: greatest,
    };
    take_bounded(input, cells, stride, shift, bounded)
}
