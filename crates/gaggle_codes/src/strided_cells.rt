// Numbers that are put into cells.
ghost use Rattle.std.specs.Prelude.{◌≡◌, ◌<◌, ◌≤◌, ◌+◌, ◌-◌, ◌*◌, ◌^◌, ◌*ℤ◌, ℕ, ℤ, List, pos, [], ◌++◌, length, slice_index, unsigned_abs};
ghost use Rattle.number_defs.specs.Ranges.{number_at};
ghost use Rattle.gaggle_codes.specs.Cells.{SetsCells};

use crate::range::NumberRange;

// The cells that numbers of a range are put into: every `stride`-th cell has a number times 2^shift.
#[derive(Clone, Copy)]
pub(crate) struct StridedCells {
    pub stride: usize,
    pub shift: u8,
    pub range: NumberRange,
}

// Returns 2^shift.
fn power(shift: u8) -> i32
    requires { shift ≤ 26 }
    ensures { result ≡ pos (2 ^ shift) }
{
    1 << shift
}

// Returns the number of a height.
fn centred(range: NumberRange, height: u16) -> i32
    requires low { 2 ≤ range.bits }
    requires high { range.bits ≤ 10 }
    requires height { height < 2 ^ range.bits }
    ensures { result ≡ number_at range.signed range.bits height }
{
    i32::from(height) - i32::from(range.negatives())
}

// Returns a number times 2^shift.
fn scaled(number: i32, shift: u8) -> i32
    requires shift { shift ≤ 26 }
    requires fits { unsigned_abs (number *ℤ pos (2 ^ shift)) < 2 ^ 31 }
    ensures { result ≡ number *ℤ pos (2 ^ shift) }
{
    number * power(shift)
}

// Returns the number of a height, times 2^shift.
fn number_of(strided: StridedCells, height: u16) -> i32
    requires low { 2 ≤ strided.range.bits }
    requires high { strided.range.bits ≤ 10 }
    requires both { strided.range.bits + strided.shift ≤ 28 }
    requires height { height < 2 ^ strided.range.bits }
    ensures { result ≡ number_at strided.range.signed strided.range.bits height *ℤ pos (2 ^ strided.shift) }
{
    scaled(centred(strided.range, height), strided.shift)
}

// Sets every `stride`-th cell to 0.
pub(crate) fn clear(cells: &mut [i32], strided: StridedCells)
    requires stride { 1 ≤ strided.stride }
    ensures { SetsCells strided.range strided.shift strided.stride [] cells.old cells.new }
{
    for place in 0..cells.len().div_ceil(strided.stride) {
        cells[place * strided.stride] = 0;
    }
}

// Puts the numbers of these heights after the `from` numbers that are in the cells already.
pub(crate) fn set_numbers(cells: &mut [i32], strided: StridedCells, from: usize, heights: &[u16])
    requires stride { 1 ≤ strided.stride }
    requires low { 2 ≤ strided.range.bits }
    requires high { strided.range.bits ≤ 10 }
    requires both { strided.range.bits + strided.shift ≤ 28 }
    requires few { (i : ℕ) → slice_index heights.now i < 2 ^ strided.range.bits }
    requires within { 0 < length heights.now → (from + length heights.now - 1) * strided.stride < length cells.old }
    ensures { (first : List ℕ) (before : List ℤ) → length first ≡ from
        → SetsCells strided.range strided.shift strided.stride first before cells.old
        → SetsCells strided.range strided.shift strided.stride (first ++ heights.now) before cells.new }
{
    for place in 0..heights.len() {
        cells[(from + place) * strided.stride] = number_of(strided, heights[place]);
    }
}
