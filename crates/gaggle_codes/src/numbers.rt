// The numbers that are written.
ghost use Rattle.std.specs.Prelude.{◌≡◌, ◌≤◌, ◌<◌, ◌^◌, ℕ};
ghost use Rattle.number_defs.specs.Cells.{AreInRange};

use crate::mapping::mapped_of;
use crate::range::NumberRange;

// The numbers of every `stride`-th cell over 2^shift, rounded down.
#[derive(Clone, Copy)]
pub(crate) struct Numbers<'a> {
    pub cells: &'a [i32],
    pub stride: usize,
    pub shift: u8,
    pub range: NumberRange,
    ghost strided: { 1 ≤ stride },
    ghost shifted: { shift ≤ 27 },
    ghost low: { 2 ≤ range.bits },
    ghost high: { range.bits ≤ 10 },
    ghost in_range: { AreInRange range.signed range.bits shift stride cells.now },
}

impl Numbers<'_> {
    ghost use Rattle.std.specs.Prelude.{◌+◌, length, map, slice_index};
    ghost use Rattle.std.specs.List.{range_with_len};
    ghost use Rattle.item_defs.specs.TwosComplement.{complement};
    ghost use Rattle.number_defs.specs.Ranges.{number_at};
    ghost use Rattle.number_defs.specs.Gaggles.{value_at};
    ghost use Rattle.gaggle_codes.specs.Written.{heights_of};

    pub(crate) fn len(&self) -> usize
        ensures { result ≡ length (heights_of self.now) }
    {
        self.cells.len().div_ceil(self.stride)
    }

    // Returns the height of a number: how far it is above the least one of the range.
    pub(crate) fn height(&self, place: usize) -> u16
        requires { place < length (heights_of self.now) }
        ensures is { result ≡ slice_index (heights_of self.now) place }
        ensures below { result < 2 ^ self.now.range.bits }
    {
        let number = self.cells[place * self.stride] >> self.shift;
        (number + i32::from(self.range.negatives())) as u16
    }

    // Returns the first number in two's complement.
    pub(crate) fn reference(&self) -> u16
        requires { 0 < length (heights_of self.now) }
        ensures { result ≡ complement self.now.range.bits (number_at self.now.range.signed self.now.range.bits (slice_index (heights_of self.now) 0)) }
    {
        (self.height(0) + self.range.negatives()) % (1 << self.range.bits)
    }

    // Writes the mapped values of the numbers from this place on.
    pub(crate) fn map_values(&self, from: usize, into: &mut [u16])
        requires from { 1 ≤ from }
        requires within { from + length into.old ≤ length (heights_of self.now) }
        ensures values { into.new ≡ map (value_at self.now.range.bits (heights_of self.now)) (range_with_len from (length into.old)) }
        ensures below { (i : ℕ) → i < length into.new → slice_index into.new i < 2 ^ self.now.range.bits }
    {
        let mut before = self.height(from - 1);
        for i in 0..into.len() {
            let here = self.height(from + i);
            into[i] = mapped_of(self.range.bits, before, here);
            before = here;
        }
    }
}
