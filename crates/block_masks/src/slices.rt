// The masks of a segment, in the place of its numbers.

ghost use Rattle.std.specs.Prelude.{◌≡◌, ◌+◌, ◌*◌, ◌/◌, ◌%◌, ◌<◌, ◌≤◌, ◌^◌, length};
ghost use Rattle.block_masks.specs.Slices.{place, mask_in, IsColumn, PutsMask, Settles};

use crate::mask_sets::either;

/// The slot of the masks that say which positions have their bit of the plane that is read as a raw bit.
pub const RAW: u8 = 27;

/// The slot of the masks that say which numbers are negative.
pub const MINUS: u8 = 28;

/// The slot of the masks that say which numbers are significant above the plane that is coded next.
pub const ABOVE: u8 = 29;

/// The slot that has the DC of each block.
pub const DC: u8 = 30;

/// The number of blocks of a group, whose masks of a slot are side by side. The masks of a group are then four pages: they fit a small
/// cache beside a copy of them, and those of a slot are eight lines of it.
pub const GROUP: usize = 64;

/// Where the masks of a block are in the place of its numbers.
#[derive(Clone, Copy)]
pub struct Column {
    /// The block.
    pub block: usize,
    // The place of the mask of slot 0, and how far each slot is from the one before it.
    first: usize,
    step: usize,
}

impl Column {
    ghost use Rattle.block_masks.specs.Slices.{IsColumn};

    /// Returns the column of a block. `cells` has 64 numbers for each block.
    #[inline(always)]
    pub fn of(cells: &[i32], block: usize) -> Column
        requires whole { length cells.now % 64 ≡ 0 }
        requires block { 64 * block < length cells.now }
        ensures column { IsColumn cells.now result }
        ensures block { result.block ≡ block }
    {
        let count = cells.len() / 64;
        let place = block % GROUP;
        let start = block - place;
        Column {
            block,
            first: 64 * start + 2 * place,
            step: 2 * (count - start).min(GROUP),
        }
    }

    /// Returns the column of the block that is `k` blocks further in the same gaggle.
    #[inline(always)]
    pub fn further(self, cells: &[i32], k: usize) -> Column
        requires whole { length cells.now % 64 ≡ 0 }
        requires column { IsColumn cells.now self }
        requires gaggle { self.block % 16 + k < 16 }
        requires block { 64 * (self.block + k) < length cells.now }
        ensures column { IsColumn cells.now result }
        ensures block { result.block ≡ self.block + k }
    {
        let _count = cells.len();
        Column {
            block: self.block + k,
            first: self.first + 2 * k,
            step: self.step,
        }
    }

    // Returns the place of the low half of the mask of a slot.
    #[inline(always)]
    fn place(self, cells: &[i32], slot: u8) -> usize
        requires whole { length cells.now % 64 ≡ 0 }
        requires column { IsColumn cells.now self }
        requires slot { slot < 32 }
        ensures place { result ≡ place (length cells.now / 64) self.block slot }
        ensures within { result + 1 < length cells.now }
    {
        let _count = cells.len();
        self.first + self.step * slot as usize
    }
}

/// Returns the mask of a slot for the block of a column.
#[inline(always)]
pub fn mask_of(cells: &[i32], column: Column, slot: u8) -> u64
    requires whole { length cells.now % 64 ≡ 0 }
    requires column { IsColumn cells.now column }
    requires slot { slot < 32 }
    ensures mask { result ≡ mask_in cells.now column.block slot }
{
    let at = column.place(cells, slot);
    let low = cells[at].cast_unsigned();
    let high = cells[at + 1].cast_unsigned();
    u64::from(low) + 0x1_0000_0000 * u64::from(high)
}

/// Puts a mask of a slot for the block of a column.
#[inline(always)]
pub fn put_mask(cells: &mut [i32], column: Column, slot: u8, mask: u64)
    requires whole { length cells.old % 64 ≡ 0 }
    requires column { IsColumn cells.old column }
    requires slot { slot < 32 }
    ensures { PutsMask column.block slot mask cells.old cells.new }
{
    let at = column.place(cells, slot);
    let low = (mask % 0x1_0000_0000) as u32;
    let high = (mask / 0x1_0000_0000) as u32;
    cells[at] = low.cast_signed();
    cells[at + 1] = high.cast_signed();
}

// The number of blocks of a gaggle, which are in one group.
const GAGGLE: usize = 16;

/// Adds to the masks of what is significant above a plane what has the plane's bit, as the plane below needs it.
pub fn settle_above(cells: &mut [i32], plane: u8)
    requires whole { length cells.old % 64 ≡ 0 }
    requires low { plane < 28 }
    ensures { Settles plane (length cells.old / 64) cells.old cells.new }
{
    let count = cells.len() / 64;
    for g in 0..count.div_ceil(GAGGLE) {
        let first = Column::of(cells, GAGGLE * g);
        for k in 0..(count - first.block).min(GAGGLE) {
            let column = first.further(cells, k);
            let above = either(mask_of(cells, column, ABOVE), mask_of(cells, column, plane));
            put_mask(cells, column, ABOVE, above);
        }
    }
}
