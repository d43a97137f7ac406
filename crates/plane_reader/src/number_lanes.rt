// The numbers of a block, joined from its masks.

ghost use Rattle.std.specs.Prelude.{◌≡◌, ◌+◌, ◌*◌, ◌%◌, ◌≤◌, ◌<◌, ◌^◌, ℕ, length, pos, negsuc, map, slice_index_or, if◌then◌else◌};
ghost use Rattle.std.specs.List.{range_with_len};
ghost use Rattle.item_defs.specs.Bits.{bit};
ghost use Rattle.wave_defs.specs.Held.{block_at};
ghost use Rattle.plane_reader.specs.Lanes.{AddsPlane, AreWhole, HasPlanes, PutsPart, number_of, with_mask};
ghost use Rattle.block_masks.specs.Slices.{mask_in, numbers_in, IsColumn};

use block_masks::{Column, DC, MINUS, mask_of, part};
use std::simd::prelude::*;

// The number of planes whose bits are the low half of a magnitude.
const LOW: u8 = 16;

// Up to sixteen bits of each magnitude of a block, sixteen positions after sixteen.
#[derive(Clone, Copy)]
struct Halves {
    first: u16x16,
    second: u16x16,
    third: u16x16,
    fourth: u16x16,
}

// Returns sixteen magnitudes after those of a mask are given the bit of weight 2^place: bit `start` of the mask is for the first.
#[inline(always)]
fn with_bits(sizes: u16x16, mask: u64, start: u8, place: u8) -> u16x16
    requires within { start + 16 ≤ 64 }
    requires low { place < 16 }
    ensures { result ≡ with_mask sizes mask start place }
{
    let weights = u16x16::from_array([
        1, 2, 4, 8, 16, 32, 64, 128, 256, 512, 1024, 2048, 4096, 8192, 16384, 32768,
    ]);
    let here = part(mask, start, 16);
    let tested = u16x16::splat(here as u16) & weights;
    let bits = tested
        .simd_eq(weights)
        .select(u16x16::splat(1 << place), u16x16::splat(0));
    sizes | bits
}

impl Halves {
    // Gives the magnitudes of a mask the bit of weight 2^place.
    #[inline(always)]
    fn add_plane(&mut self, mask: u64, place: u8)
        requires whole { AreWhole self.old }
        requires low { place < 16 }
        ensures { AddsPlane mask place self.old self.new }
    {
        if mask != 0 {
            self.first = with_bits(self.first, mask, 0, place);
            // The first sixteen positions are the DC, the parents and the children: a high plane mostly has bits of these alone.
            if mask >> 16 != 0 {
                self.second = with_bits(self.second, mask, 16, place);
                self.third = with_bits(self.third, mask, 32, place);
                self.fourth = with_bits(self.fourth, mask, 48, place);
            }
        }
    }

    // Returns the bits that the magnitudes of a block have in this number of planes, from one on.
    #[inline(always)]
    fn of(cells: &[i32], column: Column, from: u8, planes: u8) -> Halves
        requires whole { length cells.now % 64 ≡ 0 }
        requires column { IsColumn cells.now column }
        requires few { planes ≤ 16 }
        requires low { from + planes ≤ 27 }
        ensures { HasPlanes cells.now column.block from planes result }
    {
        let none = u16x16::splat(0);
        let mut halves = Halves {
            first: none,
            second: none,
            third: none,
            fourth: none,
        };
        for place in 0..planes {
            halves.add_plane(mask_of(cells, column, from + place), place);
        }
        halves
    }
}

// Returns the lanes of sixteen positions: all bits of a lane are set if the mask has the position, and otherwise none.
#[inline(always)]
fn lanes_of(mask: u64) -> i32x16
    requires { mask < 2 ^ 16 }
    ensures { result ≡ map (λ k. if bit mask k then negsuc 0 else pos 0) (range_with_len 0 16) }
{
    let weights = i32x16::from_array([
        1, 2, 4, 8, 16, 32, 64, 128, 256, 512, 1024, 2048, 4096, 8192, 16384, 32768,
    ]);
    let tested = i32x16::splat(mask as i32) & weights;
    tested.simd_eq(weights).to_simd()
}

// Returns the sixteen numbers whose magnitudes have these halves. A number is negative if the mask has its position.
#[inline(always)]
fn signed(low: u16x16, high: u16x16, minus: u64) -> i32x16
    requires small { (k : ℕ) → k < 16 → slice_index_or high k 0 < 2 ^ 11 }
    requires minus { minus < 2 ^ 16 }
    ensures { result ≡ map (number_of low high minus 0) (range_with_len 0 16) }
{
    let sizes = low.cast::<i32>() | (high.cast::<i32>() << i32x16::splat(16));
    let sign = lanes_of(minus);
    (sizes ^ sign) - sign
}

// Puts sixteen numbers of a block, whose magnitudes have these halves. Bit `start` of the mask is for the first of them: it is negative
// if the bit is set.
#[inline(always)]
fn put_part(block: &mut [i32], start: u8, low: u16x16, high: u16x16, minus: u64)
    requires whole { length block.old ≡ 64 }
    requires within { start + 16 ≤ 64 }
    requires small { (k : ℕ) → k < 16 → slice_index_or high k 0 < 2 ^ 11 }
    ensures { PutsPart low high minus start block.old block.new }
{
    let numbers = signed(low, high, part(minus, start, 16));
    numbers.copy_to_slice(&mut block[start as usize..]);
}

// Fills a block with the 64 numbers that the masks of a column represent, of which only the first planes have bits. What the block had
// before is lost.
pub(crate) fn join_block(cells: &[i32], column: Column, planes: u8, block: &mut [i32])
    requires whole { length cells.now % 64 ≡ 0 }
    requires column { IsColumn cells.now column }
    requires few { planes ≤ 27 }
    requires below { (slot : ℕ) → planes ≤ slot → slot < 27 → mask_in cells.now column.block slot ≡ 0 }
    requires size { length block.old ≡ 64 }
    ensures { block.new ≡ block_at (numbers_in cells.now) column.block }
{
    let low = Halves::of(cells, column, 0, planes.min(LOW));
    let high = Halves::of(cells, column, LOW, planes.max(LOW) - LOW);
    let minus = mask_of(cells, column, MINUS);
    put_part(block, 0, low.first, high.first, minus);
    put_part(block, 16, low.second, high.second, minus);
    put_part(block, 32, low.third, high.third, minus);
    put_part(block, 48, low.fourth, high.fourth, minus);
    let dc = (mask_of(cells, column, DC) % 0x1_0000_0000) as u32;
    block[0] = dc.cast_signed();
}
