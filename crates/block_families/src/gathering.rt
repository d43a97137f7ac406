// Reads a block's numbers from the bands.

ghost use Rattle.std.specs.Prelude.{◌≡◌, ◌<◌, ◌≤◌, ◌*◌, ◌+◌, ◌-◌, ◌/◌, ◌%◌, ◌^◌, ℕ, pos, ◌*ℤ◌, IsTrue, All, length, slice_index_or, unsigned_abs};
ghost use Rattle.base_122.specs.Weights.{IsShift};
ghost use Rattle.wave_defs.specs.Blocks.{weight_at};
ghost use Rattle.wave_defs.specs.Held.{block_at};
ghost use Rattle.block_families.specs.Places.{place_in, gathered};
ghost use Rattle.block_families.specs.Gathering.{run_at, CanGather, Fills, FillsEach, square};

use crate::bands::BandRows;
use crate::place::{band_of, top_band};
use base_122::Weights;

// Returns a number times the weight of its band.
fn times(number: i32, shift: u8) -> i32
    requires shift { shift ≤ 3 }
    requires fits { unsigned_abs (number *ℤ pos (2 ^ shift)) < 2 ^ 31 }
    ensures { result ≡ number *ℤ pos (2 ^ shift) }
{
    number * (1 << shift)
}

// Where a square is in two rows, the weight of its band, and where its numbers go.
#[derive(Clone, Copy)]
struct SquarePlace {
    start: usize,
    shift: u8,
    at: usize,
}

// Puts the four numbers of a square of two rows and two columns, each times its weight.
fn put_square(upper: &[i32], lower: &[i32], place: SquarePlace, into: &mut [i32])
    requires upper { place.start + 2 ≤ length upper.now }
    requires lower { place.start + 2 ≤ length lower.now }
    requires shift { place.shift ≤ 3 }
    requires room { place.at + 4 ≤ length into.old }
    requires fits { (k : ℕ) → k < 4 → unsigned_abs (square upper.now lower.now place.start k *ℤ pos (2 ^ place.shift)) < 2 ^ 31 }
    ensures { Fills (λ i. square upper.now lower.now place.start (i - place.at) *ℤ pos (2 ^ place.shift)) place.at 4 into.old into.new }
{
    let SquarePlace { start, shift, at } = place;
    // All four are read before any is put, so that the compiler can move them together.
    let first = times(upper[start], shift);
    let second = times(upper[start + 1], shift);
    let third = times(lower[start], shift);
    let fourth = times(lower[start + 1], shift);
    into[at] = first;
    into[at + 1] = second;
    into[at + 2] = third;
    into[at + 3] = fourth;
}

// Where the squares of some blocks are in two rows, the weight of their band, and where their numbers go in a block.
#[derive(Clone, Copy)]
struct Squares {
    start: usize,
    step: usize,
    shift: u8,
    at: usize,
}

// Puts a square of each of some blocks, each number times its weight. There are 64 numbers for each block.
#[inline(always)]
fn put_squares(upper: &[i32], lower: &[i32], squares: Squares, into: &mut [i32])
    requires upper { (k : ℕ) → k < length into.old / 64 → squares.start + squares.step * k + 2 ≤ length upper.now }
    requires lower { (k : ℕ) → k < length into.old / 64 → squares.start + squares.step * k + 2 ≤ length lower.now }
    requires shift { squares.shift ≤ 3 }
    requires at { squares.at + 4 ≤ 64 }
    requires fits { (k i : ℕ) → k < length into.old / 64 → i < 4
        → unsigned_abs (square upper.now lower.now (squares.start + squares.step * k) i *ℤ pos (2 ^ squares.shift)) < 2 ^ 31 }
    ensures { FillsEach (λ k i. square upper.now lower.now (squares.start + squares.step * k) (i - squares.at) *ℤ pos (2 ^ squares.shift)) squares.at 4
        (length into.old / 64) into.old into.new }
{
    for k in 0..into.len() / 64 {
        let place = SquarePlace {
            start: squares.start + squares.step * k,
            shift: squares.shift,
            at: 64 * k + squares.at,
        };
        put_square(upper, lower, place, into);
    }
}

// Puts the number that a row has of each of some blocks, times its weight. There are 64 numbers for each block.
#[inline(always)]
fn put_tops(row: &[i32], column: usize, shift: u8, at: usize, into: &mut [i32])
    requires row { column + length into.old / 64 ≤ length row.now }
    requires shift { shift ≤ 3 }
    requires at { at < 64 }
    requires fits { (k : ℕ) → k < length into.old / 64 → unsigned_abs (slice_index_or row.now (column + k) (pos 0) *ℤ pos (2 ^ shift)) < 2 ^ 31 }
    ensures { FillsEach (λ k i. slice_index_or row.now (column + k) (pos 0) *ℤ pos (2 ^ shift)) at 1 (length into.old / 64) into.old into.new }
{
    for k in 0..into.len() / 64 {
        into[64 * k + at] = times(row[column + k], shift);
    }
}

// Reads the DC number and the three parents of each block.
fn gather_tops<B: BandRows>(bands: &B, column: u32, weights: &Weights, into: &mut [i32])
    requires valid { IsTrue (B.valid bands.now) }
    requires ready { CanGather (B.number bands.now) weights.now.shifts (B.columns bands.now) column (length into.old / 64) }
    ensures { FillsEach (run_at (B.number bands.now) weights.now.shifts column) 0 4 (length into.old / 64) into.old into.new }
{
    for position in 0..4u8 {
        let band = top_band(position);
        let row = bands.row(band, 0);
        let shift = weights.shift(band);
        put_tops(row, column as usize, shift, position as usize, into);
    }
}

// Puts the four children of a family of each block.
fn put_children<B: BandRows>(
    bands: &B,
    column: u32,
    weights: &Weights,
    family: u8,
    into: &mut [i32],
)
    requires valid { IsTrue (B.valid bands.now) }
    requires ready { CanGather (B.number bands.now) weights.now.shifts (B.columns bands.now) column (length into.old / 64) }
    requires family { family < 3 }
    ensures { FillsEach (run_at (B.number bands.now) weights.now.shifts column) (4 + 4 * family) 4 (length into.old / 64) into.old into.new }
{
    let band = band_of(2, family);
    let (upper, lower) = (bands.row(band, 0), bands.row(band, 1));
    let squares = Squares {
        start: 2 * column as usize,
        step: 2,
        shift: weights.shift(band),
        at: 4 + 4 * family as usize,
    };
    put_squares(upper, lower, squares, into);
}

fn gather_children<B: BandRows>(bands: &B, column: u32, weights: &Weights, into: &mut [i32])
    requires valid { IsTrue (B.valid bands.now) }
    requires ready { CanGather (B.number bands.now) weights.now.shifts (B.columns bands.now) column (length into.old / 64) }
    ensures { FillsEach (run_at (B.number bands.now) weights.now.shifts column) 4 12 (length into.old / 64) into.old into.new }
{
    for family in 0..3u8 {
        put_children(bands, column, weights, family, into);
    }
}

// Puts the eight grandchildren of a family that are in the upper or in the lower two rows, of each block.
fn put_grandchildren<B: BandRows>(
    bands: &B,
    column: u32,
    weights: &Weights,
    half: u8,
    into: &mut [i32],
)
    requires valid { IsTrue (B.valid bands.now) }
    requires ready { CanGather (B.number bands.now) weights.now.shifts (B.columns bands.now) column (length into.old / 64) }
    requires half { half < 6 }
    ensures { FillsEach (run_at (B.number bands.now) weights.now.shifts column) (16 + 8 * half) 8 (length into.old / 64) into.old into.new }
{
    let band = band_of(1, half / 2);
    let row = u32::from(2 * (half % 2));
    let (upper, lower) = (bands.row(band, row), bands.row(band, row + 1));
    let start = 4 * column as usize;
    let shift = weights.shift(band);
    let at = 16 + 8 * half as usize;
    let left = Squares {
        start,
        step: 4,
        shift,
        at,
    };
    let right = Squares {
        start: start + 2,
        step: 4,
        shift,
        at: at + 4,
    };
    put_squares(upper, lower, left, into);
    put_squares(upper, lower, right, into);
}

fn gather_grandchildren<B: BandRows>(bands: &B, column: u32, weights: &Weights, into: &mut [i32])
    requires valid { IsTrue (B.valid bands.now) }
    requires ready { CanGather (B.number bands.now) weights.now.shifts (B.columns bands.now) column (length into.old / 64) }
    ensures { FillsEach (run_at (B.number bands.now) weights.now.shifts column) 16 48 (length into.old / 64) into.old into.new }
{
    for half in 0..6u8 {
        put_grandchildren(bands, column, weights, half, into);
    }
}

/// Fills `into` with the 64 numbers of each block from this column on, as many as there is room for, each multiplied by 2^shift of
/// its band (docs/formats.md, "Blocks" and "Weights"). Each row is looked up once for all of them.
///
/// A block row is available, the blocks are in it and in the first 2^17 columns, `into` has 64 numbers for each of them, each shift is at
/// most 3, and the products are below 2^31 in magnitude.
pub fn gather_run<B: BandRows>(bands: &B, column: u32, weights: &Weights, into: &mut [i32])
    requires valid { IsTrue (B.valid bands.now) }
    requires inside { column + length into.old / 64 ≤ B.columns bands.now }
    requires wide { column + length into.old / 64 ≤ 2 ^ 17 }
    requires whole { length into.old % 64 ≡ 0 }
    requires shifts { All IsShift weights.now.shifts }
    requires fits { (k i : ℕ) → k < length into.old / 64 → i < 64
        → unsigned_abs (B.number bands.now (place_in (column + k) i) *ℤ weight_at weights.now.shifts i) < 2 ^ 31 }
    ensures { (k : ℕ) → k < length into.old / 64 → block_at into.new k ≡ gathered (B.number bands.now) weights.now.shifts (column + k) }
{
    gather_tops(bands, column, weights, into);
    gather_children(bands, column, weights, into);
    gather_grandchildren(bands, column, weights, into);
}

/// Fills `into` with the 64 numbers of the block in this column, each multiplied by 2^shift of its band
/// (docs/formats.md, "Blocks" and "Weights").
///
/// A block row is available, the column is in it and below 2^17, `into` has 64 numbers, each shift is at most
/// 3, and the products are below 2^31 in magnitude.
pub fn gather<B: BandRows>(bands: &B, column: u32, weights: &Weights, into: &mut [i32])
    requires valid { IsTrue (B.valid bands.now) }
    requires column { column < B.columns bands.now }
    requires wide { column < 2 ^ 17 }
    requires whole { length into.old ≡ 64 }
    requires shifts { All IsShift weights.now.shifts }
    requires fits { (i : ℕ) → i < 64 → unsigned_abs (B.number bands.now (place_in column i) *ℤ weight_at weights.now.shifts i) < 2 ^ 31 }
    ensures { into.new ≡ gathered (B.number bands.now) weights.now.shifts column }
{
    gather_run(bands, column, weights, into);
}
