// Puts a block's numbers back into the bands.

ghost use Rattle.std.specs.Prelude.{◌≡◌, ◌<◌, ◌≤◌, ◌+◌, ◌*◌, ◌^◌, ℕ, pos, IsTrue, All, length, slice_index_or};
ghost use Rattle.base_122.specs.Weights.{IsShift};
ghost use Rattle.wave_defs.specs.Line.{floor_div};
ghost use Rattle.block_families.specs.Places.{AreWeighted, Scatters};
ghost use Rattle.block_families.specs.Scattering.{CanScatter, PutsBack};

use crate::bands::BandSink;
use crate::place::{Place, square_of, top_band};
use base_122::Weights;

// Returns a weighted number without its weight.
#[inline(always)]
fn unweighted(number: i32, shift: u8) -> i64
    requires { shift ≤ 3 }
    ensures { result ≡ floor_div number (2 ^ shift) }
{
    i64::from(number >> shift)
}

// Returns four weighted numbers without their weight.
#[inline(always)]
fn unweighted_square(from: &[i32], at: usize, shift: u8) -> [i64; 4]
    requires shift { shift ≤ 3 }
    requires room { at + 4 ≤ length from.now }
    ensures { (k : ℕ) → k < 4 → slice_index_or result k (pos 0) ≡ floor_div (slice_index_or from.now (at + k) (pos 0)) (2 ^ shift) }
{
    [
        unweighted(from[at], shift),
        unweighted(from[at + 1], shift),
        unweighted(from[at + 2], shift),
        unweighted(from[at + 3], shift),
    ]
}

// Puts back the DC number and the three parents.
fn scatter_tops<B: BandSink>(bands: &mut B, column: u32, weights: &Weights, from: &[i32])
    requires valid { IsTrue (B.valid bands.old) }
    requires ready { CanScatter weights.now.shifts from.now (B.columns bands.old) column }
    ensures scattered { PutsBack weights.now.shifts column from.now 0 4 (B.number bands.old) (B.number bands.new) }
    ensures columns { B.columns bands.new ≡ B.columns bands.old }
    ensures valid { B.valid bands.new ≡ B.valid bands.old }
    ensures keeps { B.keeps bands.old bands.new }
{
    for position in 0..4u8 {
        let band = top_band(position);
        let number = unweighted(from[position as usize], weights.shift(band));
        let place = Place {
            band,
            row: 0,
            column,
        };
        bands.set(place, number);
    }
}

// Puts back the four numbers of a square. All tests of the band are resolved at compile time, as its place is constant.
#[inline(always)]
fn put_square<B: BandSink>(bands: &mut B, column: u32, weights: &Weights, from: &[i32], square: u8)
    requires valid { IsTrue (B.valid bands.old) }
    requires ready { CanScatter weights.now.shifts from.now (B.columns bands.old) column }
    requires square { square < 15 }
    ensures scattered { PutsBack weights.now.shifts column from.now (4 + 4 * square) 4 (B.number bands.old) (B.number bands.new) }
    ensures columns { B.columns bands.new ≡ B.columns bands.old }
    ensures valid { B.valid bands.new ≡ B.valid bands.old }
    ensures keeps { B.keeps bands.old bands.new }
{
    let place = square_of(square, column);
    let shift = weights.shift(place.band);
    let numbers = unweighted_square(from, 4 + 4 * square as usize, shift);
    bands.set_square(place, numbers);
}

// Puts back the children.
fn scatter_children<B: BandSink>(bands: &mut B, column: u32, weights: &Weights, from: &[i32])
    requires valid { IsTrue (B.valid bands.old) }
    requires ready { CanScatter weights.now.shifts from.now (B.columns bands.old) column }
    ensures scattered { PutsBack weights.now.shifts column from.now 4 12 (B.number bands.old) (B.number bands.new) }
    ensures columns { B.columns bands.new ≡ B.columns bands.old }
    ensures valid { B.valid bands.new ≡ B.valid bands.old }
    ensures keeps { B.keeps bands.old bands.new }
{
    for square in 0..3u8 {
        put_square(bands, column, weights, from, square);
    }
}

// Puts back the grandchildren of a family. Its squares are written out one by one, so that each is constant if the first is.
#[inline(always)]
fn put_family<B: BandSink>(bands: &mut B, column: u32, weights: &Weights, from: &[i32], family: u8)
    requires valid { IsTrue (B.valid bands.old) }
    requires ready { CanScatter weights.now.shifts from.now (B.columns bands.old) column }
    requires family { family < 3 }
    ensures scattered { PutsBack weights.now.shifts column from.now (16 + 16 * family) 16 (B.number bands.old) (B.number bands.new) }
    ensures columns { B.columns bands.new ≡ B.columns bands.old }
    ensures valid { B.valid bands.new ≡ B.valid bands.old }
    ensures keeps { B.keeps bands.old bands.new }
{
    let first = 3 + 4 * family;
    put_square(bands, column, weights, from, first);
    put_square(bands, column, weights, from, first + 1);
    put_square(bands, column, weights, from, first + 2);
    put_square(bands, column, weights, from, first + 3);
}

// Puts back the grandchildren.
fn scatter_grandchildren<B: BandSink>(bands: &mut B, column: u32, weights: &Weights, from: &[i32])
    requires valid { IsTrue (B.valid bands.old) }
    requires ready { CanScatter weights.now.shifts from.now (B.columns bands.old) column }
    ensures scattered { PutsBack weights.now.shifts column from.now 16 48 (B.number bands.old) (B.number bands.new) }
    ensures columns { B.columns bands.new ≡ B.columns bands.old }
    ensures valid { B.valid bands.new ≡ B.valid bands.old }
    ensures keeps { B.keeps bands.old bands.new }
{
    for family in 0..3u8 {
        put_family(bands, column, weights, from, family);
    }
}

/// Makes the 64 numbers of `from`, each divided by 2^shift of its band, those of the block in this column,
/// and changes no other place (docs/formats.md, "Blocks" and "Weights").
///
/// A block row is available, the column is in it and below 2^17, `from` has 64 numbers, each shift is at most
/// 3, the divisions leave no remainder, and their quotients are at most 2^27 in magnitude.
pub fn scatter<B: BandSink>(bands: &mut B, column: u32, weights: &Weights, from: &[i32])
    requires valid { IsTrue (B.valid bands.old) }
    requires column { column < B.columns bands.old }
    requires wide { column < 2 ^ 17 }
    requires whole { length from.now ≡ 64 }
    requires shifts { All IsShift weights.now.shifts }
    requires parts { AreWeighted from.now weights.now.shifts }
    ensures scattered { Scatters (B.number bands.old) (B.number bands.new) weights.now.shifts column from.now }
    ensures columns { B.columns bands.new ≡ B.columns bands.old }
    ensures valid { B.valid bands.new ≡ B.valid bands.old }
    ensures keeps { B.keeps bands.old bands.new }
{
    scatter_tops(bands, column, weights, from);
    scatter_children(bands, column, weights, from);
    scatter_grandchildren(bands, column, weights, from);
}
