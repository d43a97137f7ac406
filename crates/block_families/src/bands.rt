// The interfaces through which the bands of a transform are read and written.

ghost use Rattle.std.specs.Prelude.{◌≡◌, ◌<◌, ◌≤◌, ◌^◌, ◌+◌, ◌*◌, ℕ, ℤ, pos, Bool, IsTrue, length, slice_index_or, unsigned_abs};
ghost use Rattle.base_122.specs.Weights.{band_place};
ghost use Rattle.wave_defs.specs.Blocks.{Place as NumberedPlace, block_side};
ghost use Rattle.block_families.specs.Places.{named, IsWithin};
ghost use Rattle.block_families.specs.Scattering.{SetsSquare};

use crate::place::Place;
use base_122::Band;

/// The bands of one block row, to read.
pub trait BandSource {
    /// The number of blocks of a block row.
    ghost columns: { Self → ℕ };

    /// Whether a block row is available.
    ghost valid: { Self → Bool };

    /// The number at each place of that block row.
    ghost number: { Self → NumberedPlace → ℤ };

    /// Returns the number at a place. A block row is available, and the place is in it.
    fn value(&self, place: Place) -> i32
        requires valid { IsTrue (valid self.now) }
        requires within { IsWithin (columns self.now) (named place) }
        ensures { result ≡ number self.now (named place) };
}

/// The bands of one block row, whose rows can be lent.
pub trait BandRows: BandSource {
    /// Returns a row of a band, over the whole width of the band. A block row is available, and the row is in it.
    fn row(&self, band: Band, row: u32) -> &[i32]
        requires valid { IsTrue (Self.valid self.now) }
        requires within { row < block_side (band_place band) }
        ensures wide { length result.now ≡ block_side (band_place band) * Self.columns self.now }
        ensures numbers { (j : ℕ) → j < block_side (band_place band) * Self.columns self.now
            → slice_index_or result.now j (pos 0) ≡ Self.number self.now (record { band = band_place band; row = row; column = j }) };
}

/// The bands of one block row, to write.
pub trait BandSink {
    /// The number of blocks of a block row.
    ghost columns: { Self → ℕ };

    /// Whether a block row is available.
    ghost valid: { Self → Bool };

    /// The number at each place of that block row.
    ghost number: { Self → NumberedPlace → ℤ };

    /// All that stays if numbers are set.
    ghost keeps: { Self → Self → Type 0 };

    /// Makes a value the number at a place, and changes nothing else. A block row is available, the place is
    /// in it, and the value is at most 2^27 in magnitude.
    fn set(&mut self, place: Place, value: i64)
        requires valid { IsTrue (valid self.old) }
        requires within { IsWithin (columns self.old) (named place) }
        requires small { unsigned_abs value ≤ 2 ^ 27 }
        ensures value { number self.new (named place) ≡ value }
        ensures others { (p : NumberedPlace) → (p ≡ named place → ⊥) → number self.new p ≡ number self.old p }
        ensures columns { columns self.new ≡ columns self.old }
        ensures valid { valid self.new ≡ valid self.old }
        ensures keeps { keeps self.old self.new };

    /// Makes four values the numbers of a square of two rows and two columns from this place on, the upper two
    /// first, and changes nothing else. A block row is available, the square is in it, and the values are at
    /// most 2^27 in magnitude.
    fn set_square(&mut self, place: Place, values: [i64; 4])
        requires valid { IsTrue (valid self.old) }
        requires rows { place.row + 2 ≤ block_side (band_place place.band) }
        requires inside { place.column + 2 ≤ block_side (band_place place.band) * columns self.old }
        requires small { (k : ℕ) → k < 4 → unsigned_abs (slice_index_or values k (pos 0)) ≤ 2 ^ 27 }
        ensures values { SetsSquare (number self.old) (number self.new) (named place) values }
        ensures columns { columns self.new ≡ columns self.old }
        ensures valid { valid self.new ≡ valid self.old }
        ensures keeps { keeps self.old self.new };

    ghost keeps_itself: { (s : Self) → keeps s s };

    ghost keeps_on: { (a b c : Self) → keeps a b → keeps b c → keeps a c };
}
