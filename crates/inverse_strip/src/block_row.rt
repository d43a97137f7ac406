//! The numbers of one block row.

ghost use Rattle.std.specs.Prelude.{◌≡◌, ℕ, ◌+◌, ◌*◌, ◌^◌, ◌<◌, ◌≤◌, ℤ};
ghost use Rattle.wave_defs.specs.Blocks.{block_side};
ghost use Rattle.inverse_strip.specs.Cells.{first_row, AreBandRows};

use line_rings::{RowRing, RowTable};
use std::alloc::{AllocError, Global};

/// The numbers of a block row of this number of blocks, band after band. They have 32 bits, so those that wait take half the memory.
#[derive(Drop)]
pub struct BlockRow {
    pub columns: usize,
    pub rows: RowTable,
    ghost few: { columns ≤ 2 ^ 17 },
    ghost whole: { AreBandRows columns rows },
}

/// Returns the number of rows of a block row that precede those of a band.
#[inline(always)]
fn rows_before(band: usize) -> usize
    requires { band < 10 }
    ensures { result ≡ first_row band }
{
    if band < 3 {
        return 4 * band;
    }
    if band < 6 {
        return 6 + 2 * band;
    }
    12 + band
}

impl BlockRow {
    ghost use Rattle.std.specs.Prelude.{◌≡◌, ◌≢◌, ℕ, ◌+◌, ◌*◌, ◌-◌, ◌^◌, ◌<◌, ◌≤◌, ℤ, pos, [], ◌∷◌, ◌++◌, drop, length, IfOk, slice_index_or};
    ghost use Rattle.wave_defs.specs.Blocks.{Place, block_side};
    ghost use Rattle.wave_defs.specs.Within.{AllWithin, IsWithin};
    ghost use Rattle.wave_defs.specs.Held.{signal};
    ghost use Rattle.block_families.specs.Scattering.{SetsSquare};
    ghost use Rattle.inverse_strip.specs.Cells.{row_place, number_in};

    /// Returns a block row in which all numbers are 0.
    pub fn new(alloc: Global, columns: usize) -> Result<BlockRow, AllocError>
        requires { columns ≤ 2 ^ 17 }
        ensures columns { IfOk result (λ s. s.columns ≡ columns) }
        ensures zero { IfOk result (λ s. (p : Place) → number_in s.columns s.rows p ≡ pos 0) }
    {
        let mut rows = RowTable::new(alloc);
        rows.add(alloc, 12, 4 * columns)?;
        rows.add(alloc, 6, 2 * columns)?;
        rows.add(alloc, 4, columns)?;
        Ok(BlockRow { columns, rows })
    }

    /// Returns a row of a band.
    pub fn row(&self, band: usize, row: usize) -> &[i32]
        requires band { band < 10 }
        requires row { row < block_side band }
        ensures wide { length result.now ≡ block_side band * self.now.columns }
        ensures value { (j : ℕ) → j < block_side band * self.now.columns → signal result.now j
            ≡ number_in self.now.columns self.now.rows
            (record { band = band; row = row; column = j }) }
        ensures small { AllWithin (2 ^ 27) (block_side band * self.now.columns) (signal result.now) }
    {
        self.rows.at(rows_before(band) + row)
    }

    /// Makes a value the number at a place.
    #[inline(always)]
    pub fn set(&mut self, band: usize, row: usize, column: usize, value: i64)
        requires band { band < 10 }
        requires row { row < block_side band }
        requires column { column < block_side band * self.old.columns }
        requires small { IsWithin (2 ^ 27) value }
        ensures columns { self.new.columns ≡ self.old.columns }
        ensures value { number_in self.new.columns self.new.rows
            (record { band = band; row = row; column = column }) ≡ value }
        ensures others { (p : Place) → (p ≡ record { band = band; row = row; column = column } → ⊥)
            → number_in self.new.columns self.new.rows p
            ≡ number_in self.old.columns self.old.rows p }
    {
        self.rows.set(rows_before(band) + row, column, value as i32);
    }

    /// Makes four values the numbers of a square of two rows and two columns, the upper two first.
    #[inline(always)]
    pub fn set_square(&mut self, band: usize, row: usize, column: usize, values: [i64; 4])
        requires band { band < 10 }
        requires rows { row + 2 ≤ block_side band }
        requires inside { column + 2 ≤ block_side band * self.old.columns }
        requires small { (k : ℕ) → k < 4 → IsWithin (2 ^ 27) (slice_index_or values k (pos 0)) }
        ensures columns { self.new.columns ≡ self.old.columns }
        ensures values { SetsSquare (number_in self.old.columns self.old.rows)
            (number_in self.new.columns self.new.rows)
            (record { band = band; row = row; column = column }) values }
    {
        self.set(band, row, column, values[0]);
        self.set(band, row, column + 1, values[1]);
        self.set(band, row + 1, column, values[2]);
        self.set(band, row + 1, column + 1, values[3]);
    }

    /// Makes a row of a band the newest of a ring, and takes the oldest of the ring in its place.
    pub fn turn_into(&mut self, band: usize, row: usize, ring: &mut RowRing<i32>)
        requires band { band < 10 }
        requires row { row < block_side band }
        requires wide { length (slice_index_or ring.old 0 []) ≡ block_side band * self.old.columns }
        requires small { AllWithin (2 ^ 27) (block_side band * self.old.columns) (signal (slice_index_or ring.old 0 [])) }
        ensures columns { self.new.columns ≡ self.old.columns }
        ensures ring { ring.new ≡ drop 1 ring.old ++ slice_index_or self.old.rows (row_place band row) [] ∷ [] }
        ensures others { (i : ℕ) → i ≢ row_place band row
            → slice_index_or self.new.rows i [] ≡ slice_index_or self.old.rows i [] }
    {
        self.rows.turn_into(rows_before(band) + row, ring);
    }

    /// Makes all numbers 0.
    pub fn clear(&mut self)
        ensures columns { self.new.columns ≡ self.old.columns }
        ensures zero { (p : Place) → number_in self.new.columns self.new.rows p ≡ pos 0 }
    {
        self.rows.clear();
    }
}
