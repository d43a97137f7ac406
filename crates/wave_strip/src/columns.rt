//! The columns of one level, row by row.

ghost use Rattle.std.specs.Prelude.{◌≡◌, ℕ, ◌+◌, ◌*◌, ◌-◌, ◌^◌, ◌<◌, ◌≤◌, ℤ, vec_len};
ghost use Rattle.wave_strip.specs.Kept.{AreRings, pairs_in};

use crate::pairs::{high_row, low_row};
use line_rings::RowRing;
use std::alloc::{AllocError, Global};

/// The rows that are kept of an image of which some rows were taken. Each even row from the third on gives a
/// low and a high row, and `kept` of each are kept.
#[derive(Drop)]
pub struct Columns {
    pub width: usize,
    pub kept: usize,
    pub taken: usize,
    pub evens: RowRing<i32>,
    pub odds: RowRing<i32>,
    pub lows: RowRing<i32>,
    pub highs: RowRing<i32>,
    ghost sink_state: { AreRings width kept evens odds lows highs },
}

/// Returns how many pairs this number of rows gives.
fn pairs_of(taken: usize) -> usize
    requires { taken < 2 ^ 32 }
    ensures { result ≡ pairs_in taken }
{
    ((taken + 1) / 2).saturating_sub(2)
}

impl Columns {
    ghost use Rattle.std.specs.Prelude.{◌≡◌, ℕ, ◌+◌, ◌*◌, ◌-◌, ◌^◌, ◌<◌, ◌≤◌, ℤ, pos, length, vec_len, slice_index_or, IfOk};
    ghost use Rattle.wave_defs.specs.Within.{AllWithin};
    ghost use Rattle.wave_defs.specs.Held.{Agrees, signal};
    ghost use Rattle.wave_defs.specs.Rolling.{open_low, mirrored};
    ghost use Rattle.wave_strip.specs.Samples.{column_samples};
    ghost use Rattle.wave_strip.specs.Kept.{HoldPairs};
    ghost use Rattle.wave_strip.specs.Columns.{Follow, IsSmall, low_sample, high_sample};

    /// Returns columns of rows of zeros, at the start of an image. The only error is a lack of memory.
    pub fn new(alloc: Global, width: usize, kept: usize) -> Result<Columns, AllocError>
        requires { 2 ≤ kept }
        ensures width { IfOk result (λ c. c.width ≡ width) }
        ensures kept { IfOk result (λ c. c.kept ≡ kept) }
        ensures taken { IfOk result (λ c. c.taken ≡ 0) }
        ensures follows { IfOk result (λ c. (a : ℕ → ℕ → ℤ) → Follow a c) }
        ensures small { IfOk result (λ c. (m : ℕ) → IsSmall m c) }
    {
        Ok(Columns {
            width,
            kept,
            taken: 0,
            evens: RowRing::new(alloc, 4, width, 0)?,
            odds: RowRing::new(alloc, 2, width, 0)?,
            lows: RowRing::new(alloc, kept, width, 0)?,
            highs: RowRing::new(alloc, kept, width, 0)?,
        })
    }

    /// Takes the next row, and returns room for another one.
    pub fn push(&mut self, row: Vec<i32>) -> Vec<i32>
        requires wide { vec_len row ≡ self.old.width }
        requires few { self.old.taken < 2 ^ 32 }
        requires small { IsSmall (2 ^ 23) self.old }
        requires small_row { AllWithin (2 ^ 24) self.old.width (signal row.items) }
        ensures width { self.new.width ≡ self.old.width }
        ensures kept { self.new.kept ≡ self.old.kept }
        ensures taken { self.new.taken ≡ self.old.taken + 1 }
        ensures wide { vec_len result ≡ self.old.width }
        ensures follows { (a : ℕ → ℕ → ℤ) → Follow a self.old
            → Agrees self.old.width (signal row.items) (a self.old.taken) → Follow a self.new }
        ensures small { (m : ℕ) → 2 ≤ m → IsSmall m self.old
            → AllWithin (2 * m) self.old.width (signal row.items) → IsSmall m self.new }
    {
        self.taken += 1;
        if self.taken % 2 == 0 {
            return self.odds.turn(row);
        }
        let room = self.evens.turn(row);
        if self.taken < 5 {
            return room;
        }
        self.lift_pair((self.taken - 5) / 2, room)
    }

    // Makes pair j, after even row j + 2 was taken. `row` is room, and room is returned.
    fn lift_pair(&mut self, j: usize, row: Vec<i32>) -> Vec<i32>
        requires wide { vec_len row ≡ self.old.width }
        requires small { IsSmall (2 ^ 23) self.old }
        ensures width { self.new.width ≡ self.old.width }
        ensures kept { self.new.kept ≡ self.old.kept }
        ensures taken { self.new.taken ≡ self.old.taken }
        ensures wide { vec_len result ≡ self.old.width }
        ensures follows { (a : ℕ → ℕ → ℤ)
            → HoldPairs a self.old.width (j + 3) (j + 2) j self.old.evens self.old.odds self.old.lows self.old.highs
            → HoldPairs a self.old.width (j + 3) (j + 2) (j + 1) self.new.evens self.new.odds self.new.lows self.new.highs }
        ensures small { (m : ℕ) → 2 ≤ m → IsSmall m self.old → IsSmall m self.new }
    {
        let mut high = row;
        high_row(&self.evens, &self.odds, j, &mut high);
        let mut low = self.highs.turn(high);
        low_row(&self.evens, &self.highs, self.kept, j, &mut low);
        self.lows.turn(low)
    }

    /// Returns the row whose mirror is the next one after the last: the last even row, the last odd row
    /// except one and the last even row except one, in this order.
    pub fn mirror(&self, after: usize) -> &[i32]
        requires three { after < 3 }
        ensures wide { length result.now ≡ self.now.width }
        ensures value { (a : ℕ → ℕ → ℤ) (n : ℕ) → 2 ≤ n → self.now.taken ≡ 2 * n + after
            → Follow (mirrored a n) self.now
            → Agrees self.now.width (signal result.now) (mirrored a n self.now.taken) }
        ensures small { (m : ℕ) → IsSmall m self.now
            → AllWithin (2 * m) self.now.width (signal result.now) }
    {
        match after {
            0 => self.evens.at(3),
            1 => self.odds.at(0),
            _ => self.evens.at(1),
        }
    }

    /// Returns the newest low row.
    pub fn newest_low(&self) -> &[i32]
        requires { 1 ≤ pairs_in self.now.taken }
        ensures wide { length result.now ≡ self.now.width }
        ensures value { (a : ℕ → ℕ → ℤ) → Follow a self.now
            → Agrees self.now.width (signal result.now) (open_low a (pairs_in self.now.taken - 1)) }
        ensures small { (m : ℕ) → IsSmall m self.now
            → AllWithin (5 * m) self.now.width (signal result.now) }
    {
        self.lows.at(self.kept - 1)
    }

    /// Returns low row j, which is among those kept.
    pub fn low(&self, j: usize) -> &[i32]
        requires made { j < pairs_in self.now.taken }
        requires kept { pairs_in self.now.taken ≤ j + self.now.kept }
        requires few { self.now.taken < 2 ^ 32 }
        ensures wide { length result.now ≡ self.now.width }
        ensures samples { (column : ℕ) → slice_index_or result.now column (pos 0) ≡ low_sample self.now j column }
    {
        self.lows.at(self.kept - (pairs_of(self.taken) - j))
    }

    /// Returns high row j, which is among those kept.
    pub fn high(&self, j: usize) -> &[i32]
        requires made { j < pairs_in self.now.taken }
        requires kept { pairs_in self.now.taken ≤ j + self.now.kept }
        requires few { self.now.taken < 2 ^ 32 }
        ensures wide { length result.now ≡ self.now.width }
        ensures samples { (column : ℕ) → slice_index_or result.now column (pos 0) ≡ high_sample self.now j column }
    {
        self.highs.at(self.kept - (pairs_of(self.taken) - j))
    }

    /// Resets the columns to the start of an image.
    pub fn reset(&mut self)
        ensures width { self.new.width ≡ self.old.width }
        ensures kept { self.new.kept ≡ self.old.kept }
        ensures taken { self.new.taken ≡ 0 }
        ensures follows { (a : ℕ → ℕ → ℤ) → Follow a self.new }
        ensures small { (m : ℕ) → IsSmall m self.old → IsSmall m self.new }
    {
        self.taken = 0;
    }

    /// Returns how many samples the rings hold.
    pub fn samples(&self) -> u64
        requires kept { self.now.kept ≤ 13 }
        requires wide { self.now.width ≤ 2 ^ 20 }
        ensures value { result ≡ column_samples self.now }
        ensures sum { result ≡ (6 + 2 * self.now.kept) * self.now.width }
    {
        (6 + 2 * self.kept as u64) * self.width as u64
    }
}
