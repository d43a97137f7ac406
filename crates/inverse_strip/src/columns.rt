//! The columns of one level, put together row by row.

ghost use Rattle.std.specs.Prelude.{◌≡◌, ℕ, ◌+◌, ◌*◌, ◌-◌, ◌/◌, ◌^◌, ◌<◌, ◌≤◌, ℤ, length, vec_len, true};
ghost use Rattle.std.specs.Bool.{OnTrue};
ghost use Rattle.wave_defs.specs.Lifted.{columns_even, columns_odd, plus_predicted};
ghost use Rattle.wave_defs.specs.Within.{AllWithin};
ghost use Rattle.wave_defs.specs.Held.{Agrees, signal};
ghost use Rattle.wave_defs.specs.Rings.{AreRows, RowsWithin, AreNewest};
ghost use Rattle.inverse_strip.specs.Kept.{AreRings, ArePairsWithin};

use crate::zeros::are_zero;
use lift_rows::{
    EvenRows, mirrored_after, mirrored_before, predict_add_narrow, predict_add_widened,
    update_add_narrow,
};
use line_rings::RowRing;
use std::alloc::{AllocError, Global};

/// Makes even row j of low row j, which is in `row`, of high row j and of the high row before it, which is the newest of the
/// ring (docs/formats.md, "A line"). The first high row is used in place of the one before it.
fn even_row(highs: &RowRing<i32>, j: usize, high: &[i32], row: &mut [i32])
    requires highs { AreRows 3 (length row.old) highs.now }
    requires wide_high { length high.now ≡ length row.old }
    requires small_highs { RowsWithin (2 ^ 27) (length row.old) highs.now }
    requires small_low { AllWithin (375 * 2 ^ 22) (length row.old) (signal row.old) }
    requires small_high { AllWithin (2 ^ 27) (length row.old) (signal high.now) }
    ensures { (c d : ℕ → ℕ → ℤ) → AreNewest d (length row.old) j highs.now
        → Agrees (length row.old) (signal row.old) (c j)
        → Agrees (length row.old) (signal high.now) (d j)
        → Agrees (length row.old) (signal row.new) (columns_even c d j) }
{
    if j == 0 {
        update_add_narrow(row, high, high);
        return;
    }
    update_add_narrow(row, highs.at(2), high);
}

/// Adds to a high row what the even rows round it predict. What it makes fits 32 bits, and if `small` the sums do too.
fn predict(row: &mut [i32], evens: EvenRows<i32>, small: bool)
    requires long_a { length evens.second_before.now ≡ length row.old }
    requires long_b { length evens.before.now ≡ length row.old }
    requires long_c { length evens.after.now ≡ length row.old }
    requires long_d { length evens.second_after.now ≡ length row.old }
    requires bounded { AllWithin (2 ^ 27) (length row.old) (signal row.old) }
    requires bounded_a { AllWithin (2 ^ 31 - 1) (length row.old) (signal evens.second_before.now) }
    requires bounded_b { AllWithin (2 ^ 31 - 1) (length row.old) (signal evens.before.now) }
    requires bounded_c { AllWithin (2 ^ 31 - 1) (length row.old) (signal evens.after.now) }
    requires bounded_d { AllWithin (2 ^ 31 - 1) (length row.old) (signal evens.second_after.now) }
    requires fits { AllWithin (2 ^ 31 - 1) (length row.old)
        (plus_predicted (signal row.old) (signal evens.second_before.now) (signal evens.before.now) (signal evens.after.now)
        (signal evens.second_after.now)) }
    requires small_a { OnTrue small (AllWithin (7 * 2 ^ 26) (length row.old) (signal evens.second_before.now)) }
    requires small_b { OnTrue small (AllWithin (7 * 2 ^ 26) (length row.old) (signal evens.before.now)) }
    requires small_c { OnTrue small (AllWithin (7 * 2 ^ 26) (length row.old) (signal evens.after.now)) }
    requires small_d { OnTrue small (AllWithin (7 * 2 ^ 26) (length row.old) (signal evens.second_after.now)) }
    ensures { Agrees (length row.old) (signal row.new)
        (plus_predicted (signal row.old) (signal evens.entry.second_before.now) (signal evens.entry.before.now)
        (signal evens.entry.after.now) (signal evens.entry.second_after.now)) }
{
    if small {
        predict_add_narrow(
            row,
            evens.second_before,
            evens.before,
            evens.after,
            evens.second_after,
        );
    } else {
        predict_add_widened(
            row,
            evens.second_before,
            evens.before,
            evens.after,
            evens.second_after,
        );
    }
}

/// The rows that are kept of the pairs of a low and a high row that were taken, and whether the low rows are within 2^27. All
/// rows fit 32 bits, since the low rows are within 375 * 2^22 and the high ones within 2^27.
#[derive(Drop)]
pub struct Columns {
    pub width: usize,
    pub taken: usize,
    pub evens: RowRing<i32>,
    pub highs: RowRing<i32>,
    pub small: bool,
    ghost sink_state: { AreRings width evens highs },
    ghost narrow: { RowsWithin (2 ^ 27) width highs },
    ghost within: { ArePairsWithin (375 * 2 ^ 22) width taken evens highs },
    ghost small_within: { small ≡ true → ArePairsWithin (2 ^ 27) width taken evens highs },
}

impl Columns {
    ghost use Rattle.std.specs.Prelude.{◌≡◌, ℕ, ◌+◌, ◌*◌, ◌-◌, ◌/◌, ◌%◌, ◌^◌, ◌<◌, ◌≤◌, ℤ, length, vec_len, IfOk, ◌&&◌, true};
    ghost use Rattle.wave_defs.specs.Level.{columns_merged};
    ghost use Rattle.wave_defs.specs.Lifted.{columns_even, columns_odd};
    ghost use Rattle.wave_defs.specs.Within.{AllWithin};
    ghost use Rattle.wave_defs.specs.Held.{Agrees, signal};
    ghost use Rattle.inverse_strip.specs.Columns.{Follow, IsSmall};
    ghost use Rattle.inverse_strip.specs.Zeros.{zeros, AreZeroColumns};

    /// Returns columns of which no pair was taken.
    pub fn new(alloc: Global, width: usize) -> Result<Columns, AllocError>
        ensures width { IfOk result (λ s. s.width ≡ width) }
        ensures taken { IfOk result (λ s. s.taken ≡ 0) }
        ensures small { IfOk result (λ s. s.small ≡ true) }
        ensures follows { IfOk result (λ s. (c d : ℕ → ℕ → ℤ) → Follow c d s) }
        ensures within { IfOk result (λ s. (m : ℕ) → IsSmall m s) }
    {
        let evens = RowRing::new(alloc, 4, width, 0)?;
        let highs = RowRing::new(alloc, 3, width, 0)?;
        Ok(Columns {
            width,
            taken: 0,
            evens,
            highs,
            small: true,
        })
    }

    /// Takes the next pair. The low row is in `row`, in which a row of the same width is left. If `small`, it is within 2^27.
    pub fn push(&mut self, row: &mut Vec<i32>, high: &[i32], small: bool)
        requires wide_low { vec_len row.old ≡ self.old.width }
        requires wide_high { length high.now ≡ self.old.width }
        requires few { self.old.taken < 2 ^ 32 - 1 }
        requires small_low { AllWithin (375 * 2 ^ 22) self.old.width (signal row.old.items) }
        requires small_high { AllWithin (2 ^ 27) self.old.width (signal high.now) }
        requires small { small ≡ true → AllWithin (2 ^ 27) self.old.width (signal row.old.items) }
        ensures width { self.new.width ≡ self.old.width }
        ensures taken { self.new.taken ≡ self.old.taken + 1 }
        ensures small { self.new.small ≡ (self.old.small && small) }
        ensures room { vec_len row.new ≡ self.old.width }
        ensures follows { (c d : ℕ → ℕ → ℤ) → Follow c d self.old
            → Agrees self.old.width (signal row.old.items) (c self.old.taken)
            → Agrees self.old.width (signal high.now) (d self.old.taken)
            → Follow c d self.new }
        ensures within { (m : ℕ) → IsSmall m self.old
            → AllWithin m self.old.width (signal row.old.items)
            → IsSmall m self.new }
    {
        even_row(&self.highs, self.taken, high, row);
        self.evens.turn_swap(row);
        self.highs.turn_copy(high);
        self.taken += 1;
        self.small &= small;
    }

    /// Takes the next pair, of two rows of zeros. All numbers that are kept are 0, and so are they afterwards.
    pub fn pass(&mut self)
        requires few { self.old.taken < 2 ^ 32 - 1 }
        requires zero { AreZeroColumns self.old }
        ensures width { self.new.width ≡ self.old.width }
        ensures taken { self.new.taken ≡ self.old.taken + 1 }
        ensures small { self.new.small ≡ self.old.small }
        ensures zero { AreZeroColumns self.new }
        ensures follows { (c d : ℕ → ℕ → ℤ) → Follow c d self.old
            → Agrees self.old.width zeros (c self.old.taken)
            → Agrees self.old.width zeros (d self.old.taken)
            → Follow c d self.new }
        ensures within { (m : ℕ) → IsSmall m self.old → IsSmall m self.new }
    {
        self.taken += 1;
    }

    /// Returns whether all numbers that are kept are 0.
    pub fn are_zero(&self) -> bool
        ensures { result ≡ true → AreZeroColumns self.now }
    {
        are_zero(&self.evens, 4) && are_zero(&self.highs, 3)
    }

    // Makes odd row k of the columns that end after the pairs that were taken. It is one of the newest.
    fn odd(&self, k: usize, into: &mut [i32])
        requires wide { length into.old ≡ self.now.width }
        requires inside { k < self.now.taken }
        requires kept { self.now.taken ≤ k + 3 }
        requires long { 3 ≤ self.now.taken }
        requires few { self.now.taken < 2 ^ 32 }
        ensures { (c d : ℕ → ℕ → ℤ) → Follow c d self.now
            → Agrees self.now.width (signal into.new) (columns_odd (columns_even c d) d self.now.taken k) }
    {
        let n = self.taken;
        into.copy_from_slice(self.highs.at(k + 3 - n));
        let around = EvenRows {
            second_before: self.evens.at(mirrored_before(k) + 4 - n),
            before: self.evens.at(k + 4 - n),
            after: self.evens.at(mirrored_after(n, k + 1) + 4 - n),
            second_after: self.evens.at(mirrored_after(n, k + 2) + 4 - n),
        };
        predict(into, around, self.small);
    }

    /// Makes row i of the columns that end after the pairs that were taken. It is one of the newest.
    pub fn row(&self, i: usize, into: &mut [i32])
        requires wide { length into.old ≡ self.now.width }
        requires inside { i < 2 * self.now.taken }
        requires kept { self.now.taken ≤ i / 2 + 3 }
        requires long { 3 ≤ self.now.taken }
        requires few { self.now.taken < 2 ^ 32 }
        ensures { (c d : ℕ → ℕ → ℤ) → Follow c d self.now
            → Agrees self.now.width (signal into.new) (columns_merged c d self.now.taken i) }
    {
        if i % 2 == 0 {
            into.copy_from_slice(self.evens.at(i / 2 + 4 - self.taken));
            return;
        }
        self.odd(i / 2, into);
    }
}
