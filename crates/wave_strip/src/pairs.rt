//! The high and the low row of a pair of rows, from rings of the rows round it.

ghost use Rattle.std.specs.Prelude.{◌≡◌, ℕ, ◌+◌, ◌*◌, ◌-◌, ◌^◌, ◌<◌, ◌≤◌, ℤ, length};
ghost use Rattle.wave_defs.specs.Within.{AllWithin};
ghost use Rattle.wave_defs.specs.Held.{Agrees, signal};
ghost use Rattle.wave_defs.specs.Rolling.{open_high, open_low};
ghost use Rattle.wave_defs.specs.Rings.{AreRows, RowsWithin, AreNewest, even_rows, odd_rows};

use lift_rows::{EvenRows, predict_sub_onto, update_sub_onto};
use line_rings::RowRing;

/// Computes high row j, if even row j + 2 and odd row j + 1 are the newest (docs/formats.md, "A line"). The
/// second even row is used in place of the one before the first.
pub fn high_row(evens: &RowRing<i32>, odds: &RowRing<i32>, j: usize, into: &mut [i32])
    requires evens { AreRows 4 (length into.old) evens.now }
    requires odds { AreRows 2 (length into.old) odds.now }
    requires small_evens { RowsWithin (2 ^ 24) (length into.old) evens.now }
    requires small_odds { RowsWithin (2 ^ 24) (length into.old) odds.now }
    ensures value { (a : ℕ → ℕ → ℤ) → AreNewest (even_rows a) (length into.old) (j + 3) evens.now
        → AreNewest (odd_rows a) (length into.old) (j + 2) odds.now
        → Agrees (length into.old) (signal into.new) (open_high a j) }
    ensures small { (m : ℕ) → 2 ≤ m → RowsWithin (2 * m) (length into.old) evens.now
        → RowsWithin (2 * m) (length into.old) odds.now
        → AllWithin (5 * m) (length into.old) (signal into.new) }
{
    let before = if j == 0 { 2 } else { 0 };
    let around = EvenRows {
        second_before: evens.at(before),
        before: evens.at(1),
        after: evens.at(2),
        second_after: evens.at(3),
    };
    predict_sub_onto(into, odds.at(0), around);
}

/// Computes low row j, if high row j is the newest of `kept` (docs/formats.md, "A line"). The first high row
/// is used in place of the one before it.
pub fn low_row(evens: &RowRing<i32>, highs: &RowRing<i32>, kept: usize, j: usize, into: &mut [i32])
    requires evens { AreRows 4 (length into.old) evens.now }
    requires highs { AreRows kept (length into.old) highs.now }
    requires two { 2 ≤ kept }
    requires small_evens { RowsWithin (2 ^ 24) (length into.old) evens.now }
    requires small_highs { RowsWithin (2 ^ 26) (length into.old) highs.now }
    ensures value { (a : ℕ → ℕ → ℤ) → AreNewest (even_rows a) (length into.old) (j + 3) evens.now
        → AreNewest (open_high a) (length into.old) (j + 1) highs.now
        → Agrees (length into.old) (signal into.new) (open_low a j) }
    ensures small { (m : ℕ) → 2 ≤ m → RowsWithin (2 * m) (length into.old) evens.now
        → RowsWithin (5 * m) (length into.old) highs.now
        → AllWithin (5 * m) (length into.old) (signal into.new) }
{
    let before = if j == 0 { kept - 1 } else { kept - 2 };
    update_sub_onto(into, evens.at(1), highs.at(before), highs.at(kept - 1));
}
