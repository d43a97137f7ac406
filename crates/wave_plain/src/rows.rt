//! Passes along rows.

ghost use Rattle.std.specs.Prelude.{◌≡◌, ℕ, ◌+◌, ◌*◌, ◌-◌, ◌^◌, ◌<◌, ◌≤◌, length};
ghost use Rattle.wave_defs.specs.Level.{rows_low, rows_high, rows_merged};
ghost use Rattle.wave_defs.specs.Within.{EachWithin};
ghost use Rattle.wave_defs.specs.Held.{grid, SameWithin};

use crate::columns::row_of;
use lift_rows::{forward_row, inverse_row};

/// Splits each row of 2 * n cells into n low and n high ones.
pub fn split_rows(cells: &[i32], rows: usize, n: usize, low: &mut [i32], high: &mut [i32])
    requires whole { length cells.now ≡ rows * (2 * n) }
    requires low_half { length low.old ≡ rows * n }
    requires high_half { length high.old ≡ rows * n }
    requires long { 3 ≤ n }
    requires bounded { EachWithin (2 ^ 24) rows (2 * n) (grid (2 * n) cells.now) }
    ensures low { SameWithin rows n (grid n low.new) (rows_low (grid (2 * n) cells.now) n) }
    ensures high { SameWithin rows n (grid n high.new) (rows_high (grid (2 * n) cells.now) n) }
{
    for i in 0..rows {
        let row = &cells[i * (2 * n)..i * (2 * n) + 2 * n];
        forward_row(row, &mut low[i * n..i * n + n], &mut high[i * n..i * n + n]);
    }
}

/// Joins the rows of 2 * n cells that have these n low and n high ones.
pub fn join_rows(low: &[i64], high: &[i64], rows: usize, n: usize, into: &mut [i64])
    requires low_half { length low.now ≡ rows * n }
    requires high_half { length high.now ≡ rows * n }
    requires room { length into.old ≡ rows * (2 * n) }
    requires long { 3 ≤ n }
    requires low_bounded { EachWithin (2 ^ 38) rows n (grid n low.now) }
    requires high_bounded { EachWithin (2 ^ 38) rows n (grid n high.now) }
    ensures { SameWithin rows (2 * n) (grid (2 * n) into.new)
        (rows_merged (grid n low.now) (grid n high.now) n) }
{
    for i in 0..rows {
        let low_row = row_of(low, n, i);
        let high_row = row_of(high, n, i);
        inverse_row(
            low_row,
            high_row,
            &mut into[i * (2 * n)..i * (2 * n) + 2 * n],
        );
    }
}
