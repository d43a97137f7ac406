//! Passes along columns, by whole rows.

ghost use Rattle.std.specs.Prelude.{◌≡◌, ℕ, ◌+◌, ◌*◌, ◌-◌, ◌^◌, ◌<◌, ◌≤◌, length, slice_range};
ghost use Rattle.wave_defs.specs.Level.{columns_low, columns_high, columns_merged};
ghost use Rattle.wave_defs.specs.Within.{AllWithin, EachWithin};
ghost use Rattle.wave_defs.specs.Held.{Agrees, SameWithin, signal, grid};
ghost use Rattle.wave_defs.specs.Rings.{even_rows, odd_rows};
ghost use Rattle.wave_defs.specs.Lifted.{less_predicted, less_correction, plus_predicted, plus_correction, columns_even, columns_odd};

use lift_rows::{
    EvenRows, mirrored_after, mirrored_before, predict_add, predict_sub, update_add, update_sub,
};

/// Returns row i of rows of w cells.
pub fn row_of<T>(cells: &[T], w: usize, i: usize) -> &[T]
    requires { i * w + w ≤ length cells.now }
    ensures whole { length result.now ≡ w }
    ensures row { result.now ≡ slice_range cells.now (i * w) (i * w + w) }
{
    &cells[i * w..i * w + w]
}

/// Computes the high row of an odd row and the four even rows round it.
fn high_row(odd: &[i32], evens: EvenRows<i32>, into: &mut [i32])
    requires long_a { length evens.second_before.now ≡ length odd.now }
    requires long_b { length evens.before.now ≡ length odd.now }
    requires long_c { length evens.after.now ≡ length odd.now }
    requires long_d { length evens.second_after.now ≡ length odd.now }
    requires room { length into.old ≡ length odd.now }
    requires bounded { AllWithin (2 ^ 26) (length odd.now) (signal odd.now) }
    requires bounded_a { AllWithin (2 ^ 26) (length odd.now) (signal evens.second_before.now) }
    requires bounded_b { AllWithin (2 ^ 26) (length odd.now) (signal evens.before.now) }
    requires bounded_c { AllWithin (2 ^ 26) (length odd.now) (signal evens.after.now) }
    requires bounded_d { AllWithin (2 ^ 26) (length odd.now) (signal evens.second_after.now) }
    ensures { Agrees (length odd.now) (signal into.new)
        (less_predicted (signal odd.now) (signal evens.entry.second_before.now) (signal evens.entry.before.now)
        (signal evens.entry.after.now) (signal evens.entry.second_after.now)) }
{
    into.copy_from_slice(odd);
    predict_sub(
        into,
        evens.second_before,
        evens.before,
        evens.after,
        evens.second_after,
    );
}

/// Computes the low row of an even row and the high rows on both sides.
fn low_row(even: &[i32], before: &[i32], after: &[i32], into: &mut [i32])
    requires long_before { length before.now ≡ length even.now }
    requires long_after { length after.now ≡ length even.now }
    requires room { length into.old ≡ length even.now }
    requires bounded { AllWithin (2 ^ 26) (length even.now) (signal even.now) }
    requires bounded_before { AllWithin (2 ^ 26) (length even.now) (signal before.now) }
    requires bounded_after { AllWithin (2 ^ 26) (length even.now) (signal after.now) }
    ensures { Agrees (length even.now) (signal into.new)
        (less_correction (signal even.now) (signal before.now) (signal after.now)) }
{
    into.copy_from_slice(even);
    update_sub(into, before, after);
}

/// Splits each column of 2 * n cells into n low and n high ones; a row has w cells.
pub fn split_columns(cells: &[i32], w: usize, n: usize, low: &mut [i32], high: &mut [i32])
    requires whole { length cells.now ≡ 2 * n * w }
    requires low_half { length low.old ≡ n * w }
    requires high_half { length high.old ≡ n * w }
    requires long { 3 ≤ n }
    requires short { n < 2 ^ 31 }
    requires bounded { EachWithin (2 ^ 24) (2 * n) w (grid w cells.now) }
    ensures low { SameWithin n w (grid w low.new) (columns_low (grid w cells.now) n) }
    ensures high { SameWithin n w (grid w high.new) (columns_high (grid w cells.now) n) }
{
    'highs: for i in 0..n {
        let odd = row_of(cells, w, 2 * i + 1);
        let evens = EvenRows {
            second_before: row_of(cells, w, 2 * mirrored_before(i)),
            before: row_of(cells, w, 2 * i),
            after: row_of(cells, w, 2 * mirrored_after(n, i + 1)),
            second_after: row_of(cells, w, 2 * mirrored_after(n, i + 2)),
        };
        high_row(odd, evens, &mut high[i * w..i * w + w]);
    }
    'lows: for i in 0..n {
        let even = row_of(cells, w, 2 * i);
        let before = row_of(high, w, i.saturating_sub(1));
        let after = row_of(high, w, i);
        low_row(even, before, after, &mut low[i * w..i * w + w]);
    }
}

/// Computes the even row of a low row and the high rows on both sides.
fn even_row(low: &[i64], before: &[i64], after: &[i64], into: &mut [i64])
    requires long_before { length before.now ≡ length low.now }
    requires long_after { length after.now ≡ length low.now }
    requires room { length into.old ≡ length low.now }
    requires bounded { AllWithin (2 ^ 40) (length low.now) (signal low.now) }
    requires bounded_before { AllWithin (2 ^ 40) (length low.now) (signal before.now) }
    requires bounded_after { AllWithin (2 ^ 40) (length low.now) (signal after.now) }
    ensures { Agrees (length low.now) (signal into.new)
        (plus_correction (signal low.now) (signal before.now) (signal after.now)) }
{
    into.copy_from_slice(low);
    update_add(into, before, after);
}

/// Computes the odd row of a high row and the four even rows round it.
fn odd_row(high: &[i64], evens: EvenRows<i64>, into: &mut [i64])
    requires long_a { length evens.second_before.now ≡ length high.now }
    requires long_b { length evens.before.now ≡ length high.now }
    requires long_c { length evens.after.now ≡ length high.now }
    requires long_d { length evens.second_after.now ≡ length high.now }
    requires room { length into.old ≡ length high.now }
    requires bounded { AllWithin (2 ^ 40) (length high.now) (signal high.now) }
    requires bounded_a { AllWithin (2 ^ 40) (length high.now) (signal evens.second_before.now) }
    requires bounded_b { AllWithin (2 ^ 40) (length high.now) (signal evens.before.now) }
    requires bounded_c { AllWithin (2 ^ 40) (length high.now) (signal evens.after.now) }
    requires bounded_d { AllWithin (2 ^ 40) (length high.now) (signal evens.second_after.now) }
    ensures { Agrees (length high.now) (signal into.new)
        (plus_predicted (signal high.now) (signal evens.entry.second_before.now) (signal evens.entry.before.now)
        (signal evens.entry.after.now) (signal evens.entry.second_after.now)) }
{
    into.copy_from_slice(high);
    predict_add(
        into,
        evens.second_before,
        evens.before,
        evens.after,
        evens.second_after,
    );
}

/// The low and the high rows that columns are joined from: `count` rows of `width` cells each.
#[derive(Clone, Copy)]
pub struct Halves<'a> {
    pub low: &'a [i64],
    pub high: &'a [i64],
    pub width: usize,
    pub count: usize,
}

/// Makes the even rows of an image from its halves.
fn join_even_rows(halves: Halves, into: &mut [i64])
    requires low_half { length halves.low.now ≡ halves.count * halves.width }
    requires high_half { length halves.high.now ≡ halves.count * halves.width }
    requires room { length into.old ≡ 2 * halves.count * halves.width }
    requires short { halves.count < 2 ^ 31 }
    requires low_bounded { EachWithin (2 ^ 40) halves.count halves.width (grid halves.width halves.low.now) }
    requires high_bounded { EachWithin (2 ^ 40) halves.count halves.width (grid halves.width halves.high.now) }
    ensures { SameWithin halves.entry.count halves.entry.width (even_rows (grid halves.entry.width into.new))
        (columns_even (grid halves.entry.width halves.entry.low.now) (grid halves.entry.width halves.entry.high.now)) }
{
    let w = halves.width;
    for i in 0..halves.count {
        let before = row_of(halves.high, w, i.saturating_sub(1));
        let after = row_of(halves.high, w, i);
        let here = row_of(halves.low, w, i);
        even_row(here, before, after, &mut into[2 * i * w..2 * i * w + w]);
    }
}

/// Makes the odd rows of an image from its high rows and its even rows, which are in their places. `row` is room for
/// the row that is computed.
fn join_odd_rows(halves: Halves, row: &mut [i64], into: &mut [i64])
    requires high_half { length halves.high.now ≡ halves.count * halves.width }
    requires row_room { length row.old ≡ halves.width }
    requires room { length into.old ≡ 2 * halves.count * halves.width }
    requires long { 3 ≤ halves.count }
    requires short { halves.count < 2 ^ 31 }
    requires even_bounded { EachWithin (2 ^ 40) halves.count halves.width (even_rows (grid halves.width into.old)) }
    requires high_bounded { EachWithin (2 ^ 40) halves.count halves.width (grid halves.width halves.high.now) }
    ensures even { SameWithin halves.entry.count halves.entry.width (even_rows (grid halves.entry.width into.new))
        (even_rows (grid halves.entry.width into.old)) }
    ensures odd { SameWithin halves.entry.count halves.entry.width (odd_rows (grid halves.entry.width into.new))
        (columns_odd (even_rows (grid halves.entry.width into.old)) (grid halves.entry.width halves.entry.high.now) halves.entry.count) }
{
    let (w, n) = (halves.width, halves.count);
    for i in 0..n {
        let evens = EvenRows {
            second_before: row_of(into, w, 2 * mirrored_before(i)),
            before: row_of(into, w, 2 * i),
            after: row_of(into, w, 2 * mirrored_after(n, i + 1)),
            second_after: row_of(into, w, 2 * mirrored_after(n, i + 2)),
        };
        odd_row(row_of(halves.high, w, i), evens, row);
        into[(2 * i + 1) * w..(2 * i + 1) * w + w].copy_from_slice(row);
    }
}

/// Joins each column of an image from its halves. `row` is room for the row that is computed.
pub fn join_columns(halves: Halves, row: &mut [i64], into: &mut [i64])
    requires low_half { length halves.low.now ≡ halves.count * halves.width }
    requires high_half { length halves.high.now ≡ halves.count * halves.width }
    requires row_room { length row.old ≡ halves.width }
    requires room { length into.old ≡ 2 * halves.count * halves.width }
    requires long { 3 ≤ halves.count }
    requires short { halves.count < 2 ^ 31 }
    requires low_bounded { EachWithin (2 ^ 38) halves.count halves.width (grid halves.width halves.low.now) }
    requires high_bounded { EachWithin (2 ^ 38) halves.count halves.width (grid halves.width halves.high.now) }
    ensures { SameWithin (2 * halves.entry.count) halves.entry.width (grid halves.entry.width into.new)
        (columns_merged (grid halves.entry.width halves.entry.low.now) (grid halves.entry.width halves.entry.high.now) halves.entry.count) }
{
    join_even_rows(halves, into);
    join_odd_rows(halves, row, into);
}
