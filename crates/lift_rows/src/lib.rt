//! This crate has one line of the wavelet transform, forward in i32 and its inverse in i32 and in i64, and the lifting
//! of whole rows.
//!
//! Layer: transform and blocks. It uses `wave_defs` and `lift_lanes`. It is used by `wave_strip`, `inverse_strip`, `wave_plain` and
//! `wave_tests`.
#![tactic(auto)]

ghost use Rattle.std.specs.Prelude.{◌≡◌, ℕ, ◌+◌, ◌*◌, ◌-◌, ◌^◌, ◌<◌, ◌≤◌, length};
ghost use Rattle.std.specs.Bool.{OnTrue};
ghost use Rattle.wave_defs.specs.Line.{even_before, even_within, high_of, low_of, even_of, odd_of, merged};
ghost use Rattle.wave_defs.specs.Within.{AllWithin};
ghost use Rattle.wave_defs.specs.Held.{Agrees, signal};

mod back;
mod back_halves;
mod back_widened;
mod halves;

pub use lift_lanes::{
    EvenRows, predict_add, predict_add_narrow, predict_add_widened, predict_sub, predict_sub_onto,
    update_add, update_add_narrow, update_sub, update_sub_onto,
};

/// Returns the number of the even sample before even sample `j`, if the line is mirrored (docs/formats.md, "A
/// line").
pub fn mirrored_before(j: usize) -> usize
    ensures { result ≡ even_before j }
{
    j.abs_diff(1)
}

/// Returns the number of even sample `k` of `n`, if the line is mirrored; `k` is at most one past the end
/// (docs/formats.md, "A line").
pub fn mirrored_after(n: usize, k: usize) -> usize
    requires within { k ≤ n + 1 }
    requires long { 3 ≤ n }
    requires fits { 2 * n < 2 ^ 64 }
    ensures value { result ≡ even_within n k }
    ensures inside { result < n }
{
    k.min(2 * n - 1 - k)
}

/// Computes the low and the high samples of a line (docs/formats.md, "A line").
///
/// The line has an even number of samples, at least 6 and each at most 2^24 in magnitude. `low` and
/// `high` have half as many each.
pub fn forward_row(row: &[i32], low: &mut [i32], high: &mut [i32])
    requires halves { length row.now ≡ 2 * length low.old }
    requires same { length high.old ≡ length low.old }
    requires long { 3 ≤ length low.old }
    requires bounded { AllWithin (2 ^ 24) (2 * length low.old) (signal row.now) }
    ensures low { Agrees (length low.new) (signal low.new)
        (low_of (signal row.now) (length low.new)) }
    ensures high { Agrees (length low.new) (signal high.new)
        (high_of (signal row.now) (length low.new)) }
{
    halves::split(row, low, high);
    halves::lift_high(low, high);
    halves::lift_low(low, high);
}

/// Computes the line that has these low and high samples (docs/formats.md, "A line").
///
/// `low` and `high` have the same length, at least 3, and samples of at most 2^38 in magnitude.
/// `row` has twice as many.
pub fn inverse_row(low: &[i64], high: &[i64], row: &mut [i64])
    requires halves { length row.old ≡ 2 * length low.now }
    requires same { length high.now ≡ length low.now }
    requires long { 3 ≤ length low.now }
    requires low_bounded { AllWithin (2 ^ 38) (length low.now) (signal low.now) }
    requires high_bounded { AllWithin (2 ^ 38) (length low.now) (signal high.now) }
    ensures { Agrees (2 * length low.now) (signal row.new)
        (merged (signal low.now) (signal high.now) (length low.now)) }
{
    let n = low.len();
    back::put_even(low, high, row, 0);
    back::put_even(low, high, row, 1);
    back::put_even(low, high, row, 2);
    back::put_odd(low, high, row, 0);
    'pairs: for j in 1..n - 2 {
        back::put_pair(low, high, row, j);
    }
    back::put_odd(low, high, row, n - 2);
    back::put_odd(low, high, row, n - 1);
}

/// Computes the even and the odd samples of the line that has these low and high samples, in their places (docs/formats.md,
/// "A line"). All samples fit 32 bits. If `small`, the sums fit them too.
fn inverse_halves(low: &mut [i32], high: &mut [i32], small: bool)
    requires same { length high.old ≡ length low.old }
    requires long { 3 ≤ length low.old }
    requires low_bounded { AllWithin (3 * 2 ^ 29) (length low.old) (signal low.old) }
    requires high_bounded { AllWithin (3 * 2 ^ 27) (length low.old) (signal high.old) }
    requires fits { AllWithin (2 ^ 31 - 1) (length low.old)
        (odd_of (signal low.old) (signal high.old) (length low.old)) }
    requires small_low { OnTrue small (AllWithin (9 * 2 ^ 25 + 2) (length low.old) (signal low.old)) }
    requires small_high { OnTrue small (AllWithin (9 * 2 ^ 25 + 2) (length low.old) (signal high.old)) }
    ensures even { Agrees (length low.old) (signal low.new) (even_of (signal low.old) (signal high.old)) }
    ensures odd { Agrees (length low.old) (signal high.new)
        (odd_of (signal low.old) (signal high.old) (length low.old)) }
{
    back_halves::lift_even(low, high);
    back_halves::lift_odd(high, low, small);
}

/// Computes the line that has these low and high samples (docs/formats.md, "A line"). It fits 32 bits. In place of the low and
/// the high samples it leaves the even and the odd ones. If `small`, the sums fit 32 bits too.
pub fn inverse_row_narrow(low: &mut [i32], high: &mut [i32], row: &mut [i32], small: bool)
    requires halves { length row.old ≡ 2 * length low.old }
    requires same { length high.old ≡ length low.old }
    requires long { 3 ≤ length low.old }
    requires low_bounded { AllWithin (3 * 2 ^ 29) (length low.old) (signal low.old) }
    requires high_bounded { AllWithin (3 * 2 ^ 27) (length low.old) (signal high.old) }
    requires fits { AllWithin (2 ^ 31 - 1) (length low.old)
        (odd_of (signal low.old) (signal high.old) (length low.old)) }
    requires small_low { OnTrue small (AllWithin (9 * 2 ^ 25 + 2) (length low.old) (signal low.old)) }
    requires small_high { OnTrue small (AllWithin (9 * 2 ^ 25 + 2) (length low.old) (signal high.old)) }
    ensures { Agrees (2 * length low.old) (signal row.new)
        (merged (signal low.old) (signal high.old) (length low.old)) }
{
    inverse_halves(low, high, small);
    back_halves::interleave(low, high, row);
}

// Computes the line that has these low and high samples, in sums of 64 bits.
fn inverse_row_long(low: &[i32], high: &[i32], row: &mut [i64])
    requires halves { length row.old ≡ 2 * length low.now }
    requires same { length high.now ≡ length low.now }
    requires long { 3 ≤ length low.now }
    requires low_bounded { AllWithin (2 ^ 31 - 1) (length low.now) (signal low.now) }
    requires high_bounded { AllWithin (2 ^ 31 - 1) (length low.now) (signal high.now) }
    ensures { Agrees (2 * length low.now) (signal row.new)
        (merged (signal low.now) (signal high.now) (length low.now)) }
{
    let n = low.len();
    'evens: for j in 0..n {
        back_widened::put_even_widened(low, high, row, j);
    }
    'odds: for j in 0..n {
        back_widened::put_odd_widened(low, high, row, j);
    }
}

/// Computes the line that has these low and high samples (docs/formats.md, "A line"), of which 64 bits are needed. If `small`,
/// the sums fit 32 bits; then it leaves the even and the odd samples in place of the low and the high ones.
pub fn inverse_row_widened(low: &mut [i32], high: &mut [i32], row: &mut [i64], small: bool)
    requires halves { length row.old ≡ 2 * length low.old }
    requires same { length high.old ≡ length low.old }
    requires long { 3 ≤ length low.old }
    requires low_bounded { AllWithin (2 ^ 31 - 1) (length low.old) (signal low.old) }
    requires high_bounded { AllWithin (2 ^ 31 - 1) (length low.old) (signal high.old) }
    requires small_low { OnTrue small (AllWithin (9 * 2 ^ 25 + 2) (length low.old) (signal low.old)) }
    requires small_high { OnTrue small (AllWithin (9 * 2 ^ 25 + 2) (length low.old) (signal high.old)) }
    ensures { Agrees (2 * length low.old) (signal row.new)
        (merged (signal low.old) (signal high.old) (length low.old)) }
{
    if small {
        inverse_halves(low, high, true);
        back_halves::interleave_widened(low, high, row);
        return;
    }
    inverse_row_long(low, high, row);
}
