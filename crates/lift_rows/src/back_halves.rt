//! The halves of a line in 32 bits that is joined again: the low and the high samples become the even and the odd ones.

ghost use Rattle.std.specs.Prelude.{◌≡◌, ℕ, ◌+◌, ◌*◌, ◌-◌, ◌^◌, ◌<◌, ◌≤◌, length};
ghost use Rattle.std.specs.Bool.{OnTrue};
ghost use Rattle.wave_defs.specs.Line.{even_of};
ghost use Rattle.wave_defs.specs.Within.{AllWithin};
ghost use Rattle.wave_defs.specs.Held.{Agrees, signal};
ghost use Rattle.lift_rows.specs.Halves.{evens, odds, odd_half, inner_half};

use lift_lanes::{
    even_sample_narrow, odd_sample_narrow, predict_add_narrow, predict_add_widened,
    update_add_narrow,
};

/// Replaces the low samples by the even ones. For the first of them the first high sample is used on both sides.
pub fn lift_even(even: &mut [i32], high: &[i32])
    requires same { length high.now ≡ length even.old }
    requires long { 1 ≤ length even.old }
    requires bounded { AllWithin (3 * 2 ^ 29) (length even.old) (signal even.old) }
    requires bounded_high { AllWithin (3 * 2 ^ 27) (length even.old) (signal high.now) }
    ensures { Agrees (length even.old) (signal even.new) (even_of (signal even.old) (signal high.now)) }
{
    let n = even.len();
    let first = even_sample_narrow(even[0], high[0], high[0]);
    update_add_narrow(&mut even[1..n], &high[0..n - 1], &high[1..n]);
    even[0] = first;
}

/// Replaces the high samples by the odd ones, which fit 32 bits. If `small`, the sums fit them too. Only the first and the
/// last two have even samples that are mirrored.
pub fn lift_odd(odd: &mut [i32], even: &[i32], small: bool)
    requires same { length even.now ≡ length odd.old }
    requires long { 3 ≤ length odd.old }
    requires bounded { AllWithin (2 ^ 30) (length odd.old) (signal odd.old) }
    requires bounded_even { AllWithin (2 ^ 31 - 1) (length odd.old) (signal even.now) }
    requires fits { AllWithin (2 ^ 31 - 1) (length odd.old)
        (odd_half (signal odd.old) (signal even.now) (length odd.old)) }
    requires small { OnTrue small (AllWithin (7 * 2 ^ 26) (length odd.old) (signal even.now)) }
    ensures { Agrees (length odd.old) (signal odd.new)
        (odd_half (signal odd.old) (signal even.now) (length odd.old)) }
{
    let n = odd.len();
    let first = odd_sample_narrow(odd[0], even[1], even[0], even[1], even[2]);
    let before_last = odd_sample_narrow(
        odd[n - 2],
        even[n - 3],
        even[n - 2],
        even[n - 1],
        even[n - 1],
    );
    let last = odd_sample_narrow(
        odd[n - 1],
        even[n - 2],
        even[n - 1],
        even[n - 1],
        even[n - 2],
    );
    lift_inner(&mut odd[1..n - 2], even, small);
    odd[0] = first;
    odd[n - 2] = before_last;
    odd[n - 1] = last;
}

// Replaces the high samples that have no mirrored even sample, all but the first and the last two.
fn lift_inner(odd: &mut [i32], even: &[i32], small: bool)
    requires same { length even.now ≡ length odd.old + 3 }
    requires bounded { AllWithin (2 ^ 30) (length odd.old) (signal odd.old) }
    requires bounded_even { AllWithin (2 ^ 31 - 1) (length even.now) (signal even.now) }
    requires fits { AllWithin (2 ^ 31 - 1) (length odd.old) (inner_half (signal odd.old) (signal even.now)) }
    requires small { OnTrue small (AllWithin (7 * 2 ^ 26) (length even.now) (signal even.now)) }
    ensures { Agrees (length odd.old) (signal odd.new) (inner_half (signal odd.old) (signal even.now)) }
{
    let n = odd.len();
    let (a, b, c, d) = (
        &even[0..n],
        &even[1..n + 1],
        &even[2..n + 2],
        &even[3..n + 3],
    );
    if small {
        predict_add_narrow(odd, a, b, c, d);
    } else {
        predict_add_widened(odd, a, b, c, d);
    }
}

/// Puts the even and the odd samples of a line into it.
pub fn interleave(even: &[i32], odd: &[i32], row: &mut [i32])
    requires same { length odd.now ≡ length even.now }
    requires room { length row.old ≡ 2 * length even.now }
    ensures even { Agrees (length even.now) (evens (signal row.new)) (signal even.now) }
    ensures odd { Agrees (length even.now) (odds (signal row.new)) (signal odd.now) }
{
    for j in 0..even.len() {
        row[2 * j] = even[j];
        row[2 * j + 1] = odd[j];
    }
}

/// Puts the even and the odd samples of a line into it, in 64 bits.
pub fn interleave_widened(even: &[i32], odd: &[i32], row: &mut [i64])
    requires same { length odd.now ≡ length even.now }
    requires room { length row.old ≡ 2 * length even.now }
    ensures even { Agrees (length even.now) (evens (signal row.new)) (signal even.now) }
    ensures odd { Agrees (length even.now) (odds (signal row.new)) (signal odd.now) }
{
    for j in 0..even.len() {
        row[2 * j] = i64::from(even[j]);
        row[2 * j + 1] = i64::from(odd[j]);
    }
}
