//! The halves of a line: its even and its odd samples, side by side.

ghost use Rattle.std.specs.Prelude.{◌≡◌, ℕ, ◌+◌, ◌*◌, ◌-◌, ◌^◌, ◌<◌, ◌≤◌, length};
ghost use Rattle.wave_defs.specs.Within.{AllWithin};
ghost use Rattle.wave_defs.specs.Held.{Agrees, signal};
ghost use Rattle.lift_rows.specs.Halves.{evens, odds, high_half, low_half};

use lift_lanes::{high_sample, low_sample, predict_sub, update_sub};

/// Splits a line into its even and its odd samples.
#[tactic(auto, using(wave_defs::proofs::Filled::fills), unfolding(crate::specs::Halves::evens, crate::specs::Halves::odds))]
pub fn split(row: &[i32], even: &mut [i32], odd: &mut [i32])
    requires halves { length row.now ≡ 2 * length even.old }
    requires same { length odd.old ≡ length even.old }
    ensures even { Agrees (length even.new) (signal even.new) (evens (signal row.now)) }
    ensures odd { Agrees (length even.new) (signal odd.new) (odds (signal row.now)) }
{
    for j in 0..even.len() {
        even[j] = row[2 * j];
        odd[j] = row[2 * j + 1];
    }
}

/// Replaces the odd samples by the high ones. Only the first and the last two have even samples that are
/// mirrored.
pub fn lift_high(even: &[i32], odd: &mut [i32])
    requires same { length even.now ≡ length odd.old }
    requires long { 3 ≤ length odd.old }
    requires bounded { AllWithin (2 ^ 26) (length odd.old) (signal odd.old) }
    requires bounded_even { AllWithin (2 ^ 26) (length odd.old) (signal even.now) }
    ensures { Agrees (length odd.old) (signal odd.new)
        (high_half (signal odd.old) (signal even.now) (length odd.old)) }
{
    let n = odd.len();
    let first = high_sample(odd[0], even[1], even[0], even[1], even[2]);
    let before_last = high_sample(
        odd[n - 2],
        even[n - 3],
        even[n - 2],
        even[n - 1],
        even[n - 1],
    );
    let last = high_sample(
        odd[n - 1],
        even[n - 2],
        even[n - 1],
        even[n - 1],
        even[n - 2],
    );
    predict_sub(
        &mut odd[1..n - 2],
        &even[0..n - 3],
        &even[1..n - 2],
        &even[2..n - 1],
        &even[3..n],
    );
    odd[0] = first;
    odd[n - 2] = before_last;
    odd[n - 1] = last;
}

/// Replaces the even samples by the low ones. For the first of them the first high sample is used on both
/// sides.
pub fn lift_low(even: &mut [i32], high: &[i32])
    requires same { length high.now ≡ length even.old }
    requires long { 1 ≤ length even.old }
    requires bounded { AllWithin (2 ^ 26) (length even.old) (signal even.old) }
    requires bounded_high { AllWithin (2 ^ 26) (length even.old) (signal high.now) }
    ensures { Agrees (length even.old) (signal even.new)
        (low_half (signal even.old) (signal high.now)) }
{
    let n = even.len();
    let first = low_sample(even[0], high[0], high[0]);
    update_sub(&mut even[1..n], &high[0..n - 1], &high[1..n]);
    even[0] = first;
}
