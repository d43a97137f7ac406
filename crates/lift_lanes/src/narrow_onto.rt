//! The forward kernels, in i32, from one row onto another.

ghost use Rattle.std.specs.Prelude.{◌≡◌, ℕ, ◌^◌, length};
ghost use Rattle.wave_defs.specs.Within.{AllWithin};
ghost use Rattle.wave_defs.specs.Held.{Agrees, signal};
ghost use Rattle.wave_defs.specs.Lifted.{less_predicted, less_correction};

use crate::even_rows::EvenRows;
use crate::lanes::{high_lanes, low_lanes};
use crate::samples::{high_sample, low_sample};
use std::simd::prelude::*;

/// Computes each high sample from its odd one and from what the even ones round it predict (docs/formats.md, "A line").
pub fn predict_sub_onto(high: &mut [i32], odd: &[i32], evens: EvenRows<i32>)
    requires long { length odd.now ≡ length high.old }
    requires long_a { length evens.second_before.now ≡ length high.old }
    requires long_b { length evens.before.now ≡ length high.old }
    requires long_c { length evens.after.now ≡ length high.old }
    requires long_d { length evens.second_after.now ≡ length high.old }
    requires bounded { AllWithin (2 ^ 26) (length high.old) (signal odd.now) }
    requires bounded_a { AllWithin (2 ^ 26) (length high.old) (signal evens.second_before.now) }
    requires bounded_b { AllWithin (2 ^ 26) (length high.old) (signal evens.before.now) }
    requires bounded_c { AllWithin (2 ^ 26) (length high.old) (signal evens.after.now) }
    requires bounded_d { AllWithin (2 ^ 26) (length high.old) (signal evens.second_after.now) }
    ensures { Agrees (length high.old) (signal high.new)
        (less_predicted (signal odd.now) (signal evens.entry.second_before.now) (signal evens.entry.before.now)
        (signal evens.entry.after.now) (signal evens.entry.second_after.now)) }
{
    let EvenRows {
        second_before,
        before,
        after,
        second_after,
    } = evens;
    let whole = high.len() / 8;
    'lanes: for k in 0..whole {
        let i = 8 * k;
        let lanes = high_lanes(
            i32x8::from_slice(&odd[i..]),
            i32x8::from_slice(&second_before[i..]),
            i32x8::from_slice(&before[i..]),
            i32x8::from_slice(&after[i..]),
            i32x8::from_slice(&second_after[i..]),
        );
        lanes.copy_to_slice(&mut high[i..]);
    }
    'rest: for j in 8 * whole..high.len() {
        high[j] = high_sample(
            odd[j],
            second_before[j],
            before[j],
            after[j],
            second_after[j],
        );
    }
}

/// Computes each low sample from its even one and from the correction of the high ones on both sides
/// (docs/formats.md, "A line").
pub fn update_sub_onto(low: &mut [i32], even: &[i32], before: &[i32], after: &[i32])
    requires long { length even.now ≡ length low.old }
    requires long_before { length before.now ≡ length low.old }
    requires long_after { length after.now ≡ length low.old }
    requires bounded { AllWithin (2 ^ 26) (length low.old) (signal even.now) }
    requires bounded_before { AllWithin (2 ^ 26) (length low.old) (signal before.now) }
    requires bounded_after { AllWithin (2 ^ 26) (length low.old) (signal after.now) }
    ensures { Agrees (length low.old) (signal low.new)
        (less_correction (signal even.now) (signal before.now) (signal after.now)) }
{
    let whole = low.len() / 8;
    'lanes: for k in 0..whole {
        let i = 8 * k;
        let lanes = low_lanes(
            i32x8::from_slice(&even[i..]),
            i32x8::from_slice(&before[i..]),
            i32x8::from_slice(&after[i..]),
        );
        lanes.copy_to_slice(&mut low[i..]);
    }
    'rest: for j in 8 * whole..low.len() {
        low[j] = low_sample(even[j], before[j], after[j]);
    }
}
