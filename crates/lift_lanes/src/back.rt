//! The kernels of the inverse on rows of 32 bits. Sums that may not fit 32 bits are computed in 64.

ghost use Rattle.std.specs.Prelude.{◌≡◌, ℕ, ◌*◌, ◌-◌, ◌^◌, length};
ghost use Rattle.wave_defs.specs.Within.{AllWithin};
ghost use Rattle.wave_defs.specs.Held.{Agrees, signal};
ghost use Rattle.wave_defs.specs.Lifted.{plus_predicted, plus_correction};

use crate::back_samples::{even_sample_narrow, odd_sample_narrow};
use crate::lanes::{even_lanes_narrow, odd_lanes_narrow};
use std::simd::prelude::*;

/// Adds to each high sample what the even ones round it predict (docs/formats.md, "A line"), in sums that fit 32 bits.
pub fn predict_add_narrow(odd: &mut [i32], a: &[i32], b: &[i32], c: &[i32], d: &[i32])
    requires long_a { length a.now ≡ length odd.old }
    requires long_b { length b.now ≡ length odd.old }
    requires long_c { length c.now ≡ length odd.old }
    requires long_d { length d.now ≡ length odd.old }
    requires bounded { AllWithin (2 ^ 30) (length odd.old) (signal odd.old) }
    requires bounded_a { AllWithin (7 * 2 ^ 26) (length odd.old) (signal a.now) }
    requires bounded_b { AllWithin (7 * 2 ^ 26) (length odd.old) (signal b.now) }
    requires bounded_c { AllWithin (7 * 2 ^ 26) (length odd.old) (signal c.now) }
    requires bounded_d { AllWithin (7 * 2 ^ 26) (length odd.old) (signal d.now) }
    ensures { Agrees (length odd.old) (signal odd.new)
        (plus_predicted (signal odd.old) (signal a.now) (signal b.now) (signal c.now) (signal d.now)) }
{
    let whole = odd.len() / 8;
    'lanes: for k in 0..whole {
        let i = 8 * k;
        let lanes = odd_lanes_narrow(
            i32x8::from_slice(&odd[i..]),
            i32x8::from_slice(&a[i..]),
            i32x8::from_slice(&b[i..]),
            i32x8::from_slice(&c[i..]),
            i32x8::from_slice(&d[i..]),
        );
        lanes.copy_to_slice(&mut odd[i..]);
    }
    'rest: for j in 8 * whole..odd.len() {
        odd[j] = odd_sample_narrow(odd[j], a[j], b[j], c[j], d[j]);
    }
}

/// Adds to each high sample what the even ones round it predict (docs/formats.md, "A line"), in sums of 64 bits. What it
/// makes fits 32 bits.
pub fn predict_add_widened(odd: &mut [i32], a: &[i32], b: &[i32], c: &[i32], d: &[i32])
    requires long_a { length a.now ≡ length odd.old }
    requires long_b { length b.now ≡ length odd.old }
    requires long_c { length c.now ≡ length odd.old }
    requires long_d { length d.now ≡ length odd.old }
    requires bounded { AllWithin (2 ^ 31 - 1) (length odd.old) (signal odd.old) }
    requires bounded_a { AllWithin (2 ^ 31 - 1) (length odd.old) (signal a.now) }
    requires bounded_b { AllWithin (2 ^ 31 - 1) (length odd.old) (signal b.now) }
    requires bounded_c { AllWithin (2 ^ 31 - 1) (length odd.old) (signal c.now) }
    requires bounded_d { AllWithin (2 ^ 31 - 1) (length odd.old) (signal d.now) }
    requires fits { AllWithin (2 ^ 31 - 1) (length odd.old)
        (plus_predicted (signal odd.old) (signal a.now) (signal b.now) (signal c.now) (signal d.now)) }
    ensures { Agrees (length odd.old) (signal odd.new)
        (plus_predicted (signal odd.old) (signal a.now) (signal b.now) (signal c.now) (signal d.now)) }
{
    for j in 0..odd.len() {
        odd[j] = odd_sample_narrow(odd[j], a[j], b[j], c[j], d[j]);
    }
}

/// Adds to each low sample the correction of the high ones on both sides (docs/formats.md, "A line").
pub fn update_add_narrow(even: &mut [i32], before: &[i32], after: &[i32])
    requires long_before { length before.now ≡ length even.old }
    requires long_after { length after.now ≡ length even.old }
    requires bounded { AllWithin (3 * 2 ^ 29) (length even.old) (signal even.old) }
    requires bounded_before { AllWithin (3 * 2 ^ 27) (length even.old) (signal before.now) }
    requires bounded_after { AllWithin (3 * 2 ^ 27) (length even.old) (signal after.now) }
    ensures { Agrees (length even.old) (signal even.new)
        (plus_correction (signal even.old) (signal before.now) (signal after.now)) }
{
    let whole = even.len() / 8;
    'lanes: for k in 0..whole {
        let i = 8 * k;
        let lanes = even_lanes_narrow(
            i32x8::from_slice(&even[i..]),
            i32x8::from_slice(&before[i..]),
            i32x8::from_slice(&after[i..]),
        );
        lanes.copy_to_slice(&mut even[i..]);
    }
    'rest: for j in 8 * whole..even.len() {
        even[j] = even_sample_narrow(even[j], before[j], after[j]);
    }
}
