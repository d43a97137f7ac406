//! The kernels of the inverse, in i64.

ghost use Rattle.std.specs.Prelude.{◌≡◌, ℕ, ◌^◌, length};
ghost use Rattle.wave_defs.specs.Within.{AllWithin};
ghost use Rattle.wave_defs.specs.Held.{Agrees, signal};
ghost use Rattle.wave_defs.specs.Lifted.{plus_predicted, plus_correction};

use crate::lanes::{even_lanes, odd_lanes};
use crate::wide_samples::{even_sample, odd_sample};
use std::simd::prelude::*;

/// Adds to each high sample what the even ones round it predict (docs/formats.md, "A line").
pub fn predict_add(odd: &mut [i64], a: &[i64], b: &[i64], c: &[i64], d: &[i64])
    requires long_a { length a.now ≡ length odd.old }
    requires long_b { length b.now ≡ length odd.old }
    requires long_c { length c.now ≡ length odd.old }
    requires long_d { length d.now ≡ length odd.old }
    requires bounded { AllWithin (2 ^ 40) (length odd.old) (signal odd.old) }
    requires bounded_a { AllWithin (2 ^ 40) (length odd.old) (signal a.now) }
    requires bounded_b { AllWithin (2 ^ 40) (length odd.old) (signal b.now) }
    requires bounded_c { AllWithin (2 ^ 40) (length odd.old) (signal c.now) }
    requires bounded_d { AllWithin (2 ^ 40) (length odd.old) (signal d.now) }
    ensures { Agrees (length odd.old) (signal odd.new)
        (plus_predicted (signal odd.old) (signal a.now) (signal b.now) (signal c.now) (signal d.now)) }
{
    let whole = odd.len() / 4;
    'lanes: for k in 0..whole {
        let i = 4 * k;
        let lanes = odd_lanes(
            i64x4::from_slice(&odd[i..]),
            i64x4::from_slice(&a[i..]),
            i64x4::from_slice(&b[i..]),
            i64x4::from_slice(&c[i..]),
            i64x4::from_slice(&d[i..]),
        );
        lanes.copy_to_slice(&mut odd[i..]);
    }
    'rest: for j in 4 * whole..odd.len() {
        odd[j] = odd_sample(odd[j], a[j], b[j], c[j], d[j]);
    }
}

/// Adds to each low sample the correction of the high ones on both sides (docs/formats.md,
/// "A line").
pub fn update_add(even: &mut [i64], before: &[i64], after: &[i64])
    requires long_before { length before.now ≡ length even.old }
    requires long_after { length after.now ≡ length even.old }
    requires bounded { AllWithin (2 ^ 40) (length even.old) (signal even.old) }
    requires bounded_before { AllWithin (2 ^ 40) (length even.old) (signal before.now) }
    requires bounded_after { AllWithin (2 ^ 40) (length even.old) (signal after.now) }
    ensures { Agrees (length even.old) (signal even.new)
        (plus_correction (signal even.old) (signal before.now) (signal after.now)) }
{
    let whole = even.len() / 4;
    'lanes: for k in 0..whole {
        let i = 4 * k;
        let lanes = even_lanes(
            i64x4::from_slice(&even[i..]),
            i64x4::from_slice(&before[i..]),
            i64x4::from_slice(&after[i..]),
        );
        lanes.copy_to_slice(&mut even[i..]);
    }
    'rest: for j in 4 * whole..even.len() {
        even[j] = even_sample(even[j], before[j], after[j]);
    }
}
