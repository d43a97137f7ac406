//! Lifting steps on lanes.

ghost use Rattle.std.specs.Prelude.{◌≡◌, ◌*◌, ◌^◌, length};
ghost use Rattle.wave_defs.specs.Within.{AllWithin};
ghost use Rattle.wave_defs.specs.Held.{Agrees, signal};
ghost use Rattle.wave_defs.specs.Lifted.{less_predicted, less_correction, plus_predicted, plus_correction};

use std::simd::prelude::*;

/// Returns eight high samples.
#[inline(always)]
pub fn high_lanes(odd: i32x8, a: i32x8, b: i32x8, c: i32x8, d: i32x8) -> i32x8
    requires many { (length odd ≡ 8) × (length a ≡ 8) × (length b ≡ 8) × (length c ≡ 8) × (length d ≡ 8) }
    requires bounded { AllWithin (2 ^ 26) 8 (signal odd) }
    requires bounded_a { AllWithin (2 ^ 26) 8 (signal a) }
    requires bounded_b { AllWithin (2 ^ 26) 8 (signal b) }
    requires bounded_c { AllWithin (2 ^ 26) 8 (signal c) }
    requires bounded_d { AllWithin (2 ^ 26) 8 (signal d) }
    ensures long { length result ≡ 8 }
    ensures value { Agrees 8 (signal result)
        (less_predicted (signal odd) (signal a) (signal b) (signal c) (signal d)) }
{
    let near = i32x8::splat(9) * (b + c);
    let sum = near - (a + d) + i32x8::splat(8);
    odd - (sum >> i32x8::splat(4))
}

/// Returns eight low samples.
#[inline(always)]
pub fn low_lanes(even: i32x8, before: i32x8, after: i32x8) -> i32x8
    requires many { (length even ≡ 8) × (length before ≡ 8) × (length after ≡ 8) }
    requires bounded { AllWithin (2 ^ 26) 8 (signal even) }
    requires bounded_before { AllWithin (2 ^ 26) 8 (signal before) }
    requires bounded_after { AllWithin (2 ^ 26) 8 (signal after) }
    ensures long { length result ≡ 8 }
    ensures value { Agrees 8 (signal result)
        (less_correction (signal even) (signal before) (signal after)) }
{
    even - ((i32x8::splat(2) - (before + after)) >> i32x8::splat(2))
}

/// Returns four odd samples.
#[inline(always)]
pub fn odd_lanes(high: i64x4, a: i64x4, b: i64x4, c: i64x4, d: i64x4) -> i64x4
    requires many { (length high ≡ 4) × (length a ≡ 4) × (length b ≡ 4) × (length c ≡ 4) × (length d ≡ 4) }
    requires bounded { AllWithin (2 ^ 40) 4 (signal high) }
    requires bounded_a { AllWithin (2 ^ 40) 4 (signal a) }
    requires bounded_b { AllWithin (2 ^ 40) 4 (signal b) }
    requires bounded_c { AllWithin (2 ^ 40) 4 (signal c) }
    requires bounded_d { AllWithin (2 ^ 40) 4 (signal d) }
    ensures long { length result ≡ 4 }
    ensures value { Agrees 4 (signal result)
        (plus_predicted (signal high) (signal a) (signal b) (signal c) (signal d)) }
{
    let near = i64x4::splat(9) * (b + c);
    let sum = near - (a + d) + i64x4::splat(8);
    high + (sum >> i64x4::splat(4))
}

/// Returns four even samples.
#[inline(always)]
pub fn even_lanes(low: i64x4, before: i64x4, after: i64x4) -> i64x4
    requires many { (length low ≡ 4) × (length before ≡ 4) × (length after ≡ 4) }
    requires bounded { AllWithin (2 ^ 40) 4 (signal low) }
    requires bounded_before { AllWithin (2 ^ 40) 4 (signal before) }
    requires bounded_after { AllWithin (2 ^ 40) 4 (signal after) }
    ensures long { length result ≡ 4 }
    ensures value { Agrees 4 (signal result)
        (plus_correction (signal low) (signal before) (signal after)) }
{
    low + ((i64x4::splat(2) - (before + after)) >> i64x4::splat(2))
}

/// Returns eight odd samples, computed in 32 bits: what is predicted is divided by eight, and then by two.
#[inline(always)]
pub fn odd_lanes_narrow(high: i32x8, a: i32x8, b: i32x8, c: i32x8, d: i32x8) -> i32x8
    requires many { (length high ≡ 8) × (length a ≡ 8) × (length b ≡ 8) × (length c ≡ 8) × (length d ≡ 8) }
    requires bounded { AllWithin (2 ^ 30) 8 (signal high) }
    requires bounded_a { AllWithin (7 * 2 ^ 26) 8 (signal a) }
    requires bounded_b { AllWithin (7 * 2 ^ 26) 8 (signal b) }
    requires bounded_c { AllWithin (7 * 2 ^ 26) 8 (signal c) }
    requires bounded_d { AllWithin (7 * 2 ^ 26) 8 (signal d) }
    ensures long { length result ≡ 8 }
    ensures value { Agrees 8 (signal result)
        (plus_predicted (signal high) (signal a) (signal b) (signal c) (signal d)) }
{
    let near = b + c;
    let eighth = (near - (a + d) + i32x8::splat(8)) >> i32x8::splat(3);
    high + ((near + eighth) >> i32x8::splat(1))
}

/// Returns eight even samples, computed in 32 bits.
#[inline(always)]
pub fn even_lanes_narrow(low: i32x8, before: i32x8, after: i32x8) -> i32x8
    requires many { (length low ≡ 8) × (length before ≡ 8) × (length after ≡ 8) }
    requires bounded { AllWithin (3 * 2 ^ 29) 8 (signal low) }
    requires bounded_before { AllWithin (3 * 2 ^ 27) 8 (signal before) }
    requires bounded_after { AllWithin (3 * 2 ^ 27) 8 (signal after) }
    ensures long { length result ≡ 8 }
    ensures value { Agrees 8 (signal result)
        (plus_correction (signal low) (signal before) (signal after)) }
{
    low + ((i32x8::splat(2) - (before + after)) >> i32x8::splat(2))
}
