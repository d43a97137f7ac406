//! The lifting of one sample of 32 bits in the inverse (docs/formats.md, "A line").

ghost use Rattle.std.specs.Prelude.{◌≡◌, ◌-◌, ◌^◌, ◌+ℤ◌};
ghost use Rattle.wave_defs.specs.Line.{predicted, correction};
ghost use Rattle.wave_defs.specs.Within.{IsWithin};

use crate::wide_samples::{even_sample, odd_sample};

/// Returns an even sample from the low sample and the high ones on both sides. It fits 32 bits.
#[inline(always)]
pub fn even_sample_narrow(low: i32, before: i32, after: i32) -> i32
    requires fits { IsWithin (2 ^ 31 - 1) (low +ℤ correction before after) }
    ensures { result ≡ low +ℤ correction before after }
{
    even_sample(i64::from(low), i64::from(before), i64::from(after)) as i32
}

/// Returns an odd sample from the high sample and the even ones round it. It fits 32 bits.
#[inline(always)]
pub fn odd_sample_narrow(high: i32, a: i32, b: i32, c: i32, d: i32) -> i32
    requires fits { IsWithin (2 ^ 31 - 1) (high +ℤ predicted a b c d) }
    ensures { result ≡ high +ℤ predicted a b c d }
{
    odd_sample(
        i64::from(high),
        i64::from(a),
        i64::from(b),
        i64::from(c),
        i64::from(d),
    ) as i32
}
