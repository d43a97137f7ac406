//! The lifting of one sample in the inverse, in i64 (docs/formats.md, "A line").

ghost use Rattle.std.specs.Prelude.{◌≡◌, ◌*◌, ◌^◌, ◌+ℤ◌};
ghost use Rattle.wave_defs.specs.Line.{predicted, correction};
ghost use Rattle.wave_defs.specs.Within.{IsWithin};

/// Returns the value that the even samples round an odd one predict.
fn predict(a: i64, b: i64, c: i64, d: i64) -> i64
    requires in_a { IsWithin (2 ^ 40) a }
    requires in_b { IsWithin (2 ^ 40) b }
    requires in_c { IsWithin (2 ^ 40) c }
    requires in_d { IsWithin (2 ^ 40) d }
    ensures value { result ≡ predicted a b c d }
    ensures small { IsWithin (3 * 2 ^ 39) result }
{
    (9 * (b + c) - (a + d) + 8) >> 4
}

/// Returns the correction of an even sample by the high samples on both sides.
fn correct(before: i64, after: i64) -> i64
    requires in_before { IsWithin (2 ^ 40) before }
    requires in_after { IsWithin (2 ^ 40) after }
    ensures value { result ≡ correction before after }
    ensures small { IsWithin (2 ^ 40) result }
{
    (2 - (before + after)) >> 2
}

/// Returns an even sample from the low sample and the high ones on both sides.
pub fn even_sample(low: i64, before: i64, after: i64) -> i64
    requires in_low { IsWithin (2 ^ 40) low }
    requires in_before { IsWithin (2 ^ 40) before }
    requires in_after { IsWithin (2 ^ 40) after }
    ensures { result ≡ low +ℤ correction before after }
{
    low + correct(before, after)
}

/// Returns an odd sample from the high sample and the even ones round it.
pub fn odd_sample(high: i64, a: i64, b: i64, c: i64, d: i64) -> i64
    requires in_high { IsWithin (2 ^ 40) high }
    requires in_a { IsWithin (2 ^ 40) a }
    requires in_b { IsWithin (2 ^ 40) b }
    requires in_c { IsWithin (2 ^ 40) c }
    requires in_d { IsWithin (2 ^ 40) d }
    ensures { result ≡ high +ℤ predicted a b c d }
{
    high + predict(a, b, c, d)
}
