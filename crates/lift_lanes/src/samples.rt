//! The lifting of one sample forward, in i32 (docs/formats.md, "A line").

ghost use Rattle.std.specs.Prelude.{◌≡◌, ◌*◌, ◌^◌, ◌-ℤ◌};
ghost use Rattle.wave_defs.specs.Line.{predicted, correction};
ghost use Rattle.wave_defs.specs.Within.{IsWithin};

/// Returns the value that the even samples round an odd one predict.
fn predict(a: i32, b: i32, c: i32, d: i32) -> i32
    requires in_a { IsWithin (2 ^ 26) a }
    requires in_b { IsWithin (2 ^ 26) b }
    requires in_c { IsWithin (2 ^ 26) c }
    requires in_d { IsWithin (2 ^ 26) d }
    ensures value { result ≡ predicted a b c d }
    ensures small { IsWithin (3 * 2 ^ 25) result }
{
    (9 * (b + c) - (a + d) + 8) >> 4
}

/// Returns the correction of an even sample by the high samples on both sides.
fn correct(before: i32, after: i32) -> i32
    requires in_before { IsWithin (2 ^ 26) before }
    requires in_after { IsWithin (2 ^ 26) after }
    ensures value { result ≡ correction before after }
    ensures small { IsWithin (2 ^ 26) result }
{
    (2 - (before + after)) >> 2
}

/// Returns a high sample from the odd sample and the even ones round it.
pub fn high_sample(odd: i32, a: i32, b: i32, c: i32, d: i32) -> i32
    requires in_odd { IsWithin (2 ^ 26) odd }
    requires in_a { IsWithin (2 ^ 26) a }
    requires in_b { IsWithin (2 ^ 26) b }
    requires in_c { IsWithin (2 ^ 26) c }
    requires in_d { IsWithin (2 ^ 26) d }
    ensures { result ≡ odd -ℤ predicted a b c d }
{
    odd - predict(a, b, c, d)
}

/// Returns a low sample from the even sample and the high ones on both sides.
pub fn low_sample(even: i32, before: i32, after: i32) -> i32
    requires in_even { IsWithin (2 ^ 26) even }
    requires in_before { IsWithin (2 ^ 26) before }
    requires in_after { IsWithin (2 ^ 26) after }
    ensures { result ≡ even -ℤ correction before after }
{
    even - correct(before, after)
}
