//! Whether the numbers of a row are small.

ghost use Rattle.std.specs.Prelude.{◌≡◌, ◌^◌, length, true};
ghost use Rattle.wave_defs.specs.Within.{AllWithin};
ghost use Rattle.wave_defs.specs.Held.{signal};

/// Returns whether no magnitude is above 2^27.
pub fn are_small(row: &[i32]) -> bool
    ensures { (result ≡ true → AllWithin (2 ^ 27) (length row.now) (signal row.now))
        × (AllWithin (2 ^ 27) (length row.now) (signal row.now) → result ≡ true) }
{
    let mut small = true;
    for &value in row {
        small &= value.unsigned_abs() <= 1 << 27;
    }
    small
}
