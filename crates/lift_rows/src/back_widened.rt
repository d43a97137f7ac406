//! The samples of a line that is joined again in 64 bits from low and high samples of 32, one by one.

ghost use Rattle.std.specs.Prelude.{◌≡◌, ℕ, ◌+◌, ◌-◌, ◌^◌, ◌<◌, length};
ghost use Rattle.wave_defs.specs.Within.{AllWithin};
ghost use Rattle.wave_defs.specs.Held.{signal};
ghost use Rattle.lift_rows.specs.Back.{AreHalves, IsValid};

use crate::{mirrored_after, mirrored_before};
use lift_lanes::{even_sample, odd_sample};

/// Computes even sample `j`, if those before it are there.
pub fn put_even_widened(low: &[i32], high: &[i32], row: &mut [i64], j: usize)
    requires halves { AreHalves low.now high.now row.old }
    requires low_bounded { AllWithin (2 ^ 31 - 1) (length low.now) (signal low.now) }
    requires high_bounded { AllWithin (2 ^ 31 - 1) (length low.now) (signal high.now) }
    requires inside { j < length low.now }
    requires valid { IsValid j 0 low.now high.now row.old }
    ensures { IsValid (j + 1) 0 low.now high.now row.new }
{
    row[2 * j] = even_sample(
        i64::from(low[j]),
        i64::from(high[j.saturating_sub(1)]),
        i64::from(high[j]),
    );
}

/// Computes odd sample `j`, if the odd ones before it and all even ones are there. The even ones round it are mirrored at both ends.
pub fn put_odd_widened(low: &[i32], high: &[i32], row: &mut [i64], j: usize)
    requires halves { AreHalves low.now high.now row.old }
    requires low_bounded { AllWithin (2 ^ 31 - 1) (length low.now) (signal low.now) }
    requires high_bounded { AllWithin (2 ^ 31 - 1) (length low.now) (signal high.now) }
    requires inside { j < length low.now }
    requires valid { IsValid (length low.now) j low.now high.now row.old }
    ensures { IsValid (length low.now) (j + 1) low.now high.now row.new }
{
    let n = low.len();
    let before = row[2 * mirrored_before(j)];
    let here = row[2 * j];
    let after = row[2 * mirrored_after(n, j + 1)];
    let second = row[2 * mirrored_after(n, j + 2)];
    row[2 * j + 1] = odd_sample(i64::from(high[j]), before, here, after, second);
}
