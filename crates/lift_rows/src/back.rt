//! The samples of a line that is joined again, one by one or in pairs.

ghost use Rattle.std.specs.Prelude.{◌≡◌, ℕ, ◌+◌, ◌*◌, ◌^◌, ◌<◌, ◌≤◌, min, length};
ghost use Rattle.lift_rows.specs.Back.{AreHalves, IsValid};

use crate::{mirrored_after, mirrored_before};
use lift_lanes::{even_sample, odd_sample};

/// Computes even sample `j`, if all before it are there.
pub fn put_even(low: &[i64], high: &[i64], row: &mut [i64], j: usize)
    requires halves { AreHalves low.now high.now row.old }
    requires inside { j < length low.now }
    requires valid { IsValid j 0 low.now high.now row.old }
    ensures { IsValid (j + 1) 0 low.now high.now row.new }
{
    row[2 * j] = even_sample(low[j], high[j.saturating_sub(1)], high[j]);
}

/// Computes odd sample `j`, if all before it are there. The even ones round it are mirrored at both ends.
pub fn put_odd(low: &[i64], high: &[i64], row: &mut [i64], j: usize)
    requires halves { AreHalves low.now high.now row.old }
    requires inside { j < length low.now }
    requires valid { IsValid (min (length low.now) (j + 3)) j low.now high.now row.old }
    ensures { IsValid (min (length low.now) (j + 3)) (j + 1) low.now high.now row.new }
{
    let n = low.len();
    let before = row[2 * mirrored_before(j)];
    let here = row[2 * j];
    let after = row[2 * mirrored_after(n, j + 1)];
    let second = row[2 * mirrored_after(n, j + 2)];
    row[2 * j + 1] = odd_sample(high[j], before, here, after, second);
}

/// Computes even sample `j + 2` and then odd sample `j`, which is neither the first nor one of the last two,
/// so nothing is mirrored.
#[inline(always)]
pub fn put_pair(low: &[i64], high: &[i64], row: &mut [i64], j: usize)
    requires halves { AreHalves low.now high.now row.old }
    requires some { 1 ≤ j }
    requires inside { j + 2 < length low.now }
    requires valid { IsValid (j + 2) j low.now high.now row.old }
    ensures { IsValid (j + 3) (j + 1) low.now high.now row.new }
{
    let second = even_sample(low[j + 2], high[j + 1], high[j + 2]);
    let (before, here, after) = (row[2 * (j - 1)], row[2 * j], row[2 * (j + 1)]);
    row[2 * (j + 2)] = second;
    row[2 * j + 1] = odd_sample(high[j], before, here, after, second);
}
