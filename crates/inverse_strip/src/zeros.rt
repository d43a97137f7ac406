//! Whether all numbers of rows are 0.

ghost use Rattle.std.specs.Prelude.{◌≡◌, ◌<◌, ℕ, pos, length, true};
ghost use Rattle.wave_defs.specs.Held.{signal};
ghost use Rattle.inverse_strip.specs.Zeros.{AreZeroRows, IsZeroRow};

use line_rings::RowRing;

/// Returns whether all numbers of a row are 0.
fn is_zero(row: &[i32]) -> bool
    ensures { result ≡ true → IsZeroRow row.now }
{
    let mut zero = true;
    for &value in row {
        zero &= value == 0;
    }
    zero
}

/// Returns whether all numbers of the rows of a ring are 0.
pub fn are_zero(ring: &RowRing<i32>, rows: usize) -> bool
    requires { rows ≡ length ring.now }
    ensures { result ≡ true → AreZeroRows ring.now }
{
    for i in 0..rows {
        if !is_zero(ring.at(i)) {
            return false;
        }
    }
    true
}
