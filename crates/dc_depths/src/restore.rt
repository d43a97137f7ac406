// DCs that are moved into their intervals.
ghost use Rattle.std.specs.Prelude.{◌≡◌, ◌≤◌, ◌+ℤ◌, ℕ, ℤ, List, Some, unsigned_abs};
ghost use Rattle.base_122.specs.Restored.{restored_dc};
ghost use Rattle.number_defs.specs.DcLows.{DcGiven};
ghost use Rattle.dc_depths.specs.Dcs.{block_count, SetsDcs, q_in, HasRoom};
ghost use Rattle.dc_depths.specs.Reach.{AreGivenTo};

use crate::dc_in::{BLOCK, power};
use crate::plan::DcPlan;
use crate::reach::DcReach;

// Returns half the interval of a DC that is given down to plane `low`, in steps of 2^shift, and 0 if the DC is not given.
fn half_interval(low: Option<u8>, shift: u8) -> i32
    requires { (plane : ℕ) → low ≡ Some plane → plane ≤ 27 }
    ensures is { (dc : ℤ) → restored_dc shift low dc ≡ dc +ℤ result }
    ensures small { unsigned_abs result ≤ 134217728 }
{
    match low {
        Some(low) if low > shift => power(low - 1),
        _ => 0,
    }
}

/// Moves each DC into the interval that its given bits determine, if the text ended in its DC part or is stopped after
/// it (docs/formats.md, "Restored numbers"). `plan` and `reach` are those with which `take_dc_reach` took the DCs. A
/// block is 64 numbers, of which the first is its DC, and the others stay. A DC that is given becomes the middle of its
/// interval, in steps of 2^shift, and a DC that is not given stays.
///
/// `depth_dc` is at most 28, `shift` at most 3, the plane of `reach` at most q, and the magnitude of each DC below
/// 2^31 - 2^29.
pub fn restore_dcs(blocks: &mut [i32], plan: &DcPlan, reach: DcReach)
    requires dc { plan.now.depth_dc ≤ 28 }
    requires shift { plan.now.shift ≤ 3 }
    requires low { reach.plane ≤ q_in plan.now }
    requires room { HasRoom 536870912 blocks.old }
    ensures { (given : DcGiven) (first : List ℤ) → SetsDcs given.dcs first blocks.old →
        AreGivenTo (q_in plan.now) (block_count first) reach given.lows →
        SetsDcs (λ r. restored_dc plan.now.shift (given.lows r) (given.dcs r)) first blocks.new }
{
    let q = plan.q();
    for block in 0..blocks.len().div_ceil(BLOCK) {
        blocks[block * BLOCK] += half_interval(reach.low_of(block, q), plan.shift);
    }
}
