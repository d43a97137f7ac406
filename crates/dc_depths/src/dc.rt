// The writer of the DC part.
ghost use Rattle.std.specs.Prelude.{◌≡◌, ◌≤◌, ◌<◌, ◌-◌, map, true};
ghost use Rattle.item_defs.specs.Items.{text};
ghost use Rattle.bit_pipe.specs.SinkState.{IsReady, Writes};
ghost use Rattle.number_defs.specs.Cells.{AreInRange};
ghost use Rattle.number_defs.specs.DcPart.{dc_q, dc_bits, dc_bit, high_items, planes_before, dc_planes, dc_items, dc_choices};
ghost use Rattle.gaggle_codes.specs.Options.{choice_of};

use crate::plan::DcPlan;
use base_122::Select;
use bit_pipe::{BitOut, OctetOut, PutFault};
use gaggle_codes::{NumberRange, put_values};

// Puts one bit of each block's DC in two's complement.
fn put_plane<O: OctetOut>(out: &mut BitOut<O>, dcs: &[i32], plane: u8) -> Result<(), PutFault>
    requires open { IsReady O.sink out.old }
    requires plane { plane ≤ 28 }
    ensures { Writes O.sink result out.old out.new (text (map (dc_bit plane) dcs.now)) }
{
    for dc in dcs {
        out.put((*dc >> plane) & 1 == 1)?;
    }
    Ok(())
}

// Puts the high bits of each block's DC.
fn put_high<O: OctetOut>(
    out: &mut BitOut<O>,
    dcs: &[i32],
    plan: &DcPlan,
    select: Select,
) -> Result<(), PutFault>
    requires open { IsReady O.sink out.old }
    requires dc { plan.now.depth_dc ≤ 28 }
    requires shift { plan.now.shift ≤ 3 }
    requires fit { AreInRange true (dc_bits plan.now.depth_dc plan.now.depth_ac plan.now.shift) (dc_q plan.now.depth_dc plan.now.depth_ac plan.now.shift) 1
        dcs.now }
    ensures { Writes O.sink result out.old out.new
        (text (high_items (dc_bits plan.now.depth_dc plan.now.depth_ac plan.now.shift) (dc_q plan.now.depth_dc plan.now.depth_ac plan.now.shift) dcs.now
        (dc_choices (choice_of select) plan.now.depth_dc plan.now.depth_ac plan.now.shift dcs.now))) }
{
    let bits = plan.bits();
    if bits == 1 {
        return put_plane(out, dcs, plan.q());
    }
    let range = NumberRange { signed: true, bits };
    put_values(out, dcs, 1, plan.q(), range, select)
}

// Puts the DC bit planes that are left, from the highest down.
fn put_planes<O: OctetOut>(out: &mut BitOut<O>, dcs: &[i32], plan: &DcPlan) -> Result<(), PutFault>
    requires open { IsReady O.sink out.old }
    requires dc { plan.now.depth_dc ≤ 28 }
    requires shift { plan.now.shift ≤ 3 }
    ensures { Writes O.sink result out.old out.new
        (text (planes_before (dc_q plan.now.depth_dc plan.now.depth_ac plan.now.shift) dcs.now
        (dc_planes plan.now.depth_dc plan.now.depth_ac plan.now.shift))) }
{
    let last = plan.depth_ac.max(plan.shift);
    let mut plane = plan.q();
    while plane > last {
        plane -= 1;
        put_plane(out, dcs, plane)?;
    }
    Ok(())
}

/// Puts the DC part of a segment: the numbers of its blocks' DCs, then their bit planes down to BitDepthAC (docs/formats.md,
/// "DC part and block depths"). BitDepthDC is at most 28, the shift at most 3, and each DC over 2^q, rounded down, fits the bits of the
/// numbers that are put.
pub fn put_dc<O: OctetOut>(
    out: &mut BitOut<O>,
    dcs: &[i32],
    plan: &DcPlan,
    select: Select,
) -> Result<(), PutFault>
    requires open { IsReady O.sink out.old }
    requires dc { plan.now.depth_dc ≤ 28 }
    requires shift { plan.now.shift ≤ 3 }
    requires fit { AreInRange true (dc_bits plan.now.depth_dc plan.now.depth_ac plan.now.shift) (dc_q plan.now.depth_dc plan.now.depth_ac plan.now.shift) 1
        dcs.now }
    ensures { Writes O.sink result out.old out.new
        (text (dc_items plan.now.depth_dc plan.now.depth_ac plan.now.shift dcs.now
        (dc_choices (choice_of select) plan.now.depth_dc plan.now.depth_ac plan.now.shift dcs.now))) }
{
    put_high(out, dcs, plan, select)?;
    put_planes(out, dcs, plan)
}
