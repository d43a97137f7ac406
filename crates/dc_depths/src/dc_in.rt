// The reader of the DC part.
ghost use Rattle.std.specs.Prelude.{◌≡◌, ◌≤◌, ◌<◌, ◌-◌, ◌^◌, ◌*ℤ◌, ℕ, ℤ, pos, length, List, unsigned_abs};
ghost use Rattle.std.specs.Int.{div_ceil};
ghost use Rattle.bit_pipe.specs.SourceState.{source_state, IsIn};
ghost use Rattle.number_defs.specs.DcScript.{dc_script};
ghost use Rattle.number_defs.specs.DcLows.{DcGiven, dc_bits_given, high_given, dc_planes_given, dc_given};
ghost use Rattle.dc_depths.specs.Dcs.{block_count, SetsDcs, TakesDcs, q_in, bits_in, planes_in, HasRoom, GrowsBy};
ghost use Rattle.dc_depths.specs.Reach.{AreGivenTo, all_to, ReachesDcs};

use crate::plan::DcPlan;
use crate::reach::DcReach;
use bit_pipe::{BitIn, OctetIn, Part, TextFault};
use gaggle_codes::{NumberRange, take_values};

// The number of numbers of a block; its DC is the first.
pub(crate) const BLOCK: usize = 64;

// Sets each DC to 0.
fn clear(blocks: &mut [i32])
    ensures { SetsDcs (λ r. pos 0) blocks.old blocks.new }
{
    for block in 0..blocks.len().div_ceil(BLOCK) {
        blocks[block * BLOCK] = 0;
    }
}

// Returns a power of two.
pub(crate) fn power(shift: u8) -> i32
    requires { shift ≤ 27 }
    ensures { result ≡ pos (2 ^ shift) }
{
    1 << shift
}

// Returns a bit times its weight.
fn weighed(bit: u32, weight: i32) -> i32
    requires { bit < 2 }
    ensures { result ≡ pos bit *ℤ weight }
{
    if bit == 1 { weight } else { 0 }
}

// Takes one bit of each block, of this plane, and adds it with its weight to the DC.
fn take_bits<I: OctetIn>(
    input: &mut BitIn<I>,
    blocks: &mut [i32],
    plane: u8,
    weight: i32,
) -> Result<(Part, DcReach), TextFault>
    requires open { IsIn (source_state input.old) }
    requires room { HasRoom (unsigned_abs weight) blocks.old }
    requires few { div_ceil (length blocks.old) 64 < 2 ^ 20 }
    ensures takes { (q : ℕ) (given : DcGiven) (first : List ℤ) → SetsDcs given.dcs first blocks.old →
        AreGivenTo q (block_count first) (all_to plane 0) given.lows →
        ReachesDcs I.source (dc_bits_given weight plane (block_count first) given) q plane result (source_state input.old) (source_state input.new)
        first blocks.new }
    ensures grows { GrowsBy (unsigned_abs weight) blocks.old blocks.new }
{
    let count = blocks.len().div_ceil(BLOCK);
    for block in 0..count {
        let Some(bit) = input.take_bits(1)? else {
            let reach = DcReach {
                plane,
                blocks: block as u32,
            };
            return Ok((Part::Ended, reach));
        };
        blocks[block * BLOCK] += weighed(bit, weight);
    }
    let reach = DcReach {
        plane,
        blocks: count as u32,
    };
    Ok((Part::Whole, reach))
}

// Takes the numbers of the DCs.
fn take_high<I: OctetIn>(
    input: &mut BitIn<I>,
    blocks: &mut [i32],
    plan: &DcPlan,
) -> Result<(Part, DcReach), TextFault>
    requires open { IsIn (source_state input.old) }
    requires dc { plan.now.depth_dc ≤ 28 }
    requires shift { plan.now.shift ≤ 3 }
    requires few { div_ceil (length blocks.old) 64 < 2 ^ 20 }
    ensures takes { ReachesDcs I.source (high_given (bits_in plan.now) (q_in plan.now) (block_count blocks.old)) (q_in plan.now) (q_in plan.now)
        result (source_state input.old) (source_state input.new) blocks.old blocks.new }
    ensures room { HasRoom 1073741824 blocks.new }
{
    let bits = plan.bits();
    let q = plan.q();
    if bits == 1 {
        clear(blocks);
        return take_bits(input, blocks, q, -power(q));
    }
    let range = NumberRange { signed: true, bits };
    let (part, given) = take_values(input, blocks, BLOCK, q, range)?;
    let reach = DcReach {
        plane: q,
        blocks: given,
    };
    Ok((part, reach))
}

// Takes the DC bit planes, from the highest down.
fn take_dc_planes<I: OctetIn>(
    input: &mut BitIn<I>,
    blocks: &mut [i32],
    plan: &DcPlan,
) -> Result<(Part, DcReach), TextFault>
    requires open { IsIn (source_state input.old) }
    requires dc { plan.now.depth_dc ≤ 28 }
    requires shift { plan.now.shift ≤ 3 }
    requires few { div_ceil (length blocks.old) 64 < 2 ^ 20 }
    requires room { HasRoom 1073741824 blocks.old }
    ensures takes { (given : DcGiven) (first : List ℤ) → SetsDcs given.dcs first blocks.old →
        AreGivenTo (q_in plan.now) (block_count first) (all_to (q_in plan.now) (block_count first)) given.lows →
        ReachesDcs I.source (dc_planes_given (q_in plan.now) (block_count first) (planes_in plan.now) given)
        (q_in plan.now) (q_in plan.now - planes_in plan.now) result (source_state input.old) (source_state input.new) first blocks.new }
    ensures room { HasRoom 536870912 blocks.new }
{
    let last = plan.depth_ac.max(plan.shift);
    let mut plane = plan.q();
    while plane > last {
        plane -= 1;
        let (part, reach) = take_bits(input, blocks, plane, power(plane))?;
        let Part::Whole = part else {
            return Ok((Part::Ended, reach));
        };
    }
    let reach = DcReach {
        plane,
        blocks: blocks.len().div_ceil(BLOCK) as u32,
    };
    Ok((Part::Whole, reach))
}

/// Takes the DC part of a segment: the numbers of its blocks' DCs, then their bit planes down to BitDepthAC
/// (docs/formats.md, "DC part and block depths"). A block is 64 numbers, of which the first becomes its DC, and the
/// others stay: the number that is given times 2^q and the low bits that are given, and 0 if no number is. Returns
/// whether all items were in the text, and how far the numbers are given. The magnitude of each DC is below
/// 2^31 - 2^29.
///
/// `depth_dc` is at most 28, `shift` at most 3, and there are fewer than 2^20 blocks.
///
/// # Errors
///
/// `BadOption` and `BadDelta` at the first item that is refused, and the faults of the input. The DCs also have
/// what is given then.
pub fn take_dc_reach<I: OctetIn>(
    input: &mut BitIn<I>,
    blocks: &mut [i32],
    plan: &DcPlan,
) -> Result<(Part, DcReach), TextFault>
    requires open { IsIn (source_state input.old) }
    requires dc { plan.now.depth_dc ≤ 28 }
    requires shift { plan.now.shift ≤ 3 }
    requires few { div_ceil (length blocks.old) 64 < 2 ^ 20 }
    ensures takes { ReachesDcs I.source (dc_given plan.now.depth_dc plan.now.depth_ac plan.now.shift (block_count blocks.old))
        (q_in plan.now) (q_in plan.now - planes_in plan.now) result (source_state input.old) (source_state input.new) blocks.old blocks.new }
    ensures room { HasRoom 536870912 blocks.new }
{
    let (part, reach) = take_high(input, blocks, plan)?;
    let Part::Whole = part else {
        return Ok((Part::Ended, reach));
    };
    take_dc_planes(input, blocks, plan)
}

/// Takes the DC part of a segment as `take_dc_reach` does (docs/formats.md, "DC part and block depths"), and returns whether
/// all items were in the text.
///
/// `depth_dc` is at most 28, `shift` at most 3, and there are fewer than 2^20 blocks.
///
/// # Errors
///
/// `BadOption` and `BadDelta` at the first item that is refused, and the faults of the input. The DCs also have
/// what is given then.
pub fn take_dc<I: OctetIn>(
    input: &mut BitIn<I>,
    blocks: &mut [i32],
    plan: &DcPlan,
) -> Result<Part, TextFault>
    requires open { IsIn (source_state input.old) }
    requires dc { plan.now.depth_dc ≤ 28 }
    requires shift { plan.now.shift ≤ 3 }
    requires few { div_ceil (length blocks.old) 64 < 2 ^ 20 }
    ensures { TakesDcs I.source (dc_script plan.now.depth_dc plan.now.depth_ac plan.now.shift (block_count blocks.old))
        result (source_state input.old) (source_state input.new) blocks.old blocks.new }
{
    let (part, _) = take_dc_reach(input, blocks, plan)?;
    Ok(part)
}
