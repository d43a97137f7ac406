// Moves the numbers that masks represent into the intervals that their given bits determine.

ghost use Rattle.std.specs.Prelude.{◌≡◌, ◌≤◌, ◌<◌, ℕ, ◌+◌, ◌-◌, ◌*◌, ◌%◌, ◌^◌, min, max, length, if◌then◌else◌, Some, pos, ◌+ℤ◌};
ghost use lib.ListN.{get_or};
ghost use Rattle.block_masks.specs.Masks.{Shows};
ghost use Rattle.block_masks.specs.Slices.{IsColumn};
ghost use Rattle.plane_defs.specs.Sets.{coded, shift};
ghost use Rattle.base_122.specs.Restored.{restored_dc};
ghost use Rattle.plane_reader.specs.Above.{HasNoneBelow};
ghost use Rattle.plane_reader.specs.Restoring.{IsReached, PutsBelow, AddsHalf, IsRestored, RestoresBlock, half_plane, coded_below as are_coded};

use crate::dc_bits::add_dc;
use block_masks::{
    ABOVE, CodedPlane, Column, PlanePlan, RAW, both, either, except, has, mask_of, put_mask,
};

// Returns the positions at which a number can have a bit of a plane.
fn coded_in(plan: &PlanePlan, plane: u8) -> u64
    requires low { plane < 27 }
    ensures { Shows result (coded plan.now.weights.shifts plane) 0 64 }
{
    let lower = PlanePlan { plane, ..*plan };
    CodedPlane::new(&lower).coded
}

// Returns the positions at which a number can have a bit of the plane that is `down` planes below that of the plan, if there is one.
fn coded_below(plan: &PlanePlan, down: u8) -> u64
    requires low { plan.now.plane < 27 }
    ensures { Shows result (are_coded plan.now.weights.shifts plan.now.plane down) 0 64 }
{
    if down <= plan.plane {
        coded_in(plan, plan.plane - down)
    } else {
        0
    }
}

// Returns the plane of the bit that is half of the interval of a DC whose bits are given down to `low`, if a DC can have a bit below it.
fn half_of(plan: &PlanePlan, low: u8) -> Option<u8>
    requires { low ≤ 27 }
    ensures { result ≡ half_plane plan.now.weights.shifts low }
{
    if low > 0 && has(coded_in(plan, low - 1), 0) {
        Some(low - 1)
    } else {
        None
    }
}

// What is the same for all blocks that are restored after a plane.
#[derive(Clone, Copy)]
struct Rest {
    plan: PlanePlan,
    // The positions that can have a bit of the plane 1, 2 or 3 planes below.
    near: u64,
    middle: u64,
    far: u64,
    // The plane of the bit that a DC gets: if its bit of the plane was given, and if not.
    given: Option<u8>,
    missing: Option<u8>,
    ghost low: { plan.plane < 27 },
    ghost near_shown: { Shows near (are_coded plan.weights.shifts plan.plane 1) 0 64 },
    ghost middle_shown: { Shows middle (are_coded plan.weights.shifts plan.plane 2) 0 64 },
    ghost far_shown: { Shows far (are_coded plan.weights.shifts plan.plane 3) 0 64 },
    ghost given_is: { given ≡ half_plane plan.weights.shifts plan.plane },
    ghost missing_is: { missing ≡ half_plane plan.weights.shifts (min plan.q (plan.plane + 1)) },
}

impl Rest {
    fn of(plan: PlanePlan) -> Rest
        requires { plan.plane < 27 }
        ensures plan { result.plan ≡ plan }
    {
        Rest {
            plan,
            near: coded_below(&plan, 1),
            middle: coded_below(&plan, 2),
            far: coded_below(&plan, 3),
            given: half_of(&plan, plan.plane),
            missing: half_of(&plan, plan.q.min(plan.plane + 1)),
        }
    }

    // Returns the plane of the bit that a DC gets, by whether its bit of the plane was given.
    #[inline(always)]
    fn half(&self, is_given: bool) -> Option<u8>
        ensures { result ≡ half_plane self.now.plan.weights.shifts (if is_given then self.now.plan.plane else min self.now.plan.q (self.now.plan.plane + 1)) }
    {
        if is_given { self.given } else { self.missing }
    }
}

// Puts the mask of the plane that is `down` planes below one, if there is such a plane.
#[inline(always)]
fn put_below(cells: &mut [i32], column: Column, plane: u8, down: u8, mask: u64)
    requires whole { length cells.old % 64 ≡ 0 }
    requires column { IsColumn cells.old column }
    requires low { plane < 27 }
    requires some { 1 ≤ down }
    ensures { PutsBelow plane down column.block mask cells.old cells.new }
{
    if down <= plane {
        put_mask(cells, column, plane - down, mask);
    }
}

// Adds half of its interval to the DC of a block.
#[inline(always)]
fn restore_dc(cells: &mut [i32], column: Column, rest: &Rest)
    requires whole { length cells.old % 64 ≡ 0 }
    requires column { IsColumn cells.old column }
    ensures { AddsHalf rest.now.plan.weights.shifts rest.now.plan.q rest.now.plan.plane column.block cells.old cells.new }
{
    let is_given = has(mask_of(cells, column, RAW), 0);
    if let Some(plane) = rest.half(is_given) {
        add_dc(true, plane, cells, column);
    }
}

// Adds to each AC number of a block that is not 0 three eighths of its interval, in two bits, and to the DC half of its own. The low of an
// AC number is the plane if the plane gave a bit of the number, and otherwise the plane above it or the shift: the bits are those two and
// three planes below the low, if a number of the subband can have them.
#[inline]
fn restore_block(cells: &mut [i32], column: Column, rest: &Rest)
    requires whole { length cells.old % 64 ≡ 0 }
    requires column { IsColumn cells.old column }
    requires reached { IsReached rest.now.plan.q rest.now.plan.plane column.block cells.old }
    ensures { RestoresBlock rest.now.plan.weights.shifts rest.now.plan.q rest.now.plan.plane column.block cells.old cells.new }
{
    let plane = rest.plan.plane;
    let above = mask_of(cells, column, ABOVE);
    let bits = either(mask_of(cells, column, plane), mask_of(cells, column, RAW));
    let given = both(above, bits);
    let earlier = except(bits, above);
    put_below(cells, column, plane, 1, both(earlier, rest.near));
    put_below(cells, column, plane, 2, both(above, rest.middle));
    put_below(cells, column, plane, 3, both(given, rest.far));
    restore_dc(cells, column, rest);
}

// Restores the numbers that the masks represent after this plane, of which all stages or some were read, and all stages of the planes above it.
pub(crate) fn restore_masks(cells: &mut [i32], plan: PlanePlan)
    requires whole { length cells.old % 64 ≡ 0 }
    requires low { plan.plane < 27 }
    requires reached { (r : ℕ) → 64 * r < length cells.old → IsReached plan.q plan.plane r cells.old }
    ensures restored { (r : ℕ) → 64 * r < length cells.old → IsRestored plan.weights.shifts plan.q plan.plane r cells.old cells.new }
    ensures size { length cells.new ≡ length cells.old }
{
    let rest = Rest::of(plan);
    for r in 0..cells.len() / 64 {
        let column = Column::of(cells, r);
        restore_block(cells, column, &rest);
    }
}

// Adds the bit of a plane to a DC that has no bit of the plane or below it.
#[inline(always)]
fn with_bit(dc: i32, plane: u8) -> i32
    requires low { plane < 27 }
    requires room { HasNoneBelow (plane + 1) dc }
    ensures { result ≡ dc +ℤ pos (2 ^ plane) }
{
    dc + (1 << plane)
}

// Adds half of its interval to the DC of each block, of which the bits are given down to plane `low`. No plane was read: the AC numbers are 0.
pub(crate) fn restore_dcs(blocks: &mut [i32], plan: &PlanePlan, low: u8)
    requires whole { length blocks.old % 64 ≡ 0 }
    requires low { low ≤ 27 }
    requires room { (r : ℕ) → 64 * r < length blocks.old → HasNoneBelow low (get_or blocks.old (64 * r) (pos 0)) }
    ensures dcs { (r : ℕ) → 64 * r < length blocks.old → get_or blocks.new (64 * r) (pos 0) ≡ restored_dc (shift plan.now.weights.shifts 0)
        (Some (max (shift plan.now.weights.shifts 0) low)) (get_or blocks.old (64 * r) (pos 0)) }
    ensures others { (i : ℕ) → (i % 64 ≡ 0 → ⊥) → get_or blocks.new i (pos 0) ≡ get_or blocks.old i (pos 0) }
    ensures size { length blocks.new ≡ length blocks.old }
{
    if let Some(plane) = half_of(plan, low) {
        for r in 0..blocks.len() / 64 {
            blocks[64 * r] = with_bit(blocks[64 * r], plane);
        }
    }
}
