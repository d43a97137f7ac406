// Turns the numbers of a segment into masks in their place.

ghost use Rattle.std.specs.Prelude.{◌≡◌, ◌+◌, ◌≤◌, ◌<◌, ◌*◌, ◌%◌, ◌^◌, ℕ, length, pos};
ghost use Rattle.std.specs.Int.{w32, cast_signed};
ghost use lib.ListN.{get_or};
ghost use Rattle.block_masks.specs.Slices.{dc_slot, mask_in, numbers_in};
ghost use Rattle.plane_reader.specs.Above.{AreReady, HasNoAcs};
ghost use Rattle.plane_reader.specs.Joined.{AreBelow, HasOnlyDcs};

use block_masks::{Column, DC, GROUP, put_mask};

// The number of numbers of a block.
const BLOCK: usize = 64;

// The number of numbers of a group of blocks.
pub(crate) const NUMBERS: usize = BLOCK * GROUP;

// Takes the DC numbers out of a group, and leaves 0 in their place.
fn lift_dcs(part: &mut [i32]) -> [i32; GROUP]
    requires few { length part.old ≤ 4096 }
    ensures dcs { (b : ℕ) → 64 * b + 63 < length part.old → get_or result b (pos 0) ≡ get_or part.old (64 * b) (pos 0) }
    ensures gone { (b : ℕ) → 64 * b + 63 < length part.old → get_or part.new (64 * b) (pos 0) ≡ pos 0 }
    ensures others { (i : ℕ) → (i % 64 ≡ 0 → ⊥) → get_or part.new i (pos 0) ≡ get_or part.old i (pos 0) }
    ensures long { length part.new ≡ length part.old }
{
    let mut dcs = [0; GROUP];
    for b in 0..part.len() / BLOCK {
        dcs[b] = part[BLOCK * b];
        part[BLOCK * b] = 0;
    }
    dcs
}

// Puts the DC numbers of a group into its masks, which are all empty.
fn put_dcs(part: &mut [i32], dcs: &[i32; GROUP])
    requires whole { length part.old % 64 ≡ 0 }
    requires few { length part.old ≤ 4096 }
    requires empty { (i : ℕ) → get_or part.old i (pos 0) ≡ pos 0 }
    ensures dcs { (b : ℕ) → 64 * b < length part.old → cast_signed w32 (mask_in part.new b dc_slot % 2 ^ 32) ≡ get_or dcs.now b (pos 0) }
    ensures others { (b s : ℕ) → 64 * b < length part.old → s < 32 → (s ≡ dc_slot → ⊥) → mask_in part.new b s ≡ 0 }
    ensures long { length part.new ≡ length part.old }
{
    for b in 0..part.len() / BLOCK {
        let column = Column::of(part, b);
        put_mask(part, column, DC, u64::from(dcs[b].cast_unsigned()));
    }
}

// Turns the numbers of a group into masks.
fn slice_group(part: &mut [i32])
    requires whole { length part.old % 64 ≡ 0 }
    requires few { length part.old ≤ 4096 }
    requires no_acs { (i : ℕ) → (i % 64 ≡ 0 → ⊥) → get_or part.old i (pos 0) ≡ pos 0 }
    ensures numbers { numbers_in part.new ≡ part.old }
    ensures only { HasOnlyDcs part.new }
    ensures long { length part.new ≡ length part.old }
{
    let dcs = lift_dcs(part);
    put_dcs(part, &dcs);
}

// Turns the 64 numbers of each block into masks in their place, as `take_plane` needs them (the slots of `block_masks`). All
// AC numbers are 0, as they are after the DC part. `join_numbers` turns masks into numbers again.
pub(crate) fn slice_numbers(blocks: &mut [i32])
    requires whole { length blocks.old % 64 ≡ 0 }
    requires no_acs { HasNoAcs blocks.old }
    ensures numbers { numbers_in blocks.new ≡ blocks.old }
    ensures ready { (plane : ℕ) → AreReady plane blocks.new }
    ensures below { (planes : ℕ) → AreBelow planes blocks.new }
    ensures size { length blocks.new ≡ length blocks.old }
{
    let len = blocks.len();
    for g in 0..len.div_ceil(NUMBERS) {
        let start = NUMBERS * g;
        slice_group(&mut blocks[start..len.min(start + NUMBERS)]);
    }
}
