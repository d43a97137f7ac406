// Puts what was found of a block's numbers into its masks.

ghost use Rattle.std.specs.Prelude.{◌≡◌, ◌+◌, ◌%◌, ◌<◌, length};
ghost use Rattle.block_masks.specs.Slices.{IsColumn};
ghost use Rattle.plane_reader.specs.Blocks.{AddsRaw, Applies};

use crate::found::Found;
use block_masks::{Column, MINUS, RAW, either, mask_of, put_mask};

// Adds the positions whose bit was a raw bit: only stage 4 of a block gives any.
#[inline(always)]
fn add_raw<const STAGE: u8>(raw: u64, cells: &mut [i32], column: Column)
    requires whole { length cells.old % 64 ≡ 0 }
    requires column { IsColumn cells.old column }
    requires none { (STAGE ≡ 4 → ⊥) → raw ≡ 0 }
    ensures { AddsRaw column.block raw cells.old cells.new }
{
    if STAGE == 4 {
        let all = either(mask_of(cells, column, RAW), raw);
        put_mask(cells, column, RAW, all);
    }
}

// Adds the plane's bits and the signs that were found of a block in a stage.
#[inline]
pub(crate) fn apply<const STAGE: u8>(found: Found, plane: u8, cells: &mut [i32], column: Column)
    requires whole { length cells.old % 64 ≡ 0 }
    requires column { IsColumn cells.old column }
    requires low { plane < 27 }
    requires none { (STAGE ≡ 4 → ⊥) → found.raw ≡ 0 }
    ensures { Applies plane column.block found cells.old cells.new }
{
    add_raw::<STAGE>(found.raw, cells, column);
    let bits = either(mask_of(cells, column, plane), found.bits);
    let minus = either(mask_of(cells, column, MINUS), found.minus);
    put_mask(cells, column, MINUS, minus);
    put_mask(cells, column, plane, bits);
}
