// The sets of a block that have some member of a mask.

ghost use Rattle.std.specs.Prelude.{◌<◌, ◌+◌, ◌*◌, ◌≤◌, ◌≡◌, ℕ, Bool, ◌||◌};
ghost use Rattle.std.specs.List.{list_any};
ghost use Rattle.item_defs.specs.Bits.{bit};
ghost use Rattle.plane_defs.specs.Spans.{span};
ghost use Rattle.block_masks.specs.Masks.{Shows};
ghost use Rattle.block_masks.specs.SetMasks.{AreSets, AreQuads};

use crate::mask_sets::{four, is_any, part, three};

/// Returns whether some position of a part of a mask is set.
#[inline(always)]
pub fn is_any_of(mask: u64, at: u8, count: u8) -> bool
    requires within { at + count ≤ 64 }
    requires at { at < 64 }
    requires count { count < 64 }
    ensures { (f : ℕ → Bool) → Shows mask f 0 64 → result ≡ list_any f (span at count) }
{
    is_any(part(mask, at, count))
}

#[inline(always)]
fn or(a: bool, b: bool) -> bool
    ensures { result ≡ (a || b) }
{
    a || b
}

/// The sets of a block that have a member of some kind (docs/formats.md, "Bit planes").
#[derive(Clone, Copy)]
pub struct Sets {
    /// The set of all descendants.
    pub descendants: bool,
    /// The families: bit i is for family i.
    pub families: u64,
    /// The sets of grandchildren: bit i is for those of family i.
    pub grandchildren: u64,
}

impl Sets {
    /// Returns the sets that have a member in a mask of all positions.
    #[inline(always)]
    pub fn of(mask: u64) -> Sets
        ensures { (f : ℕ → Bool) → Shows mask f 0 64 → AreSets f result }
    {
        let first = is_any_of(mask, 16, 16);
        let second = is_any_of(mask, 32, 16);
        let third = is_any_of(mask, 48, 16);
        Sets {
            descendants: is_any_of(mask, 4, 60),
            families: three(
                or(is_any_of(mask, 4, 4), first),
                or(is_any_of(mask, 8, 4), second),
                or(is_any_of(mask, 12, 4), third),
            ),
            grandchildren: three(first, second, third),
        }
    }
}

/// Returns the sets of four grandchildren in family i that have a member in a mask of all positions: bit j is for those
/// below child j.
#[inline(always)]
pub fn quads_of(mask: u64, i: u8) -> u64
    requires { i < 3 }
    ensures { (f : ℕ → Bool) → Shows mask f 0 64 → AreQuads f i result }
{
    let start = 16 + 16 * i;
    four(
        is_any_of(mask, start, 4),
        is_any_of(mask, start + 4, 4),
        is_any_of(mask, start + 8, 4),
        is_any_of(mask, start + 12, 4),
    )
}

/// Returns which fours of positions have a member in a mask: bit j is for the four positions from `at` + 4j on.
#[inline(always)]
pub fn fours_of(mask: u64, at: u8) -> u64
    requires { at < 64 }
    ensures within { result < 16 }
    ensures if_known { (j : ℕ) → j < 4 → bit result j ≡ list_any (bit mask) (span (at + 4 * j) 4) }
{
    let here = mask >> at;
    let pairs = here | (here >> 1);
    let any = pairs | (pairs >> 2);
    // The first bit of each four is kept, and these four bits are moved together.
    let firsts = any & 0x1111;
    let near = firsts | (firsts >> 3);
    (near | (near >> 6)) & 15
}
