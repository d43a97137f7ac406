// Masks of the numbers of a block, sixteen at a time.

ghost use Rattle.std.specs.Prelude.{◌≡◌, ◌+◌, ◌≤◌, ◌<◌, ℕ, ◌≤ℤ◌, ◌<ℤ◌, ◌^◌, Bool, length, pos, slice_index_or, unsigned_abs, nat_lt, FitsSigned};
ghost use Rattle.std.specs.Int.{w32};
ghost use Rattle.plane_defs.specs.Sets.{magnitude, significant};
ghost use Rattle.plane_defs.specs.Entries.{negative as is_negative};
ghost use Rattle.block_masks.specs.Masks.{Shows};

use crate::mask_sets::joined;
use std::simd::prelude::*;

// Reads sixteen numbers for the proof, which then knows that each fits its type. It compiles to no code.
#[inline(always)]
pub(crate) fn read(block: &[i32], start: usize)
    requires { start + 16 ≤ length block.now }
    ensures { (k : ℕ) → k < 16 → FitsSigned w32 (slice_index_or block.now (start + k) (pos 0)) }
{
    for k in 0..16 {
        let _number = block[start + k];
    }
}

// Returns which of the sixteen numbers from `start` on are below 0.
#[inline(always)]
fn negative(block: &[i32], start: usize) -> u64
    requires { start + 16 ≤ length block.now }
    ensures { Shows result (λ p. is_negative (slice_index_or block.now p (pos 0))) start 16 }
{
    read(block, start);
    let numbers = i32x16::from_slice(&block[start..]);
    numbers.simd_lt(i32x16::splat(0)).to_bitmask()
}

// Returns four masks of sixteen positions, one after the other, as one.
#[inline(always)]
pub(crate) fn whole(first: u64, second: u64, third: u64, fourth: u64) -> u64
    requires first { first < 2 ^ 16 }
    requires second { second < 2 ^ 16 }
    requires third { third < 2 ^ 16 }
    requires fourth { fourth < 2 ^ 16 }
    ensures { (f : ℕ → Bool) → Shows first f 0 16 → Shows second f 16 16 → Shows third f 32 16 → Shows fourth f 48 16 → Shows result f 0 64 }
{
    let low = joined(first, second, 16);
    let high = joined(third, fourth, 16);
    joined(low, high, 32)
}

// Returns which numbers of a block are below 0.
#[inline(always)]
pub(crate) fn all_negative(block: &[i32]) -> u64
    requires { length block.now ≡ 64 }
    ensures { Shows result (λ p. is_negative (slice_index_or block.now p (pos 0))) 0 64 }
{
    whole(
        negative(block, 0),
        negative(block, 16),
        negative(block, 32),
        negative(block, 48),
    )
}
