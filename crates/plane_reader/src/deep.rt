// Which blocks of a gaggle are deeper than a plane.

ghost use Rattle.std.specs.Prelude.{◌≡◌, ◌+◌, ◌≤◌, ◌<◌, ℕ, length, nat_lt, pos, FitsSigned};
ghost use Rattle.std.specs.Int.{w32};
ghost use Rattle.block_masks.specs.Masks.{Shows};
ghost use Rattle.plane_defs.specs.Marks.{depths_of};
ghost use lib.ListN.{get_or};

use block_masks::{depth_of, joined, one};
use std::simd::prelude::*;

// Reads sixteen states for the proof, which then knows that each fits its type. It compiles to no code.
#[inline(always)]
fn read(marks: &[i32], first: usize)
    requires { first + 16 ≤ length marks.now }
    ensures { (k : ℕ) → k < 16 → FitsSigned w32 (get_or marks.now (first + k) (pos 0)) }
{
    for k in 0..16 {
        let _mark = marks[first + k];
    }
}

// Returns which of sixteen blocks are deeper than a plane, lane by lane.
#[inline(always)]
fn deep_of_sixteen(marks: &[i32], first: usize, plane: u8) -> u64
    requires within { first + 16 ≤ length marks.now }
    requires low { plane < 27 }
    ensures { Shows result (λ r. nat_lt plane (get_or (depths_of marks.now) r 0)) first 16 }
{
    read(marks, first);
    let depths = i32x16::from_slice(&marks[first..]) & i32x16::splat(31);
    i32x16::splat(i32::from(plane)).simd_lt(depths).to_bitmask()
}

// Returns which of some blocks are deeper than a plane, one after another.
fn deep_of_few(marks: &[i32], first: usize, count: u8, plane: u8) -> u64
    requires few { count ≤ 16 }
    requires within { first + count ≤ length marks.now }
    ensures { Shows result (λ r. nat_lt plane (get_or (depths_of marks.now) r 0)) first count }
{
    let mut deep = 0;
    for k in 0..count {
        let is_deep = plane < depth_of(marks[first + usize::from(k)]);
        deep = joined(deep, one(is_deep), k);
    }
    deep
}

// Returns which of the blocks of a gaggle are deeper than a plane: bit k is for the k-th.
#[inline(always)]
pub(crate) fn deep_blocks(marks: &[i32], first: usize, count: u8, plane: u8) -> u64
    requires few { count ≤ 16 }
    requires within { first + count ≤ length marks.now }
    requires low { plane < 27 }
    ensures { Shows result (λ r. nat_lt plane (get_or (depths_of marks.now) r 0)) first count }
{
    if count == 16 {
        deep_of_sixteen(marks, first, plane)
    } else {
        deep_of_few(marks, first, count, plane)
    }
}
