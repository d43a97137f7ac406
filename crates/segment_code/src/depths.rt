// The depths of a segment's blocks.
ghost use Rattle.std.specs.Prelude.{◌≡◌, ◌≤◌, ◌<◌, ◌^◌, ℕ, length, map, pos, slice_index_or, unsigned_abs, FitsSigned};
ghost use Rattle.std.specs.Int.{w32};
ghost use Rattle.segment_defs.specs.Size.{size_of, greatest};
ghost use Rattle.plane_defs.specs.Marks.{depths_of};
ghost use Rattle.segment_defs.specs.Depths.{dc_of, block_depth, signed_size};

use block_masks::depth_of;
use std::simd::prelude::*;

// Leaves only the depths in the states of blocks.
pub(crate) fn reset_marks(marks: &mut [i32])
    ensures { marks.new ≡ map pos (depths_of marks.old) }
{
    for mark in marks.iter_mut() {
        *mark = i32::from(depth_of(*mark));
    }
}

// Returns the greatest of the depths that the states of blocks have.
pub(crate) fn greatest_depth(marks: &[i32]) -> u8
    ensures { result ≡ greatest (λ d. d) (depths_of marks.now) }
{
    let mut most = 0u8;
    for mark in marks {
        most = most.max(depth_of(*mark));
    }
    most
}

// Returns the least depth that holds all DCs.
pub(crate) fn greatest_dc_depth(dcs: &[i32]) -> u8
    ensures { result ≡ greatest signed_size dcs.now }
{
    let mut most = 0u8;
    for dc in dcs {
        most = most.max(signed_size(*dc));
    }
    most
}

// Returns the least depth of a block.
pub(crate) fn block_depth(block: &[i32]) -> u8
    requires { length block.now ≡ 64 }
    ensures { result ≡ block_depth block.now }
{
    // All magnitudes joined have the greatest size.
    size(joined_magnitudes(block))
}

// Returns the least depth that holds a block's DC.
pub(crate) fn dc_depth(block: &[i32]) -> u8
    requires { length block.now ≡ 64 }
    ensures { result ≡ signed_size (dc_of block.now) }
{
    signed_size(block[0])
}

// Reads a block for the proof, which then knows that each number fits its type. It compiles to no code.
#[inline(always)]
fn read(block: &[i32])
    requires { length block.now ≡ 64 }
    ensures { (k : ℕ) → k < 64 → FitsSigned w32 (slice_index_or block.now k (pos 0)) }
{
    for k in 0..64 {
        let _number = block[k];
    }
}

// Returns the magnitudes of a block's AC coefficients, joined bit by bit.
#[inline(always)]
fn joined_magnitudes(block: &[i32]) -> u32
    requires { length block.now ≡ 64 }
    ensures below { (m : ℕ) → ((k : ℕ) → 0 < k → k < 64 → unsigned_abs (slice_index_or block.now k (pos 0)) < 2 ^ m) → result < 2 ^ m }
    ensures least { (k : ℕ) → 0 < k → k < 64 → unsigned_abs (slice_index_or block.now k (pos 0)) ≤ result }
{
    read(block);
    let first = i32x16::from_slice(&block[1..]).abs();
    let second = i32x16::from_slice(&block[17..]).abs();
    let third = i32x16::from_slice(&block[33..]).abs();
    // Number 48 is in the third and in the fourth lanes.
    let fourth = i32x16::from_slice(&block[48..]).abs();
    (first | second | third | fourth)
        .reduce_or()
        .cast_unsigned()
}

// Returns the least number of bits that holds a number in two's complement.
fn signed_size(number: i32) -> u8
    ensures { result ≡ signed_size number }
{
    let magnitude = if number < 0 { -(number + 1) } else { number };
    size(magnitude as u32) + 1
}

// Returns the least number of bits that holds a number.
fn size(number: u32) -> u8
    ensures is { result ≡ size_of number }
    ensures most { result ≤ 32 }
{
    (u32::BITS - number.leading_zeros()) as u8
}
