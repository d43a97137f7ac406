// The masks of eight planes of a block at once.

ghost use Rattle.std.specs.Prelude.{◌≡◌, ◌+◌, ◌*◌, ◌/◌, ◌%◌, ◌^◌, ◌≤◌, ◌<◌, ℕ, Bool, length, map, slice_index_or};
ghost use Rattle.std.specs.List.{range_with_len};
ghost use Rattle.item_defs.specs.Bits.{bit};
ghost use Rattle.plane_defs.specs.Sets.{magnitude};
ghost use Rattle.block_masks.specs.Masks.{Shows};
ghost use Rattle.block_masks.specs.ByteLists.{bytes_in};

use crate::masks::{read, whole};
use std::simd::prelude::*;

// Returns eight bits of each of sixteen magnitudes, the lowest of them of weight 2^from.
#[inline(always)]
fn bytes_of(block: &[i32], start: usize, from: u8) -> u8x16
    requires within { start + 16 ≤ length block.now }
    requires low { from < 32 }
    requires small { (k : ℕ) → magnitude block.now k < 2 ^ 28 }
    ensures { result ≡ bytes_in block.now start from 0 }
{
    read(block, start);
    let sizes = i32x16::from_slice(&block[start..]).abs();
    let moved = sizes >> i32x16::splat(i32::from(from));
    let low = moved & i32x16::splat(255);
    low.cast::<u8>()
}

// Returns which of sixteen numbers of eight bits have the highest of them.
#[inline(always)]
fn highest(bytes: u8x16) -> u64
    requires long { length bytes ≡ 16 }
    requires few { (k : ℕ) → k < 16 → slice_index_or bytes k 0 < 256 }
    ensures if_known { (k : ℕ) → k < 16 → bit result k ≡ bit (slice_index_or bytes k 0) 7 }
    ensures small { result < 2 ^ 16 }
{
    bytes.simd_ge(u8x16::splat(128)).to_bitmask()
}

// Returns sixteen numbers of eight bits, doubled: the highest bit of each is lost.
#[inline(always)]
fn doubled(bytes: u8x16) -> u8x16
    requires { length bytes ≡ 16 }
    ensures { result ≡ map (λ x. (x + x) % 256) bytes }
{
    bytes + bytes
}

// Returns masks of eight planes from one on, of which the `count` highest say which numbers of a block have the bit of the plane in their
// magnitude. All magnitudes are below 2^28.
#[inline(always)]
pub(crate) fn high_planes(block: &[i32], from: u8, count: u8) -> [u64; 8]
    requires whole { length block.now ≡ 64 }
    requires low { from < 32 }
    requires few { count ≤ 8 }
    requires small { (k : ℕ) → magnitude block.now k < 2 ^ 28 }
    ensures { (i : ℕ) → i < 8 → 8 ≤ i + count → Shows (slice_index_or result i 0) (λ p. bit (magnitude block.now p) (from + i)) 0 64 }
{
    let mut first = bytes_of(block, 0, from);
    let mut second = bytes_of(block, 16, from);
    let mut third = bytes_of(block, 32, from);
    let mut fourth = bytes_of(block, 48, from);
    let mut masks = [0; 8];
    for doublings in 0..count as usize {
        masks[7 - doublings] = whole(
            highest(first),
            highest(second),
            highest(third),
            highest(fourth),
        );
        first = doubled(first);
        second = doubled(second);
        third = doubled(third);
        fourth = doubled(fourth);
    }
    masks
}
