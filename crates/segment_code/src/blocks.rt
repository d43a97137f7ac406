// The blocks of a segment that is written.
ghost use Rattle.std.specs.Prelude.{◌≡◌, ◌<◌, ◌≤◌, ◌+◌, ◌*◌, ◌/◌, ◌^◌, ◌++◌, [], IfOk, length};
ghost use Rattle.wave_defs.specs.Held.{blocks_in};
ghost use Rattle.segment_defs.specs.Depths.{depth_dc_of, depth_ac_of};
ghost use Rattle.segment_code.specs.Numbers.{AreBounded};
ghost use Rattle.segment_code.specs.HeldBlocks.{samples_for};

use crate::depths::{block_depth, dc_depth, greatest_dc_depth, greatest_depth};
use plane_coder::{GaggleRoom, SegmentMasks};
use std::alloc::{AllocError, Global};
use std::marker::Model;

/// The blocks of a segment that is written, 64 weighted numbers each, with room for a fixed number of them. Their numbers are kept as masks
/// of bits.
#[derive(Drop)]
pub struct SegmentBlocks {
    pub(crate) masks: SegmentMasks,
    // The state of each block, of which the lowest five bits are its depth.
    pub(crate) marks: Vec<i32>,
    pub(crate) room: GaggleRoom,
}

impl Model for SegmentBlocks {
    ghost use Rattle.block_masks.specs.SegmentNumbers.{SegmentNumbers};
    ghost use Rattle.segment_code.specs.HeldBlocks.{AreHeld};

    ghost Value = { SegmentNumbers };

    ghost view = { λ s. s.masks };

    ghost invariant = { λ s. AreHeld s.masks s.marks s.room };
}

impl SegmentBlocks {
    /// Returns room for this number of blocks, of which there is none yet. The only error is a lack of memory.
    pub fn new(alloc: Global, most: usize) -> Result<SegmentBlocks, AllocError>
        requires { most ≤ 2 ^ 20 }
        ensures most { IfOk result (λ blocks. blocks.most ≡ most) }
        ensures numbers { IfOk result (λ blocks. blocks.numbers ≡ []) }
    {
        Ok(SegmentBlocks {
            masks: SegmentMasks::new(alloc, most)?,
            marks: Vec::with_capacity(alloc, most)?,
            room: GaggleRoom::new(alloc, most)?,
        })
    }

    /// Returns the number of samples of 32 bits for which it has room: at most 65 for each block of which there is room.
    pub fn samples(&self) -> u64
        ensures value { result ≡ samples_for self.now.most }
        ensures most { result ≤ 65 * self.now.most }
    {
        let samples = self.masks.samples() + self.marks.capacity() + self.room.samples();
        samples as u64
    }

    /// Returns the number of blocks.
    pub fn len(&self) -> usize
        ensures { 64 * result ≡ length self.now.numbers }
    {
        self.marks.len()
    }

    /// Removes all blocks.
    pub fn clear(&mut self)
        ensures most { self.new.most ≡ self.old.most }
        ensures numbers { self.new.numbers ≡ [] }
    {
        self.masks.clear();
        self.marks.clear();
    }

    /// Adds a block of 64 weighted numbers, of which the first is its DC. A magnitude is below 2^27, except that a DC may be -2^27.
    pub fn push(&mut self, block: &[i32])
        requires whole { length block.now ≡ 64 }
        requires room { length self.old.numbers < 64 * self.old.most }
        requires bounded { AreBounded block.now }
        ensures most { self.new.most ≡ self.old.most }
        ensures numbers { self.new.numbers ≡ self.old.numbers ++ block.now }
    {
        let depth = block_depth(block);
        self.masks.push(block, depth.max(dc_depth(block)));
        self.marks.push_reserved(i32::from(depth));
    }

    /// Returns BitDepthDC and BitDepthAC of the segment (docs/formats.md, "Segments and depths"). It has at least one block.
    pub fn depths(&self) -> (u8, u8)
        requires some { 64 ≤ length self.now.numbers }
        ensures dc { result.0 ≡ depth_dc_of (blocks_in self.now.numbers) }
        ensures ac { result.1 ≡ depth_ac_of (blocks_in self.now.numbers) }
        ensures least_dc { 1 ≤ result.0 }
        ensures most_dc { result.0 ≤ 28 }
        ensures most_ac { result.1 ≤ 27 }
    {
        (
            greatest_dc_depth(self.masks.dcs()),
            greatest_depth(&self.marks),
        )
    }
}
