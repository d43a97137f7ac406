// The numbers of a segment as masks of bits.

ghost use Rattle.std.specs.Prelude.{◌≡◌, ◌+◌, ◌-◌, ◌*◌, ◌≤◌, ◌<◌, ◌^◌, ◌++◌, ℕ, IfOk, List, [], false, length, min, replicate, vec_len, vec_capacity, pos};
ghost use Rattle.std.specs.Prelude.{slice_index_or};
ghost use Rattle.item_defs.specs.Bits.{bit};
ghost use Rattle.wave_defs.specs.Held.{block_at};
ghost use Rattle.plane_defs.specs.Sets.{magnitude};
ghost use Rattle.plane_defs.specs.Entries.{negative as is_negative};
ghost use Rattle.block_masks.specs.Masks.{Shows};
ghost use Rattle.block_masks.specs.SegmentNumbers.{AreAbove, PutsPlanes, JoinsWords, step_for};

use crate::bytes::high_planes;
use crate::mask_sets::{either, one};
use crate::masks::all_negative;
use std::alloc::{AllocError, Global};
use std::marker::Model;

// The slot of the masks that say which numbers are negative.
const MINUS: usize = 0;

// The slot of the masks that say which numbers are significant above the plane that is coded next.
const ABOVE: usize = 1;

// The slot of the masks of plane 0, which those of the planes above follow.
const PLANES: usize = 2;

// The number of slots: all planes below 27 have one.
const SLOTS: usize = 29;

/// The numbers of the blocks of a segment, 64 for each block, kept as masks of 64 bits: which numbers are negative, which have the bit of a
/// plane in their magnitude, and which are significant above the plane that is coded next. There are masks of the planes below the greatest
/// depth with which a block was pushed, and of no others. There is room for a fixed number of blocks.
#[derive(Drop)]
pub struct SegmentMasks {
    // The masks, slot by slot, as far as there are slots.
    words: Vec<u64>,
    // The DC of each block.
    dcs: Vec<i32>,
    // The number of blocks for which there is room.
    most: usize,
    // How far slots are apart.
    step: usize,
    // The number of slots that there are.
    slots: usize,
}

impl Model for SegmentMasks {
    ghost use Rattle.std.specs.Prelude.{length, vec_len, vec_capacity};
    ghost use Rattle.block_masks.specs.SegmentNumbers.{SegmentNumbers, numbers_at, above_at, HasRoom, AreMasks};

    ghost Value = { SegmentNumbers };

    ghost view = { λ s. record {
      most = s.most;
      numbers = numbers_at s.words.items s.step s.dcs.items;
      above =
          above_at s.words.items s.step (length s.dcs.items);
    } };

    ghost invariant = { λ s. HasRoom s.most s.step s.slots (vec_len s.words) (vec_capacity s.words) (vec_len s.dcs) (vec_capacity s.dcs) × AreMasks
        s.words.items s.step s.dcs.items };
}

// Returns how far slots are apart.
fn step_for(most: usize) -> usize
    requires { most ≤ 2 ^ 20 }
    ensures { result ≡ step_for most }
{
    if most < 1024 {
        return most;
    }
    let lines = most.div_ceil(8);
    8 * (lines + 1 - lines % 2)
}

// Adds words of 0 up to a length, for which there is room.
fn fill_to(words: &mut Vec<u64>, len: usize)
    requires longer { vec_len words.old ≤ len }
    requires room { len ≤ vec_capacity words.old }
    ensures items { words.new.items ≡ words.old.items ++ replicate (len - vec_len words.old) 0 }
    ensures long { vec_len words.new ≡ len }
    ensures capacity { vec_capacity words.new ≡ vec_capacity words.old }
{
    while words.len() < len {
        words.push_reserved(0);
    }
}

// Where the masks of a block are among the words.
#[derive(Clone, Copy)]
struct WordsOfBlock {
    block: usize,
    step: usize,
    slots: usize,
}

// Puts the masks of eight planes from one on for a block, as far as they have slots.
#[inline(always)]
fn put_eight_planes(words: &mut [u64], at: WordsOfBlock, block: &[i32], from: u8)
    requires whole { length block.now ≡ 64 }
    requires within { at.block < at.step }
    requires long { length words.old ≡ at.step * at.slots }
    requires most { at.slots ≤ 29 }
    requires from { from < 32 }
    requires small { (k : ℕ) → magnitude block.now k < 2 ^ 28 }
    ensures { (start : List ℕ) → PutsPlanes (min from (at.slots - 2)) at.step at.block block.now start words.old →
        PutsPlanes (min (from + 8) (at.slots - 2)) at.step at.block block.now start words.new }
{
    let masks = high_planes(block, from, 8);
    for i in 0..8u8 {
        let slot = PLANES + (from + i) as usize;
        if slot < at.slots {
            words[at.step * slot + at.block] = masks[i as usize];
        }
    }
}

// Puts the masks of the highest `count` planes below `planes`, at most eight of at least nine, for a block.
fn put_high_planes(words: &mut [u64], at: WordsOfBlock, block: &[i32], planes: u8, count: u8)
    requires whole { length block.now ≡ 64 }
    requires within { at.block < at.step }
    requires long { length words.old ≡ at.step * at.slots }
    requires least { planes + 2 ≤ at.slots }
    requires most { at.slots ≤ 29 }
    requires many { 8 ≤ planes }
    requires few { count ≤ 8 }
    requires small { (k : ℕ) → magnitude block.now k < 2 ^ 28 }
    ensures { (start : List ℕ) → PutsPlanes (planes - count) at.step at.block block.now start words.old →
        PutsPlanes planes at.step at.block block.now start words.new }
{
    let from = planes - 8;
    let masks = high_planes(block, from, count);
    for i in 8 - count..8 {
        let slot = PLANES + (from + i) as usize;
        words[at.step * slot + at.block] = masks[i as usize];
    }
}

// Puts the masks of all planes that have slots for a block. No number has a bit of a plane below 27 from `planes` on.
fn put_planes(words: &mut [u64], at: WordsOfBlock, block: &[i32], planes: u8)
    requires whole { length block.now ≡ 64 }
    requires within { at.block < at.step }
    requires long { length words.old ≡ at.step * at.slots }
    requires least { planes + 2 ≤ at.slots }
    requires most { at.slots ≤ 29 }
    requires small { (k : ℕ) → magnitude block.now k < 2 ^ 28 }
    requires none { (k p : ℕ) → planes ≤ p → p < 27 → bit (magnitude block.now k) p ≡ false }
    ensures { PutsPlanes 27 at.step at.block block.now words.old words.new }
{
    put_eight_planes(words, at, block, 0);
    let eights = planes.saturating_sub(1) / 8;
    // Each number of planes that is passed by is known to the compiler.
    for eight in 1..eights {
        match eight {
            1 => put_eight_planes(words, at, block, 8),
            _ => put_eight_planes(words, at, block, 16),
        }
    }
    if eights > 0 {
        put_high_planes(words, at, block, planes, planes - 8 * eights);
    }
    let count = at.slots as u8 - 2;
    for plane in planes.max(8).min(count)..count {
        words[at.step * (PLANES + plane as usize) + at.block] = 0;
    }
}

// Adds to the first `count` words from one place on those from another place on.
fn join_words(words: &mut [u64], to: usize, from: usize, count: usize)
    requires order { to + count ≤ from }
    requires within { from + count ≤ length words.old }
    ensures { JoinsWords to from count words.old words.new }
{
    for r in 0..count {
        words[to + r] = either(words[to + r], words[from + r]);
    }
}

impl SegmentMasks {
    /// Returns room for this number of blocks, of which there is none yet. The only error is a lack of memory.
    pub fn new(alloc: Global, most: usize) -> Result<SegmentMasks, AllocError>
        requires { most ≤ 2 ^ 20 }
        ensures most { IfOk result (λ masks. masks.most ≡ most) }
        ensures numbers { IfOk result (λ masks. masks.numbers ≡ []) }
    {
        let step = step_for(most);
        let mut words = Vec::with_capacity(alloc, SLOTS * step)?;
        let dcs = Vec::with_capacity(alloc, most)?;
        fill_to(&mut words, PLANES * step);
        Ok(SegmentMasks {
            words,
            dcs,
            most,
            step,
            slots: PLANES,
        })
    }

    /// Returns the number of samples of 32 bits for which it has room.
    pub fn samples(&self) -> usize
        ensures { result ≡ 58 * step_for self.now.most + self.now.most }
    {
        2 * self.words.capacity() + self.dcs.capacity()
    }

    /// Returns the number of blocks.
    #[inline(always)]
    pub fn len(&self) -> usize
        ensures { 64 * result ≡ length self.now.numbers }
    {
        self.dcs.len()
    }

    /// Returns the DC of each block.
    #[inline(always)]
    pub fn dcs(&self) -> &[i32]
        ensures long { 64 * length result.now ≡ length self.now.numbers }
        ensures dcs { (r : ℕ) → slice_index_or result.now r (pos 0) ≡ slice_index_or self.now.numbers (64 * r) (pos 0) }
    {
        &self.dcs
    }

    /// Removes all blocks.
    pub fn clear(&mut self)
        ensures most { self.new.most ≡ self.old.most }
        ensures numbers { self.new.numbers ≡ [] }
    {
        self.dcs.clear();
    }

    /// Adds a block of 64 numbers, the DC and then the AC coefficients. All magnitudes are below 2^depth, and those of AC coefficients
    /// below 2^27.
    pub fn push(&mut self, block: &[i32], depth: u8)
        requires whole { length block.now ≡ 64 }
        requires room { length self.old.numbers < 64 * self.old.most }
        requires depth { depth ≤ 28 }
        requires small { (k : ℕ) → magnitude block.now k < 2 ^ depth }
        requires small_ac { (k : ℕ) → 0 < k → magnitude block.now k < 2 ^ 27 }
        ensures most { self.new.most ≡ self.old.most }
        ensures numbers { self.new.numbers ≡ self.old.numbers ++ block.now }
    {
        let planes = depth.min(27);
        self.slots = self.slots.max(PLANES + planes as usize);
        fill_to(&mut self.words, self.step * self.slots);
        let at = WordsOfBlock {
            block: self.dcs.len(),
            step: self.step,
            slots: self.slots,
        };
        put_planes(&mut self.words, at, block, planes);
        self.words[at.step * MINUS + at.block] = all_negative(block);
        self.dcs.push_reserved(block[0]);
    }

    /// Returns which numbers of block r have the bit of a plane in their magnitude.
    #[inline(always)]
    pub fn bits(&self, plane: u8, r: usize) -> u64
        requires plane { plane < 27 }
        requires block { 64 * r < length self.now.numbers }
        ensures { Shows result (λ k. bit (magnitude (block_at self.now.numbers r) k) plane) 0 64 }
    {
        let slot = PLANES + plane as usize;
        if slot < self.slots {
            self.words[self.step * slot + r]
        } else {
            0
        }
    }

    /// Returns which numbers of block r are below 0.
    #[inline(always)]
    pub fn negative(&self, r: usize) -> u64
        requires block { 64 * r < length self.now.numbers }
        ensures { Shows result (λ k. is_negative (slice_index_or (block_at self.now.numbers r) k (pos 0))) 0 64 }
    {
        self.words[self.step * MINUS + r]
    }

    /// Returns which numbers of block r are significant above the plane that is coded next, as `begin` and `settle` left it.
    #[inline(always)]
    pub fn above(&self, r: usize) -> u64
        requires block { 64 * r < length self.now.numbers }
        ensures { result ≡ slice_index_or self.now.above r 0 }
    {
        self.words[self.step * ABOVE + r]
    }

    /// Prepares the masks for the planes below `top`: those of what is significant above the plane that is coded next are of plane `top`.
    pub fn begin(&mut self, top: u8)
        requires { top ≤ 27 }
        ensures most { self.new.most ≡ self.old.most }
        ensures numbers { self.new.numbers ≡ self.old.numbers }
        ensures above { AreAbove top self.new }
    {
        for r in 0..self.dcs.len() {
            let reaches = self.dcs[r].unsigned_abs() >= 1 << 27;
            let place = self.step * ABOVE + r;
            self.words[place] = one(reaches);
        }
        let mut plane = 27;
        while plane > top {
            plane -= 1;
            self.settle(plane);
        }
    }

    /// Adds to the masks of what is significant above a plane what has the plane's bit, as the plane below needs it.
    pub fn settle(&mut self, plane: u8)
        requires plane { plane < 27 }
        requires above { AreAbove (plane + 1) self.old }
        ensures most { self.new.most ≡ self.old.most }
        ensures numbers { self.new.numbers ≡ self.old.numbers }
        ensures above { AreAbove plane self.new }
    {
        let slot = PLANES + plane as usize;
        if slot < self.slots {
            let to = self.step * ABOVE;
            join_words(&mut self.words, to, self.step * slot, self.dcs.len());
        }
    }
}
