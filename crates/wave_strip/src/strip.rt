//! The forward transform of an image, row by row.

ghost use Rattle.std.specs.Prelude.{◌≡◌, ℕ, ◌+◌, ◌*◌, ◌-◌, ◌/◌, ◌%◌, ◌^◌, ◌<◌, ◌≤◌, ℤ, length, IfOk, MatchOption, ◌≢◌};
ghost use Rattle.wave_strip.specs.Counts.{AreCounts, settled};
ghost use Rattle.wave_strip.specs.Sizes.{AreLevels};

use crate::chain::hand_down;
use crate::level::Level;
use crate::tail::end_levels;
use base_122::Band;
use block_families::{BandRows, BandSource, Place};
use std::alloc::{AllocError, Global};

/// The transform of an image of which some rows were taken. A block row is available with its last row, and
/// the last three at the end.
#[derive(Drop)]
pub struct StripWave {
    rows: u32,
    ended: bool,
    answered: u32,
    current: bool,
    first: Level,
    second: Level,
    third: Level,
    ghost levels: { AreLevels first second third },
    ghost counts: { AreCounts rows answered ended current first.columns.taken second.columns.taken third.columns.taken },
}

/// Returns how many block rows are complete after this number of rows.
fn settled_in(rows: u32) -> u32
    ensures { result ≡ settled rows }
{
    rows.saturating_sub(21) / 8
}

impl StripWave {
    ghost use Rattle.wave_strip.specs.Counts.{AreReached};
    ghost use Rattle.wave_strip.specs.Samples.{samples_of};
    ghost use Rattle.std.specs.Prelude.{◌≡◌, ℕ, ◌+◌, ◌*◌, ◌-◌, ◌/◌, ◌%◌, ◌^◌, ◌<◌, ◌≤◌, ◌≢◌, ℤ, length, IsTrue, IfOk, MatchOption, true, false};
    ghost use Rattle.wave_defs.specs.Within.{AllWithin};
    ghost use Rattle.wave_defs.specs.Held.{Agrees, signal};
    ghost use Rattle.wave_strip.specs.Strip.{rows_of, answered_of, columns_of, has_ended, is_current, Follows, IsAtStart, ShowsBlockRow};

    /// Returns the transform of images of rows of `width` samples, at the start of an image. The width is a
    /// multiple of 8 from 24 to 2^20. The only error is a lack of memory.
    pub fn new(alloc: Global, width: u32) -> Result<StripWave, AllocError>
        requires whole { width % 8 ≡ 0 }
        requires long { 24 ≤ width }
        requires most { width ≤ 2 ^ 20 }
        ensures columns { IfOk result (λ s. columns_of s ≡ width / 8) }
        ensures start { IfOk result IsAtStart }
    {
        let blocks = (width / 8) as usize;
        let first = Level::new(alloc, 4 * blocks, 13)?;
        let second = Level::new(alloc, 2 * blocks, 6)?;
        let third = Level::new(alloc, blocks, 3)?;
        Ok(StripWave {
            rows: 0,
            ended: false,
            answered: 0,
            current: false,
            first,
            second,
            third,
        })
    }

    /// Returns how many samples it holds.
    pub fn samples(&self) -> u64
        ensures value { result ≡ samples_of self.now }
        ensures most { result + 64 ≤ 62 * (8 * columns_of self.now) }
    {
        self.first.samples() + self.second.samples() + self.third.samples()
    }

    /// Resets it to the start of an image.
    pub fn reset(&mut self)
        ensures columns { columns_of self.new ≡ columns_of self.old }
        ensures start { IsAtStart self.new }
    {
        self.first.reset();
        self.second.reset();
        self.third.reset();
        self.rows = 0;
        self.ended = false;
        self.answered = 0;
        self.current = false;
    }

    // Returns the available block row.
    fn block(&self) -> usize
        requires { is_current self.now ≡ true }
        ensures value { result ≡ answered_of self.now - 1 }
        ensures reached { AreReached (answered_of self.now) self.now.first.columns.taken self.now.second.columns.taken self.now.third.columns.taken }
        ensures few { (self.now.first.columns.taken < 2 ^ 32) × (self.now.second.columns.taken < 2 ^ 32) × (self.now.third.columns.taken < 2 ^ 32) }
    {
        self.answered as usize - 1
    }

    /// Takes the next row, and returns the block row that it completes, if any.
    pub fn push_row(&mut self, row: &[i32]) -> Option<u32>
        requires wide { length row.now ≡ 8 * columns_of self.old }
        requires bounded { AllWithin (2 ^ 16) (8 * columns_of self.old) (signal row.now) }
        requires few { rows_of self.old < 262144 }
        requires running { has_ended self.old ≡ false }
        ensures columns { columns_of self.new ≡ columns_of self.old }
        ensures rows { rows_of self.new ≡ rows_of self.old + 1 }
        ensures running { has_ended self.new ≡ false }
        ensures answer { MatchOption result ((r : ℕ) → rows_of self.new ≢ 8 * r + 29) (λ r. rows_of self.new ≡ 8 * r + 29) }
        ensures answered { answered_of self.new ≡ settled (rows_of self.new) }
        ensures current { MatchOption result (is_current self.new ≡ false) (λ r. (is_current self.new ≡ true) × (answered_of self.new ≡ r + 1)) }
        ensures follows { (image : ℕ → ℕ → ℤ) (r : ℕ) → 3 ≤ r → rows_of self.old < 8 * r → Follows image r self.old
            → Agrees (8 * columns_of self.old) (signal row.now) (image (rows_of self.old)) → Follows image r self.new }
        ensures shows { (image : ℕ → ℕ → ℤ) (r : ℕ) → is_current self.new ≡ true → 3 ≤ r → rows_of self.new ≤ 8 * r
            → Follows image r self.new → ShowsBlockRow image r self.new }
    {
        self.first.take(row);
        hand_down(&self.first, &mut self.second, &mut self.third);
        self.rows += 1;
        let now = settled_in(self.rows);
        self.current = self.answered < now;
        if !self.current {
            return None;
        }
        self.answered = now;
        Some(now - 1)
    }

    /// Returns the next block row, if the image has exactly the rows that were taken.
    pub fn finish_row(&mut self) -> Option<u32>
        requires whole { rows_of self.old % 8 ≡ 0 }
        requires long { 24 ≤ rows_of self.old }
        ensures columns { columns_of self.new ≡ columns_of self.old }
        ensures rows { rows_of self.new ≡ rows_of self.old }
        ensures ended { has_ended self.new ≡ true }
        ensures answer { MatchOption result (rows_of self.old / 8 ≤ answered_of self.old)
            (λ r. (r ≡ answered_of self.old) × (r < rows_of self.old / 8)) }
        ensures current { MatchOption result ((is_current self.new ≡ false) × (answered_of self.new ≡ answered_of self.old))
            (λ r. (is_current self.new ≡ true) × (answered_of self.new ≡ r + 1)) }
        ensures follows { (image : ℕ → ℕ → ℤ) (r : ℕ) → rows_of self.old ≡ 8 * r → Follows image r self.old
            → Follows image r self.new }
        ensures shows { (image : ℕ → ℕ → ℤ) (r : ℕ) → is_current self.new ≡ true → rows_of self.new ≡ 8 * r
            → Follows image r self.new → ShowsBlockRow image r self.new }
    {
        if !self.ended {
            end_levels(&mut self.first, &mut self.second, &mut self.third);
            self.ended = true;
        }
        self.current = self.answered < self.rows / 8;
        if !self.current {
            return None;
        }
        self.answered += 1;
        Some(self.answered - 1)
    }
}

impl BandSource for StripWave {
    ghost use Rattle.wave_strip.specs.Strip.{columns_of, is_current, number_in};

    ghost columns = { λ s. columns_of s };

    ghost valid = { λ s. is_current s };

    ghost number = { λ s p. number_in s p };

    fn value(&self, place: Place) -> i32 {
        self.row(place.band, place.row)[place.column as usize]
    }
}

impl BandRows for StripWave {
    fn row(&self, band: Band, row: u32) -> &[i32] {
        let (block, row) = (self.block(), row as usize);
        let (first, second, third) = (&self.first, &self.second, &self.third);
        match band {
            Band::Hh1 => &first.columns.high(4 * block + row)[first.half..],
            Band::Hl1 => &first.columns.low(4 * block + row)[first.half..],
            Band::Lh1 => &first.columns.high(4 * block + row)[..first.half],
            Band::Hh2 => &second.columns.high(2 * block + row)[second.half..],
            Band::Hl2 => &second.columns.low(2 * block + row)[second.half..],
            Band::Lh2 => &second.columns.high(2 * block + row)[..second.half],
            Band::Hh3 => &third.columns.high(block)[third.half..],
            Band::Hl3 => &third.columns.low(block)[third.half..],
            Band::Lh3 => &third.columns.high(block)[..third.half],
            Band::Ll3 => &third.columns.low(block)[..third.half],
        }
    }
}
