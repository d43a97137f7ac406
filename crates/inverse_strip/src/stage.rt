//! A level whose low band is the output of the level before it, and whose other bands wait for it.

ghost use Rattle.std.specs.Prelude.{◌≡◌, ℕ, ◌+◌, ◌*◌, ◌-◌, ◌/◌, ◌^◌, ◌<◌, ◌≤◌, ℤ, length, vec_len};
ghost use Rattle.wave_defs.specs.Rings.{AreRows, RowsWithin};

use crate::block_row::BlockRow;
use crate::level::InverseLevel;
use crate::zeros::are_zero;
use line_rings::RowRing;
use std::alloc::{AllocError, Global};

/// A level, the newest rows of its three high bands, and the number of rows that arrived.
#[derive(Drop)]
pub struct LevelStage {
    pub level: InverseLevel,
    pub kept: usize,
    pub came: usize,
    pub hl: RowRing<i32>,
    pub lh: RowRing<i32>,
    pub hh: RowRing<i32>,
    ghost some: { 1 ≤ kept },
    ghost hl_valid: { AreRows kept level.left.width hl },
    ghost lh_valid: { AreRows kept level.left.width lh },
    ghost hh_valid: { AreRows kept level.left.width hh },
    ghost hl_small: { RowsWithin (2 ^ 27) level.left.width hl },
    ghost lh_small: { RowsWithin (2 ^ 27) level.left.width lh },
    ghost hh_small: { RowsWithin (2 ^ 27) level.left.width hh },
    ghost waits: { came ≤ level.left.taken + kept },
}

impl LevelStage {
    ghost use Rattle.std.specs.Prelude.{◌≡◌, ◌≢◌, ℕ, ◌+◌, ◌*◌, ◌-◌, ◌/◌, ◌^◌, ◌<◌, ◌≤◌, ℤ, [], length, vec_len, IfOk, slice_index_or, true};
    ghost use Rattle.wave_defs.specs.Level.{Quarters, joined};
    ghost use Rattle.wave_defs.specs.Within.{AllWithin};
    ghost use Rattle.wave_defs.specs.Held.{Agrees, signal};
    ghost use Rattle.inverse_strip.specs.Kept.{HasRow, IsDrained, level_bound};
    ghost use Rattle.inverse_strip.specs.Columns.{IsSmall};
    ghost use Rattle.inverse_strip.specs.Level.{FollowLevel};
    ghost use Rattle.inverse_strip.specs.Stage.{FollowStage};
    ghost use Rattle.inverse_strip.specs.Zeros.{zeros, IsZeroRow, IsZeroLevel, IsZeroStage};
    ghost use Rattle.wave_defs.specs.Blocks.{block_side};
    ghost use Rattle.inverse_strip.specs.Cells.{HasBlockRow, first_row, row_place};

    /// Returns a level to which no row arrived. The bands have rows of `width` samples, and `kept` rows of each high one may wait.
    pub fn new(alloc: Global, width: usize, kept: usize) -> Result<LevelStage, AllocError>
        requires wide { 3 ≤ width }
        requires some { 1 ≤ kept }
        ensures width { IfOk result (λ s. s.level.left.width ≡ width) }
        ensures taken { IfOk result (λ s. s.level.left.taken ≡ 0) }
        ensures given { IfOk result (λ s. s.level.given ≡ 0) }
        ensures kept { IfOk result (λ s. s.kept ≡ kept) }
        ensures came { IfOk result (λ s. s.came ≡ 0) }
        ensures follows { IfOk result (λ s. (q : Quarters) → FollowStage q s) }
        ensures within { IfOk result (λ s. (m : ℕ) → IsSmall m s.level.left) }
    {
        let level = InverseLevel::new(alloc, width)?;
        let hl = RowRing::new(alloc, kept, width, 0)?;
        let lh = RowRing::new(alloc, kept, width, 0)?;
        let hh = RowRing::new(alloc, kept, width, 0)?;
        Ok(LevelStage {
            level,
            kept,
            came: 0,
            hl,
            lh,
            hh,
        })
    }

    // Takes row y of its high bands out of a block row, in which it leaves other rows. There is room for them.
    fn take_row(&mut self, bands: &mut BlockRow, high: usize, y: usize)
        requires high { high < 8 }
        requires row { y < block_side high }
        requires side_hl { block_side (high + 1) ≡ block_side high }
        requires side_lh { block_side (high + 2) ≡ block_side high }
        requires wide { self.old.level.left.width ≡ block_side high * bands.old.columns }
        requires room { self.old.came < self.old.level.left.taken + self.old.kept }
        requires few { self.old.came < 2 ^ 32 }
        ensures level { self.new.level ≡ self.old.level }
        ensures kept { self.new.kept ≡ self.old.kept }
        ensures came { self.new.came ≡ self.old.came + 1 }
        ensures columns { bands.new.columns ≡ bands.old.columns }
        ensures others { (i : ℕ) → i ≢ row_place high y → i ≢ row_place (high + 1) y → i ≢ row_place (high + 2) y
            → slice_index_or bands.new.rows i [] ≡ slice_index_or bands.old.rows i [] }
        ensures follows { (q : Quarters) → FollowStage q self.old
            → Agrees self.old.level.left.width (signal (slice_index_or bands.old.rows (row_place (high + 1) y) [])) (q.hl self.old.came)
            → Agrees self.old.level.left.width (signal (slice_index_or bands.old.rows (row_place (high + 2) y) [])) (q.lh self.old.came)
            → Agrees self.old.level.left.width (signal (slice_index_or bands.old.rows (row_place high y) [])) (q.hh self.old.came)
            → FollowStage q self.new }
    {
        bands.turn_into(high + 1, y, &mut self.hl);
        bands.turn_into(high + 2, y, &mut self.lh);
        bands.turn_into(high, y, &mut self.hh);
        self.came += 1;
    }

    /// Takes the rows of its high bands out of a block row, in which it leaves other rows. HH has the number `high`, and HL and LH have
    /// the next two.
    pub fn take_rows(&mut self, bands: &mut BlockRow, high: usize, side: usize)
        requires high { high < 8 }
        requires side { block_side high ≡ side }
        requires side_hl { block_side (high + 1) ≡ side }
        requires side_lh { block_side (high + 2) ≡ side }
        requires wide { self.old.level.left.width ≡ side * bands.old.columns }
        requires room { self.old.came + side ≤ self.old.level.left.taken + self.old.kept }
        requires few { self.old.came < 2 ^ 31 }
        ensures level { self.new.level ≡ self.old.level }
        ensures kept { self.new.kept ≡ self.old.kept }
        ensures came { self.new.came ≡ self.old.came + side }
        ensures columns { bands.new.columns ≡ bands.old.columns }
        ensures others { (i : ℕ) → i < first_row high → slice_index_or bands.new.rows i [] ≡ slice_index_or bands.old.rows i [] }
        ensures follows { (q : Quarters) → FollowStage q self.old
            → HasBlockRow q.hl (high + 1) self.old.came bands.old.columns bands.old.rows
            → HasBlockRow q.lh (high + 2) self.old.came bands.old.columns bands.old.rows
            → HasBlockRow q.hh high self.old.came bands.old.columns bands.old.rows
            → FollowStage q self.new }
    {
        for y in 0..side {
            self.take_row(bands, high, y);
        }
    }

    /// Takes `side` rows of each of its high bands, which are rows of zeros. All numbers that are kept are 0, and so are they afterwards.
    pub fn pass_rows(&mut self, side: usize)
        requires zero { IsZeroStage self.old }
        requires room { self.old.came + side ≤ self.old.level.left.taken + self.old.kept }
        requires few { self.old.came + side < 2 ^ 32 }
        ensures level { self.new.level ≡ self.old.level }
        ensures kept { self.new.kept ≡ self.old.kept }
        ensures came { self.new.came ≡ self.old.came + side }
        ensures zero { IsZeroStage self.new }
        ensures follows { (q : Quarters) → FollowStage q self.old
            → ((y : ℕ) → y < side → Agrees self.old.level.left.width zeros (q.hl (self.old.came + y)))
            → ((y : ℕ) → y < side → Agrees self.old.level.left.width zeros (q.lh (self.old.came + y)))
            → ((y : ℕ) → y < side → Agrees self.old.level.left.width zeros (q.hh (self.old.came + y)))
            → FollowStage q self.new }
    {
        self.came += side;
    }

    /// Returns whether all numbers that are kept are 0.
    pub fn is_zero(&self) -> bool
        ensures { result ≡ true → IsZeroStage self.now }
    {
        are_zero(&self.hl, self.kept)
            && are_zero(&self.lh, self.kept)
            && are_zero(&self.hh, self.kept)
            && self.level.is_zero()
    }

    /// Takes the next row from the level before, whose bands have `height` rows in all. If `zero`, all numbers that both keep are 0, and so
    /// are they afterwards.
    pub fn feed(&mut self, before: &mut InverseLevel, height: usize, zero: bool)
        requires wide { self.old.level.left.width ≡ 2 * before.old.left.width }
        requires few { before.old.left.taken < 2 ^ 32 }
        requires few_here { self.old.level.left.taken < 2 ^ 32 - 1 }
        requires row { HasRow before.old.left.taken before.old.given height }
        requires next { before.old.given ≡ self.old.level.left.taken }
        requires waits { self.old.level.left.taken < self.old.came }
        requires few_came { self.old.came < 2 ^ 32 }
        requires few_kept { self.old.kept < 2 ^ 32 }
        requires drained { IsDrained self.old.level.left.taken self.old.level.given }
        requires within { IsSmall (21 * 2 ^ 25) before.old.left }
        requires zero { zero ≡ true → IsZeroLevel before.old × IsZeroStage self.old }
        ensures zero { zero ≡ true → IsZeroLevel before.new × IsZeroStage self.new }
        ensures width { self.new.level.left.width ≡ self.old.level.left.width }
        ensures taken { self.new.level.left.taken ≡ self.old.level.left.taken + 1 }
        ensures given { self.new.level.given ≡ self.old.level.given }
        ensures came { self.new.came ≡ self.old.came }
        ensures kept { self.new.kept ≡ self.old.kept }
        ensures before_width { before.new.left.width ≡ before.old.left.width }
        ensures before_taken { before.new.left.taken ≡ before.old.left.taken }
        ensures before_given { before.new.given ≡ before.old.given + 1 }
        ensures before_follows { (q : Quarters) → FollowLevel q before.old → FollowLevel q before.new }
        ensures before_within { (m : ℕ) → IsSmall m before.old.left → IsSmall m before.new.left }
        ensures follows { (b q : Quarters) (n : ℕ) → FollowLevel b before.old
            → before.old.left.taken ≤ n → (before.old.left.taken ≡ height → n ≡ height)
            → q.ll ≡ joined b n before.old.left.width
            → FollowStage q self.old → FollowStage q self.new }
        ensures within { (m k : ℕ) → IsSmall m before.old.left → level_bound m ≤ k
            → IsSmall k self.old.level.left → IsSmall k self.new.level.left }
    {
        if zero {
            before.skip_row(height);
            self.level.pass();
            return;
        }
        before.next_row(height, &mut self.level.left_row);
        let i = self.level.left.taken + self.kept - self.came;
        self.level.push(self.hl.at(i), self.lh.at(i), self.hh.at(i));
    }

    /// Gives the level's next row in 64 bits, if the bands have `height` rows in all. If `zero`, all numbers that are kept are 0 and so are
    /// those of the earlier row.
    pub fn next_row(&mut self, height: usize, into: &mut [i64], zero: bool)
        requires wide { length into.old ≡ 2 * self.old.level.left.width }
        requires few { self.old.level.left.taken < 2 ^ 32 }
        requires row { HasRow self.old.level.left.taken self.old.level.given height }
        requires zero { zero ≡ true → IsZeroStage self.old × IsZeroRow into.old }
        ensures zero { zero ≡ true → IsZeroStage self.new × IsZeroRow into.new }
        ensures width { self.new.level.left.width ≡ self.old.level.left.width }
        ensures taken { self.new.level.left.taken ≡ self.old.level.left.taken }
        ensures given { self.new.level.given ≡ self.old.level.given + 1 }
        ensures came { self.new.came ≡ self.old.came }
        ensures kept { self.new.kept ≡ self.old.kept }
        ensures follows { (q : Quarters) → FollowStage q self.old → FollowStage q self.new }
        ensures value { (q : Quarters) (n : ℕ) → FollowStage q self.old
            → self.old.level.left.taken ≤ n → (self.old.level.left.taken ≡ height → n ≡ height)
            → Agrees (2 * self.old.level.left.width) (signal into.new)
            (joined q n self.old.level.left.width self.old.level.given) }
    {
        if zero {
            self.level.skip_row(height);
            return;
        }
        self.level.next_row_widened(height, into);
    }
}
