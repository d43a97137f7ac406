//! The three levels, one after another.

ghost use Rattle.std.specs.Prelude.{◌≡◌, ℕ, ◌+◌, ◌*◌, ◌-◌, ◌^◌, ◌<◌, ◌≤◌, ℤ, length, vec_len, true};
ghost use Rattle.base_122.specs.Weights.{band_place};
ghost use Rattle.inverse_strip.specs.Kept.{Counts};
ghost use Rattle.inverse_strip.specs.Columns.{IsSmall};
ghost use Rattle.inverse_strip.specs.Zeros.{IsQuiet};

use crate::block_row::BlockRow;
use crate::level::InverseLevel;
use crate::stage::LevelStage;
use base_122::Band;
use block_families::Place;
use std::alloc::{AllocError, Global};

/// The rolling inverse of an image of `height` block rows: three levels, the last row that was made,
/// and the block row that is set next. If `quiet`, all numbers that these have are 0, except those of the block row that is set next.
#[derive(Drop)]
pub struct StripInverse {
    height: usize,
    third: InverseLevel,
    second: LevelStage,
    first: LevelStage,
    row: Vec<i64>,
    next: BlockRow,
    quiet: bool,
    ghost high: { 3 ≤ height },
    ghost short: { height ≤ 2 ^ 15 },
    ghost few: { third.left.width ≤ 2 ^ 17 },
    ghost next_wide: { next.columns ≡ third.left.width },
    ghost second_wide: { second.level.left.width ≡ 2 * third.left.width },
    ghost first_wide: { first.level.left.width ≡ 4 * third.left.width },
    ghost row_room: { vec_len row ≡ 8 * third.left.width },
    ghost second_kept: { second.kept ≡ 6 },
    ghost first_kept: { first.kept ≡ 13 },
    ghost second_taken: { second.level.left.taken ≡ third.given },
    ghost first_taken: { first.level.left.taken ≡ second.level.given },
    ghost second_came: { second.came ≡ 2 * third.left.taken },
    ghost first_came: { first.came ≡ 4 * third.left.taken },
    ghost counts: { Counts third.left.taken third.given second.level.given first.level.given height },
    ghost third_within: { IsSmall (2 ^ 27) third.left },
    ghost second_within: { IsSmall (21 * 2 ^ 25) second.level.left },
    ghost all_zero: { quiet ≡ true → IsQuiet third second first row.items },
}

// Returns the number of a band.
#[inline(always)]
fn number_of(band: Band) -> usize
    ensures { result ≡ band_place band }
{
    band as usize
}

impl StripInverse {
    ghost use Rattle.std.specs.Prelude.{◌≡◌, ℕ, ◌+◌, ◌*◌, ◌-◌, ◌^◌, ◌<◌, ◌≤◌, ℤ, pos, ◌/◌, length, vec_len, IfOk, true};
    ghost use Rattle.std.specs.Bool.{OnTrue, OnFalse};
    ghost use Rattle.wave_defs.specs.Pyramid.{Pyramid, rebuilt};
    ghost use Rattle.wave_defs.specs.Held.{Agrees, signal};
    ghost use Rattle.inverse_strip.specs.Kept.{Counts, IsCompletion, HasRow, HasNext, IsIdle, IsDrained};
    ghost use Rattle.inverse_strip.specs.Strip.{FollowStrip, IsNext, Keeps, columns_of, height_of, taken_of, next_of, numbers_of, row_of};
    ghost use Rattle.wave_defs.specs.Blocks.{Place as NumberedPlace, block_side};
    ghost use Rattle.block_families.specs.Scattering.{SetsSquare};
    ghost use Rattle.inverse_strip.specs.Cells.{number_in};
    ghost use Rattle.inverse_strip.specs.Samples.{strip_samples};
    ghost use Rattle.std.specs.Prelude.{IfSome, slice_index_or, unsigned_abs};
    ghost use Rattle.base_122.specs.Weights.{band_place};
    ghost use Rattle.block_families.specs.Places.{named, IsWithin as IsPlaceIn};
    ghost use Rattle.std.specs.Borrow.{sem};
    ghost use Rattle.inverse_strip.specs.Lending.{MovesAfter};
    ghost use Rattle.inverse_strip.specs.Zeros.{IsZeroLevel, IsZeroStage};

    /// Moves one row from a level to the next one, if one can be moved; returns whether it did. The first level has none left.
    fn step(&mut self) -> bool
        requires { IsDrained self.old.first.level.left.taken (next_of self.old) }
        ensures height { height_of self.new ≡ height_of self.old }
        ensures width { columns_of self.new ≡ columns_of self.old }
        ensures taken { taken_of self.new ≡ taken_of self.old }
        ensures given { next_of self.new ≡ next_of self.old }
        ensures moved { OnTrue result (self.new.third.given + self.new.second.level.given
            ≡ self.old.third.given + self.old.second.level.given + 1) }
        ensures third_none { OnFalse result
            (HasRow (taken_of self.new) self.new.third.given (height_of self.new) → ⊥) }
        ensures second_none { OnFalse result
            (HasRow self.new.second.level.left.taken self.new.second.level.given
            (2 * height_of self.new) → ⊥) }
        ensures unchanged { OnFalse result (self.new ≡ self.old) }
        ensures next { self.new.next ≡ self.old.next }
        ensures follows { (p : Pyramid) (r : ℕ)
            → IsCompletion (taken_of self.old) (height_of self.old) r
            → FollowStrip p r self.old → FollowStrip p r self.new }
    {
        if self.second.level.has_row(2 * self.height) {
            self.first
                .feed(&mut self.second.level, 2 * self.height, self.quiet);
            return true;
        }
        if self.third.has_row(self.height) {
            self.second.feed(&mut self.third, self.height, self.quiet);
            return true;
        }
        false
    }

    /// Makes the next row, if it can be made: if it is one of the first 8n - 21 with n block rows taken, or all were taken
    /// and not all rows were made. The block row that is set next stays as it is.
    pub fn make_row(&mut self) -> bool
        ensures height { height_of self.new ≡ height_of self.old }
        ensures width { columns_of self.new ≡ columns_of self.old }
        ensures taken { taken_of self.new ≡ taken_of self.old }
        ensures given { OnTrue result
            (next_of self.new ≡ next_of self.old + 1) }
        ensures made { OnTrue result (HasNext (taken_of self.old)
            (next_of self.old) (height_of self.old)) }
        ensures kept { OnFalse result (next_of self.new ≡ next_of self.old) }
        ensures idle { OnFalse result (IsIdle (taken_of self.new)
            (next_of self.new) (height_of self.new)) }
        ensures numbers { (q : NumberedPlace) → numbers_of self.new q ≡ numbers_of self.old q }
        ensures follows { (p : Pyramid) (r : ℕ)
            → IsCompletion (taken_of self.old) (height_of self.old) r
            → FollowStrip p r self.old → FollowStrip p r self.new }
        ensures value { (p : Pyramid) (r : ℕ)
            → IsCompletion (taken_of self.old) (height_of self.old) r
            → FollowStrip p r self.old
            → OnTrue result (Agrees (8 * columns_of self.old) (signal (row_of self.new))
            (rebuilt p r (columns_of self.old) (next_of self.old))) }
    {
        while !self.first.level.has_row(4 * self.height) {
            if !self.step() {
                return false;
            }
        }
        self.first
            .next_row(4 * self.height, &mut self.row, self.quiet);
        true
    }

    /// Takes the block row that was set. No row is left to make before it.
    pub fn push_block_row(&mut self)
        requires fewer { taken_of self.old < height_of self.old }
        requires idle { IsIdle (taken_of self.old) (next_of self.old) (height_of self.old) }
        ensures height { height_of self.new ≡ height_of self.old }
        ensures width { columns_of self.new ≡ columns_of self.old }
        ensures taken { taken_of self.new ≡ taken_of self.old + 1 }
        ensures given { next_of self.new ≡ next_of self.old }
        ensures zero { (q : NumberedPlace) → numbers_of self.new q ≡ pos 0 }
        ensures follows { (p : Pyramid) (r : ℕ) → FollowStrip p r self.old
            → IsNext p (taken_of self.old) self.old → FollowStrip p r self.new }
    {
        self.quiet = false;
        self.third.push_bands(
            self.next.row(9, 0),
            self.next.row(7, 0),
            self.next.row(8, 0),
            self.next.row(6, 0),
        );
        self.second.take_rows(&mut self.next, 3, 2);
        self.first.take_rows(&mut self.next, 0, 4);
        self.next.clear();
    }

    // Returns whether all numbers that the levels keep are 0. After a block row with other numbers the oldest rows are the last ones to
    // be 0, and the first level's the last of all: so most often the first number that is read decides it.
    fn is_zero(&self) -> bool
        ensures { result ≡ true → IsZeroLevel self.now.third × IsZeroStage self.now.second × IsZeroStage self.now.first }
    {
        self.first.is_zero() && self.second.is_zero() && self.third.is_zero()
    }

    /// Takes the block row that was set, as `push_block_row` does. If it is `lost`, all its numbers are 0: from the block row on before
    /// which all numbers were 0 that the levels keep, nothing is computed until a block row isn't lost.
    pub fn push_row(&mut self, lost: bool)
        requires fewer { taken_of self.old < height_of self.old }
        requires idle { IsIdle (taken_of self.old) (next_of self.old) (height_of self.old) }
        requires lost { lost ≡ true → (q : NumberedPlace) → numbers_of self.old q ≡ pos 0 }
        ensures height { height_of self.new ≡ height_of self.old }
        ensures width { columns_of self.new ≡ columns_of self.old }
        ensures taken { taken_of self.new ≡ taken_of self.old + 1 }
        ensures given { next_of self.new ≡ next_of self.old }
        ensures zero { (q : NumberedPlace) → numbers_of self.new q ≡ pos 0 }
        ensures follows { (p : Pyramid) (r : ℕ) → FollowStrip p r self.old
            → IsNext p (taken_of self.old) self.old → FollowStrip p r self.new }
    {
        if lost && self.quiet {
            self.third.pass();
            self.second.pass_rows(2);
            self.first.pass_rows(4);
            return;
        }
        self.push_block_row();
        if lost && self.is_zero() {
            self.row.fill(0);
            self.quiet = true;
        }
    }

    /// Returns the inverse of which no block row was taken, and in which all numbers of the block row that is
    /// set next are 0. The image has `width` columns and `rows` rows.
    pub fn new(alloc: Global, width: u32, rows: u32) -> Result<StripInverse, AllocError>
        requires width_whole { width ≡ 8 * (width / 8) }
        requires wide { 24 ≤ width }
        requires width_short { width ≤ 2 ^ 20 }
        requires rows_whole { rows ≡ 8 * (rows / 8) }
        requires high { 24 ≤ rows }
        requires rows_short { rows ≤ 2 ^ 18 }
        ensures height { IfOk result (λ s. height_of s ≡ rows / 8) }
        ensures width { IfOk result (λ s. columns_of s ≡ width / 8) }
        ensures taken { IfOk result (λ s. taken_of s ≡ 0) }
        ensures given { IfOk result (λ s. next_of s ≡ 0) }
        ensures zero { IfOk result (λ s. (q : NumberedPlace)
            → numbers_of s q ≡ pos 0) }
        ensures follows { IfOk result (λ s. (p : Pyramid) (r : ℕ) → FollowStrip p r s) }
    {
        let columns = width as usize / 8;
        let third = InverseLevel::new(alloc, columns)?;
        let second = LevelStage::new(alloc, 2 * columns, 6)?;
        let first = LevelStage::new(alloc, 4 * columns, 13)?;
        let row = vec![in alloc; 0; 8 * columns]?;
        let next = BlockRow::new(alloc, columns)?;
        Ok(StripInverse {
            height: rows as usize / 8,
            third,
            second,
            first,
            row,
            next,
            quiet: false,
        })
    }

    /// Sets the number of rows of the image. Neither all block rows of the earlier height were taken, nor all
    /// of `rows`.
    pub fn end_at(&mut self, rows: u32)
        requires rows_whole { rows ≡ 8 * (rows / 8) }
        requires high { 24 ≤ rows }
        requires rows_short { rows ≤ 2 ^ 18 }
        requires more { 8 * taken_of self.old < rows }
        requires fewer { taken_of self.old < height_of self.old }
        ensures height { height_of self.new ≡ rows / 8 }
        ensures width { columns_of self.new ≡ columns_of self.old }
        ensures taken { taken_of self.new ≡ taken_of self.old }
        ensures given { next_of self.new ≡ next_of self.old }
        ensures numbers { (q : NumberedPlace) → numbers_of self.new q ≡ numbers_of self.old q }
        ensures next { (p : Pyramid) (t : ℕ) → IsNext p t self.old → IsNext p t self.new }
        ensures follows { (p : Pyramid) (r : ℕ) → FollowStrip p r self.old → FollowStrip p r self.new }
    {
        self.height = rows as usize / 8;
    }

    /// Makes a value the number at a place of the block row that is set next, and changes nothing else.
    #[inline(always)]
    pub fn put(&mut self, place: Place, value: i64)
        requires within { IsPlaceIn (columns_of self.old) (named place) }
        requires small { unsigned_abs value ≤ 2 ^ 27 }
        ensures value { numbers_of self.new (named place) ≡ value }
        ensures others { (p : NumberedPlace) → (p ≡ named place → ⊥)
            → numbers_of self.new p ≡ numbers_of self.old p }
        ensures keeps { Keeps self.old self.new }
    {
        self.next.set(
            place.band as usize,
            place.row as usize,
            place.column as usize,
            value,
        );
    }

    /// Makes four values the numbers of a square of two rows and two columns from this place on, the upper two first, in the
    /// block row that is set next, and changes nothing else.
    #[inline(always)]
    pub fn put_square(&mut self, place: Place, values: [i64; 4])
        requires rows { place.row + 2 ≤ block_side (band_place place.band) }
        requires inside { place.column + 2 ≤ block_side (band_place place.band) * columns_of self.old }
        requires small { (k : ℕ) → k < 4 → unsigned_abs (slice_index_or values k (pos 0)) ≤ 2 ^ 27 }
        ensures values { SetsSquare (numbers_of self.old) (numbers_of self.new) (named place) values }
        ensures keeps { Keeps self.old self.new }
    {
        self.next.set_square(
            number_of(place.band),
            place.row as usize,
            place.column as usize,
            values,
        );
    }

    /// Returns how many samples it holds: at most 80 rows of the image.
    pub fn samples(&self) -> u64
        ensures all { result ≡ strip_samples self.now }
        ensures bound { result ≤ 80 * (8 * columns_of self.now) }
    {
        376 * self.third.left.width as u64
    }

    /// Returns the next row of the inverse, if it can be made before the next block row (docs/formats.md, "Levels and
    /// padding"), as `make_row` makes it.
    pub fn next_row(&mut self) -> Option<&[i64]>
        ensures* after_borrow { sem 𝓛 (MovesAfter self.entry result) }
        ensures wide { IfSome result (λ x. length x.now ≡ 8 * columns_of self.old) }
        ensures value { (p : Pyramid) (r : ℕ)
            → IsCompletion (taken_of self.old) (height_of self.old) r
            → FollowStrip p r self.old
            → IfSome result (λ x. Agrees (8 * columns_of self.old) (signal x.now)
            (rebuilt p r (columns_of self.old) (next_of self.old))) }
    {
        if !self.make_row() {
            return None;
        }
        Some(&self.row)
    }

    /// Returns the row that was made last.
    pub fn row(&self) -> &[i64]
        ensures row { result.now ≡ row_of self.now }
        ensures wide { length result.now ≡ 8 * columns_of self.now }
    {
        &self.row
    }
}
