//! One level, put together row by row.

ghost use Rattle.std.specs.Prelude.{◌≡◌, ℕ, ◌+◌, ◌*◌, ◌-◌, ◌/◌, ◌^◌, ◌<◌, ◌≤◌, ℤ, length, vec_len, true};
ghost use Rattle.inverse_strip.specs.Kept.{Waits};

use crate::columns::Columns;
use crate::small::are_small;
use lift_rows::{inverse_row_narrow, inverse_row_widened};
use std::alloc::{AllocError, Global};

/// The rows that are kept of the four bands of a level, of which some rows were taken, and how many rows of
/// the image were given. The left columns are those of LL and LH, the right ones those of HL and HH, whose low rows are those of
/// a band and so within 2^27.
#[derive(Drop)]
pub struct InverseLevel {
    pub left: Columns,
    pub right: Columns,
    pub given: usize,
    pub left_row: Vec<i32>,
    pub right_row: Vec<i32>,
    ghost same_width: { right.width ≡ left.width },
    ghost same_taken: { right.taken ≡ left.taken },
    ghost wide: { 3 ≤ left.width },
    ghost left_room: { vec_len left_row ≡ left.width },
    ghost right_room: { vec_len right_row ≡ left.width },
    ghost waits: { Waits left.taken given },
    ghost right_small: { right.small ≡ true },
}

impl InverseLevel {
    ghost use Rattle.std.specs.Prelude.{◌≡◌, ◌≢◌, ℕ, ◌+◌, ◌*◌, ◌-◌, ◌/◌, ◌^◌, ◌<◌, ◌≤◌, ℤ, length, vec_len, IfOk, IsTrue, ◌↔◌};
    ghost use Rattle.wave_defs.specs.Level.{Quarters, joined, columns_merged};
    ghost use Rattle.wave_defs.specs.Within.{AllWithin};
    ghost use Rattle.wave_defs.specs.Held.{Agrees, signal};
    ghost use Rattle.inverse_strip.specs.Kept.{HasRow, IsDrained, column_bound, level_bound};
    ghost use Rattle.inverse_strip.specs.Columns.{IsSmall};
    ghost use Rattle.inverse_strip.specs.Level.{FollowLevel};
    ghost use Rattle.inverse_strip.specs.Zeros.{zeros, IsZeroLevel};

    /// Returns a level of which no row was taken. The bands have rows of `width` samples.
    pub fn new(alloc: Global, width: usize) -> Result<InverseLevel, AllocError>
        requires { 3 ≤ width }
        ensures width { IfOk result (λ s. s.left.width ≡ width) }
        ensures taken { IfOk result (λ s. s.left.taken ≡ 0) }
        ensures given { IfOk result (λ s. s.given ≡ 0) }
        ensures follows { IfOk result (λ s. (q : Quarters) → FollowLevel q s) }
        ensures within { IfOk result (λ s. (m : ℕ) → IsSmall m s.left) }
    {
        let left = Columns::new(alloc, width)?;
        let right = Columns::new(alloc, width)?;
        let left_row = vec![in alloc; 0; width]?;
        let right_row = vec![in alloc; 0; width]?;
        Ok(InverseLevel {
            left,
            right,
            given: 0,
            left_row,
            right_row,
        })
    }

    /// Takes the next row of each band. The row of the low band is in `left_row`. No row is left to give.
    pub fn push(&mut self, hl: &[i32], lh: &[i32], hh: &[i32])
        requires wide_hl { length hl.now ≡ self.old.left.width }
        requires wide_lh { length lh.now ≡ self.old.left.width }
        requires wide_hh { length hh.now ≡ self.old.left.width }
        requires few { self.old.left.taken < 2 ^ 32 - 1 }
        requires drained { IsDrained self.old.left.taken self.old.given }
        requires small_ll { AllWithin (375 * 2 ^ 22) self.old.left.width (signal self.old.left_row.items) }
        requires small_hl { AllWithin (2 ^ 27) self.old.left.width (signal hl.now) }
        requires small_lh { AllWithin (2 ^ 27) self.old.left.width (signal lh.now) }
        requires small_hh { AllWithin (2 ^ 27) self.old.left.width (signal hh.now) }
        ensures width { self.new.left.width ≡ self.old.left.width }
        ensures taken { self.new.left.taken ≡ self.old.left.taken + 1 }
        ensures given { self.new.given ≡ self.old.given }
        ensures follows { (q : Quarters) → FollowLevel q self.old
            → Agrees self.old.left.width (signal self.old.left_row.items) (q.ll self.old.left.taken)
            → Agrees self.old.left.width (signal hl.now) (q.hl self.old.left.taken)
            → Agrees self.old.left.width (signal lh.now) (q.lh self.old.left.taken)
            → Agrees self.old.left.width (signal hh.now) (q.hh self.old.left.taken)
            → FollowLevel q self.new }
        ensures within { (m : ℕ) → IsSmall m self.old.left
            → AllWithin m self.old.left.width (signal self.old.left_row.items)
            → IsSmall m self.new.left }
    {
        let small = are_small(&self.left_row);
        self.left.push(&mut self.left_row, lh, small);
        self.right_row.copy_from_slice(hl);
        self.right.push(&mut self.right_row, hh, true);
    }

    /// Takes the next row of each band, like `push`, from four slices.
    pub fn push_bands(&mut self, ll: &[i32], hl: &[i32], lh: &[i32], hh: &[i32])
        requires wide_ll { length ll.now ≡ self.old.left.width }
        requires wide_hl { length hl.now ≡ self.old.left.width }
        requires wide_lh { length lh.now ≡ self.old.left.width }
        requires wide_hh { length hh.now ≡ self.old.left.width }
        requires few { self.old.left.taken < 2 ^ 32 - 1 }
        requires drained { IsDrained self.old.left.taken self.old.given }
        requires small_ll { AllWithin (2 ^ 27) self.old.left.width (signal ll.now) }
        requires small_hl { AllWithin (2 ^ 27) self.old.left.width (signal hl.now) }
        requires small_lh { AllWithin (2 ^ 27) self.old.left.width (signal lh.now) }
        requires small_hh { AllWithin (2 ^ 27) self.old.left.width (signal hh.now) }
        ensures width { self.new.left.width ≡ self.old.left.width }
        ensures taken { self.new.left.taken ≡ self.old.left.taken + 1 }
        ensures given { self.new.given ≡ self.old.given }
        ensures follows { (q : Quarters) → FollowLevel q self.old
            → Agrees self.old.left.width (signal ll.now) (q.ll self.old.left.taken)
            → Agrees self.old.left.width (signal hl.now) (q.hl self.old.left.taken)
            → Agrees self.old.left.width (signal lh.now) (q.lh self.old.left.taken)
            → Agrees self.old.left.width (signal hh.now) (q.hh self.old.left.taken)
            → FollowLevel q self.new }
        ensures within { (m : ℕ) → IsSmall m self.old.left
            → AllWithin m self.old.left.width (signal ll.now)
            → IsSmall m self.new.left }
    {
        self.left_row.copy_from_slice(ll);
        self.push(hl, lh, hh);
    }

    /// Takes the next row of each band, which are rows of zeros. All numbers that are kept are 0, and so are they afterwards. No row is
    /// left to give.
    pub fn pass(&mut self)
        requires few { self.old.left.taken < 2 ^ 32 - 1 }
        requires drained { IsDrained self.old.left.taken self.old.given }
        requires zero { IsZeroLevel self.old }
        ensures width { self.new.left.width ≡ self.old.left.width }
        ensures taken { self.new.left.taken ≡ self.old.left.taken + 1 }
        ensures given { self.new.given ≡ self.old.given }
        ensures zero { IsZeroLevel self.new }
        ensures follows { (q : Quarters) → FollowLevel q self.old
            → Agrees self.old.left.width zeros (q.ll self.old.left.taken)
            → Agrees self.old.left.width zeros (q.hl self.old.left.taken)
            → Agrees self.old.left.width zeros (q.lh self.old.left.taken)
            → Agrees self.old.left.width zeros (q.hh self.old.left.taken)
            → FollowLevel q self.new }
        ensures within { (m : ℕ) → IsSmall m self.old.left → IsSmall m self.new.left }
    {
        self.left.pass();
        self.right.pass();
    }

    /// Returns whether all numbers that are kept are 0.
    pub fn is_zero(&self) -> bool
        ensures { result ≡ true → IsZeroLevel self.now }
    {
        self.left.are_zero() && self.right.are_zero()
    }

    /// Returns whether the next row can be given, if the bands have `height` rows in all.
    pub fn has_row(&self, height: usize) -> bool
        requires { self.now.left.taken < 2 ^ 32 }
        ensures { IsTrue result ↔ HasRow self.now.left.taken self.now.given height }
    {
        self.left.taken >= 3
            && (self.given + 3 < 2 * self.left.taken
                || (self.left.taken == height && self.given < 2 * self.left.taken))
    }

    // Makes the next row of both columns, in `left_row` and `right_row`.
    fn make_halves(&mut self, height: usize)
        requires few { self.old.left.taken < 2 ^ 32 }
        requires row { HasRow self.old.left.taken self.old.given height }
        ensures left { self.new.left ≡ self.old.left }
        ensures right { self.new.right ≡ self.old.right }
        ensures given { self.new.given ≡ self.old.given + 1 }
        ensures left_row { (q : Quarters) → FollowLevel q self.old
            → Agrees self.old.left.width (signal self.new.left_row.items)
            (columns_merged q.ll q.lh self.old.left.taken self.old.given) }
        ensures right_row { (q : Quarters) → FollowLevel q self.old
            → Agrees self.old.left.width (signal self.new.right_row.items)
            (columns_merged q.hl q.hh self.old.left.taken self.old.given) }
        ensures left_within { (m : ℕ) → IsSmall m self.old.left
            → AllWithin (column_bound m) self.old.left.width (signal self.new.left_row.items) }
        ensures right_within { AllWithin (column_bound (2 ^ 27)) self.old.left.width
            (signal self.new.right_row.items) }
    {
        let i = self.given;
        self.given += 1;
        self.left.row(i, &mut self.left_row);
        self.right.row(i, &mut self.right_row);
    }

    /// Passes the next row, which is a row of zeros since all numbers that are kept are 0, if the bands have `height` rows in all.
    pub fn skip_row(&mut self, height: usize)
        requires few { self.old.left.taken < 2 ^ 32 }
        requires row { HasRow self.old.left.taken self.old.given height }
        requires zero { IsZeroLevel self.old }
        ensures width { self.new.left.width ≡ self.old.left.width }
        ensures taken { self.new.left.taken ≡ self.old.left.taken }
        ensures given { self.new.given ≡ self.old.given + 1 }
        ensures zero { IsZeroLevel self.new }
        ensures follows { (q : Quarters) → FollowLevel q self.old → FollowLevel q self.new }
        ensures within { (m : ℕ) → IsSmall m self.old.left → IsSmall m self.new.left }
        ensures value { (q : Quarters) (n : ℕ) → FollowLevel q self.old → self.old.left.taken ≤ n
            → (self.old.left.taken ≡ height → n ≡ height)
            → Agrees (2 * self.old.left.width) zeros (joined q n self.old.left.width self.old.given) }
    {
        self.given += 1;
    }

    /// Gives the next row, if the bands have `height` rows in all. It fits 32 bits.
    pub fn next_row(&mut self, height: usize, into: &mut [i32])
        requires wide { length into.old ≡ 2 * self.old.left.width }
        requires few { self.old.left.taken < 2 ^ 32 }
        requires row { HasRow self.old.left.taken self.old.given height }
        requires within { IsSmall (21 * 2 ^ 25) self.old.left }
        ensures width { self.new.left.width ≡ self.old.left.width }
        ensures taken { self.new.left.taken ≡ self.old.left.taken }
        ensures given { self.new.given ≡ self.old.given + 1 }
        ensures follows { (q : Quarters) → FollowLevel q self.old → FollowLevel q self.new }
        ensures within { (m : ℕ) → IsSmall m self.old.left → IsSmall m self.new.left }
        ensures value { (q : Quarters) (n : ℕ) → FollowLevel q self.old → self.old.left.taken ≤ n
            → (self.old.left.taken ≡ height → n ≡ height)
            → Agrees (2 * self.old.left.width) (signal into.new)
            (joined q n self.old.left.width self.old.given) }
        ensures row_within { (m : ℕ) → IsSmall m self.old.left
            → AllWithin (level_bound m) (2 * self.old.left.width) (signal into.new) }
    {
        self.make_halves(height);
        inverse_row_narrow(
            &mut self.left_row,
            &mut self.right_row,
            into,
            self.left.small,
        );
    }

    /// Gives the next row in 64 bits, if the bands have `height` rows in all.
    pub fn next_row_widened(&mut self, height: usize, into: &mut [i64])
        requires wide { length into.old ≡ 2 * self.old.left.width }
        requires few { self.old.left.taken < 2 ^ 32 }
        requires row { HasRow self.old.left.taken self.old.given height }
        ensures width { self.new.left.width ≡ self.old.left.width }
        ensures taken { self.new.left.taken ≡ self.old.left.taken }
        ensures given { self.new.given ≡ self.old.given + 1 }
        ensures follows { (q : Quarters) → FollowLevel q self.old → FollowLevel q self.new }
        ensures value { (q : Quarters) (n : ℕ) → FollowLevel q self.old → self.old.left.taken ≤ n
            → (self.old.left.taken ≡ height → n ≡ height)
            → Agrees (2 * self.old.left.width) (signal into.new)
            (joined q n self.old.left.width self.old.given) }
    {
        self.make_halves(height);
        inverse_row_widened(
            &mut self.left_row,
            &mut self.right_row,
            into,
            self.left.small,
        );
    }
}
