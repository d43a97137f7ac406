//! The end of an image: each level takes the mirrors of its last rows, the upper levels first.

ghost use Rattle.std.specs.Prelude.{◌≡◌, ℕ, ◌+◌, ◌*◌, ◌-◌, ◌/◌, ◌%◌, ◌^◌, ◌<◌, ◌≤◌, ℤ};
ghost use Rattle.wave_defs.specs.Level.{level};
ghost use Rattle.wave_defs.specs.Rolling.{mirrored, beside};
ghost use Rattle.wave_strip.specs.Kept.{pairs_in};
ghost use Rattle.wave_strip.specs.Columns.{Follow, IsSmall};
ghost use Rattle.wave_strip.specs.Levels.{FollowLevels, FollowTwo};

use crate::chain::{hand_down, pass_on};
use crate::level::Level;

/// Ends the first level.
fn end_first(first: &mut Level, second: &mut Level, third: &mut Level)
    requires halves { first.old.half ≡ 2 * second.old.half }
    requires quarters { second.old.half ≡ 2 * third.old.half }
    requires next { second.old.columns.taken ≡ pairs_in first.old.columns.taken }
    requires after_next { third.old.columns.taken ≡ pairs_in second.old.columns.taken }
    requires few { first.old.columns.taken < 2 ^ 31 }
    requires small_first { IsSmall 81920 first.old.columns }
    requires small_second { IsSmall 512000 second.old.columns }
    requires small_third { IsSmall 3200000 third.old.columns }
    ensures first_half { first.new.half ≡ first.old.half }
    ensures second_half { second.new.half ≡ second.old.half }
    ensures third_half { third.new.half ≡ third.old.half }
    ensures kept_first { first.new.columns.kept ≡ first.old.columns.kept }
    ensures kept_second { second.new.columns.kept ≡ second.old.columns.kept }
    ensures kept_third { third.new.columns.kept ≡ third.old.columns.kept }
    ensures first_taken { first.new.columns.taken ≡ first.old.columns.taken + 3 }
    ensures second_taken { second.new.columns.taken ≡ pairs_in first.new.columns.taken }
    ensures third_taken { third.new.columns.taken ≡ pairs_in second.new.columns.taken }
    ensures small_first { IsSmall 81920 first.new.columns }
    ensures small_second { IsSmall 512000 second.new.columns }
    ensures small_third { IsSmall 3200000 third.new.columns }
    ensures follows { (x : ℕ → ℕ → ℤ) (n m : ℕ) → 2 ≤ n → third.old.half ≡ m → first.old.columns.taken ≡ 8 * n
        → FollowLevels x n m first.old.columns second.old.columns third.old.columns
        → FollowLevels x n m first.new.columns second.new.columns third.new.columns }
{
    for after in 0..3 {
        first.take_mirrored(after);
        hand_down(first, second, third);
    }
}

/// Ends the second level.
fn end_second(second: &mut Level, third: &mut Level)
    requires quarters { second.old.half ≡ 2 * third.old.half }
    requires next { third.old.columns.taken ≡ pairs_in second.old.columns.taken }
    requires few { second.old.columns.taken < 2 ^ 31 }
    requires small_second { IsSmall 512000 second.old.columns }
    requires small_third { IsSmall 3200000 third.old.columns }
    ensures second_half { second.new.half ≡ second.old.half }
    ensures third_half { third.new.half ≡ third.old.half }
    ensures kept_second { second.new.columns.kept ≡ second.old.columns.kept }
    ensures kept_third { third.new.columns.kept ≡ third.old.columns.kept }
    ensures second_taken { second.new.columns.taken ≡ second.old.columns.taken + 3 }
    ensures third_taken { third.new.columns.taken ≡ pairs_in second.new.columns.taken }
    ensures small_second { IsSmall 512000 second.new.columns }
    ensures small_third { IsSmall 3200000 third.new.columns }
    ensures follows { (x : ℕ → ℕ → ℤ) (n m : ℕ) → 2 ≤ n → third.old.half ≡ m → second.old.columns.taken ≡ 4 * n
        → FollowTwo x n m second.old.columns third.old.columns
        → FollowTwo x n m second.new.columns third.new.columns }
{
    for after in 0..3 {
        second.take_mirrored(after);
        pass_on(second, third);
    }
}

/// Ends the third level.
fn end_third(third: &mut Level)
    requires few { third.old.columns.taken < 2 ^ 31 }
    requires small { IsSmall 3200000 third.old.columns }
    ensures half { third.new.half ≡ third.old.half }
    ensures kept { third.new.columns.kept ≡ third.old.columns.kept }
    ensures taken { third.new.columns.taken ≡ third.old.columns.taken + 3 }
    ensures small { IsSmall 3200000 third.new.columns }
    ensures follows { (a : ℕ → ℕ → ℤ) (n : ℕ) → 2 ≤ n → third.old.columns.taken ≡ 2 * n
        → Follow (mirrored a n) third.old.columns → Follow (mirrored a n) third.new.columns }
{
    for after in 0..3 {
        third.take_mirrored(after);
    }
}

/// Completes all block rows of an image that has exactly the rows that the first level took, a multiple of 8.
pub fn end_levels(first: &mut Level, second: &mut Level, third: &mut Level)
    requires halves { first.old.half ≡ 2 * second.old.half }
    requires quarters { second.old.half ≡ 2 * third.old.half }
    requires next { second.old.columns.taken ≡ pairs_in first.old.columns.taken }
    requires after_next { third.old.columns.taken ≡ pairs_in second.old.columns.taken }
    requires whole { first.old.columns.taken % 8 ≡ 0 }
    requires long { 24 ≤ first.old.columns.taken }
    requires few { first.old.columns.taken < 2 ^ 31 }
    requires small_first { IsSmall 81920 first.old.columns }
    requires small_second { IsSmall 512000 second.old.columns }
    requires small_third { IsSmall 3200000 third.old.columns }
    ensures first_half { first.new.half ≡ first.old.half }
    ensures second_half { second.new.half ≡ second.old.half }
    ensures third_half { third.new.half ≡ third.old.half }
    ensures kept_first { first.new.columns.kept ≡ first.old.columns.kept }
    ensures kept_second { second.new.columns.kept ≡ second.old.columns.kept }
    ensures kept_third { third.new.columns.kept ≡ third.old.columns.kept }
    ensures first_taken { first.new.columns.taken ≡ first.old.columns.taken + 3 }
    ensures second_taken { second.new.columns.taken ≡ first.old.columns.taken / 2 + 3 }
    ensures third_taken { third.new.columns.taken ≡ first.old.columns.taken / 4 + 3 }
    ensures small_first { IsSmall 81920 first.new.columns }
    ensures small_second { IsSmall 512000 second.new.columns }
    ensures small_third { IsSmall 3200000 third.new.columns }
    ensures follows { (x : ℕ → ℕ → ℤ) (n m : ℕ) → 2 ≤ n → third.old.half ≡ m → first.old.columns.taken ≡ 8 * n
        → FollowLevels x n m first.old.columns second.old.columns third.old.columns
        → FollowLevels x n m first.new.columns second.new.columns third.new.columns }
{
    end_first(first, second, third);
    end_second(second, third);
    end_third(third);
}
