//! Levels one below the other: the low rows of one are the rows of the next.

ghost use Rattle.std.specs.Prelude.{◌≡◌, ℕ, ◌+◌, ◌*◌, ◌-◌, ◌^◌, ◌<◌, ◌≤◌, ℤ, IsTrue, ◌↔◌, length};
ghost use Rattle.wave_defs.specs.Level.{level};
ghost use Rattle.wave_defs.specs.Rolling.{mirrored, beside};
ghost use Rattle.wave_strip.specs.Kept.{pairs_in};
ghost use Rattle.wave_strip.specs.Columns.{Follow, IsSmall};
ghost use Rattle.wave_strip.specs.Levels.{FollowLevels};

use crate::level::Level;

/// Passes the low row that the last row gave to the level below, if it gave one. Returns whether it did.
pub fn pass_on(upper: &Level, lower: &mut Level) -> bool
    requires half { upper.now.half ≡ 2 * lower.old.half }
    requires next { lower.old.columns.taken ≡ pairs_in (upper.now.columns.taken - 1) }
    requires few { lower.old.columns.taken < 2 ^ 32 }
    requires small_upper { IsSmall 838860 upper.now.columns }
    requires small { IsSmall (2 ^ 23) lower.old.columns }
    ensures passed { IsTrue result ↔ (pairs_in (upper.now.columns.taken - 1) < pairs_in upper.now.columns.taken) }
    ensures half { lower.new.half ≡ lower.old.half }
    ensures kept { lower.new.columns.kept ≡ lower.old.columns.kept }
    ensures taken { lower.new.columns.taken ≡ pairs_in upper.now.columns.taken }
    ensures follows { (x : ℕ → ℕ → ℤ) (p n m h : ℕ) → 2 ≤ n → p ≡ 2 * n → upper.now.half ≡ m → lower.old.half ≡ h
        → pairs_in upper.now.columns.taken ≤ p → Follow (mirrored (beside x m) p) upper.now.columns
        → Follow (mirrored (beside (level x p m).ll h) n) lower.old.columns
        → Follow (mirrored (beside (level x p m).ll h) n) lower.new.columns }
    ensures small { (m k : ℕ) → 1 ≤ k → 25 * m ≤ 4 * k → IsSmall (5 * m) upper.now.columns
        → IsSmall (5 * k) lower.old.columns → IsSmall (5 * k) lower.new.columns }
{
    let taken = upper.columns.taken;
    if taken < 5 || taken % 2 == 0 {
        return false;
    }
    let low = upper.columns.newest_low();
    lower.take(&low[..upper.half]);
    true
}

/// Passes the low row that the last row of the first level gave to the second, and that of the second to the third.
pub fn hand_down(first: &Level, second: &mut Level, third: &mut Level)
    requires halves { first.now.half ≡ 2 * second.old.half }
    requires quarters { second.old.half ≡ 2 * third.old.half }
    requires next { second.old.columns.taken ≡ pairs_in (first.now.columns.taken - 1) }
    requires after_next { third.old.columns.taken ≡ pairs_in second.old.columns.taken }
    requires few { first.now.columns.taken < 2 ^ 32 }
    requires small_first { IsSmall 81920 first.now.columns }
    requires small_second { IsSmall 512000 second.old.columns }
    requires small_third { IsSmall 3200000 third.old.columns }
    ensures halves { second.new.half ≡ second.old.half }
    ensures quarters { third.new.half ≡ third.old.half }
    ensures kept_second { second.new.columns.kept ≡ second.old.columns.kept }
    ensures kept_third { third.new.columns.kept ≡ third.old.columns.kept }
    ensures second_taken { second.new.columns.taken ≡ pairs_in first.now.columns.taken }
    ensures third_taken { third.new.columns.taken ≡ pairs_in (pairs_in first.now.columns.taken) }
    ensures follows { (x : ℕ → ℕ → ℤ) (n m : ℕ) → 2 ≤ n → third.old.half ≡ m → pairs_in first.now.columns.taken ≤ 4 * n
        → FollowLevels x n m first.now.columns second.old.columns third.old.columns
        → FollowLevels x n m first.now.columns second.new.columns third.new.columns }
    ensures small_second { IsSmall 512000 second.new.columns }
    ensures small_third { IsSmall 3200000 third.new.columns }
{
    if pass_on(first, second) {
        pass_on(second, third);
    }
}
