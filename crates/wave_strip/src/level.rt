//! One level of the transform, row by row.

ghost use Rattle.std.specs.Prelude.{◌≡◌, ℕ, ◌+◌, ◌*◌, ◌-◌, ◌^◌, ◌<◌, ◌≤◌, ℤ, pos, length, slice_index_or, List, [], IsSomeAnd, vec_len};
ghost use Rattle.std.proofs.Props.{props};
ghost use Rattle.wave_defs.specs.Within.{AllWithin};
ghost use Rattle.wave_defs.specs.Held.{Agrees, signal};
ghost use Rattle.wave_defs.specs.Rolling.{parted};

use crate::columns::Columns;
use lift_rows::forward_row;
use std::alloc::{AllocError, Global};

/// Splits a row into its low samples, followed by its high samples (docs/formats.md, "A line").
fn part(row: &[i32], half: usize, into: &mut [i32])
    requires line { length row.now ≡ 2 * half }
    requires room { length into.old ≡ 2 * half }
    requires long { 3 ≤ half }
    requires bounded { AllWithin (2 ^ 24) (2 * half) (signal row.now) }
    ensures { Agrees (2 * half) (signal into.new) (parted (signal row.now) half) }
{
    let (low, high) = into.split_at_mut(half);
    forward_row(row, low, high);
}

/// A level of which some rows were taken, with room for the next one.
#[derive(Drop)]
pub struct Level {
    pub half: usize,
    pub columns: Columns,
    pub spare: Option<Vec<i32>>,
    ghost wide: { columns.width ≡ 2 * half },
    ghost long: { 3 ≤ half },
    ghost room: { IsSomeAnd spare (λ v. vec_len v ≡ 2 * half) } by { Prim.hlevel props },
}

impl Level {
    ghost use Rattle.std.specs.Prelude.{◌≡◌, ℕ, ◌+◌, ◌*◌, ◌-◌, ◌^◌, ◌<◌, ◌≤◌, ℤ, length, IfOk};
    ghost use Rattle.wave_defs.specs.Within.{AllWithin};
    ghost use Rattle.wave_defs.specs.Held.{Agrees, signal};
    ghost use Rattle.wave_defs.specs.Rolling.{parted, mirrored};
    ghost use Rattle.wave_strip.specs.Samples.{level_samples};
    ghost use Rattle.wave_strip.specs.Columns.{Follow, IsSmall};

    /// Returns a level of rows of 2 * half samples at the start of an image, which keeps `kept` pairs. The
    /// only error is a lack of memory.
    pub fn new(alloc: Global, half: usize, kept: usize) -> Result<Level, AllocError>
        requires kept { 2 ≤ kept }
        requires long { 3 ≤ half }
        requires fits { half < 2 ^ 32 }
        ensures half { IfOk result (λ l. l.half ≡ half) }
        ensures kept { IfOk result (λ l. l.columns.kept ≡ kept) }
        ensures taken { IfOk result (λ l. l.columns.taken ≡ 0) }
        ensures follows { IfOk result (λ l. (a : ℕ → ℕ → ℤ) → Follow a l.columns) }
        ensures small { IfOk result (λ l. (m : ℕ) → IsSmall m l.columns) }
    {
        let columns = Columns::new(alloc, 2 * half, kept)?;
        let spare = vec![in alloc; 0; 2 * half]?;
        Ok(Level {
            half,
            columns,
            spare: Some(spare),
        })
    }

    /// Resets the level to the start of an image.
    pub fn reset(&mut self)
        ensures half { self.new.half ≡ self.old.half }
        ensures kept { self.new.columns.kept ≡ self.old.columns.kept }
        ensures taken { self.new.columns.taken ≡ 0 }
        ensures follows { (a : ℕ → ℕ → ℤ) → Follow a self.new.columns }
        ensures small { (m : ℕ) → IsSmall m self.old.columns → IsSmall m self.new.columns }
    {
        self.columns.reset();
    }

    /// Takes the next row.
    pub fn take(&mut self, row: &[i32])
        requires line { length row.now ≡ 2 * self.old.half }
        requires few { self.old.columns.taken < 2 ^ 32 }
        requires small { IsSmall (2 ^ 23) self.old.columns }
        requires small_row { AllWithin (2 ^ 22) (2 * self.old.half) (signal row.now) }
        ensures half { self.new.half ≡ self.old.half }
        ensures kept { self.new.columns.kept ≡ self.old.columns.kept }
        ensures taken { self.new.columns.taken ≡ self.old.columns.taken + 1 }
        ensures follows { (a : ℕ → ℕ → ℤ) → Follow a self.old.columns
            → Agrees (2 * self.old.half) (parted (signal row.now) self.old.half) (a self.old.columns.taken)
            → Follow a self.new.columns }
        ensures small { (m : ℕ) → 1 ≤ m → IsSmall (5 * m) self.old.columns
            → AllWithin (4 * m) (2 * self.old.half) (signal row.now) → IsSmall (5 * m) self.new.columns }
    {
        let Some(mut next) = self.spare.take() else {
            unreachable!()
        };
        part(row, self.half, &mut next);
        self.spare = Some(self.columns.push(next));
    }

    /// Takes the mirror of a row after the last one: of the last even row, the last odd row except one and
    /// the last even row except one, in this order (docs/formats.md, "A line").
    pub fn take_mirrored(&mut self, after: usize)
        requires three { after < 3 }
        requires few { self.old.columns.taken < 2 ^ 32 }
        requires small { IsSmall (2 ^ 23) self.old.columns }
        ensures half { self.new.half ≡ self.old.half }
        ensures kept { self.new.columns.kept ≡ self.old.columns.kept }
        ensures taken { self.new.columns.taken ≡ self.old.columns.taken + 1 }
        ensures follows { (a : ℕ → ℕ → ℤ) (n : ℕ) → 2 ≤ n → self.old.columns.taken ≡ 2 * n + after
            → Follow (mirrored a n) self.old.columns → Follow (mirrored a n) self.new.columns }
        ensures small { (m : ℕ) → 2 ≤ m → IsSmall m self.old.columns → IsSmall m self.new.columns }
    {
        let Some(mut next) = self.spare.take() else {
            unreachable!()
        };
        next.copy_from_slice(self.columns.mirror(after));
        self.spare = Some(self.columns.push(next));
    }

    /// Returns how many samples the level holds.
    pub fn samples(&self) -> u64
        requires kept { self.now.columns.kept ≤ 13 }
        requires wide { 2 * self.now.half ≤ 2 ^ 20 }
        ensures value { result ≡ level_samples self.now }
        ensures sum { result ≡ (7 + 2 * self.now.columns.kept) * (2 * self.now.half) }
    {
        self.columns.samples() + 2 * self.half as u64
    }
}
