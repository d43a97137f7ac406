//! This crate has rings of rows of one width, and tables of rows that are exchanged for those of a ring.
//!
//! Layer: transform and blocks. It is used by `wave_strip`, `inverse_strip` and `wave_tests`.
#![tactic(auto)]

ghost use Rattle.std.specs.Prelude.{◌≡◌, ℕ, ◌+◌, ◌<◌, ◌≤◌, length, List, [], ◌∷◌, ◌++◌, map, drop, slice_index_or, slice_set, vec_len, IfOk, replicate, ℤ, pos};

use circular_buffer::HeapCircularBuffer;
use std::alloc::{AllocError, Global};
use std::marker::Model;
use std::mem;

/// A fixed number of rows, from the oldest to the newest.
#[derive(Drop)]
pub struct RowRing<T: Copy> {
    rows: HeapCircularBuffer<Vec<T>>,
}

impl<T: Copy> Model for RowRing<T> {
    ghost use Rattle.std.specs.Prelude.{◌≡◌, ℕ, ◌<◌, length, List, map};

    ghost Value = { List (List T) };

    ghost view = { λ s. map (λ v. v.items) s.rows.items };

    ghost invariant = { λ s. (length s.rows.items ≡ s.rows.capacity) × (0 < s.rows.capacity) };
}

// Returns a row of places that all hold `zero`.
fn row_of<T: Copy>(alloc: Global, width: usize, zero: T) -> Result<Vec<T>, AllocError>
    ensures { IfOk result (λ v. v.items ≡ replicate width zero) }
{
    let mut row = Vec::with_capacity(alloc, width)?;
    for _ in 0..width {
        row.push(zero)?;
    }
    Ok(row)
}

impl<T: Copy> RowRing<T> {
    /// Returns `rows` rows of `width` places that all hold `zero`. There is at least one row. The only error
    /// is a lack of memory.
    pub fn new(alloc: Global, rows: usize, width: usize, zero: T) -> Result<RowRing<T>, AllocError>
        requires { 1 ≤ rows }
        ensures { IfOk result (λ r. r ≡ replicate rows (replicate width zero)) }
    {
        let mut ring = HeapCircularBuffer::with_capacity(alloc, rows)?;
        for _ in 0..rows {
            let row = row_of(alloc, width, zero)?;
            ring.push_back(row);
        }
        Ok(RowRing { rows: ring })
    }

    /// Makes the row the newest, and returns the oldest. The row has the width of the others.
    pub fn turn(&mut self, row: Vec<T>) -> Vec<T>
        requires { vec_len row ≡ length (slice_index_or self.old 0 []) }
        ensures rows { self.new ≡ drop 1 self.old ++ row.items ∷ [] }
        ensures oldest { result.items ≡ slice_index_or self.old 0 [] }
    {
        match self.rows.push_back(row) {
            Some(oldest) => oldest,
            None => unreachable!(),
        }
    }

    /// Makes a copy of the row the newest, in the place of the oldest. The row has the width of the others.
    pub fn turn_copy(&mut self, row: &[T])
        requires { length row.now ≡ length (slice_index_or self.old 0 []) }
        ensures { self.new ≡ drop 1 self.old ++ row.now ∷ [] }
    {
        match self.rows.pop_front() {
            Some(mut oldest) => {
                oldest.copy_from_slice(row);
                self.rows.push_back(oldest);
            }
            None => unreachable!(),
        }
    }

    /// Makes the row the newest, and puts the oldest in `row`. The row has the width of the others.
    pub fn turn_swap(&mut self, row: &mut Vec<T>)
        requires { vec_len row.old ≡ length (slice_index_or self.old 0 []) }
        ensures rows { self.new ≡ drop 1 self.old ++ row.old.items ∷ [] }
        ensures oldest { row.new.items ≡ slice_index_or self.old 0 [] }
    {
        match self.rows.pop_front() {
            Some(oldest) => {
                self.rows.push_back(mem::replace(row, oldest));
            }
            None => unreachable!(),
        }
    }

    /// Returns a row, counted from the oldest.
    pub fn at(&self, i: usize) -> &[T]
        requires { i < length self.now }
        ensures { result.now ≡ slice_index_or self.now i [] }
    {
        match self.rows.get(i) {
            Some(row) => row,
            None => unreachable!(),
        }
    }
}

/// A fixed number of rows, in which numbers are set. A row can be exchanged for the oldest of a ring.
#[derive(Drop)]
pub struct RowTable {
    rows: Vec<Vec<i32>>,
}

impl Model for RowTable {
    ghost use Rattle.std.specs.Prelude.{List, map, ℤ};

    ghost Value = { List (List ℤ) };

    ghost view = { λ s. map (λ v. v.items) s.rows.items };
}

impl RowTable {
    /// Returns a table without rows.
    pub fn new(alloc: Global) -> RowTable
        ensures { result ≡ [] }
    {
        RowTable {
            rows: Vec::new(alloc),
        }
    }

    /// Adds rows of `width` places that all hold 0. The only error is a lack of memory.
    pub fn add(&mut self, alloc: Global, count: usize, width: usize) -> Result<(), AllocError>
        ensures { IfOk result (λ _. self.new ≡ self.old ++ replicate count (replicate width (pos 0))) }
    {
        for _ in 0..count {
            let row = row_of(alloc, width, 0)?;
            self.rows.push(row)?;
        }
        Ok(())
    }

    /// Returns a row.
    #[inline(always)]
    pub fn at(&self, i: usize) -> &[i32]
        requires { i < length self.now }
        ensures { result.now ≡ slice_index_or self.now i [] }
    {
        &self.rows[i]
    }

    /// Makes a value the number at a place of a row.
    #[inline(always)]
    pub fn set(&mut self, i: usize, column: usize, value: i32)
        requires row { i < length self.old }
        requires inside { column < length (slice_index_or self.old i []) }
        ensures { self.new ≡ slice_set self.old i (slice_set (slice_index_or self.old i []) column value) }
    {
        self.rows[i][column] = value;
    }

    /// Makes all numbers 0.
    pub fn clear(&mut self)
        ensures wide { map length self.new ≡ map length self.old }
        ensures zero { (i k : ℕ) → slice_index_or (slice_index_or self.new i []) k (pos 0) ≡ pos 0 }
    {
        for i in 0..self.rows.len() {
            self.rows[i].fill(0);
        }
    }

    /// Makes a row the newest of a ring, and puts the oldest of the ring in its place. Both have the same width.
    pub fn turn_into(&mut self, i: usize, ring: &mut RowRing<i32>)
        requires row { i < length self.old }
        requires wide { length (slice_index_or self.old i []) ≡ length (slice_index_or ring.old 0 []) }
        ensures ring { ring.new ≡ drop 1 ring.old ++ slice_index_or self.old i [] ∷ [] }
        ensures rows { self.new ≡ slice_set self.old i (slice_index_or ring.old 0 []) }
    {
        ring.turn_swap(&mut self.rows[i]);
    }
}
