// Missing block rows, and the ranges of rows that they damage.
ghost use Rattle.std.specs.Prelude.{◌≡◌, ◌≤◌, ◌<◌, ◌-◌, ◌+◌, true, IfOk};
ghost use Rattle.base_122.specs.Sizes.{block_count};

use std::alloc::{AllocError, Global};
use std::marker::Model;
use stream_defs::RowRange;

// The number of words of the table, which has a bit for each block row of the highest image.
const WORDS: usize = 512;

// The number of block rows of the highest image.
const BLOCK_ROWS: u32 = 32_768;

/// The missing block rows of an image, and the ranges of rows that they damage (docs/formats.md, "Picture and damage").
///
/// It is a table of one bit for each block row that an image has at most, 32,768, in memory that `new` takes. No other call takes memory.
#[derive(Drop)]
pub struct Damage {
    rows: u32,
    words: Vec<u64>,
}

impl Model for Damage {
    ghost use Rattle.stream_defs.specs.Marks.{Marks};

    ghost Value = { Marks };

    ghost use Rattle.damage_rows.specs.Table.{marks_of, IsTable};

    ghost view = { marks_of };

    ghost invariant = { IsTable };
}

impl Damage {
    ghost use Rattle.stream_defs.specs.Marks.{unmarked, marked, ended_at, next_range};
    ghost use Rattle.stream_defs.specs.Damage.{is_damaged, begins_range, run_length};
    ghost use Rattle.damage_rows.specs.Table.{is_missing};

    /// Returns the table of an image of `rows` rows, 17 to 262,144, of which no block row is missing. The only error is a lack of memory.
    pub fn new(alloc: Global, rows: u32) -> Result<Damage, AllocError>
        requires least { 17 ≤ rows }
        requires most { rows ≤ 262144 }
        ensures { IfOk result (λ damage. damage ≡ unmarked rows) }
    {
        let words = vec![in alloc; 0; WORDS]?;
        Ok(Damage { rows, words })
    }

    /// Marks a block row of the image as missing; it may have been missing before.
    pub fn miss(&mut self, block_row: u32)
        requires { block_row < block_count self.old.rows }
        ensures { self.new ≡ marked self.old block_row }
    {
        self.words[(block_row / 64) as usize] |= 1 << (block_row % 64);
    }

    /// Sets the number of rows of the image, at most 262,144: from now on each range ends at its last row at the latest, and an image of no
    /// rows has no range. The missing block rows are unchanged.
    pub fn end_at(&mut self, rows: u32)
        requires { rows ≤ 262144 }
        ensures { self.new ≡ ended_at self.old rows }
    {
        self.rows = rows;
    }

    /// Returns the first range of damaged rows that begins at `from` or later. Ranges that meet or touch are one (docs/formats.md,
    /// "Picture and damage").
    pub fn next_range(&self, from: u32) -> Option<RowRange>
        ensures { result ≡ next_range self.now from }
    {
        for row in from..self.rows {
            if self.begins_range(row) {
                return Some(RowRange {
                    first: row,
                    last: self.last_of_range(row),
                });
            }
        }
        None
    }

    // Returns whether the row is damaged, and the row before it isn't.
    fn begins_range(&self, row: u32) -> bool
        ensures { result ≡ begins_range self.now.rows self.now.missing row }
    {
        self.is_damaged(row) && (row == 0 || !self.is_damaged(row - 1))
    }

    // Returns the last of the consecutive damaged rows from this one on.
    fn last_of_range(&self, first: u32) -> u32
        requires { is_damaged self.now.rows self.now.missing first ≡ true }
        ensures { result ≡ first + run_length self.now.rows self.now.missing first - 1 }
    {
        for row in first..self.rows {
            if !self.is_damaged(row) {
                return row - 1;
            }
        }
        self.rows - 1
    }

    // Returns whether a missing block row reaches the row.
    fn is_damaged(&self, row: u32) -> bool
        ensures { result ≡ is_damaged self.now.rows self.now.missing row }
    {
        if row >= self.rows {
            return false;
        }
        let first = row.saturating_sub(29).div_ceil(8);
        let end = ((row + 21) / 8 + 1).min(BLOCK_ROWS);
        for block_row in first..end {
            if self.is_missing(block_row) {
                return true;
            }
        }
        false
    }

    // Returns whether the block row is missing.
    fn is_missing(&self, block_row: u32) -> bool
        requires { block_row < 32768 }
        ensures { result ≡ is_missing self.now.missing block_row }
    {
        self.words[(block_row / 64) as usize] >> (block_row % 64) & 1 == 1
    }
}
