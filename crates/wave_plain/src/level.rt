//! One level of the forward transform: rows, then columns.

ghost use Rattle.std.specs.Prelude.{◌≡◌, ◌*◌, ◌/◌, ◌^◌, ◌≤◌, IfOk};

use crate::Plane;
use crate::columns::split_columns;
use crate::rows::split_rows;
use crate::samples::Samples;
use std::alloc::{AllocError, Global};

/// The four bands of a level; the low one is split by the next level.
#[derive(Drop)]
pub struct PlainLevel {
    pub ll: Samples,
    pub hl: Plane,
    pub lh: Plane,
    pub hh: Plane,
}

impl Samples {
    ghost use Rattle.std.specs.Prelude.{◌≡◌, ◌*◌, ◌/◌, ◌^◌, ◌≤◌, IfOk};
    ghost use Rattle.wave_defs.specs.Level.{level, rows_low, rows_high, columns_low, columns_high};
    ghost use Rattle.wave_defs.specs.Within.{EachWithin};
    ghost use Rattle.wave_plain.specs.ShownSamples.{samples_of, ShowsHalves, ShowsLevel};

    /// Returns the low and the high half of each row.
    fn halve_rows(&self, alloc: Global) -> Result<(Samples, Samples), AllocError>
        requires even { self.now.width ≡ 2 * (self.now.width / 2) }
        requires long { 6 ≤ self.now.width }
        requires bounded { EachWithin (2 ^ 24) self.now.rows self.now.width (samples_of self.now) }
        ensures { IfOk result (ShowsHalves self.now.rows (self.now.width / 2)
            (rows_low (samples_of self.now) (self.now.width / 2))
            (rows_high (samples_of self.now) (self.now.width / 2))) }
    {
        let half = self.width / 2;
        let mut low = Samples::zeros(alloc, half, self.rows)?;
        let mut high = Samples::zeros(alloc, half, self.rows)?;
        split_rows(
            &self.cells,
            self.rows as usize,
            half as usize,
            &mut low.cells,
            &mut high.cells,
        );
        Ok((low, high))
    }

    /// Returns the low and the high half of each column.
    fn halve_columns(&self, alloc: Global) -> Result<(Samples, Samples), AllocError>
        requires even { self.now.rows ≡ 2 * (self.now.rows / 2) }
        requires long { 6 ≤ self.now.rows }
        requires bounded { EachWithin (2 ^ 24) self.now.rows self.now.width (samples_of self.now) }
        ensures { IfOk result (ShowsHalves (self.now.rows / 2) self.now.width
            (columns_low (samples_of self.now) (self.now.rows / 2))
            (columns_high (samples_of self.now) (self.now.rows / 2))) }
    {
        let half = self.rows / 2;
        let mut low = Samples::zeros(alloc, self.width, half)?;
        let mut high = Samples::zeros(alloc, self.width, half)?;
        split_columns(
            &self.cells,
            self.width as usize,
            half as usize,
            &mut low.cells,
            &mut high.cells,
        );
        Ok((low, high))
    }

    /// Returns the four bands of one level.
    pub fn level(&self, alloc: Global) -> Result<PlainLevel, AllocError>
        requires even { self.now.width ≡ 2 * (self.now.width / 2) }
        requires long { 6 ≤ self.now.width }
        requires even_rows { self.now.rows ≡ 2 * (self.now.rows / 2) }
        requires long_rows { 6 ≤ self.now.rows }
        requires bounded { EachWithin (4 * 10 ^ 6) self.now.rows self.now.width
            (samples_of self.now) }
        ensures { IfOk result (ShowsLevel (self.now.rows / 2) (self.now.width / 2)
            (level (samples_of self.now) (self.now.rows / 2) (self.now.width / 2))) }
    {
        let (low, high) = self.halve_rows(alloc)?;
        let (ll, lh) = low.halve_columns(alloc)?;
        let (hl, hh) = high.halve_columns(alloc)?;
        Ok(PlainLevel {
            ll,
            hl: hl.widened(alloc)?,
            lh: lh.widened(alloc)?,
            hh: hh.widened(alloc)?,
        })
    }
}
