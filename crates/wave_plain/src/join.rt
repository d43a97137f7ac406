//! One level of the inverse transform: columns, then rows.

ghost use Rattle.std.specs.Prelude.{◌≡◌, ◌*◌, ◌^◌, ◌<◌, ◌≤◌, IfOk, vec_len};
ghost use Rattle.wave_defs.specs.Level.{joined, columns_merged, rows_merged};
ghost use Rattle.wave_defs.specs.Within.{EachWithin, QuartersWithin};
ghost use Rattle.wave_plain.specs.Images.{image_of, quarters_in, zeros, HasSize, Shows};

use crate::columns::{self, Halves};
use crate::{Plane, rows};
use std::alloc::{AllocError, Global};

/// Returns a plane of zeros.
fn zero_plane(alloc: Global, width: u32, rows: u32) -> Result<Plane, AllocError>
    ensures { IfOk result (Shows rows width zeros) }
{
    let cells = vec![in alloc; 0; rows as usize * width as usize]?;
    Ok(Plane { width, rows, cells })
}

/// Returns the columns of `rows` cells that have these low and high halves.
fn join_columns(alloc: Global, rows: u32, low: &Plane, high: &Plane) -> Result<Plane, AllocError>
    requires low_size { HasSize low.now.rows low.now.width low.now }
    requires high_size { HasSize low.now.rows low.now.width high.now }
    requires long { 3 ≤ low.now.rows }
    requires halves { rows ≡ 2 * low.now.rows }
    requires low_bounded { EachWithin (2 ^ 34) low.now.rows low.now.width (image_of low.now) }
    requires high_bounded { EachWithin (2 ^ 34) low.now.rows low.now.width (image_of high.now) }
    ensures { IfOk result
        (Shows (2 * low.now.rows) low.now.width (columns_merged (image_of low.now) (image_of high.now) low.now.rows)) }
{
    let halves = Halves {
        low: &low.cells,
        high: &high.cells,
        width: low.width as usize,
        count: low.rows as usize,
    };
    let mut plane = zero_plane(alloc, low.width, rows)?;
    let mut row = vec![in alloc; 0; halves.width]?;
    columns::join_columns(halves, &mut row, &mut plane.cells);
    Ok(plane)
}

/// Returns the rows of `width` cells that have these low and high halves.
fn join_rows(alloc: Global, width: u32, low: &Plane, high: &Plane) -> Result<Plane, AllocError>
    requires low_size { HasSize low.now.rows low.now.width low.now }
    requires high_size { HasSize low.now.rows low.now.width high.now }
    requires long { 3 ≤ low.now.width }
    requires halves { width ≡ 2 * low.now.width }
    requires low_bounded { EachWithin (2 ^ 38) low.now.rows low.now.width (image_of low.now) }
    requires high_bounded { EachWithin (2 ^ 38) low.now.rows low.now.width (image_of high.now) }
    ensures { IfOk result
        (Shows low.now.rows (2 * low.now.width) (rows_merged (image_of low.now) (image_of high.now) low.now.width)) }
{
    let mut plane = zero_plane(alloc, width, low.rows)?;
    rows::join_rows(
        &low.cells,
        &high.cells,
        low.rows as usize,
        low.width as usize,
        &mut plane.cells,
    );
    Ok(plane)
}

/// The four bands of one level.
#[derive(Clone, Copy)]
pub struct LevelBands<'a> {
    pub ll: &'a Plane,
    pub hl: &'a Plane,
    pub lh: &'a Plane,
    pub hh: &'a Plane,
}

/// Returns the image of this width and these rows that has these bands.
pub fn join(alloc: Global, width: u32, rows: u32, bands: LevelBands) -> Result<Plane, AllocError>
    requires ll_size { HasSize bands.ll.now.rows bands.ll.now.width bands.ll.now }
    requires hl_size { HasSize bands.ll.now.rows bands.ll.now.width bands.hl.now }
    requires lh_size { HasSize bands.ll.now.rows bands.ll.now.width bands.lh.now }
    requires hh_size { HasSize bands.ll.now.rows bands.ll.now.width bands.hh.now }
    requires long { (3 ≤ bands.ll.now.rows) × (3 ≤ bands.ll.now.width) }
    requires halves { (rows ≡ 2 * bands.ll.now.rows) × (width ≡ 2 * bands.ll.now.width) }
    requires bounded { QuartersWithin (2 ^ 34) bands.ll.now.rows bands.ll.now.width
        (quarters_in bands.ll.now bands.hl.now bands.lh.now bands.hh.now) }
    ensures { IfOk result (Shows (2 * bands.entry.ll.now.rows) (2 * bands.entry.ll.now.width)
        (joined (quarters_in bands.entry.ll.now bands.entry.hl.now bands.entry.lh.now bands.entry.hh.now) bands.entry.ll.now.rows bands.entry.ll.now.width)) }
{
    let low = join_columns(alloc, rows, bands.ll, bands.lh)?;
    let high = join_columns(alloc, rows, bands.hl, bands.hh)?;
    join_rows(alloc, width, &low, &high)
}
