// Images by formulas, padded.
ghost use Rattle.std.specs.Prelude.{◌≡◌, ◌≤◌, ◌*◌, ◌/◌, ◌^◌, IfOk, IfSome, length, vec_len};
ghost use Rattle.wave_defs.specs.Within.{AllWithin, EachWithin, IsWithin};
ghost use Rattle.wave_defs.specs.Held.{signal};
ghost use Rattle.wave_plain.specs.Images.{HasSize, image_of};

use crate::case::{Case, Refusal, number};
use crate::lists::{are_wide_within, part};
use crate::shown::shown_list;
use raster_rows::{MadeImage, made_pixel};
use std::alloc::{AllocError, Global};
use wave_plain::Plane;

// The size of an image: of all of it, with its padding.
#[derive(Clone, Copy)]
pub(crate) struct Frame {
    pub width: u32,
    pub rows: u32,
    ghost width_whole: { width ≡ 8 * (width / 8) },
    ghost wide: { 24 ≤ width },
    ghost width_short: { width ≤ 2 ^ 11 },
    ghost rows_whole: { rows ≡ 8 * (rows / 8) },
    ghost high: { 24 ≤ rows },
    ghost rows_short: { rows ≤ 2 ^ 11 },
}

// An image before it is padded: the made image of a depth, or, if the depth is 0, a value in some places and 0 in all others. These are
// all places, those of one row, of one column, or every second one of these.
#[derive(Clone, Copy)]
pub(crate) struct Picture {
    made: MadeImage,
    value: i32,
    row: Option<u32>,
    column: Option<u32>,
    board: bool,
}

impl Picture {
    fn spot(&self, row: u32, column: u32) -> i32 {
        let in_row = self.row.is_none() || self.row == Some(row);
        let in_column = self.column.is_none() || self.column == Some(column);
        let in_turn = !self.board || (row ^ column) % 2 == 1;
        if in_row && in_column && in_turn {
            self.value
        } else {
            0
        }
    }

    // Returns the pixel of the padded image.
    pub fn pixel(&self, row: u32, column: u32) -> i32 {
        let row = row.min(self.made.rows.saturating_sub(1));
        let column = column.min(self.made.width.saturating_sub(1));
        if self.made.depth == 0 || self.made.depth > 16 {
            return self.spot(row, column);
        }
        made_pixel(&self.made, row, column)
    }

    // Returns the size of the padded image.
    pub fn frame(&self) -> Result<Frame, Refusal> {
        let (width, rows) = (self.made.width, self.made.rows);
        if width < 17 || width > 2048 || rows < 17 || rows > 2048 {
            return Err(Refusal::Words);
        }
        Ok(Frame {
            width: (width + 7) / 8 * 8,
            rows: (rows + 7) / 8 * 8,
        })
    }
}

// Returns the image of a case: `value` with or without `row`, `column` or `board`, or the made image of a `depth` and a `seed`.
pub(crate) fn picture_in(case: &Case) -> Picture {
    Picture {
        made: MadeImage {
            width: case.named("width"),
            rows: case.named("rows"),
            depth: case.optional("depth").unwrap_or(0).min(255) as u8,
            signed: case.has("signed"),
            seed: case.named("seed"),
        },
        value: case.signed_after("value"),
        row: case.optional("row"),
        column: case.optional("column"),
        board: case.has("board"),
    }
}

// Returns a row of an image of this width.
fn row_of(alloc: Global, picture: &Picture, row: u32, width: u32) -> Result<Vec<i32>, AllocError> {
    let mut pixels = Vec::new(alloc);
    for column in 0..width {
        pixels.push(picture.pixel(row, column))?;
    }
    Ok(pixels)
}

// Returns the pixels of an image, whose rows follow each other.
pub(crate) fn pixels_of(
    alloc: Global,
    picture: &Picture,
    frame: Frame,
) -> Result<Vec<i32>, AllocError> {
    let mut pixels = Vec::new(alloc);
    for row in 0..frame.rows {
        for column in 0..frame.width {
            pixels.push(picture.pixel(row, column))?;
        }
    }
    Ok(pixels)
}

// Returns a row of such pixels, if it is small.
pub(crate) fn row_in(pixels: &[i32], frame: Frame, row: u32) -> Option<&[i32]>
    ensures len { IfSome result (λ pixels. length pixels.now ≡ frame.width) }
    ensures small { IfSome result (λ pixels. AllWithin (2 ^ 16) frame.width (signal pixels.now)) }
{
    part(pixels, row as usize, frame.width as usize, 1 << 16)
}

// Returns the numbers of an image, whose rows follow each other.
fn cells_of(alloc: Global, picture: &Picture, frame: Frame) -> Result<Vec<i64>, AllocError> {
    let mut cells = Vec::new(alloc);
    for row in 0..frame.rows {
        for column in 0..frame.width {
            cells.push(i64::from(picture.pixel(row, column)))?;
        }
    }
    Ok(cells)
}

// Returns the padded image, if its numbers are small.
pub(crate) fn plane_of(alloc: Global, picture: &Picture, frame: Frame) -> Result<Plane, Refusal>
    ensures size { IfOk result (HasSize frame.rows frame.width) }
    ensures small { IfOk result (λ p. EachWithin (2 ^ 16) frame.rows frame.width (image_of p)) }
{
    let cells = cells_of(alloc, picture, frame)?;
    if cells.len() != frame.rows as usize * frame.width as usize
        || !are_wide_within(&cells, 1 << 16)
    {
        return Err(Refusal::Words);
    }
    Ok(Plane {
        width: frame.width,
        rows: frame.rows,
        cells,
    })
}

// An image and the number of a row as data: the pixels of that row.
pub(crate) fn pixels(case: &Case) -> Result<String, Refusal> {
    let picture = picture_in(case);
    let frame = picture.frame()?;
    let pixels = row_of(case.alloc, &picture, number(case.datum(0)), frame.width)?;
    shown_list(case.alloc, Some(pixels.as_slice()))
}
