// Images whose rows are pushed one after another, and the numbers of their block rows.
ghost use Rattle.std.specs.Prelude.{◌≡◌, ◌<◌, ◌≤◌, ◌+◌, ◌*◌, ◌/◌, ◌^◌, IsTrue, false, length, true};
ghost use Rattle.std.specs.Result.{OnOk};
ghost use Rattle.wave_strip.specs.Strip.{columns_of, has_ended, is_current, rows_of};
ghost use Rattle.wave_defs.specs.Within.{PyramidWithin};
ghost use Rattle.wave_plain.specs.Images.{IsWhole, pyramid_in};

use crate::arrays::bands_of;
use crate::case::{Case, Refusal};
use crate::pictures::{Frame, Picture, picture_in, pixels_of, row_in};
use crate::shown::{Blocks, word_of};
use block_families::{BandSource, place_of};
use std::alloc::{AllocError, Global};
use std::fmt;
use wave_plain::{Bands, BlockRow};
use wave_strip::StripWave;

// The numbers of blocks in raster order, and for each block row its number and the number of rows after which it was ready.
#[derive(Drop)]
pub(crate) struct Pushed {
    columns: u32,
    pub numbers: Vec<i32>,
    ready: Vec<(u32, u32)>,
}

// After how many rows each block row was ready.
#[derive(Clone, Copy)]
struct Ready<'a>(&'a [(u32, u32)]);

impl fmt::Display for Ready<'_> {
    fn fmt<W: fmt::Write>(&self, f: &mut fmt::Formatter<W>) -> fmt::Result {
        let mut gap = "";
        for (row, taken) in self.0.iter() {
            write!(f, "{gap}{row} after {taken}")?;
            gap = ", ";
        }
        Ok(())
    }
}

// Adds the 64 numbers of the block in a column.
fn add_block<B: BandSource>(
    bands: &B,
    column: u32,
    numbers: &mut Vec<i32>,
) -> Result<(), AllocError>
    requires valid { IsTrue (B.valid bands.now) }
    requires inside { column < B.columns bands.now }
    requires few { column < 2 ^ 17 }
{
    for position in 0..64 {
        numbers.push(bands.value(place_of(position, column)))?;
    }
    Ok(())
}

// Adds the numbers of the first blocks of a block row.
fn add_blocks<B: BandSource>(
    bands: &B,
    count: u32,
    numbers: &mut Vec<i32>,
) -> Result<(), AllocError>
    requires valid { IsTrue (B.valid bands.now) }
    requires inside { count ≤ B.columns bands.now }
    requires few { count ≤ 2 ^ 17 }
{
    for column in 0..count {
        add_block(bands, column, numbers)?;
    }
    Ok(())
}

impl Pushed {
    // Adds a block row that is ready.
    fn add(&mut self, strip: &StripWave, row: u32, taken: u32) -> Result<(), AllocError>
        requires valid { is_current strip.now ≡ true }
        requires inside { self.old.columns ≤ columns_of strip.now }
        requires few { self.old.columns ≤ 2 ^ 17 }
        ensures { self.new.columns ≡ self.old.columns }
    {
        add_blocks(strip, self.columns, &mut self.numbers)?;
        self.ready.push((row, taken))?;
        Ok(())
    }
}

// Pushes all rows.
fn push_rows(
    pixels: &[i32],
    frame: Frame,
    strip: &mut StripWave,
    pushed: &mut Pushed,
) -> Result<(), Refusal>
    requires wide { 8 * columns_of strip.old ≡ frame.width }
    requires columns { pushed.old.columns ≡ columns_of strip.old }
    requires start { (rows_of strip.old ≡ 0) × (has_ended strip.old ≡ false) }
    ensures columns { OnOk result (columns_of strip.new ≡ columns_of strip.old) }
    ensures pushed { OnOk result (pushed.new.columns ≡ pushed.old.columns) }
    ensures rows { OnOk result (rows_of strip.new ≡ frame.rows) }
{
    for row in 0..frame.rows {
        let Some(pixels) = row_in(pixels, frame, row) else {
            return Err(Refusal::Words);
        };
        if let Some(settled) = strip.push_row(pixels) {
            pushed.add(strip, settled, row + 1)?;
        }
    }
    Ok(())
}

// Takes the block rows that are ready at the end: three of them, and no fourth.
fn finish_rows(rows: u32, strip: &mut StripWave, pushed: &mut Pushed) -> Result<(), AllocError>
    requires columns { pushed.old.columns ≡ columns_of strip.old }
    requires few { pushed.old.columns ≤ 2 ^ 17 }
    requires rows { rows_of strip.old ≡ rows }
    requires whole { (rows ≡ 8 * (rows / 8)) × (24 ≤ rows) }
{
    for _ in 0..4u32 {
        if let Some(settled) = strip.finish_row() {
            pushed.add(strip, settled, rows)?;
        }
    }
    Ok(())
}

// Pushes the rows of an image through a strip.
fn push_through(
    alloc: Global,
    pixels: &[i32],
    frame: Frame,
    pushed: &mut Pushed,
) -> Result<(), Refusal>
    requires { 8 * pushed.old.columns ≡ frame.width }
{
    let mut strip = StripWave::new(alloc, frame.width)?;
    push_rows(pixels, frame, &mut strip, pushed)?;
    Ok(finish_rows(frame.rows, &mut strip, pushed)?)
}

// Returns the blocks that a strip makes of an image.
pub(crate) fn push_all(alloc: Global, picture: &Picture, frame: Frame) -> Result<Pushed, Refusal> {
    let pixels = pixels_of(alloc, picture, frame)?;
    let mut pushed = Pushed {
        columns: frame.width / 8,
        numbers: Vec::new(alloc),
        ready: Vec::new(alloc),
    };
    push_through(alloc, &pixels, frame, &mut pushed)?;
    Ok(pushed)
}

// Returns the numbers of the blocks of bands.
fn numbers_of(alloc: Global, bands: &Bands, frame: Frame) -> Result<Vec<i32>, AllocError>
    requires whole { IsWhole (frame.rows / 8) (frame.width / 8) bands.now }
    requires small { PyramidWithin 409600 2560000 16000000 (frame.rows / 8) (frame.width / 8) (pyramid_in bands.now) }
{
    let mut numbers = Vec::new(alloc);
    for row in 0..frame.rows / 8 {
        let whole = BlockRow::new(bands, row);
        add_blocks(&whole, frame.width / 8, &mut numbers)?;
    }
    Ok(numbers)
}

// Returns whether numbers are those of the blocks of the whole array.
fn are_whole(
    alloc: Global,
    picture: &Picture,
    frame: Frame,
    numbers: &[i32],
) -> Result<bool, Refusal> {
    let bands = bands_of(alloc, picture, frame)?;
    let whole = numbers_of(alloc, &bands, frame)?;
    Ok(whole.as_slice() == numbers)
}

// Returns after how many rows each block row was ready, and all blocks, or whether these are those of the whole array.
fn shown(case: &Case, picture: &Picture, frame: Frame, pushed: &Pushed) -> Result<String, Refusal> {
    let ready = Ready(&pushed.ready);
    if case.subject() == "blocks" {
        let blocks = Blocks(&pushed.numbers);
        return Ok(format!(in case.alloc; "{ready};{blocks}")?);
    }
    let found = word_of(are_whole(case.alloc, picture, frame, &pushed.numbers)?);
    Ok(format!(in case.alloc; "{ready}; {found}")?)
}

// An image: its blocks.
pub(crate) fn answer(case: &Case) -> Result<String, Refusal> {
    let picture = picture_in(case);
    let frame = picture.frame()?;
    let pushed = push_all(case.alloc, &picture, frame)?;
    shown(case, &picture, frame, &pushed)
}
