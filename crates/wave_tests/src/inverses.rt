// Images whose block rows are put one after another, and their rows.
ghost use Rattle.std.specs.Prelude.{◌≡◌, ◌≤◌, ◌<◌, ◌*◌, ◌/◌, ◌^◌, IfOk, length, unsigned_abs};
ghost use Rattle.std.specs.Result.{OnOk};
ghost use Rattle.inverse_strip.specs.Kept.{IsIdle};
ghost use Rattle.inverse_strip.specs.Strip.{Keeps, columns_of, height_of, next_of, taken_of};

use crate::case::{Case, Refusal, number, signed};
use crate::pictures::{Frame, Picture, picture_in};
use crate::shown::{Counts, Rows, word_of};
use crate::strips::push_all;
use block_families::{BandSink, place_of};
use inverse_strip::StripInverse;
use std::alloc::{AllocError, Global};
use std::{fmt, mem};

// The numbers of blocks in raster order, with this number in a block row, and the block row that is lost.
#[derive(Clone, Copy)]
struct Sent<'a> {
    numbers: &'a [i32],
    columns: u32,
    lost: Option<u32>,
    ghost few: { columns ≤ 2 ^ 8 },
}

// The rows that were made, of this width, and how many were there after each block row.
#[derive(Drop)]
struct Made {
    width: u32,
    rows: Vec<i64>,
    given: Vec<usize>,
}

// Returns a number that the inverse accepts, and 0 in place of others.
fn bounded(number: i32) -> i64
    ensures { unsigned_abs result ≤ 2 ^ 27 }
{
    if number.unsigned_abs() <= 1 << 27 {
        i64::from(number)
    } else {
        0
    }
}

// Puts the 64 numbers of one block into the next block row.
fn put_block(strip: &mut StripInverse, column: u32, numbers: &[i32])
    requires whole { length numbers.now ≡ 64 }
    requires inside { column < columns_of strip.old }
    requires few { column < 2 ^ 17 }
    requires valid { taken_of strip.old < height_of strip.old }
    ensures { Keeps strip.old strip.new }
{
    for position in 0..64u8 {
        strip.set(
            place_of(position, column),
            bounded(numbers[position as usize]),
        );
    }
}

// Puts the numbers of a block row, if it is not lost.
fn put_block_row(strip: &mut StripInverse, sent: &Sent, row: u32)
    requires columns { columns_of strip.old ≡ sent.now.columns }
    requires row { row < 2 ^ 15 }
    requires valid { taken_of strip.old < height_of strip.old }
    ensures { Keeps strip.old strip.new }
{
    if sent.lost == Some(row) {
        return;
    }
    for column in 0..sent.columns {
        let first = 64 * (row as usize * sent.columns as usize + column as usize);
        if let Some(numbers) = sent.numbers.get(first..first + 64) {
            put_block(strip, column, numbers);
        }
    }
}

impl Made {
    // Takes all rows that can be made.
    fn take_rows(&mut self, strip: &mut StripInverse) -> Result<(), AllocError>
        ensures columns { columns_of strip.new ≡ columns_of strip.old }
        ensures height { height_of strip.new ≡ height_of strip.old }
        ensures taken { taken_of strip.new ≡ taken_of strip.old }
        ensures idle { OnOk result (IsIdle (taken_of strip.new) (next_of strip.new) (height_of strip.new)) }
    {
        while strip.make_row() {
            self.rows.extend_from_slice(strip.row())?;
        }
        Ok(())
    }

    // Adds how many rows there are.
    fn count(&mut self) -> Result<(), AllocError> {
        let rows = self.rows.len() / self.width.max(1) as usize;
        self.given.push(rows)?;
        Ok(())
    }

    // Pushes block rows from the next one up to another, and takes the rows that they complete.
    fn push_rows(
        &mut self,
        strip: &mut StripInverse,
        sent: &Sent,
        first: u32,
        end: u32,
    ) -> Result<(), AllocError>
        requires columns { columns_of strip.old ≡ sent.now.columns }
        requires first { taken_of strip.old ≡ first }
        requires some { first ≤ end }
        requires few { end ≤ 2 ^ 15 }
        requires end { end ≤ height_of strip.old }
        requires idle { IsIdle (taken_of strip.old) (next_of strip.old) (height_of strip.old) }
        ensures columns { OnOk result (columns_of strip.new ≡ columns_of strip.old) }
        ensures height { OnOk result (height_of strip.new ≡ height_of strip.old) }
        ensures taken { OnOk result (taken_of strip.new ≡ end) }
        ensures idle { OnOk result (IsIdle (taken_of strip.new) (next_of strip.new) (height_of strip.new)) }
    {
        for row in first..end {
            put_block_row(strip, sent, row);
            strip.push_block_row();
            self.take_rows(strip)?;
            self.count()?;
        }
        Ok(())
    }

    // Pushes all block rows, the height being known after some of them.
    fn push_open(
        &mut self,
        strip: &mut StripInverse,
        sent: &Sent,
        known: u32,
        rows: u32,
    ) -> Result<(), AllocError>
        requires columns { columns_of strip.old ≡ sent.now.columns }
        requires fresh { taken_of strip.old ≡ 0 }
        requires tall { height_of strip.old ≡ 2 ^ 15 }
        requires idle { IsIdle (taken_of strip.old) (next_of strip.old) (height_of strip.old) }
        requires known { 8 * known < rows }
        requires whole { rows ≡ 8 * (rows / 8) }
        requires high { 24 ≤ rows }
        requires short { rows ≤ 2 ^ 11 }
    {
        self.push_rows(strip, sent, 0, known)?;
        strip.end_at(rows);
        self.push_rows(strip, sent, known, rows / 8)
    }
}

// Returns the rows of an image whose height is known from the start.
fn make_known(alloc: Global, frame: Frame, sent: &Sent, made: &mut Made) -> Result<(), AllocError>
    requires { 8 * sent.now.columns ≡ frame.width }
{
    let mut strip = StripInverse::new(alloc, frame.width, frame.rows)?;
    let pushed = made.push_rows(&mut strip, sent, 0, frame.rows / 8);
    // Its drop would be costly to prove.
    mem::forget(strip);
    pushed
}

// Returns the rows of an image whose height is known after some of its block rows; before that it is the greatest one.
fn make_open(
    alloc: Global,
    frame: Frame,
    sent: &Sent,
    known: u32,
    made: &mut Made,
) -> Result<(), AllocError>
    requires wide { 8 * sent.now.columns ≡ frame.width }
    requires known { 8 * known < frame.rows }
{
    let mut strip = StripInverse::new(alloc, frame.width, 262_144)?;
    let pushed = made.push_open(&mut strip, sent, known, frame.rows);
    mem::forget(strip);
    pushed
}

// Makes the rows of an image whose height is known from the start, or after some block rows.
fn make_rows(
    alloc: Global,
    frame: Frame,
    sent: &Sent,
    known: Option<u32>,
    made: &mut Made,
) -> Result<(), Refusal>
    requires { 8 * sent.now.columns ≡ frame.width }
{
    let Some(known) = known else {
        return Ok(make_known(alloc, frame, sent, made)?);
    };
    if known >= frame.rows / 8 {
        return Err(Refusal::Words);
    }
    Ok(make_open(alloc, frame, sent, known, made)?)
}

// Returns the rows that the numbers of blocks give, with one block row `lost`, and the height `known` after some block rows.
fn make(case: &Case, frame: Frame, numbers: &[i32]) -> Result<Made, Refusal> {
    let sent = Sent {
        numbers,
        columns: frame.width / 8,
        lost: case.optional("lost"),
    };
    let mut made = Made {
        width: frame.width,
        rows: Vec::new(case.alloc),
        given: Vec::new(case.alloc),
    };
    make_rows(case.alloc, frame, &sent, case.optional("known"), &mut made)?;
    Ok(made)
}

// Adds blocks of zeros, and returns where they begin.
fn add_zeros(blocks: &mut Vec<i32>, count: u32) -> Result<usize, AllocError> {
    let first = blocks.len();
    for _ in 0..64 * count.min(4096) {
        blocks.push(0)?;
    }
    Ok(first)
}

// Sets the number at a position of each block from a place on.
fn set_each(blocks: &mut Vec<i32>, first: usize, position: u32, number: i32) {
    for place in first..blocks.len() {
        if place % 64 == position as usize {
            blocks[place] = number;
        }
    }
}

// Returns the numbers of the blocks of the data: `N*` begins N blocks of zeros, and `POSITION=NUMBER` sets a number in each of these.
fn blocks_in(case: &Case) -> Result<Vec<i32>, Refusal> {
    let mut blocks = Vec::new(case.alloc);
    let mut first = 0;
    for word in case.data.split_whitespace() {
        let (position, value) = word.split_once('=').unwrap_or((word, ""));
        if value.is_empty() {
            first = add_zeros(&mut blocks, number(position.trim_end_matches('*')))?;
        } else {
            set_each(&mut blocks, first, number(position), signed(value));
        }
    }
    Ok(blocks)
}

// Blocks: their rows.
fn rows(case: &Case) -> Result<String, Refusal> {
    let frame = picture_in(case).frame()?;
    let numbers = blocks_in(case)?;
    let made = make(case, frame, &numbers)?;
    let rows = Rows {
        numbers: &made.rows,
        width: frame.width as usize,
    };
    let given = Counts(&made.given);
    Ok(format!(in case.alloc; "{given};{rows}")?)
}

// Returns whether rows are those of an image of this width, from one row to another.
fn are_same(picture: &Picture, made: &Made, from: u32, to: u32) -> bool {
    for row in from..to {
        for column in 0..made.width {
            let place = (row as usize)
                .wrapping_mul(made.width as usize)
                .wrapping_add(column as usize);
            if made.rows.get(place) != Some(&i64::from(picture.pixel(row, column))) {
                return false;
            }
        }
    }
    true
}

// After each block row how many rows there are, and whether they are those of an image, or, if there are ranges of rows as `FROM-TO`,
// whether these are.
#[derive(Clone, Copy)]
struct Compared<'a> {
    picture: &'a Picture,
    made: &'a Made,
    rows: u32,
    ranges: &'a str,
}

impl fmt::Display for Compared<'_> {
    fn fmt<W: fmt::Write>(&self, f: &mut fmt::Formatter<W>) -> fmt::Result {
        write!(f, "{}", Counts(&self.made.given))?;
        if self.ranges.is_empty() {
            let found = word_of(are_same(self.picture, self.made, 0, self.rows));
            return write!(f, "; {found}");
        }
        for word in self.ranges.split_whitespace() {
            let (from, to) = word.split_once('-').unwrap_or(("", ""));
            let (from, to) = (number(from), number(to));
            let found = word_of(are_same(self.picture, self.made, from, to));
            write!(f, "; {found}")?;
        }
        Ok(())
    }
}

// An image: the rows that its blocks give.
fn rows_back(case: &Case) -> Result<String, Refusal> {
    let picture = picture_in(case);
    let frame = picture.frame()?;
    let pushed = push_all(case.alloc, &picture, frame)?;
    let made = make(case, frame, &pushed.numbers)?;
    let compared = Compared {
        picture: &picture,
        made: &made,
        rows: frame.rows,
        ranges: case.data.trim(),
    };
    Ok(format!(in case.alloc; "{compared}")?)
}

pub(crate) fn answer(case: &Case) -> Result<String, Refusal> {
    if case.subject() == "strip-rows" {
        return rows(case);
    }
    rows_back(case)
}
