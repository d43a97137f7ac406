// The reader of a row.
ghost use Rattle.std.specs.Prelude.{◌≡◌, ◌+◌, ◌-◌, ◌*◌, ◌<◌, ◌≤◌, ◌^◌, length, take, drop, MatchResult};
ghost use Rattle.std.specs.Bool.{OnTrue};
ghost use Rattle.base_122.specs.Ranges.{IsInRange};
ghost use Rattle.raster_rows.specs.Pixels.{pixel_size};
ghost use Rattle.raster_rows.specs.RowReads.{RowRead, FirstInRange};
ghost use Rattle.raster_rows.specs.Pieces.{PixelsPut, FirstOut};

use crate::form::{PIECE, PixelForm};
use base_122::Setting;
use port_122::Port;

/// The reason why a row was not read (docs/formats.md, "Raster and made image").
#[derive(Clone, Copy, Debug, PartialEq, Eq)]
pub enum RowFault {
    /// A read failed.
    ReadFault,
    /// The input ended inside the row, of which `octets` octets were taken.
    Short { octets: u64 },
    /// A value is out of the range of pixels, and is the first of the row that is.
    BadPixel { row: u32, column: u32, value: i32 },
}

/// Reads the first `width` values of a row (docs/formats.md, "Raster and made image"). A fault has the number
/// `row`.
///
/// Returns `BadPixel` exactly if some whole pixel that was taken is out of range, and it has the first. Returns `Short`
/// exactly if the input ends inside the row and no whole pixel before is out of range. Returns `ReadFault` only if
/// `read_faults` rose. The whole pixels that were taken and are in range before any other are the first of `into`, and
/// its other numbers stay. No octet past the row is taken, and each piece is tested before the next read.
pub fn read_row<X: Port>(
    port: &mut X,
    setting: &Setting,
    row: u32,
    into: &mut [i32],
) -> Result<(), RowFault>
    requires in_range { IsInRange setting.now }
    requires room { setting.now.width ≤ length into.old }
    ensures { RowRead setting.now.depth setting.now.signed setting.now.width row (X.outside port.old) (X.outside port.new) into.old into.new result }
{
    let row = ReadRow {
        number: row,
        width: setting.width as usize,
        form: PixelForm::new(setting.depth, setting.signed),
    };
    let mut buffer = [0; PIECE];
    fill_row(port, row, into, &mut buffer)
}

// A row that is read: its number, the number of its pixels, and their form.
#[derive(Clone, Copy)]
struct ReadRow {
    number: u32,
    width: usize,
    form: PixelForm,
}

// A value out of range, and its place.
#[derive(Clone, Copy)]
struct OutOfRange {
    place: usize,
    value: i32,
}

// Reads a row in pieces of at most the buffer's length, and tests the pixels of each piece before it continues.
fn fill_row<X: Port>(
    port: &mut X,
    row: ReadRow,
    into: &mut [i32],
    buffer: &mut [u8],
) -> Result<(), RowFault>
    requires narrow { row.width < 2 ^ 32 }
    requires room { row.width ≤ length into.old }
    requires buffer { 2 ≤ length buffer.old }
    ensures { RowRead row.form.depth row.form.signed row.width row.number (X.outside port.old) (X.outside port.new) into.old into.new result }
{
    let form = row.form;
    let mut column = 0;
    let mut held = 0;
    while column < row.width {
        let left = form.octets(row.width - column) - held;
        let end = held + left.min(buffer.len() - held);
        let Ok(count) = port.read(&mut buffer[held..end]) else {
            return Err(RowFault::ReadFault);
        };
        if count == 0 {
            let octets = form.octets(column) + held;
            return Err(RowFault::Short {
                octets: octets as u64,
            });
        }
        let whole = form.pixels(held + count);
        if let Err(bad) = take_pixels(form, buffer, whole, into, column) {
            return Err(RowFault::BadPixel {
                row: row.number,
                column: (column + bad.place) as u32,
                value: bad.value,
            });
        }
        column += whole;
        held = carry(buffer, form.octets(whole), held + count);
    }
    Ok(())
}

// Puts the first pixels of these octets into a row from a column on, up to the first that is out of range.
fn take_pixels(
    form: PixelForm,
    octets: &[u8],
    count: usize,
    into: &mut [i32],
    column: usize,
) -> Result<(), OutOfRange>
    requires whole { count * pixel_size form.depth ≤ length octets.now }
    requires room { column + count ≤ length into.old }
    ensures { MatchResult result
        (λ _. PixelsPut form.depth form.signed octets.now column count into.old into.new)
        (λ bad. FirstOut form.depth form.signed octets.now column count bad.place bad.value into.old into.new) }
{
    if are_in_range(form, octets, count) {
        put_pixels(form, octets, count, into, column);
        return Ok(());
    }
    for place in 0..count {
        let value = form.pixel_at(octets, place);
        if !form.holds(value) {
            return Err(OutOfRange { place, value });
        }
        into[column + place] = value;
    }
    Ok(())
}

// Returns whether the first pixels of these octets are all in range. The loop has no early exit, so it handles many pixels at once.
fn are_in_range(form: PixelForm, octets: &[u8], count: usize) -> bool
    requires whole { count * pixel_size form.depth ≤ length octets.now }
    ensures { OnTrue result (FirstInRange form.depth form.signed octets.now count) }
{
    let mut all = true;
    for place in 0..count {
        all &= form.holds(form.pixel_at(octets, place));
    }
    all
}

// Puts the first pixels of these octets, which are in range, into a row from a column on.
fn put_pixels(form: PixelForm, octets: &[u8], count: usize, into: &mut [i32], column: usize)
    requires whole { count * pixel_size form.depth ≤ length octets.now }
    requires room { column + count ≤ length into.old }
    requires in_range { FirstInRange form.depth form.signed octets.now count }
    ensures { PixelsPut form.depth form.signed octets.now column count into.old into.new }
{
    for place in 0..count {
        into[column + place] = form.pixel_at(octets, place);
    }
}

// Moves what follows the whole pixels, at most one octet, to the beginning, and returns how many octets that is.
fn carry(buffer: &mut [u8], used: usize, end: usize) -> usize
    requires order { used ≤ end }
    requires few { end ≤ used + 1 }
    requires within { end ≤ length buffer.old }
    ensures count { result ≡ end - used }
    ensures octets { take result buffer.new ≡ drop used (take end buffer.old) }
{
    if used < end {
        buffer[0] = buffer[used];
    }
    end - used
}
