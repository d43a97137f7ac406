// The writer of a row.
ghost use Rattle.std.specs.Prelude.{◌≡◌, ◌<◌, ◌≤◌, ◌*◌, ◌^◌, length, take, map};
ghost use Rattle.std.specs.Bool.{OnTrue};
ghost use Rattle.port_122.specs.Outside.{WritesAll};
ghost use Rattle.raster_rows.specs.Pixels.{IsDepth, pixel_size, pixel_octets, clamped};
ghost use Rattle.raster_rows.specs.Pieces.{ArePlain};

use crate::form::{PIECE, PixelForm};
use port_122::{Failed, Port, write_all};

/// Clamps the first `width` values of a row to the range of pixels and gives their octets (docs/formats.md,
/// "Raster and made image"). If it returns `Failed`, a prefix of the octets is given, and `write_faults`
/// rose.
pub fn write_row<X: Port>(
    port: &mut X,
    depth: u8,
    signed: bool,
    width: u32,
    row: &[i64],
) -> Result<(), Failed>
    requires depth { IsDepth depth }
    requires width { width ≤ length row.now }
    ensures { WritesAll result (X.outside port.old) (X.outside port.new)
        (pixel_octets depth (map (clamped depth signed) (take width row.now))) }
{
    let form = PixelForm::new(depth, signed);
    let mut buffer = [0; PIECE];
    give_pixels(port, form, &row[..width as usize], &mut buffer)
}

// Gives the octets of these values, in pieces that fit the buffer.
pub(crate) fn give_pixels<X: Port>(
    port: &mut X,
    form: PixelForm,
    pixels: &[i64],
    buffer: &mut [u8],
) -> Result<(), Failed>
    requires some { 2 ≤ length buffer.old }
    requires few { length buffer.old < 2 ^ 32 }
    ensures { WritesAll result (X.outside port.old) (X.outside port.new)
        (pixel_octets form.depth (map (clamped form.depth form.signed) pixels.now)) }
{
    let most = form.pixels(buffer.len());
    let mut done = 0;
    while done < pixels.len() {
        let end = done + most.min(pixels.len() - done);
        let count = spell_pixels(form, &pixels[done..end], buffer);
        write_all(port, &buffer[..count])?;
        done = end;
    }
    Ok(())
}

// Puts the octets of these values at the beginning of `into`, and returns how many octets they have.
pub(crate) fn spell_pixels(form: PixelForm, pixels: &[i64], into: &mut [u8]) -> usize
    requires few { length pixels.now < 2 ^ 32 }
    requires room { length pixels.now * pixel_size form.depth ≤ length into.old }
    ensures count { result ≡ length pixels.now * pixel_size form.depth }
    ensures octets { take result into.new ≡ pixel_octets form.depth (map (clamped form.depth form.signed) pixels.now) }
{
    let plain = are_plain(form, pixels);
    if form.depth <= 8 {
        if plain {
            spell_plain_octets(form, pixels, into);
        } else {
            spell_octets(form, pixels, into);
        }
    } else if plain {
        spell_plain_pairs(form, pixels, into);
    } else {
        spell_pairs(form, pixels, into);
    }
    form.octets(pixels.len())
}

// Returns whether all these values are pixels without a sign. The loop has no early exit, so it handles many values at once.
fn are_plain(form: PixelForm, values: &[i64]) -> bool
    ensures { OnTrue result (ArePlain form.depth form.signed values.now) }
{
    if form.signed {
        return false;
    }
    // A negative value has the greatest bit, and each value is at most what has the bits of all.
    let mut bits = 0;
    for value in values {
        bits |= value.cast_unsigned();
    }
    bits <= form.plain_values()
}

// Puts the octets of these values at the beginning, one for each.
fn spell_plain_octets(form: PixelForm, pixels: &[i64], into: &mut [u8])
    requires narrow { form.depth ≤ 8 }
    requires plain { ArePlain form.depth form.signed pixels.now }
    requires room { length pixels.now * pixel_size form.depth ≤ length into.old }
    ensures { take (length pixels.now * pixel_size form.depth) into.new ≡ pixel_octets form.depth (map (clamped form.depth form.signed) pixels.now) }
{
    for (place, pixel) in pixels.iter().enumerate() {
        form.put_octet(into, place, form.plain_number(*pixel));
    }
}

// Puts the octets of these values at the beginning, two for each.
fn spell_plain_pairs(form: PixelForm, pixels: &[i64], into: &mut [u8])
    requires wide { 8 < form.depth }
    requires plain { ArePlain form.depth form.signed pixels.now }
    requires room { length pixels.now * pixel_size form.depth ≤ length into.old }
    ensures { take (length pixels.now * pixel_size form.depth) into.new ≡ pixel_octets form.depth (map (clamped form.depth form.signed) pixels.now) }
{
    for (place, pixel) in pixels.iter().enumerate() {
        form.put_octets(into, place, form.plain_number(*pixel));
    }
}

// Clamps these values, and puts their octets at the beginning, one for each.
fn spell_octets(form: PixelForm, pixels: &[i64], into: &mut [u8])
    requires narrow { form.depth ≤ 8 }
    requires room { length pixels.now * pixel_size form.depth ≤ length into.old }
    ensures { take (length pixels.now * pixel_size form.depth) into.new ≡ pixel_octets form.depth (map (clamped form.depth form.signed) pixels.now) }
{
    for (place, pixel) in pixels.iter().enumerate() {
        form.put_octet(into, place, form.number_of(form.nearest(*pixel)));
    }
}

// Clamps these values, and puts their octets at the beginning, two for each.
fn spell_pairs(form: PixelForm, pixels: &[i64], into: &mut [u8])
    requires wide { 8 < form.depth }
    requires room { length pixels.now * pixel_size form.depth ≤ length into.old }
    ensures { take (length pixels.now * pixel_size form.depth) into.new ≡ pixel_octets form.depth (map (clamped form.depth form.signed) pixels.now) }
{
    for (place, pixel) in pixels.iter().enumerate() {
        form.put_octets(into, place, form.number_of(form.nearest(*pixel)));
    }
}
