// Writes the made image.
ghost use Rattle.std.specs.Prelude.{◌≡◌, ◌<◌, ◌≤◌, ◌+◌, ◌^◌, length, take, map};
ghost use Rattle.std.specs.List.{range_with_len};
ghost use Rattle.port_122.specs.Outside.{WritesAll};
ghost use Rattle.raster_rows.specs.Pixels.{IsDepth};
ghost use Rattle.raster_rows.specs.Made.{made_value};
ghost use Rattle.strip122.specs.MadeRasters.{made_raster, made_part};

use port_122::{Failed, Port};
use raster_rows::{MadeImage, made_pixel, write_row};

// The number of pixels of a piece, which has at most 4,096 octets.
const PIECE: usize = 2048;

/// Gives the raster of a made image in pieces (docs/formats.md, "Raster and made image"). It takes no memory and reads nothing. After
/// `Failed`, a prefix of the raster is given, and `write_faults` rose.
pub fn write_made<X: Port>(port: &mut X, made: &MadeImage) -> Result<(), Failed>
    requires { IsDepth made.now.depth }
    ensures { WritesAll result (X.outside port.old) (X.outside port.new) (made_raster made.now) }
{
    let mut pixels = [0; PIECE];
    for row in 0..made.rows {
        write_made_row(port, made, row, &mut pixels)?;
    }
    Ok(())
}

// Gives a row in pieces that fit `pixels`.
fn write_made_row<X: Port>(
    port: &mut X,
    made: &MadeImage,
    row: u32,
    pixels: &mut [i64],
) -> Result<(), Failed>
    requires depth { IsDepth made.now.depth }
    requires some { 0 < length pixels.old }
    requires few { length pixels.old < 2 ^ 32 }
    ensures { WritesAll result (X.outside port.old) (X.outside port.new) (made_part made.now row 0 made.now.width) }
{
    let most = pixels.len() as u32;
    let mut done = 0;
    while done < made.width {
        let count = most.min(made.width - done);
        make_pixels(made, row, done, count, pixels);
        write_row(port, made.depth, made.signed, count, pixels)?;
        done += count;
    }
    Ok(())
}

// Puts `count` pixels of a row, from column `first` on, into the first places.
fn make_pixels(made: &MadeImage, row: u32, first: u32, count: u32, into: &mut [i64])
    requires depth { IsDepth made.now.depth }
    requires within { first + count < 2 ^ 32 }
    requires room { count ≤ length into.old }
    ensures pixels { take count into.new ≡ map (made_value made.now row) (range_with_len first count) }
    ensures same { length into.new ≡ length into.old }
{
    for place in 0..count {
        into[place as usize] = i64::from(made_pixel(made, row, first + place));
    }
}
