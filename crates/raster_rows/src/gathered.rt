// Rows that are written together.
ghost use Rattle.std.specs.Prelude.{◌≡◌, ◌≤◌, length};
ghost use Rattle.raster_rows.specs.declared.gathered.TheConstants.{ROOM};

use crate::form::PixelForm;
use crate::writing::{give_pixels, spell_pixels};
use port_122::{Failed, Port, write_all};

/// The greatest number of octets that wait: a write of them costs little for each octet, and they fit the stack.
const ROOM: usize = 16_384;

/// The octets of rows that wait, so that one write gives several rows.
#[derive(Drop)]
pub struct GatheredRows {
    form: PixelForm,
    width: u32,
    octets: [u8; ROOM],
    held: usize,
    ghost whole: { length octets ≡ ROOM },
    ghost within: { held ≤ length octets },
}

impl GatheredRows {
    ghost use Rattle.std.specs.Prelude.{◌≡◌, ◌≤◌, ◌<◌, ◌+◌, ◌++◌, ◌*◌, ◌^◌, [], length, take, map};
    ghost use Rattle.port_122.specs.Outside.{WritesAll};
    ghost use Rattle.raster_rows.specs.Pixels.{IsDepth, pixel_size, pixel_octets, clamped};
    ghost use Rattle.raster_rows.specs.Gathered.{AddsAll, waiting_of, depth_of, is_signed, width_of, IsAlike};

    /// Returns rows of which none waits, of this width and of pixels of this form.
    pub fn new(depth: u8, signed: bool, width: u32) -> GatheredRows
        requires { IsDepth depth }
        ensures depth { depth_of result ≡ depth }
        ensures signed { is_signed result ≡ signed }
        ensures width { width_of result ≡ width }
        ensures none { waiting_of result ≡ [] }
    {
        GatheredRows {
            form: PixelForm::new(depth, signed),
            width,
            octets: [0; ROOM],
            held: 0,
        }
    }

    // Puts the octets of these values after those that wait. There is room for them.
    fn hold(&mut self, pixels: &[i64])
        requires few { length pixels.now < 2 ^ 32 }
        requires room { self.old.held + length pixels.now * pixel_size (depth_of self.old) ≤ length self.old.octets }
        ensures alike { IsAlike self.old self.new }
        ensures octets { waiting_of self.new ≡ waiting_of self.old ++ pixel_octets (depth_of self.old)
            (map (clamped (depth_of self.old) (is_signed self.old)) pixels.now) }
    {
        let count = spell_pixels(self.form, pixels, &mut self.octets[self.held..]);
        self.held += count;
    }

    /// Gives what waits. If it returns `Failed`, a prefix of it is given, the rest is dropped, and `write_faults` rose.
    pub fn give<X: Port>(&mut self, port: &mut X) -> Result<(), Failed>
        ensures given { WritesAll result (X.outside port.old) (X.outside port.new) (waiting_of self.old) }
        ensures alike { IsAlike self.old self.new }
        ensures none { waiting_of self.new ≡ [] }
        ensures held { self.new.held ≡ 0 }
    {
        let given = write_all(port, &self.octets[..self.held]);
        self.held = 0;
        given
    }

    /// Clamps the first values of a row to the range of pixels, and adds their octets to those that wait (docs/formats.md, "Raster
    /// and made image"). If there is no room for them, it gives what waits before. If it returns `Failed`, a prefix of all is given,
    /// and `write_faults` rose.
    pub fn add<X: Port>(&mut self, port: &mut X, row: &[i64]) -> Result<(), Failed>
        requires { width_of self.old ≤ length row.now }
        ensures added { AddsAll result (X.outside port.old) (X.outside port.new) (waiting_of self.old) (waiting_of self.new)
            (pixel_octets (depth_of self.old) (map (clamped (depth_of self.old) (is_signed self.old)) (take (width_of self.old) row.now))) }
        ensures alike { IsAlike self.old self.new }
    {
        let pixels = &row[..self.width as usize];
        let count = self.form.octets(pixels.len());
        if count <= ROOM - self.held {
            self.hold(pixels);
            return Ok(());
        }
        self.give(port)?;
        if count <= ROOM {
            self.hold(pixels);
            return Ok(());
        }
        give_pixels(port, self.form, pixels, &mut self.octets)
    }
}
