// Writes the lines of all images.
ghost use Rattle.port_122.specs.Outside.{WritesAll};
ghost use Rattle.camera_mux.specs.ImageLines.{lines_of};
ghost use Rattle.camera_mux.specs.Tables.{AreRanged};

use crate::image::ImageEntry;
use crate::image_lines::line_of;
use port_122::{Failed, Port, write_all};

/// Writes the line of each of these images.
pub fn give_lines<X: Port>(port: &mut X, entries: &[ImageEntry]) -> Result<(), Failed>
    requires { AreRanged entries.now }
    ensures { WritesAll result (X.outside port.old) (X.outside port.new) (lines_of entries.now) }
{
    for entry in entries {
        if let Err(failed) = write_all(port, line_of(entry).as_str().as_bytes()) {
            return Err(failed);
        }
    }
    Ok(())
}
