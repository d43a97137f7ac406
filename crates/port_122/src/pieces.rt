// Writes of whole pieces.
ghost use Rattle.port_122.specs.Outside.{WritesAll, NotesAll};

use crate::port::{Failed, Port};

/// Gives all of the octets, by one or more writes. After `Failed` a prefix of them is given, and
/// `write_faults` rose (docs/architecture.md, "The outside").
pub fn write_all<X: Port>(port: &mut X, bytes: &[u8]) -> Result<(), Failed>
    ensures { WritesAll result (X.outside port.old) (X.outside port.new) bytes.now }
{
    let mut done = 0;
    while done < bytes.len() {
        done += port.write(&bytes[done..])?;
    }
    Ok(())
}

/// Notes all of the octets, by one or more calls. After `Failed` a prefix of them is noted, and `note_faults`
/// rose (docs/architecture.md, "The outside").
pub fn note_all<X: Port>(port: &mut X, bytes: &[u8]) -> Result<(), Failed>
    ensures { NotesAll result (X.outside port.old) (X.outside port.new) bytes.now }
{
    let mut done = 0;
    while done < bytes.len() {
        done += port.note(&bytes[done..])?;
    }
    Ok(())
}
