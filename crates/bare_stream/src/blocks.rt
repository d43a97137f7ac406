// Puts the blocks of a segment into a picture.
ghost use Rattle.std.specs.Prelude.{◌≤◌, ◌+◌, ◌*◌, length};
ghost use Rattle.picture_rows.specs.Pictures.{picture_state, passed_in, total_in, IsPictureCurrent};
ghost use Rattle.bare_stream.specs.Blocks.{AreParts, PutsBlocks};

use picture_rows::{Picture, put_block};
use port_122::{Failed, Port};

/// Puts `count` blocks of these numbers, 64 each, into a picture as its next blocks.
pub fn put_blocks<X: Port>(
    port: &mut X,
    picture: &mut Picture,
    blocks: &[i32],
    count: usize,
) -> Result<(), Failed>
    requires current { IsPictureCurrent (picture_state picture.old) }
    requires room { passed_in (picture_state picture.old) + count ≤ total_in (picture_state picture.old) }
    requires whole { 64 * count ≤ length blocks.now }
    requires parts { AreParts blocks.now count picture.old.geometry.weights.shifts }
    ensures { PutsBlocks result blocks.now count (X.outside port.old) (X.outside port.new) (picture_state picture.old) (picture_state picture.new) }
{
    for place in 0..count {
        put_block(port, picture, &blocks[64 * place..64 * place + 64])?;
    }
    Ok(())
}
