// Passes the blocks of a picture, one after another in raster order, and gives the rows that each whole block row determines.
ghost use Rattle.std.specs.Prelude.{◌≡◌, [], length};
ghost use Rattle.block_families.specs.Places.{AreWeighted};
ghost use Rattle.picture_rows.specs.Pictures.{picture_state, IsPictureCurrent, HasRoom};
ghost use Rattle.picture_rows.specs.Steps.{PassesBlock, HasNextSet, HasNextNumbers};

use crate::picture::Picture;
use crate::rows::give_rows;
use base_122::Weights;
use block_families::scatter;
use inverse_strip::StripInverse;
use port_122::{Failed, Port};

// Advances past the next block, whose numbers are set, and gives the rows that its block row determines if it is whole.
fn pass_block<X: Port>(port: &mut X, picture: &mut Picture) -> Result<(), Failed>
    requires current { IsPictureCurrent (picture_state picture.old) }
    requires room { HasRoom (picture_state picture.old) }
    ensures { PassesBlock result (HasNextSet (picture_state picture.old)) (X.outside port.old) (X.outside port.new) (picture_state picture.old)
        (picture_state picture.new) }
{
    picture.at.column += 1;
    if picture.at.column < picture.geometry.padded_width() / 8 {
        return Ok(());
    }
    picture.at.column = 0;
    picture.at.row += 1;
    picture.strip.push_row(picture.lost);
    picture.lost = true;
    give_rows(port, picture)
}

/// Passes the next block as lost: its numbers are 0.
pub fn put_missing<X: Port>(port: &mut X, picture: &mut Picture) -> Result<(), Failed>
    requires current { IsPictureCurrent (picture_state picture.old) }
    requires room { HasRoom (picture_state picture.old) }
    ensures { PassesBlock result (HasNextNumbers [] (picture_state picture.old)) (X.outside port.old) (X.outside port.new) (picture_state picture.old)
        (picture_state picture.new) }
{
    pass_block(port, picture)
}

/// Passes the next block with these 64 numbers.
pub fn put_block<X: Port>(
    port: &mut X,
    picture: &mut Picture,
    numbers: &[i32],
) -> Result<(), Failed>
    requires current { IsPictureCurrent (picture_state picture.old) }
    requires room { HasRoom (picture_state picture.old) }
    requires whole { length numbers.now ≡ 64 }
    requires parts { AreWeighted numbers.now picture.old.geometry.weights.shifts }
    ensures { PassesBlock result (HasNextNumbers numbers.now (picture_state picture.old)) (X.outside port.old) (X.outside port.new)
        (picture_state picture.old) (picture_state picture.new) }
{
    picture.lost = false;
    scatter(
        &mut picture.strip,
        picture.at.column,
        &picture.geometry.weights,
        numbers,
    );
    pass_block(port, picture)
}
