// The rows of a picture that can be made.
ghost use Rattle.raster_rows.specs.Gathered.{waiting_of, IsAlike};
ghost use Rattle.picture_rows.specs.Pictures.{picture_state, IsSized};
ghost use Rattle.picture_rows.specs.Steps.{GivesRow, GivesRows, IsFor};

use crate::picture::Picture;
use port_122::{Failed, Port};
use raster_rows::GatheredRows;

// Makes the next row, and adds it to the rows that wait unless it is a padding row of the picture. Returns false if none can be made
// before the next block row.
fn give_row<X: Port>(
    port: &mut X,
    picture: &mut Picture,
    rows: &mut GatheredRows,
) -> Result<bool, Failed>
    requires sized { IsSized (picture_state picture.old) }
    requires form { IsFor picture.old.geometry rows.old }
    ensures row { GivesRow result (X.outside port.old) (X.outside port.new) (waiting_of rows.old) (waiting_of rows.new) (picture_state picture.old)
        (picture_state picture.new) }
    ensures alike { IsAlike rows.old rows.new }
{
    if !picture.strip.make_row() {
        return Ok(false);
    }
    let row = picture.at.next;
    picture.at.next = row + 1;
    if row < picture.geometry.rows {
        rows.add(port, picture.strip.row())?;
    }
    Ok(true)
}

/// Gives all rows that can be made before the next block row, in few writes: no read call is before the last of them.
pub fn give_rows<X: Port>(port: &mut X, picture: &mut Picture) -> Result<(), Failed>
    requires sized { IsSized (picture_state picture.old) }
    ensures { GivesRows result (X.outside port.old) (X.outside port.new) (picture_state picture.old) (picture_state picture.new) }
{
    let geometry = picture.geometry;
    let mut rows = GatheredRows::new(geometry.depth, geometry.signed, geometry.width);
    while give_row(port, picture, &mut rows)? {}
    rows.give(port)
}
