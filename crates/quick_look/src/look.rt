// Makes a look from packets.
ghost use Rattle.std.specs.Prelude.{IsTrue};
ghost use Rattle.plane_defs.specs.Codes.{is_book_sound};
ghost use Rattle.quick_look.specs.Looks.{Looks};

use crate::row::LookRow;
use base_122::DecodeWish;
use port_122::Port;
use std::alloc::Global;
use strip_decoder::{DecodeDone, DecodeFault, walk_segments};

/// Takes the packets of an APID as `decode_packets` does and returns what it returns. It gives the look at the segments that are received
/// (docs/formats.md, "Packets", "Fates" and "Raster and made image"). The look is a raster with a row for each block row and a value for
/// each block, P/8 in a row: the coefficient of LL3 of that block, or 0 if the block is missing, clamped to the range of a pixel. Each row
/// is given as soon as the packets so far settle its blocks. If no header reports the height, the look has the block rows that the kept
/// headers reach. Segments are read with the wish's code book, which must be sound, and their numbers are restored if that is wished, as
/// `decode_packets` reads them. The memory is the blocks of one segment with a state each, and one row of the look.
///
/// # Errors
///
/// After `NoSegment` and `Memory` nothing is written, and after the other faults a prefix of the look; after `TooManyPixels` it is
/// empty unless the height is reported last. `ReadFault` and `WriteFault` occur only if the port's count rose.
pub fn look_packets<X: Port>(
    alloc: Global,
    port: &mut X,
    wish: &DecodeWish,
) -> Result<DecodeDone, DecodeFault>
    requires book { IsTrue (is_book_sound wish.now.book) }
    ensures { Looks wish.now (X.outside port.old) (X.outside port.new) result }
{
    match walk_segments::<LookRow, X>(alloc, port, wish) {
        Ok(walked) => Ok(walked.done),
        Err(fault) => Err(fault),
    }
}
