// Lists the rectangles that losses damage, from packets.
ghost use Rattle.std.specs.Prelude.{IsTrue};
ghost use Rattle.plane_defs.specs.Codes.{is_book_sound};
ghost use Rattle.quick_look.specs.Listing.{ListsRects};

use crate::gaps::{Gaps, into_gaps};
use crate::rect_lines::{PictureSize, give_rects};
use base_122::DecodeWish;
use port_122::Port;
use std::alloc::Global;
use strip_decoder::{DecodeDone, DecodeFault, walk_segments};

/// Takes the packets of an APID as `decode_packets` does and returns what it returns. It gives no row: after all is read, it gives a line
/// `27-77 0-63` for each rectangle that missing blocks reach, rows first, then columns (docs/formats.md, "Picture and damage"). Segments
/// are read with the wish's code book, which must be sound, as `decode_packets` reads them. The answer does not depend on whether numbers
/// are to be restored.
///
/// # Errors
///
/// After `WriteFault` a prefix of the lines is given, and nothing after the other faults. Memory for the gaps is taken while packets are
/// read; if it is refused `Memory` is returned, unless another fault ends the reading. `ReadFault` and `WriteFault` occur only if the
/// port's count rose.
pub fn list_rects<X: Port>(
    alloc: Global,
    port: &mut X,
    wish: &DecodeWish,
) -> Result<DecodeDone, DecodeFault>
    requires book { IsTrue (is_book_sound wish.now.book) }
    ensures { ListsRects wish.now (X.outside port.old) (X.outside port.new) result }
{
    // Restored numbers would change no rectangle.
    let wish = DecodeWish {
        restore: false,
        ..*wish
    };
    let walked = match walk_segments::<Gaps, X>(alloc, port, &wish) {
        Ok(walked) => walked,
        Err(fault) => return Err(fault),
    };
    let size = PictureSize {
        rows: walked.done.written,
        width: walked.done.geometry.width,
    };
    let Some(gaps) = into_gaps(walked.sink) else {
        return Err(DecodeFault::Memory);
    };
    match give_rects(port, &size, &gaps) {
        Ok(()) => Ok(walked.done),
        Err(_) => Err(DecodeFault::WriteFault),
    }
}
