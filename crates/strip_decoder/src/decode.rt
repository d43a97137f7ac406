// Decodes packets to a picture.
ghost use Rattle.std.specs.Prelude.{IsTrue};
ghost use Rattle.plane_defs.specs.Codes.{is_book_sound};
ghost use Rattle.strip_decoder.specs.Answers.{Decodes};

use crate::pictures::PictureSink;
use crate::{DecodeDone, DecodeFault, walk_segments};
use base_122::DecodeWish;
use port_122::Port;
use std::alloc::Global;

/// Takes the packets of an APID and gives the picture of the segments that are received, each row as soon as the packets so far
/// determine it (docs/formats.md, "Packets", "Fates" and "Picture and damage"; docs/architecture.md, "The decoder"). It reads to
/// the end, or to what can't be read on, at most the octets that are wished, and no more once a header reports too many pixels.
/// If no header reports the height, the rows are written that the block rows so far determine, whatever follows.
///
/// Segments are read with the wish's code book, which must be sound. The packets do not carry it: with another book than the encoder's,
/// segments are refused or give another picture. If it is wished, the numbers that a segment gives in part are restored (docs/formats.md,
/// "Restored numbers").
///
/// # Errors
///
/// After `NoSegment` and `Memory` nothing is written, and after the other faults a prefix of the picture; after `TooManyPixels` it is
/// empty unless the height is reported last. `ReadFault` and `WriteFault` occur only if the port's count rose.
pub fn decode_packets<X: Port>(
    alloc: Global,
    port: &mut X,
    wish: &DecodeWish,
) -> Result<DecodeDone, DecodeFault>
    requires book { IsTrue (is_book_sound wish.now.book) }
    ensures { Decodes wish.now (X.outside port.old) (X.outside port.new) result }
{
    match walk_segments::<PictureSink, X>(alloc, port, wish) {
        Ok(walked) => Ok(walked.done),
        Err(fault) => Err(fault),
    }
}
