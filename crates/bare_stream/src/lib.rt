//! This crate encodes and decodes bare streams: the texts of an image's segments, one after another without packets (docs/formats.md,
//! "Bare texts").
//!
//! Layer: packets and pictures. It uses `base_122`, `port_122`, `raster_rows`, `item_defs`, `number_defs`, `wave_defs`, `plane_defs` and 11
//! more. It is used by `strip122` and `port_tests`.
#![tactic(auto)]

ghost use Rattle.bare_stream.specs.BareStream.{BareStreamsEndThere, BareStreamsStopThere};
ghost use Rattle.bare_stream.specs.Images.{ImagesAreBareStreams};
ghost use Rattle.bare_stream.specs.Laws.{LastRowSettlesTexts};
ghost use Rattle.bare_stream.specs.RoundTrip.{BareRoundTrip, StreamsAreRead};
ghost use Rattle.bare_stream.specs.WishLaws.{BareWishesAgree};
ghost use Rattle.bare_stream.specs.WorkedStreams.{WorkedStreams};

mod blocks;
mod decode;
mod encode;
mod fault;
mod give;
mod heads;
mod input;
mod room;
mod segment;
mod sink;
mod text;
mod walk;

use bare_text::{bare_heads_end_there, bare_heads_undo, bare_texts_hold};
pub use decode::decode_bare;
pub use encode::encode_bare;
pub use fault::{BareCause, BareFault};
use segment_code::{answers_agree, texts_end_there};

/// Octets that are worked out by hand are read as they should be.
pub const fn worked_streams()
    ensures { WorkedStreams }
{}

/// Octets that decide a fault of a bare stream decide it whatever follows, and fewer decide nothing, if the book is sound.
pub const fn bare_streams_stop_there()
    ensures { BareStreamsStopThere }
{
    bare_heads_end_there();
    texts_end_there();
}

/// A bare stream has one geometry and one list of blocks, and no proper prefix of it is a bare stream, if it is read with a sound book.
pub const fn bare_streams_end_there()
    ensures { BareStreamsEndThere }
{
    bare_heads_end_there();
    texts_end_there();
}

/// Which octets are segments of a bare stream, where it is refused and why, and which octets decide that, does not depend on whether its
/// numbers are restored.
pub const fn bare_wishes_agree()
    ensures { BareWishesAgree }
{
    answers_agree();
}

/// Once the last row of a raster is taken, all texts of its image are given.
pub const fn last_row_settles_texts()
    ensures { LastRowSettlesTexts }
{}

/// The octets that are written for an image are a bare stream: it reports the image's size, and holds the image's blocks if nothing is
/// missing from the stream, whether its numbers are restored or not.
pub const fn images_are_bare_streams()
    ensures { ImagesAreBareStreams }
{
    bare_texts_hold();
    bare_heads_undo();
    bare_heads_end_there();
    texts_end_there();
    bare_streams_end_there();
}

/// A bare stream within the caps isn't refused: it is read whole and all its rows are given, unless the port or the memory fails.
pub const fn bare_streams_are_read()
    ensures { StreamsAreRead }
{}

/// The bare stream of an image gives the image back: a decoder that takes it gives the raster, if nothing is missing from the stream,
/// whether it restores numbers or not.
pub const fn bare_round_trip()
    ensures { BareRoundTrip }
{
    images_are_bare_streams();
    bare_streams_are_read();
}
