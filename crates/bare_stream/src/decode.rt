// Decodes a bare stream to a picture.
ghost use Rattle.std.specs.Prelude.{◌≡◌, [], false, IsTrue};
ghost use Rattle.plane_defs.specs.Codes.{is_book_sound};
ghost use Rattle.bare_stream.specs.Decoded.{DecodesBare};
ghost use Rattle.bare_stream.specs.Input.{waiting};

use crate::fault::BareFault;
use crate::heads::{check_head, take_head};
use crate::input::PortIn;
use crate::walk::{Walk, take_stream};
use bare_text::{PartsInForce, bare_heads_end_there};
use base_122::{DecodeWish, Geometry};
use port_122::Port;
use segment_code::texts_end_there;
use std::alloc::Global;

/// Takes a bare stream and gives the picture of its segments, each row as soon as the segments so far determine it (docs/formats.md,
/// "Bare texts" and "Picture and damage"). It reads to the end, at most the octets that are wished, and no more once a segment is refused
/// or a head reports too many pixels. Items have the codes of the wish's book, which is sound. The numbers of the picture are
/// restored if that is wished (docs/formats.md, "Restored numbers"). Returns the geometry of the image, in which `image` is 0. It takes
/// memory only after the first head. The field `apid` of the wish isn't used.
///
/// # Errors
///
/// - `Refused`: the index of the first segment that is refused, and the cause. The rows are given that the segments before it determine;
///   if the cause is `Trailing`, these are all rows.
/// - `ReadFault`, `LongInput`, `TooManyPixels`: the rows are given that the segments before it determine. `ReadFault` occurs only if the
///   port's count rose.
/// - `WriteFault`: a prefix of the rows is given that the segments so far determine. The port's count rose.
/// - `Memory`: nothing is given.
pub fn decode_bare<X: Port>(
    alloc: Global,
    port: &mut X,
    wish: &DecodeWish,
) -> Result<Geometry, BareFault>
    requires book { IsTrue (is_book_sound wish.now.book) }
    ensures { DecodesBare wish.now (X.outside port.old) (X.outside port.new) result }
{
    let mut input = PortIn::new(port, wish.octets);
    decode_input(alloc, &mut input, wish)
}

// Takes a bare stream from an input that has given no octet yet.
fn decode_input<X: Port>(
    alloc: Global,
    input: &mut PortIn<X>,
    wish: &DecodeWish,
) -> Result<Geometry, BareFault>
    requires book { IsTrue (is_book_sound wish.now.book) }
    requires none { waiting input.old ≡ [] }
    requires left { input.old.left ≡ wish.now.octets }
    requires whole { input.old.failed ≡ false }
    ensures port { input.new.port.ghost_name ≡ input.old.port.ghost_name }
    ensures decodes { DecodesBare wish.now (X.outside input.old.port.now) (X.outside input.new.port.now) result }
{
    bare_heads_end_there();
    texts_end_there();
    let mut parts = PartsInForce::none();
    let first = match take_head(input, &mut parts, 0) {
        Ok(first) => first,
        Err(fault) => return Err(fault),
    };
    if let Err(fault) = check_head(&first.head, 0, &first.head, wish.pixels) {
        return Err(fault);
    }
    let Ok(mut walk) = Walk::new(alloc, &first.head, parts, wish) else {
        return Err(BareFault::Memory);
    };
    take_stream(&mut walk, input, first)
}
