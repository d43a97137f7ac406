// Makes a picture, a look or the lines of rectangles of packets.
ghost use Rattle.std.specs.Prelude.{◌≡◌, ◌≢◌, IfOk, IsTrue, MatchResult};
ghost use Rattle.plane_defs.specs.Codes.{is_book_sound};
ghost use Rattle.strip122_c.specs.Lent.{outside_of};
ghost use Rattle.strip122_c.specs.declared.product.Product.TheVariants.{Picture, Look, Rects};
ghost use Rattle.strip122_c.specs.Measuring.{IsKept};
ghost use Rattle.strip122_c.specs.Runs.{HasRun, RunsAs};
ghost use Rattle.strip122_c.specs.WholeDecoding.{FitsRoom, IsRefused, Makes, BringsBack};

use crate::measure::{measure, product_length, rows_of};
use crate::port::LentPort;
use crate::product::Product;
use base_122::{DecodeWish, Geometry};
use quick_look::{list_rects, look_packets};
use std::alloc::Global;
use stream_defs::heights_are_known;
use strip_decoder::{DecodeDone, DecodeFault, decode_packets, received_is_known, round_trip};

/// What was read, and the number of octets of what was made of it.
#[derive(Drop)]
pub struct Made {
    pub done: DecodeDone,
    pub octets: u64,
}

/// The reason why nothing is made of packets.
#[derive(Clone, Copy, Debug, PartialEq, Eq)]
pub enum DecodeRefusal {
    /// No packet that is kept begins a segment.
    NoSegment,
    /// The room has fewer octets than what is made, which has this number. The picture has this geometry and this number of rows.
    SmallRoom {
        geometry: Geometry,
        rows: u32,
        octets: u64,
    },
    /// A header reports this number of pixels, and the wish allows fewer.
    TooManyPixels {
        pixels: u64,
    },
    /// The packets have the number of octets at which reading ends.
    LongInput,
    /// There is no memory.
    Memory,
}

/// Reads the packets of the wish's APID, and puts what is made of them at the start of the room; the rest of the room is unchanged, and so is
/// all of it after a refusal. The causes of the results exclude each other, so each result except `Memory` is given exactly if its cause holds
/// (docs/c.md, "Calls"). The size of a picture or a look is known from the headers: from the first packet that is kept if it reports the
/// height, otherwise from all of them. So no text is decoded for a room that is too small. If no header reports the height, the picture has
/// the rows that the block rows determine which the packets reach (docs/formats.md, "Picture and damage").
///
/// Segments are read with the wish's code book, which must be sound. The packets do not carry it: with another book than the encoder's, segments
/// are refused or give another picture.
pub fn make_whole(
    alloc: Global,
    product: Product,
    wish: &DecodeWish,
    packets: &[u8],
    room: &mut [u8],
) -> Result<Made, DecodeRefusal>
    requires book { IsTrue (is_book_sound wish.now.book) }
    ensures makes { Makes product wish.now packets.now room.old room.new result }
    ensures back { product ≡ Picture → BringsBack wish.now packets.now room.new result }
{
    round_trip();
    received_is_known();
    heights_are_known();
    put_product(alloc, product, wish, packets, room)
}

// Reads packets, and puts what is made of them at the start of the room.
fn put_product(
    alloc: Global,
    product: Product,
    wish: &DecodeWish,
    packets: &[u8],
    room: &mut [u8],
) -> Result<Made, DecodeRefusal>
    requires book { IsTrue (is_book_sound wish.now.book) }
    ensures { Makes product wish.now packets.now room.old room.new result }
{
    received_is_known();
    let kept = match octets_kept(alloc, product, wish, packets, room.len()) {
        Ok(kept) => kept,
        Err(refusal) => return Err(refusal),
    };
    let Ok(mut port) = LentPort::new(alloc, packets, kept) else {
        return Err(DecodeRefusal::Memory);
    };
    let done = match run(alloc, product, wish, &mut port) {
        Ok(done) => done,
        Err(refusal) => return Err(refusal),
    };
    // No clause of a port states that it keeps what fits, so this is tested.
    let Some(given) = port.given() else {
        return Err(DecodeRefusal::Memory);
    };
    let octets = given.len() as u64;
    if given.len() > room.len() {
        return Err(DecodeRefusal::SmallRoom {
            geometry: done.geometry,
            rows: done.written,
            octets,
        });
    }
    room[..given.len()].copy_from_slice(given);
    Ok(Made { done, octets })
}

// Returns the number of octets for which memory is needed in addition to the room: those of the raster of a picture or a look, and no number
// for lists, whose length is not known before. Refuses a picture or a look that doesn't fit the room.
fn octets_kept(
    alloc: Global,
    product: Product,
    wish: &DecodeWish,
    packets: &[u8],
    room: usize,
) -> Result<Option<usize>, DecodeRefusal>
    ensures fits { MatchResult result (λ _. FitsRoom product wish.now packets.now room) (IsRefused product wish.now packets.now room) }
    ensures kept { IfOk result (IsKept product wish.now packets.now) }
{
    match product {
        Product::Rects => Ok(None),
        Product::Picture | Product::Look => raster_kept(alloc, product, wish, packets, room),
    }
}

// The same for a raster.
fn raster_kept(
    alloc: Global,
    product: Product,
    wish: &DecodeWish,
    packets: &[u8],
    room: usize,
) -> Result<Option<usize>, DecodeRefusal>
    requires raster { product ≢ Rects }
    ensures fits { MatchResult result (λ _. FitsRoom product wish.now packets.now room) (IsRefused product wish.now packets.now room) }
    ensures kept { IfOk result (IsKept product wish.now packets.now) }
{
    received_is_known();
    let measured = match measure(alloc, wish, packets) {
        Ok(measured) => measured,
        Err(refusal) => return Err(refusal),
    };
    let length = product_length(product, &measured);
    if length > room {
        return Err(DecodeRefusal::SmallRoom {
            geometry: measured.geometry,
            rows: rows_of(&measured),
            octets: length as u64,
        });
    }
    Ok(Some(length))
}

// Reads the packets that a port has.
fn run(
    alloc: Global,
    product: Product,
    wish: &DecodeWish,
    port: &mut LentPort,
) -> Result<DecodeDone, DecodeRefusal>
    requires book { IsTrue (is_book_sound wish.now.book) }
    ensures { HasRun product wish.now (outside_of port.old) (outside_of port.new) result }
{
    match walk(alloc, product, wish, port) {
        Ok(done) => Ok(done),
        Err(DecodeFault::NoSegment) => Err(DecodeRefusal::NoSegment),
        Err(DecodeFault::Memory) => Err(DecodeRefusal::Memory),
        Err(DecodeFault::TooManyPixels { pixels }) => Err(DecodeRefusal::TooManyPixels { pixels }),
        Err(DecodeFault::LongInput) => Err(DecodeRefusal::LongInput),
        Err(DecodeFault::ReadFault) => unreachable!(),
        Err(DecodeFault::WriteFault) => unreachable!(),
    }
}

// Reads the packets that a port has by the call that makes the product.
fn walk(
    alloc: Global,
    product: Product,
    wish: &DecodeWish,
    port: &mut LentPort,
) -> Result<DecodeDone, DecodeFault>
    requires book { IsTrue (is_book_sound wish.now.book) }
    ensures { RunsAs product wish.now (outside_of port.old) (outside_of port.new) result }
{
    match product {
        Product::Picture => decode(alloc, wish, port),
        Product::Look => look(alloc, wish, port),
        Product::Rects => rects(alloc, wish, port),
    }
}

// Each of these has a stack frame of its own, as large as its call needs.
#[inline(never)]
fn decode(alloc: Global, wish: &DecodeWish, port: &mut LentPort) -> Result<DecodeDone, DecodeFault>
    requires book { IsTrue (is_book_sound wish.now.book) }
    ensures { RunsAs Picture wish.now (outside_of port.old) (outside_of port.new) result }
{
    decode_packets(alloc, port, wish)
}

#[inline(never)]
fn look(alloc: Global, wish: &DecodeWish, port: &mut LentPort) -> Result<DecodeDone, DecodeFault>
    requires book { IsTrue (is_book_sound wish.now.book) }
    ensures { RunsAs Look wish.now (outside_of port.old) (outside_of port.new) result }
{
    look_packets(alloc, port, wish)
}

#[inline(never)]
fn rects(alloc: Global, wish: &DecodeWish, port: &mut LentPort) -> Result<DecodeDone, DecodeFault>
    requires book { IsTrue (is_book_sound wish.now.book) }
    ensures { RunsAs Rects wish.now (outside_of port.old) (outside_of port.new) result }
{
    list_rects(alloc, port, wish)
}
