// The segments of a bare stream, one after another.
ghost use Rattle.std.specs.Prelude.{◌≡◌, ◌≤◌, ◌<◌, ◌*◌, vec_len, [], List, ℕ, MatchResult, IfOk, IsTrue};
ghost use Rattle.port_122.specs.Outside.{Outside};
ghost use Rattle.base_122.specs.declared.wish.DecodeWish.{DecodeWish};
ghost use Rattle.segment_defs.specs.Head.{IsHead};
ghost use Rattle.segment_defs.specs.TextWish.{text_wish};
ghost use Rattle.plane_defs.specs.Codes.{is_book_sound};
ghost use Rattle.bare_text.specs.declared.parts.PartsInForce.{PartsInForce};
ghost use Rattle.bare_stream.specs.Decoded.{DecodesBare, IfKnown};
ghost use Rattle.bare_stream.specs.Heads.{ExpectsEnd};
ghost use Rattle.bare_stream.specs.Inputs.{source_of};
ghost use Rattle.bare_stream.specs.Pictures.{geometry_at, shape_with};
ghost use Rattle.bare_stream.specs.Reads.{SegmentsRead, InForceAfter};
ghost use Rattle.picture_rows.specs.Pictures.{picture_state, IsPictureFresh};
ghost use Rattle.bare_stream.specs.Walks.{wish_in, IsSound, IsNext, IsAt, IsHeadOf, IsNextText, IsReading, HasEnded};
ghost use Rattle.bare_stream.specs.Blocks.{AreParts};

use crate::fault::{BareCause, BareFault};
use crate::give::{give_last, give_next};
use crate::heads::{check_head, take_head};
use crate::input::PortIn;
use crate::room::{Room, items_fault, read_items};
use bare_text::{BareHead, PartsInForce};
use base_122::{DecodeWish, FieldRange, Geometry};
use bit_pipe::{InFault, OctetIn};
use picture_rows::Picture;
use port_122::Port;
use segment_code::texts_give_parts;
use segment_head::SegmentHead;
use std::alloc::{AllocError, Global};

/// The progress of the reading of a bare stream: the first head, the parts in force, the number of segments that were read, the most pixels
/// that its image may have, and its picture.
#[derive(Drop)]
pub struct Walk {
    pub first: SegmentHead,
    pub parts: PartsInForce,
    pub index: u32,
    pub pixels: u64,
    pub room: Room,
    pub picture: Picture,
}

impl Walk {
    /// Takes the memory for a stream with this first head, which agrees with itself, and for the book, the numbers and the pixels that are
    /// wished. The only error is a lack of memory.
    pub fn new(
        alloc: Global,
        first: &SegmentHead,
        parts: PartsInForce,
        wish: &DecodeWish,
    ) -> Result<Walk, AllocError>
        requires fits { IsHead first.now }
        requires book { IsTrue (is_book_sound wish.now.book) }
        ensures sound { IfOk result (λ w. IsSound w) }
        ensures begins { IfOk result (λ w. (w.first ≡ first.now) × (w.parts ≡ parts) × (w.index ≡ 0) × (w.pixels ≡ wish.now.pixels) ×
            (wish_in w ≡ text_wish wish.now)) }
        ensures fresh { IfOk result (λ w. IsPictureFresh (shape_with first.now 262144) (picture_state w.picture)) }
    {
        let room = Room::new(alloc, first.blocks, wish)?;
        let rows = FieldRange::ROWS.most as u32;
        let segment = FieldRange::SEGMENT.least as u32;
        let geometry = Geometry {
            segment,
            ..geometry_with(first, rows)
        };
        let picture = Picture::new(alloc, &geometry)?;
        Ok(Walk {
            first: *first,
            parts,
            index: 0,
            pixels: wish.pixels,
            room,
            picture,
        })
    }

    /// Returns the geometry of the image.
    pub fn geometry(&self) -> Geometry
        ensures { result ≡ record (geometry_at self.now.first 0 self.now.first) { rows = self.now.picture.geometry.rows } }
    {
        geometry_with(&self.first, self.picture.geometry.rows)
    }
}

// Returns the geometry of an image with this first head and this number of rows.
fn geometry_with(first: &SegmentHead, rows: u32) -> Geometry
    ensures { result ≡ record (geometry_at first.now 0 first.now) { rows = rows } }
{
    Geometry {
        width: first.image.width,
        rows,
        depth: first.image.depth,
        signed: first.image.signed,
        segment: first.blocks,
        image: 0,
        word: first.image.word,
        weights: first.image.weights,
    }
}

// Reads the head of the next segment, which isn't the first.
fn next_head<X: Port>(walk: &mut Walk, input: &mut PortIn<X>) -> Result<BareHead, BareFault>
    requires first { IsHead walk.old.first }
    requires later { 0 < walk.old.index }
    ensures walk { walk.new ≡ record walk.old { parts = walk.new.parts } }
    ensures next { IfOk result (λ read. IsNext walk.new read) }
    ensures port { input.new.port.ghost_name ≡ input.old.port.ghost_name }
    ensures run { (wish : DecodeWish) (start : Outside) (r : SegmentsRead) → IsAt X.outside wish start r [] input.old walk.old →
        InForceAfter wish start r walk.old.parts → MatchResult result
        (λ read. (prefix : List ℕ) × IsAt X.outside wish start r prefix input.new walk.new × IfKnown start
        (λ all. IsHeadOf wish r walk.old.parts walk.new.parts prefix read))
        (λ fault. DecodesBare wish start (X.outside input.new.port.now) (Err fault)) }
{
    let read = match take_head(input, &mut walk.parts, walk.index) {
        Ok(read) => read,
        Err(fault) => return Err(fault),
    };
    match check_head(&read.head, walk.index, &walk.first, walk.pixels) {
        Ok(()) => Ok(read),
        Err(fault) => Err(fault),
    }
}

// Reads the text of the next segment after its head.
fn take_text<X: Port>(
    walk: &mut Walk,
    input: &mut PortIn<X>,
    read: &BareHead,
) -> Result<(), BareFault>
    requires next { IsNext walk.old read.now }
    requires blocks { 64 * read.now.head.blocks ≤ vec_len walk.old.room.blocks }
    requires marks { read.now.head.blocks ≤ vec_len walk.old.room.marks }
    ensures walk { walk.new ≡ record walk.old { room = walk.new.room } }
    ensures port { input.new.port.ghost_name ≡ input.old.port.ghost_name }
    ensures parts { IfOk result (λ _. AreParts walk.new.room.blocks.items read.now.head.blocks read.now.head.image.weights.shifts) }
    ensures room { (vec_len walk.new.room.blocks ≡ vec_len walk.old.room.blocks) × (vec_len walk.new.room.marks ≡ vec_len walk.old.room.marks) }
    ensures run { (wish : DecodeWish) (start : Outside) (r : SegmentsRead) (prefix : List ℕ) (before : PartsInForce) →
        IsAt X.outside wish start r prefix input.old walk.old → IfKnown start (λ all. IsHeadOf wish r before walk.old.parts prefix read.now) →
        MatchResult result
        (λ _. (text : List ℕ) × IsAt X.outside wish start r text input.new walk.new × IfKnown start (λ all. IsNextText wish r before walk.new text read.now))
        (λ fault. DecodesBare wish start (X.outside input.new.port.now) (Err fault)) }
{
    texts_give_parts();
    let items = read_items(
        input,
        &walk.room.reader,
        read,
        &mut walk.room.blocks,
        &mut walk.room.marks,
    );
    match items {
        Ok(_) => Ok(()),
        Err(fault) => Err(items_fault(fault, walk.index)),
    }
}

/// Reads all segments, of which the head of the first was read, and the end of the input, and gives all rows. Returns the geometry of the
/// image. After a fault the walk isn't used again.
pub fn take_stream<X: Port>(
    walk: &mut Walk,
    input: &mut PortIn<X>,
    first: BareHead,
) -> Result<Geometry, BareFault>
    requires sound { IsSound walk.old }
    requires next { IsNext walk.old first }
    requires none { walk.old.index ≡ 0 }
    requires first { first.head ≡ walk.old.first }
    ensures port { input.new.port.ghost_name ≡ input.old.port.ghost_name }
    ensures run { (wish : DecodeWish) (start : Outside) → IsReading X.outside wish start input.old walk.old first →
        DecodesBare wish start (X.outside input.new.port.now) result }
{
    if let Err(fault) = take_segments(walk, input, first) {
        return Err(fault);
    }
    if let Err(fault) = expect_end(input, walk.index) {
        return Err(fault);
    }
    Ok(walk.geometry())
}

// Reads all segments, of which the head of the first was read, and gives their rows. After a fault the walk isn't used again.
fn take_segments<X: Port>(
    walk: &mut Walk,
    input: &mut PortIn<X>,
    first: BareHead,
) -> Result<(), BareFault>
    requires sound { IsSound walk.old }
    requires next { IsNext walk.old first }
    requires none { walk.old.index ≡ 0 }
    requires first { first.head ≡ walk.old.first }
    ensures port { input.new.port.ghost_name ≡ input.old.port.ghost_name }
    ensures run { (wish : DecodeWish) (start : Outside) → IsReading X.outside wish start input.old walk.old first → MatchResult result
        (λ _. HasEnded X.outside wish start input.new walk.new)
        (λ fault. DecodesBare wish start (X.outside input.new.port.now) (Err fault)) }
{
    let mut read = first;
    loop {
        take_text(walk, input, &read)?;
        if read.head.last {
            return give_last(walk, input, &read);
        }
        give_next(walk, input, &read)?;
        read = next_head(walk, input)?;
    }
}

// Expects the end of the input after this number of segments.
fn expect_end<X: Port>(input: &mut PortIn<X>, index: u32) -> Result<(), BareFault>
    ensures { ExpectsEnd (source_of X.outside) index result input.old input.new }
{
    match input.take() {
        Ok(None) => Ok(()),
        Ok(Some(_)) => Err(BareFault::Refused {
            index,
            cause: BareCause::Trailing,
        }),
        Err(InFault::ReadFault) => Err(BareFault::ReadFault),
        Err(_) => Err(BareFault::LongInput),
    }
}
