// Passes the blocks of an image from its packets to a sink.
ghost use Rattle.std.specs.Prelude.{◌≡◌, ◌≤◌, true, is_some, IfOk, IsTrue, vec_len};
ghost use Rattle.base_122.specs.Ranges.{IsGeometryInRange};
ghost use Rattle.plane_defs.specs.Codes.{is_book_sound};
ghost use Rattle.segment_code.specs.Readers.{wish_of};
ghost use Rattle.stream_defs.specs.Begun.{height};
ghost use Rattle.strip_decoder.specs.WalkSteps.{walking, IsCurrent, PassesBlocks, missing};
ghost use Rattle.strip_decoder.specs.Rooms.{IsRoom};
ghost use Rattle.strip_decoder.specs.Segments.{IsAt};
ghost use Rattle.strip_decoder.specs.Runs.{Run, WalksIn, RunsAll};
ghost use Rattle.strip_decoder.specs.Walks.{TakesAll, PassesAll, RunsWalk, Walks, is_height_known, left_in, walked_of};

use crate::blocks::put_missing_blocks;
use crate::ending::{DecodeDone, DecodeFault};
use crate::segments::{find_next, follow_found, pixels_reached, take_segment};
use crate::sink::BlockSink;
use crate::walk::{SegmentRoom, Walk, begin_walk, passed, placed};
use base_122::{DecodeWish, Geometry};
use packet_assembly::{Assembly, SegmentStart};
use packet_defs::Framing;
use port_122::{Failed, Port};
use std::alloc::Global;

/// What was read, and the sink that has taken all blocks of the image.
#[derive(Drop)]
pub struct Walked<S> {
    pub done: DecodeDone,
    pub sink: S,
}

/// Takes the packets of an APID and passes all blocks of their image to a sink that it makes, in raster order: those of the segments that
/// are received, and each other block as missing (docs/formats.md, "Packets", "Fates" and "Picture and damage"; docs/architecture.md, "The
/// decoder"). At each read call the blocks that the octets so far settle were passed. It reads to the end, or to what can't be read on, at
/// most the octets that are wished, and no more once a header reports too many pixels. While the height isn't known, the sink takes the
/// blocks of the tallest image; once a header reports it, the sink ends there.
///
/// Segments are read with the wish's code book, which must be sound. With another book than the encoder's, segments are refused or give
/// other blocks. Their numbers are restored if that is wished; the same segments are received if it isn't.
///
/// # Errors
///
/// After `NoSegment` and `Memory` nothing is written, and after the other faults a part of what the sink writes; after
/// `TooManyPixels` it is empty unless the height is reported last. `ReadFault` and `WriteFault` occur only if the port's count rose.
pub fn walk_segments<S: BlockSink + Drop, X: Port>(
    alloc: Global,
    port: &mut X,
    wish: &DecodeWish,
) -> Result<Walked<S>, DecodeFault>
    requires book { IsTrue (is_book_sound wish.now.book) }
    ensures { Walks S.sink wish.now (X.outside port.old) (X.outside port.new) result }
{
    let Ok(mut assembly) = Assembly::new(alloc, wish.apid, wish.octets) else {
        return Err(DecodeFault::Memory);
    };
    let start = match find_next(port, &mut assembly) {
        Ok(Some(start)) => start,
        Ok(None) => return Err(DecodeFault::NoSegment),
        Err(fault) => return Err(fault),
    };
    let Some(geometry) = assembly.geometry() else {
        return Err(DecodeFault::NoSegment);
    };
    let pixels = pixels_reached(&geometry, &start);
    if pixels > wish.pixels {
        return Err(DecodeFault::TooManyPixels { pixels });
    }
    let tallest = placed(&geometry);
    let Ok(mut room) = SegmentRoom::new(alloc, &tallest, wish) else {
        return Err(DecodeFault::Memory);
    };
    let Ok(mut walk) = begin_walk::<S>(alloc, &tallest) else {
        return Err(DecodeFault::Memory);
    };
    match pass_all(&mut walk, port, &mut assembly, &mut room, start) {
        Ok(()) => {}
        Err(fault) => return Err(fault),
    }
    let Some(geometry) = assembly.geometry() else {
        return Err(DecodeFault::NoSegment);
    };
    Ok(finish(walk, &geometry, assembly.framing()))
}

// Returns what was read, once all blocks were passed.
fn finish<S: BlockSink + Drop>(
    mut walk: Walk<S>,
    geometry: &Geometry,
    framing: Option<Framing>,
) -> Walked<S>
    requires current { IsCurrent S.sink (walking walk) }
    requires range { IsGeometryInRange geometry.now }
    ensures { result ≡ walked_of geometry.now framing (walking walk) }
{
    let written = rows_written(geometry, walk.at.row);
    walk.damage.end_at(written);
    Walked {
        done: DecodeDone {
            geometry: *geometry,
            damage: walk.damage,
            written,
            framing,
        },
        sink: walk.sink,
    }
}

// Returns the number of rows of the picture: all, or those that the block rows so far determine if the height isn't known.
fn rows_written(geometry: &Geometry, block_rows: u32) -> u32
    requires { block_rows ≤ 32768 }
    ensures { result ≡ height geometry.now block_rows }
{
    if geometry.rows != 0 {
        return geometry.rows;
    }
    (8 * block_rows).saturating_sub(21)
}

// Takes all segments, from this one on, and passes the blocks after them as missing.
fn pass_all<S: BlockSink, X: Port>(
    walk: &mut Walk<S>,
    port: &mut X,
    assembly: &mut Assembly,
    room: &mut SegmentRoom,
    first: SegmentStart,
) -> Result<(), DecodeFault>
    requires current { IsCurrent S.sink (walking walk.old) }
    requires at { IsAt assembly.old (walking walk.old) first }
    requires room { IsRoom walk.old.geometry (vec_len room.old.blocks) (vec_len room.old.marks) }
    ensures passes { PassesAll (X.outside port.old) (X.outside port.new) result }
    ensures current { IfOk result (λ _. IsCurrent S.sink (walking walk.new)) }
    ensures image { IfOk result (λ _. is_some assembly.new.state.geometry ≡ true) }
    ensures runs { (w : Run) → w.pixels ≡ room.old.pixels → w.texts ≡ wish_of room.old.reader →
        WalksIn S.sink w (X.outside port.old) assembly.old (walking walk.old) first → RunsWalk S.sink w (X.outside port.new) assembly.new (walking walk.new)
        result }
{
    match take_segments(walk, port, assembly, room, first) {
        Ok(()) => {}
        Err(fault) => return Err(fault),
    }
    match lose_rest(walk, port, is_height_known(assembly)) {
        Ok(()) => Ok(()),
        Err(_) => Err(DecodeFault::WriteFault),
    }
}

// Returns whether the height of the image is known.
fn is_height_known(assembly: &Assembly) -> bool
    ensures { result ≡ is_height_known assembly.now.state.geometry }
{
    match assembly.geometry() {
        Some(geometry) => geometry.rows != 0,
        None => false,
    }
}

// Takes all segments, from this one on.
fn take_segments<S: BlockSink, X: Port>(
    walk: &mut Walk<S>,
    port: &mut X,
    assembly: &mut Assembly,
    room: &mut SegmentRoom,
    first: SegmentStart,
) -> Result<(), DecodeFault>
    requires current { IsCurrent S.sink (walking walk.old) }
    requires at { IsAt assembly.old (walking walk.old) first }
    requires room { IsRoom walk.old.geometry (vec_len room.old.blocks) (vec_len room.old.marks) }
    ensures takes { TakesAll S.sink (X.outside port.old) (X.outside port.new) assembly.old assembly.new (walking walk.old) (walking walk.new) result }
    ensures runs { (w : Run) → w.pixels ≡ room.old.pixels → w.texts ≡ wish_of room.old.reader →
        WalksIn S.sink w (X.outside port.old) assembly.old (walking walk.old) first → RunsAll S.sink w (X.outside port.new) assembly.new (walking walk.new)
        result }
{
    let mut start = first;
    'segments: loop {
        match take_segment(walk, port, assembly, room, &start) {
            Ok(()) => {}
            Err(fault) => return Err(fault),
        }
        start = match find_next(port, assembly) {
            Ok(Some(next)) => next,
            Ok(None) => return Ok(()),
            Err(fault) => return Err(fault),
        };
        match follow_found(walk, assembly, &start, room.pixels) {
            Ok(()) => {}
            Err(fault) => return Err(fault),
        }
    }
}

// Passes all blocks that are left as missing. If the height isn't known, none is known to be left.
fn lose_rest<S: BlockSink, X: Port>(
    walk: &mut Walk<S>,
    port: &mut X,
    known: bool,
) -> Result<(), Failed>
    requires current { IsCurrent S.sink (walking walk.old) }
    ensures { PassesBlocks S.sink result missing (left_in known (walking walk.old)) (X.outside port.old) (X.outside port.new) (walking walk.old)
        (walking walk.new) }
{
    if !known {
        return Ok(());
    }
    let left = walk.geometry.blocks() - passed(walk);
    put_missing_blocks(walk, port, left)
}
