// Takes the segments of an image, one after another.
ghost use Rattle.std.specs.Prelude.{◌≡◌, ◌≤◌, ◌*◌, ◌^◌, true, length, take, vec_len};
ghost use Rattle.base_122.specs.Ranges.{IsGeometryInRange};
ghost use Rattle.segment_defs.specs.Head.{IsHead};
ghost use Rattle.segment_code.specs.Decoded.{DecodesSegment};
ghost use Rattle.segment_code.specs.Readers.{wish_of};
ghost use Rattle.segment_code.specs.Starts.{AreClear};
ghost use Rattle.stream_defs.specs.Begun.{rows_reached};
ghost use Rattle.packet_assembly.specs.Assembling.{Assembling};
ghost use Rattle.strip_decoder.specs.WalkSteps.{walking, IsCurrent, HasRoom, PassesBlocks, AreBlocks};
ghost use Rattle.strip_decoder.specs.Rooms.{IsRoom};
ghost use Rattle.strip_decoder.specs.Runs.{Run, WalksIn, RunsReach, RunsSegment};
ghost use Rattle.strip_decoder.specs.Segments.{FitsNext, IsAt, MayFollow, FollowsHead, MayFollowHeld, FollowsHeld, IsFound, FollowsFound};
ghost use Rattle.strip_decoder.specs.Segments.{FindsNext, ReadsText, EndsText, ReachesSegment, TakesSegment, pixels_reached, segment_values};

use crate::blocks::{put_blocks, put_missing_blocks};
use crate::ending::DecodeFault;
use crate::sink::BlockSink;
use crate::walk::{SegmentRoom, Walk, end_image, passed, placed};
use base_122::{FieldRange, Geometry};
use bit_pipe::{InFault, OctetIn, Part};
use packet_assembly::{Assembly, SegmentStart};
use port_122::{Failed, Port};
use segment_code::{SegmentFault, SegmentReader, texts_end_so};
use segment_defs::texts_read_as_wished;
use segment_head::SegmentHead;

/// Advances to the next segment, or to the end of the stream.
pub fn find_next<X: Port>(
    port: &mut X,
    assembly: &mut Assembly,
) -> Result<Option<SegmentStart>, DecodeFault>
    ensures { FindsNext (X.outside port.old) (X.outside port.new) assembly.old assembly.new result }
{
    match assembly.next_segment(port) {
        Ok(start) => Ok(start),
        Err(InFault::LongInput) => Err(DecodeFault::LongInput),
        Err(_) => Err(DecodeFault::ReadFault),
    }
}

// Requests the end of a text that has none of its octets left: the packets that were passed then have closed it.
fn end_text<X: Port>(port: &mut X, assembly: &mut Assembly) -> Result<bool, DecodeFault>
    ensures { EndsText (X.outside port.old) (X.outside port.new) assembly.old assembly.new result }
{
    match assembly.take_octet(port) {
        Ok(None) => Ok(true),
        Err(InFault::ReadFault) => Err(DecodeFault::ReadFault),
        _ => Ok(false),
    }
}

// Reads the text of a segment into the first of these blocks, which are clear.
fn decode_first<I: OctetIn>(
    reader: &SegmentReader,
    text: &mut I,
    head: &SegmentHead,
    blocks: &mut [i32],
    marks: &mut [i32],
) -> Result<Part, SegmentFault>
    requires head { IsHead head.now }
    requires blocks { 64 * head.now.blocks ≤ length blocks.old }
    requires marks { head.now.blocks ≤ length marks.old }
    requires clear { AreClear (take (64 * head.now.blocks) blocks.old) }
    ensures decodes { DecodesSegment I.source (wish_of reader.now) head.now result text.old text.new (take (64 * head.now.blocks) blocks.new) }
    ensures sizes { (length blocks.new ≡ length blocks.old) × (length marks.new ≡ length marks.old) }
{
    let count = head.blocks as usize;
    reader.decode_into_clear(text, head, &mut blocks[..64 * count], &mut marks[..count])
}

// Reads the text of a segment with the room's reader into its first blocks. Returns false if it is refused or breaks off.
fn read_text<X: Port>(
    port: &mut X,
    assembly: &mut Assembly,
    room: &mut SegmentRoom,
    head: &SegmentHead,
) -> Result<bool, DecodeFault>
    requires head { IsHead head.now }
    requires blocks { 64 * head.now.blocks ≤ vec_len room.old.blocks }
    requires marks { head.now.blocks ≤ vec_len room.old.marks }
    ensures blocks { vec_len room.new.blocks ≡ vec_len room.old.blocks }
    ensures marks { vec_len room.new.marks ≡ vec_len room.old.marks }
    ensures pixels { room.new.pixels ≡ room.old.pixels }
    ensures reader { room.new.reader ≡ room.old.reader }
    ensures reads { ReadsText (wish_of room.old.reader) (X.outside port.old) (X.outside port.new) assembly.old assembly.new head.now
        room.new.blocks.items result }
{
    texts_end_so();
    room.clear_blocks(64 * head.blocks as usize);
    let mut text = assembly.text(port);
    let read = decode_first(
        &room.reader,
        &mut text,
        head,
        &mut room.blocks,
        &mut room.marks,
    );
    let Err(fault) = read else {
        return end_text(port, assembly);
    };
    match fault {
        SegmentFault::ReadFault => Err(DecodeFault::ReadFault),
        _ => Ok(false),
    }
}

/// Returns the least number of pixels of an image that has the blocks before this one, or that of the image if its height is known.
pub fn least_pixels(geometry: &Geometry, ended: u64) -> u64
    requires range { IsGeometryInRange geometry.now }
    requires few { ended ≤ 2 ^ 33 }
    ensures { result ≡ geometry.now.width * rows_reached geometry.now ended }
{
    let width = u64::from(geometry.width);
    if geometry.rows != 0 {
        return width * u64::from(geometry.rows);
    }
    let block_rows = ended.div_ceil(u64::from(geometry.width.div_ceil(8)));
    let reached = (8 * block_rows).saturating_sub(7);
    width * FieldRange::ROWS.least.max(reached)
}

/// Returns the least number of pixels of an image in which this segment is, or that of the image if its height is known.
pub fn pixels_reached(geometry: &Geometry, start: &SegmentStart) -> u64
    requires { IsGeometryInRange geometry.now }
    ensures { result ≡ pixels_reached geometry.now start.now }
{
    least_pixels(
        geometry,
        u64::from(start.ancillary.first) + u64::from(start.head.blocks),
    )
}

// Takes the geometry of an image in which this segment was begun, unless that has too many pixels.
fn follow_head<S: BlockSink>(
    walk: &mut Walk<S>,
    geometry: &Geometry,
    start: &SegmentStart,
    most: u64,
) -> Result<(), DecodeFault>
    requires current { IsCurrent S.sink (walking walk.old) }
    requires follows { MayFollow geometry.now (walking walk.old) start.now }
    ensures { FollowsHead S.sink most geometry.now start.now (walking walk.old) (walking walk.new) result }
{
    let pixels = pixels_reached(geometry, start);
    if pixels > most {
        return Err(DecodeFault::TooManyPixels { pixels });
    }
    end_image(walk, &placed(geometry));
    Ok(())
}

/// Takes the geometry of the image in which the segment that the assembly returned last was begun, unless that has too many pixels.
pub fn follow_found<S: BlockSink>(
    walk: &mut Walk<S>,
    assembly: &Assembly,
    start: &SegmentStart,
    most: u64,
) -> Result<(), DecodeFault>
    requires current { IsCurrent S.sink (walking walk.old) }
    requires found { IsFound assembly.now (walking walk.old) start.now }
    ensures { FollowsFound S.sink most assembly.now start.now (walking walk.old) (walking walk.new) result }
{
    let Some(geometry) = assembly.geometry() else {
        return Ok(());
    };
    follow_head(walk, &geometry, start, most)
}

// Takes the geometry that is known by now, if the next segment was begun while the text of this one was read.
fn follow_held<S: BlockSink>(
    walk: &mut Walk<S>,
    assembly: &Assembly,
    most: u64,
) -> Result<(), DecodeFault>
    requires current { IsCurrent S.sink (walking walk.old) }
    requires held { MayFollowHeld assembly.now (walking walk.old) }
    ensures { FollowsHeld S.sink most assembly.now (walking walk.old) (walking walk.new) result }
{
    let Some(next) = assembly.held() else {
        return Ok(());
    };
    let Some(geometry) = assembly.geometry() else {
        return Ok(());
    };
    follow_head(walk, &geometry, &next, most)
}

// Passes the blocks of a segment, as missing if its text wasn't accepted.
fn pass_segment<S: BlockSink, X: Port>(
    walk: &mut Walk<S>,
    port: &mut X,
    blocks: &[i32],
    count: u32,
    accepted: bool,
) -> Result<(), Failed>
    requires current { IsCurrent S.sink (walking walk.old) }
    requires room { HasRoom count (walking walk.old) }
    requires held { 64 * count ≤ length blocks.now }
    requires parts { accepted ≡ true → AreBlocks count walk.old.geometry blocks.now }
    ensures { PassesBlocks S.sink result (segment_values accepted blocks.now) count (X.outside port.old) (X.outside port.new) (walking walk.old)
        (walking walk.new) }
{
    if accepted {
        return put_blocks(walk, port, blocks, count as usize);
    }
    put_missing_blocks(walk, port, u64::from(count))
}

/// Advances to the first block of a segment whose head was read: the blocks before it are lost.
pub fn reach_segment<S: BlockSink, X: Port>(
    walk: &mut Walk<S>,
    port: &mut X,
    start: &SegmentStart,
) -> Result<(), Failed>
    requires current { IsCurrent S.sink (walking walk.old) }
    requires next { FitsNext (walking walk.old) start.now }
    ensures reaches { (a : Assembling) → IsAt a (walking walk.old) start.now → ReachesSegment S.sink (X.outside port.old) (X.outside port.new) a
        (walking walk.old) (walking walk.new) start.now result }
    ensures runs { (w : Run) (a : Assembling) → IsAt a (walking walk.old) start.now → WalksIn S.sink w (X.outside port.old) a (walking walk.old) start.now →
        RunsReach S.sink w (X.outside port.new) a (walking walk.new) start.now result }
{
    let lost = u64::from(start.ancillary.first) - passed(walk);
    put_missing_blocks(walk, port, lost)
}

/// Takes the segment that the assembly returned last: the blocks before it are lost, and its own if its text isn't accepted.
pub fn take_segment<S: BlockSink, X: Port>(
    walk: &mut Walk<S>,
    port: &mut X,
    assembly: &mut Assembly,
    room: &mut SegmentRoom,
    start: &SegmentStart,
) -> Result<(), DecodeFault>
    requires current { IsCurrent S.sink (walking walk.old) }
    requires at { IsAt assembly.old (walking walk.old) start.now }
    requires room { IsRoom walk.old.geometry (vec_len room.old.blocks) (vec_len room.old.marks) }
    ensures blocks { vec_len room.new.blocks ≡ vec_len room.old.blocks }
    ensures marks { vec_len room.new.marks ≡ vec_len room.old.marks }
    ensures pixels { room.new.pixels ≡ room.old.pixels }
    ensures texts { wish_of room.new.reader ≡ wish_of room.old.reader }
    ensures takes { TakesSegment S.sink (X.outside port.old) (X.outside port.new) assembly.old assembly.new (walking walk.old) (walking walk.new) result }
    ensures runs { (w : Run) → w.pixels ≡ room.old.pixels → w.texts ≡ wish_of room.old.reader →
        WalksIn S.sink w (X.outside port.old) assembly.old (walking walk.old) start.now → RunsSegment S.sink w (X.outside port.new) assembly.new
        (walking walk.new) result }
{
    texts_read_as_wished();
    let Ok(()) = reach_segment(walk, port, start) else {
        return Err(DecodeFault::WriteFault);
    };
    let accepted = match read_text(port, assembly, room, &start.head) {
        Ok(accepted) => accepted,
        Err(fault) => return Err(fault),
    };
    match follow_held(walk, assembly, room.pixels) {
        Ok(()) => {}
        Err(fault) => return Err(fault),
    }
    let Ok(()) = pass_segment(walk, port, &room.blocks, start.head.blocks, accepted) else {
        return Err(DecodeFault::WriteFault);
    };
    Ok(())
}
