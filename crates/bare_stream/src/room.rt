// Takes the memory for the blocks of one segment, and reads the items of its text.
ghost use Rattle.std.specs.Prelude.{◌≡◌, ◌≤◌, ◌*◌, take, length};
ghost use Rattle.segment_defs.specs.Head.{IsHead};
ghost use Rattle.bare_stream.specs.Inputs.{source_of};
ghost use Rattle.segment_code.specs.DecodedItems.{DecodesItems};
ghost use Rattle.segment_code.specs.Readers.{wish_of};
ghost use Rattle.bare_stream.specs.Heads.{FaultOf};

use crate::fault::{BareCause, BareFault};
use crate::input::PortIn;
use bare_text::{BareHead, BareReader, SegmentFault};
use base_122::DecodeWish;
use bit_pipe::Part;
use port_122::Port;
use std::alloc::{AllocError, Global};

/// The room in which the texts of segments are read: the blocks of one segment, and a state for each.
#[derive(Drop)]
pub struct Room {
    pub reader: BareReader,
    pub blocks: Vec<i32>,
    pub marks: Vec<i32>,
}

impl Room {
    ghost use Rattle.std.specs.Prelude.{IfOk, IsTrue, vec_len};
    ghost use Rattle.plane_defs.specs.Codes.{is_book_sound};
    ghost use Rattle.segment_defs.specs.TextWish.{text_wish};
    ghost use Rattle.bare_stream.specs.Heads.{IsRoom};

    /// Takes the memory for segments of at most this number of blocks, whose texts are read with the book and as the numbers that are
    /// wished. It fails only if there is too little memory.
    pub fn new(alloc: Global, count: u32, wish: &DecodeWish) -> Result<Room, AllocError>
        requires count { count ≤ 1048575 }
        requires book { IsTrue (is_book_sound wish.now.book) }
        ensures room { IfOk result (λ room. IsRoom count (vec_len room.blocks) (vec_len room.marks)) }
        ensures wish { IfOk result (λ room. wish_of room.reader.reader ≡ text_wish wish.now) }
    {
        let count = count as usize;
        let blocks = vec![in alloc; 0; 64 * count]?;
        let marks = vec![in alloc; 0; count]?;
        let reader = BareReader::new(alloc, &wish.book, wish.restore)?;
        Ok(Room {
            reader,
            blocks,
            marks,
        })
    }
}

/// Returns the fault if the items of the segment of this index aren't read.
pub fn items_fault(fault: SegmentFault, index: u32) -> BareFault
    ensures { FaultOf index fault result }
{
    let cause = match fault {
        SegmentFault::BadOption => BareCause::BadOption,
        SegmentFault::BadDelta => BareCause::BadDelta,
        SegmentFault::BadDepth => BareCause::BadDepth,
        SegmentFault::FalseFlag => BareCause::FalseFlag,
        SegmentFault::ShortSegment => BareCause::Short,
        SegmentFault::ReadFault => return BareFault::ReadFault,
        _ => return BareFault::LongInput,
    };
    BareFault::Refused { index, cause }
}

/// Reads the items of a text after its head into the first of these blocks.
pub fn read_items<X: Port>(
    input: &mut PortIn<X>,
    reader: &BareReader,
    read: &BareHead,
    blocks: &mut [i32],
    marks: &mut [i32],
) -> Result<Part, SegmentFault>
    requires fits { IsHead read.now.head }
    requires size { read.now.size ≤ 20 }
    requires blocks { 64 * read.now.head.blocks ≤ length blocks.old }
    requires marks { read.now.head.blocks ≤ length marks.old }
    ensures items { DecodesItems (source_of X.outside) (wish_of reader.now.reader) read.now.head read.now.size result input.old input.new
        (take (64 * read.now.head.blocks) blocks.new) }
    ensures sizes { (length blocks.new ≡ length blocks.old) × (length marks.new ≡ length marks.old) }
{
    let count = read.head.blocks as usize;
    read.decode_items(
        reader,
        input,
        &mut blocks[..64 * count],
        &mut marks[..count],
    )
}
