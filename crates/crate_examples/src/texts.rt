// Reads a segment's text from octets.
ghost use Rattle.crate_examples.specs.Texts.{IsReadAs};

use bit_pipe::{Part, SliceIn};
use segment_code::{SegmentFault, decode_segment, texts_end_so};
use segment_head::{HeadFault, SegmentHead, read_head};
use std::alloc::Global;
use word_codes::profile_book;

/// What a segment's text holds: 64 numbers for each block, and whether the text has all items or the limit cut them.
#[derive(Drop)]
pub struct ReadBlocks {
    pub head: SegmentHead,
    pub part: Part,
    pub numbers: Vec<i32>,
}

/// The reason why a text gives no blocks.
#[derive(Clone, Copy, Debug, PartialEq, Eq)]
pub enum NotRead {
    /// The head is refused.
    BadHead(HeadFault),
    /// What follows it is refused.
    BadText(SegmentFault),
    /// There is no memory for the number of blocks in the head.
    NoMemory,
}

/// Reads a segment's text with its head. It takes 65 numbers of four octets for each block of the head. The head can have 1,048,575 blocks,
/// so a caller that doesn't trust the octets reads the head first.
pub fn read_text(alloc: Global, text: &[u8]) -> Result<ReadBlocks, NotRead>
    ensures { IsReadAs text.now result }
{
    texts_end_so();
    let head = match read_head(text) {
        Ok(head) => head,
        Err(fault) => return Err(NotRead::BadHead(fault)),
    };
    let rest = &text[usize::from(head.octets())..];
    let count = head.blocks as usize;
    let Ok(mut numbers) = vec![in alloc; 0; 64 * count] else {
        return Err(NotRead::NoMemory);
    };
    let Ok(mut marks) = vec![in alloc; 0; count] else {
        return Err(NotRead::NoMemory);
    };
    match decode_segment(
        &mut SliceIn::new(rest),
        &head,
        &mut numbers,
        &mut marks,
        &profile_book(),
    ) {
        Ok(part) => Ok(ReadBlocks {
            head,
            part,
            numbers,
        }),
        Err(fault) => Err(NotRead::BadText(fault)),
    }
}
