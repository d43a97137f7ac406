// Coded segments, read and written.
ghost use Rattle.std.specs.Prelude.{◌≡◌, ◌≤◌, ◌*◌, ◌%◌, length, vec_len, IfOk, IsTrue};
ghost use Rattle.std.specs.Bool.{OnTrue};
ghost use Rattle.plane_defs.specs.Codes.{is_book_sound};
ghost use Rattle.segment_defs.specs.Head.{IsHead};

use crate::bit_words::octets_in;
use crate::block_words::blocks_in;
use crate::case::{Case, Refusal};
use crate::shown::{Blocks, Hex};
use base_122::Book;
use bit_pipe::{Failed, Part, SliceIn, SliceOut};
use code_book::check_book;
use segment_code::{SegmentBlocks, SegmentFault, decode_segment, encode_segment};
use segment_head::{SegmentHead, read_head};
use word_codes::profile_book;

// The most blocks of a case.
const MOST: usize = 100;

// Returns the profile's book, or the one with the codes of symbols 0 and 1 exchanged in the first table of words of four bits.
pub(crate) fn book_of(case: &Case) -> Result<Book, Refusal>
    ensures { IfOk result (λ book. IsTrue (is_book_sound book)) }
{
    let mut book = profile_book();
    if case.has("exchanged") {
        let first = book.codes[3][0];
        book.codes[3][0] = book.codes[3][1];
        book.codes[3][1] = first;
    }
    match check_book(&book) {
        Ok(()) => Ok(book),
        Err(_) => Err(Refusal::Words),
    }
}

// The text of a segment: what it gives, and the numbers of its blocks, which were 7.
pub(crate) fn read(case: &Case) -> Result<String, Refusal> {
    let text = octets_in(case.alloc, case.data)?;
    let book = book_of(case)?;
    let Ok(head) = read_head(text.as_slice()) else {
        return Err(Refusal::Words);
    };
    let Some(rest) = text.get(usize::from(head.octets())..) else {
        return Err(Refusal::Words);
    };
    let count = head.blocks as usize;
    if count > MOST {
        return Err(Refusal::Words);
    }
    let mut blocks = vec![in case.alloc; 7; 64 * count]?;
    let mut marks = vec![in case.alloc; 7; count]?;
    let answer = decode_segment(
        &mut SliceIn::new(rest),
        &head,
        &mut blocks,
        &mut marks,
        &book,
    );
    if answer.is_err() {
        return Ok(format!(in case.alloc; "{answer:?}")?);
    }
    let shown = Blocks(blocks.as_slice());
    Ok(format!(in case.alloc; "{answer:?}{shown}")?)
}

// Puts these numbers into the blocks of a segment, in place of those that it has, if their magnitudes are below 2^27. Returns whether
// they are.
fn hold(segment: &mut SegmentBlocks, numbers: &[i32]) -> bool
    requires whole { length numbers.now % 64 ≡ 0 }
    requires room { length numbers.now ≤ 64 * segment.old.most }
    ensures { OnTrue result (segment.new.numbers ≡ numbers.now) }
{
    segment.clear();
    for r in 0..numbers.len() / 64 {
        let block = &numbers[64 * r..64 * r + 64];
        let are_small = block
            .iter()
            .all(|number| number.unsigned_abs() < 134_217_728);
        if !are_small {
            return false;
        }
        segment.push(block);
    }
    true
}

// How blocks are written.
#[derive(Clone, Copy, Debug)]
enum Written {
    // The depths are not those of the head.
    Depths(u8, u8),
    Text(Result<u64, Failed>),
}

fn encode(head: &SegmentHead, segment: &mut SegmentBlocks, book: &Book, into: &mut [u8]) -> Written
    requires sound { IsTrue (is_book_sound book.now) }
    requires fits { IsHead head.now }
    requires some { 64 ≤ length segment.old.numbers }
    requires count { length segment.old.numbers ≡ 64 * head.now.blocks }
{
    let (dc, ac) = segment.depths();
    if head.depth_dc != dc || head.depth_ac != ac {
        return Written::Depths(dc, ac);
    }
    Written::Text(encode_segment(&mut SliceOut::new(into), head, segment, book))
}

// Blocks that are written under the head with these octets, or their depths if these are not those of the head.
pub(crate) fn write(case: &Case) -> Result<String, Refusal> {
    let octets = octets_in(case.alloc, case.words_after("head"))?;
    let book = book_of(case)?;
    let blocks = blocks_in(case.alloc, case.data)?;
    let Ok(head) = read_head(octets.as_slice()) else {
        return Err(Refusal::Words);
    };
    let count = blocks.len() / 64;
    if count == 0 || count > MOST || head.blocks as usize != count {
        return Err(Refusal::Words);
    }
    let mut segment = SegmentBlocks::new(case.alloc, count)?;
    if !hold(&mut segment, blocks.as_slice()) {
        return Err(Refusal::Words);
    }
    let mut room = [0xaa; 64];
    let written = encode(&head, &mut segment, &book, &mut room);
    match written {
        Written::Text(Ok(len)) if len <= 64 => {
            let shown = Hex(&room[..len as usize]);
            Ok(format!(in case.alloc; "{shown}")?)
        }
        _ => Ok(format!(in case.alloc; "{written:?}")?),
    }
}
