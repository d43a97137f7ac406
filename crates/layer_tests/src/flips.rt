// The reader's result for each single flipped bit of a segment's text, with those of its head.
ghost use Rattle.std.specs.Prelude.{◌≡◌, ◌<◌, ◌*◌, length, IsTrue};
ghost use Rattle.plane_defs.specs.Codes.{is_book_sound};

use crate::bit_words::octets_in;
use crate::case::{Case, Refusal};
use crate::segments::book_of;
use base_122::Book;
use bit_pipe::{Part, SliceIn};
use segment_code::{SegmentFault, decode_segment};
use segment_head::read_head;
use std::alloc::{AllocError, Global};

// Returns a letter for each result.
fn letter_of(answer: Result<Part, SegmentFault>) -> char {
    match answer {
        Ok(Part::Whole) => 'W',
        Ok(Part::Ended) => 'E',
        Err(SegmentFault::BadOption) => 'O',
        Err(SegmentFault::BadDelta) => 'D',
        Err(SegmentFault::BadDepth) => 'P',
        Err(SegmentFault::FalseFlag) => 'F',
        Err(SegmentFault::ShortSegment) => 'S',
        Err(SegmentFault::Overlong) => 'L',
        _ => '?',
    }
}

// Returns the letter of the result for a text: H if its head is refused, and B if the head has another number of blocks.
fn letter(text: &[u8], book: &Book, blocks: &mut [i32], marks: &mut [i32]) -> char
    requires sound { IsTrue (is_book_sound book.now) }
    requires count { length blocks.old ≡ 64 * length marks.old }
    ensures sizes { (length blocks.new ≡ length blocks.old) × (length marks.new ≡ length marks.old) }
{
    let Ok(head) = read_head(text) else {
        return 'H';
    };
    if head.blocks as usize != marks.len() {
        return 'B';
    }
    let Some(rest) = text.get(usize::from(head.octets())..) else {
        return 'H';
    };
    letter_of(decode_segment(&mut SliceIn::new(rest), &head, blocks, marks, book))
}

// Returns the letters for the bits of the octet at a place, from the highest.
fn letters(
    text: &mut [u8],
    place: usize,
    book: &Book,
    blocks: &mut [i32],
    marks: &mut [i32],
) -> [char; 8]
    requires place { place < length text.old }
    requires sound { IsTrue (is_book_sound book.now) }
    requires count { length blocks.old ≡ 64 * length marks.old }
    ensures sizes { (length blocks.new ≡ length blocks.old) × (length marks.new ≡ length marks.old) }
{
    let mut found = ['?'; 8];
    for bit in 0..8 {
        text[place] ^= 0x80 >> bit;
        found[bit] = letter(text, book, blocks, marks);
        text[place] ^= 0x80 >> bit;
    }
    found
}

// Returns eight letters for each octet.
fn letters_of(
    alloc: Global,
    text: &mut [u8],
    book: &Book,
    blocks: &mut [i32],
    marks: &mut [i32],
) -> Result<String, AllocError>
    requires sound { IsTrue (is_book_sound book.now) }
    requires count { length blocks.old ≡ 64 * length marks.old }
{
    let mut shown = String::new(alloc);
    for place in 0..text.len() {
        let row = letters(text, place, book, blocks, marks);
        if place > 0 {
            shown.push(' ')?;
        }
        for letter in row {
            shown.push(letter)?;
        }
    }
    Ok(shown)
}

// The text of a segment of `blocks` blocks: eight letters for each octet.
pub(crate) fn flips(case: &Case) -> Result<String, Refusal> {
    let mut text = octets_in(case.alloc, case.data)?;
    let book = book_of(case)?;
    let count = case.named("blocks", 1, 100)? as usize;
    let mut blocks = vec![in case.alloc; 0; 64 * count]?;
    let mut marks = vec![in case.alloc; 0; count]?;
    Ok(letters_of(case.alloc, &mut text, &book, &mut blocks, &mut marks)?)
}
