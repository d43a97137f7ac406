// The reader of a segment's text.
ghost use Rattle.std.specs.Prelude.{◌≡◌, ◌≤◌, ◌*◌, IfOk, IsTrue, length};
ghost use Rattle.plane_defs.specs.Codes.{is_book_sound};
ghost use Rattle.segment_defs.specs.Head.{IsHead, head_length};
ghost use Rattle.segment_defs.specs.TextWish.{unrestored};
ghost use Rattle.segment_code.specs.Decoded.{DecodesSegment};
ghost use Rattle.segment_code.specs.DecodedItems.{DecodesItems};
ghost use Rattle.segment_code.specs.Readers.{by_tables, wish_of};
ghost use Rattle.segment_code.specs.Starts.{AreClear};
ghost use Rattle.segment_code.specs.TakenText.{TakesFrom};

use crate::fault::SegmentFault;
use crate::text_end::{end_input, end_text};
use crate::text_in::{TextTerms, take_text};
use base_122::Book;
use bit_pipe::{BitIn, OctetIn, Part, TextFault};
use plane_reader::PlaceTables;
use segment_defs::SegmentHead;
use std::alloc::{AllocError, Global};

// Sets all numbers to 0.
fn clear(blocks: &mut [i32])
    ensures size { length blocks.new ≡ length blocks.old }
    ensures clear { AreClear blocks.new }
{
    blocks.fill(0);
}

// Reads the items of a text, up to the limit; returns also the number of bits of head and items.
fn take_from<I: OctetIn>(
    input: &mut I,
    terms: &TextTerms,
    blocks: &mut [i32],
    marks: &mut [i32],
) -> Result<(Part, u64), TextFault>
    requires fits { IsHead terms.now.head.now }
    requires size { terms.now.size ≤ 20 }
    requires count { length blocks.old ≡ 64 * length marks.old }
    requires marks { length marks.old ≡ terms.now.head.now.blocks }
    requires clear { AreClear blocks.old }
    ensures takes { TakesFrom I.source (by_tables terms.now.tables.now terms.now.restore) terms.now.head.now terms.now.size result input.old input.new
        blocks.new }
    ensures sizes { (length blocks.new ≡ length blocks.old) × (length marks.new ≡ length marks.old) }
{
    let mut bits = BitIn::new(input, u64::from(terms.head.limit), u64::from(terms.size));
    let part = take_text(&mut bits, terms, blocks, marks)?;
    Ok((part, bits.used()))
}

// Reads the items of a text, with their padding and fill, into blocks whose numbers are all 0.
fn items_into_clear<I: OctetIn>(
    input: &mut I,
    terms: &TextTerms,
    blocks: &mut [i32],
    marks: &mut [i32],
) -> Result<Part, SegmentFault>
    requires fits { IsHead terms.now.head.now }
    requires size { terms.now.size ≤ 20 }
    requires count { length blocks.old ≡ 64 * length marks.old }
    requires marks { length marks.old ≡ terms.now.head.now.blocks }
    requires clear { AreClear blocks.old }
    ensures decodes { DecodesItems I.source (by_tables terms.now.tables.now terms.now.restore) terms.now.head.now terms.now.size result input.old
        input.new blocks.new }
    ensures sizes { (length blocks.new ≡ length blocks.old) × (length marks.new ≡ length marks.old) }
{
    let (part, used) = take_from(input, terms, blocks, marks)?;
    end_text(input, terms.head, part, used)
}

// Reads a segment's text, of which the head has its own length, into blocks whose numbers are all 0.
fn text_into_clear<I: OctetIn>(
    input: &mut I,
    terms: &TextTerms,
    blocks: &mut [i32],
    marks: &mut [i32],
) -> Result<Part, SegmentFault>
    requires fits { IsHead terms.now.head.now }
    requires size { terms.now.size ≡ head_length terms.now.head.now }
    requires count { length blocks.old ≡ 64 * length marks.old }
    requires marks { length marks.old ≡ terms.now.head.now.blocks }
    requires clear { AreClear blocks.old }
    ensures decodes { DecodesSegment I.source (by_tables terms.now.tables.now terms.now.restore) terms.now.head.now result input.old input.new blocks.new }
    ensures sizes { (length blocks.new ≡ length blocks.old) × (length marks.new ≡ length marks.old) }
{
    let part = items_into_clear(input, terms, blocks, marks)?;
    end_input(input, part)
}

/// A reader of the texts of segments, with tables of their words that are made once.
#[derive(Drop)]
pub struct SegmentReader {
    /// The tables of the words, as the reader's book has their codes. They are in memory that the reader took.
    pub tables: Box<PlaceTables>,
    /// Whether the numbers that a text gives in part are restored (docs/formats.md, "Restored numbers").
    pub restore: bool,
}

impl SegmentReader {
    /// Returns a reader of the segments that were written with this book, with 52 kB of tables in memory that it takes. The book is sound.
    /// It restores the numbers if `restore` is set. The only error is a lack of memory.
    #[inline(never)]
    pub fn new(alloc: Global, book: &Book, restore: bool) -> Result<SegmentReader, AllocError>
        requires sound { IsTrue (is_book_sound book.now) }
        ensures wish { IfOk result (λ reader. wish_of reader ≡ record { book = book.now; restore = restore }) }
    {
        Ok(SegmentReader {
            tables: Box::new(alloc, PlaceTables::new(alloc, book)?)?,
            restore,
        })
    }

    /// Reads a segment's text from the octets after its head into 64 numbers for each block (docs/formats.md, "Reading a
    /// segment"). Returns `Whole` if the text has all items, and `Ended` if the limit cut them; what is not given is 0, and
    /// positive, unless the reader restores it. It asks for the input's end before it returns either. `marks` has one number for each block, its state, and
    /// the call overwrites it.
    ///
    /// # Errors
    ///
    /// The name by which the text is refused, or how the input ended. `blocks` and `marks` have no meaning then.
    pub fn decode<I: OctetIn>(
        &self,
        input: &mut I,
        head: &SegmentHead,
        blocks: &mut [i32],
        marks: &mut [i32],
    ) -> Result<Part, SegmentFault>
        requires fits { IsHead head.now }
        requires count { length blocks.old ≡ 64 * length marks.old }
        requires marks { length marks.old ≡ head.now.blocks }
        ensures decodes { DecodesSegment I.source (wish_of self.now) head.now result input.old input.new blocks.new }
        ensures sizes { (length blocks.new ≡ length blocks.old) × (length marks.new ≡ length marks.old) }
    {
        clear(blocks);
        self.decode_into_clear(input, head, blocks, marks)
    }

    /// The same as `decode`, for blocks whose numbers are all 0: it saves the time of clearing them.
    ///
    /// # Errors
    ///
    /// Those of `decode`.
    pub fn decode_into_clear<I: OctetIn>(
        &self,
        input: &mut I,
        head: &SegmentHead,
        blocks: &mut [i32],
        marks: &mut [i32],
    ) -> Result<Part, SegmentFault>
        requires fits { IsHead head.now }
        requires count { length blocks.old ≡ 64 * length marks.old }
        requires marks { length marks.old ≡ head.now.blocks }
        requires clear { AreClear blocks.old }
        ensures decodes { DecodesSegment I.source (wish_of self.now) head.now result input.old input.new blocks.new }
        ensures sizes { (length blocks.new ≡ length blocks.old) × (length marks.new ≡ length marks.old) }
    {
        let terms = TextTerms {
            head,
            size: head.octets(),
            tables: self.tables.as_ref(),
            restore: self.restore,
        };
        text_into_clear(input, &terms, blocks, marks)
    }

    /// Reads the items of a segment's text, with their padding and fill, from the octets after its head into 64 numbers for
    /// each block (docs/formats.md, "Reading a segment"). The head has `size` octets there, at most 20. `Whole` and `Ended`
    /// are as in `decode`. The octets that it takes are exactly those of the text after the head: it needs no end from
    /// outside, and asks for nothing after them.
    ///
    /// # Errors
    ///
    /// Those of `decode`, except `Overlong`: what follows the text is not read.
    pub fn decode_items<I: OctetIn>(
        &self,
        input: &mut I,
        head: &SegmentHead,
        size: u8,
        blocks: &mut [i32],
        marks: &mut [i32],
    ) -> Result<Part, SegmentFault>
        requires fits { IsHead head.now }
        requires size { size ≤ 20 }
        requires count { length blocks.old ≡ 64 * length marks.old }
        requires marks { length marks.old ≡ head.now.blocks }
        ensures decodes { DecodesItems I.source (wish_of self.now) head.now size result input.old input.new blocks.new }
        ensures sizes { (length blocks.new ≡ length blocks.old) × (length marks.new ≡ length marks.old) }
    {
        clear(blocks);
        let terms = TextTerms {
            head,
            size,
            tables: self.tables.as_ref(),
            restore: self.restore,
        };
        items_into_clear(input, &terms, blocks, marks)
    }
}

/// The same for a single segment, with a sound book, whose numbers are not restored. It takes no memory, and each word takes more time:
/// `SegmentReader` serves many.
///
/// # Errors
///
/// Those of `decode`.
pub fn decode_segment<I: OctetIn>(
    input: &mut I,
    head: &SegmentHead,
    blocks: &mut [i32],
    marks: &mut [i32],
    book: &Book,
) -> Result<Part, SegmentFault>
    requires sound { IsTrue (is_book_sound book.now) }
    requires fits { IsHead head.now }
    requires count { length blocks.old ≡ 64 * length marks.old }
    requires marks { length marks.old ≡ head.now.blocks }
    ensures decodes { DecodesSegment I.source (unrestored book.now) head.now result input.old input.new blocks.new }
    ensures sizes { (length blocks.new ≡ length blocks.old) × (length marks.new ≡ length marks.old) }
{
    let tables = PlaceTables::of_words(book);
    clear(blocks);
    let terms = TextTerms {
        head,
        size: head.octets(),
        tables: &tables,
        restore: false,
    };
    text_into_clear(input, &terms, blocks, marks)
}
