// Reads a head with absent parts.
ghost use Rattle.std.specs.Prelude.{◌≡◌, ◌≤◌, length, IfOk};
ghost use Rattle.segment_defs.specs.Head.{IsHead};
ghost use Rattle.segment_defs.specs.Reading.{answer, first_refusal};
ghost use Rattle.segment_defs.specs.declared.fault.HeadFault.TheVariants.{HeadShort};
ghost use Rattle.bare_text.specs.declared.read.BareHeadFault.TheVariants.{Refused};
ghost use Rattle.bare_text.specs.Filled.{Fills};
ghost use Rattle.bare_text.specs.Reading.{carry_tests};
ghost use Rattle.bare_text.specs.Taken.{ReadsHead};

use crate::parts::{PartsInForce, bare_length, read_completed};
use base_122::Book;
use bit_pipe::{InFault, OctetIn, Part};
use segment_code::{SegmentFault, SegmentReader};
use segment_head::{HeadFault, SegmentHead, carried_in};
use std::alloc::{AllocError, Global};

/// Reads the items of bare texts, by tables of their words that are made once.
#[derive(Drop)]
pub struct BareReader {
    /// The reader of these items, whose tables have the book, and by which numbers are restored, or are as they are.
    pub reader: SegmentReader,
}

impl BareReader {
    ghost use Rattle.std.specs.Prelude.{IsTrue, IfOk};
    ghost use Rattle.plane_defs.specs.Codes.{is_book_sound};
    ghost use Rattle.segment_code.specs.Readers.{wish_of};

    /// Returns a reader of the items of bare texts that were written with this book, with tables in memory that it takes. It restores
    /// numbers if that is asked (docs/formats.md, "Restored numbers"). The book is sound. The only error is a lack of memory.
    pub fn new(alloc: Global, book: &Book, restore: bool) -> Result<BareReader, AllocError>
        requires sound { IsTrue (is_book_sound book.now) }
        ensures wish { IfOk result (λ reader. wish_of reader.reader ≡ record { book = book.now; restore = restore }) }
    {
        let reader = SegmentReader::new(alloc, book, restore)?;
        Ok(BareReader { reader })
    }
}

/// A head that was read, and the number of its octets as it is in the stream: it counts against the limit of its text.
#[derive(Clone, Copy, Debug, PartialEq, Eq)]
pub struct BareHead {
    pub head: SegmentHead,
    pub size: u8,
}

impl BareHead {
    ghost use Rattle.std.specs.Prelude.{◌*◌};
    ghost use Rattle.segment_code.specs.DecodedItems.{DecodesItems};
    ghost use Rattle.segment_code.specs.Readers.{wish_of};

    /// Reads the items of the text after this head, with their padding and fill, and no octet more (docs/formats.md, "Bare texts"). Blocks,
    /// `marks` and the result are those of `SegmentReader::decode_items`.
    ///
    /// # Errors
    ///
    /// Those of `SegmentReader::decode_items`.
    pub fn decode_items<I: OctetIn>(
        &self,
        reader: &BareReader,
        input: &mut I,
        blocks: &mut [i32],
        marks: &mut [i32],
    ) -> Result<Part, SegmentFault>
        requires fits { IsHead self.now.head }
        requires size { self.now.size ≤ 20 }
        requires count { length blocks.old ≡ 64 * length marks.old }
        requires marks { length marks.old ≡ self.now.head.blocks }
        ensures decodes { DecodesItems I.source (wish_of reader.now.reader) self.now.head self.now.size result input.old input.new blocks.new }
        ensures sizes { (length blocks.new ≡ length blocks.old) × (length marks.new ≡ length marks.old) }
    {
        reader
            .reader
            .decode_items(input, &self.head, self.size, blocks, marks)
    }
}

/// The reason why a head of a bare text isn't read (docs/formats.md, "Bare texts").
#[derive(Clone, Copy, Debug, PartialEq, Eq)]
pub enum BareHeadFault {
    /// The first test that refuses the head.
    Refused(HeadFault),
    /// The input failed, or is longer than its cap.
    Input(InFault),
}

impl From<InFault> for BareHeadFault {
    ghost use Rattle.bare_text.specs.declared.read.BareHeadFault.TheVariants.{Input};

    ghost from_gives = { λ f e. e ≡ Input f };

    fn from(fault: InFault) -> BareHeadFault {
        BareHeadFault::Input(fault)
    }
}

impl From<HeadFault> for BareHeadFault {
    ghost from_gives = { λ f e. e ≡ Refused f };

    fn from(fault: HeadFault) -> BareHeadFault {
        BareHeadFault::Refused(fault)
    }
}

// Takes octets into the places from one on and before another, as far as there are octets, and returns the place after the last.
fn fill<I: OctetIn>(
    input: &mut I,
    into: &mut [u8; 20],
    from: usize,
    to: usize,
) -> Result<usize, InFault>
    requires order { from ≤ to }
    requires room { to ≤ 20 }
    ensures { Fills I.source from to result input.old input.new into.old into.new }
{
    for place in from..to {
        let Some(octet) = input.take()? else {
            return Ok(place);
        };
        into[place] = octet;
    }
    Ok(to)
}

// Tests whether each of the Parts 2, 3 and 4 is carried, or is in force.
fn check_carried(octets: &[u8], before: &PartsInForce) -> Result<(), HeadFault>
    requires { 3 ≤ length octets.now }
    ensures { result ≡ answer (first_refusal (carry_tests before.now octets.now)) tt }
{
    let carried = carried_in(octets);
    if !(carried.part_2 || before.carried.part_2) {
        return Err(HeadFault::MissingPart { part: 2 });
    }
    if !(carried.part_3 || before.carried.part_3) {
        return Err(HeadFault::MissingPart { part: 3 });
    }
    if !(carried.part_4 || before.carried.part_4) {
        return Err(HeadFault::MissingPart { part: 4 });
    }
    Ok(())
}

// Returns the fault of a head that is cut after this number of octets.
fn short(count: usize) -> BareHeadFault
    requires { count ≤ 20 }
    ensures { result ≡ Refused (HeadShort count) }
{
    BareHeadFault::Refused(HeadFault::HeadShort {
        octets: count as u32,
    })
}

/// Reads the head of a bare text, of which parts may be absent, and puts the parts that it carries in force (docs/formats.md,
/// "Bare texts"). It takes the octets of the head and no more.
///
/// # Errors
///
/// The first test that refuses, or how the input failed. The parts in force have no meaning then.
pub fn read_bare_head<I: OctetIn>(
    input: &mut I,
    parts: &mut PartsInForce,
) -> Result<BareHead, BareHeadFault>
    ensures reads { ReadsHead I.source parts.old result input.old input.new parts.new }
    ensures fits { IfOk result (λ read. IsHead read.head × (read.size ≤ 20)) }
{
    let mut octets = [0; 20];
    let count = fill(input, &mut octets, 0, 3)?;
    if count < 3 {
        return Err(short(count));
    }
    check_carried(&octets[..3], parts)?;
    let size = bare_length(&octets[..3]);
    let count = fill(input, &mut octets, 3, size)?;
    if count < size {
        return Err(short(count));
    }
    let after = parts.after(&octets[..size]);
    let head = read_completed(&octets[..size], &after)?;
    *parts = after;
    Ok(BareHead {
        head,
        size: size as u8,
    })
}
