// The end of a text whose items were read.
ghost use Rattle.std.specs.Prelude.{◌≡◌, ◌≤◌, ◌*◌, ℕ, ℤ, List, true, Ok};
ghost use Rattle.bit_pipe.specs.Bounds.{bound_of};
ghost use Rattle.plane_defs.specs.Codes.{is_book_sound};
ghost use Rattle.segment_defs.specs.Head.{IsHead, head_length};
ghost use Rattle.segment_defs.specs.TextWish.{TextWish};
ghost use Rattle.segment_defs.specs.declared.head.SegmentHead.{SegmentHead as HeadValue};
ghost use Rattle.segment_code.specs.TakenText.{TakesFrom};
ghost use Rattle.segment_code.specs.DecodedItems.{DecodesItems};
ghost use Rattle.segment_code.specs.Decoded.{DecodesSegment};

use crate::end_in::{end_cut, end_whole};
use crate::fault::SegmentFault;
use bit_pipe::{OctetIn, Part};
use segment_defs::SegmentHead;

/// Reads the end of a text of whose head and items `used` bits were taken: the padding and the fill after all items, and
/// nothing after items that the limit cuts (docs/formats.md, "Reading a segment"). Returns how far the items were read.
///
/// # Errors
///
/// `ShortSegment` if the text ends before, and how the input ended.
pub(crate) fn end_text<I: OctetIn>(
    input: &mut I,
    head: &SegmentHead,
    part: Part,
    used: u64,
) -> Result<Part, SegmentFault>
    requires fits { IsHead head.now }
    requires bound { used ≤ 8 * bound_of head.now.limit }
    ensures { (wish : TextWish) (size : ℕ) (before : I) (blocks : List ℤ) → is_book_sound wish.book ≡ true → size ≤ 20 →
        TakesFrom I.source wish head.now size (Ok (record { 0 = part; 1 = used })) before input.old blocks →
        DecodesItems I.source wish head.now size result before input.new blocks }
{
    match part {
        Part::Whole => end_whole(input, head, used),
        Part::Ended => end_cut(head, used),
    }
}

/// Asks for the input's end after a text. Returns how far the text's items were read.
///
/// # Errors
///
/// `Overlong` if an octet follows the text, and how the input ended.
pub(crate) fn end_input<I: OctetIn>(input: &mut I, part: Part) -> Result<Part, SegmentFault>
    ensures { (wish : TextWish) (head : HeadValue) (before : I) (blocks : List ℤ) →
        DecodesItems I.source wish head (head_length head) (Ok part) before input.old blocks →
        DecodesSegment I.source wish head result before input.new blocks }
{
    let None = input.take()? else {
        return Err(SegmentFault::Overlong);
    };
    Ok(part)
}
