// The end of a segment's text.
ghost use Rattle.std.specs.Prelude.{◌≡◌, ◌≤◌, ◌<◌, ◌*◌, ◌^◌};
ghost use Rattle.item_defs.specs.Padding.{padded_length};
ghost use Rattle.bit_pipe.specs.Bounds.{bound_of};
ghost use Rattle.segment_defs.specs.Head.{IsHead};
ghost use Rattle.segment_code.specs.TextEnds.{wanted_bits, Passes, EndsWhole, EndsCut};

use crate::fault::SegmentFault;
use bit_pipe::{OctetIn, Part};
use segment_defs::SegmentHead;

// Takes this number of octets, whatever they are.
fn pass<I: OctetIn>(input: &mut I, count: u64, part: Part) -> Result<Part, SegmentFault>
    ensures { Passes I.source count part result input.old input.new }
{
    for _ in 0..count {
        let Some(_) = input.take()? else {
            return Err(SegmentFault::ShortSegment);
        };
    }
    Ok(part)
}

// Returns how many octets a text has in which this number of bits are head and items.
fn expected_octets(head: &SegmentHead, used: u64) -> u64
    requires fits { IsHead head.now }
    requires bound { used ≤ 8 * bound_of head.now.limit }
    ensures { 8 * result ≡ wanted_bits head.now used }
{
    if head.fill {
        return u64::from(head.limit);
    }
    let word = u64::from(head.image.word);
    used.div_ceil(8 * word) * word
}

// Reads the end of a text whose items are all given: it has the expected length.
pub(crate) fn end_whole<I: OctetIn>(
    input: &mut I,
    head: &SegmentHead,
    used: u64,
) -> Result<Part, SegmentFault>
    requires fits { IsHead head.now }
    requires bound { used ≤ 8 * bound_of head.now.limit }
    ensures { EndsWhole I.source head.now used result input.old input.new }
{
    pass(
        input,
        expected_octets(head, used) - used.div_ceil(8),
        Part::Whole,
    )
}

// Checks the end of a text in which an item is not given: it has the limit's number of octets.
pub(crate) fn end_cut(head: &SegmentHead, used: u64) -> Result<Part, SegmentFault>
    ensures { EndsCut head.now used result }
{
    if head.limit == 0 || used < 8 * u64::from(head.limit) {
        return Err(SegmentFault::ShortSegment);
    }
    Ok(Part::Ended)
}
