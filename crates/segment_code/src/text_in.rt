// The reader of the items of a segment's text.
ghost use Rattle.std.specs.Prelude.{◌≡◌, ◌*◌, length};
ghost use Rattle.bit_pipe.specs.SourceState.{source_state, IsIn};
ghost use Rattle.segment_defs.specs.Head.{IsHead};
ghost use Rattle.segment_code.specs.Readers.{by_tables};
ghost use Rattle.segment_code.specs.Starts.{AreClear, TakesText};

use crate::head_plans::sent_planes;
use crate::start::take_start;
use bit_pipe::{BitIn, OctetIn, Part, TextFault};
use plane_reader::{PlaceTables, take_planes};
use segment_defs::SegmentHead;

// What the items of a text are read with: the head, the number of octets that it has, the codes of the words, and whether the numbers are
// restored.
#[derive(Clone, Copy)]
pub(crate) struct TextTerms<'a> {
    pub(crate) head: &'a SegmentHead,
    pub(crate) size: u8,
    pub(crate) tables: &'a PlaceTables,
    pub(crate) restore: bool,
}

// Reads the DC part, the block depths and the planes, up to the stop. A part after one that is cut is not read.
pub(crate) fn take_text<I: OctetIn>(
    input: &mut BitIn<I>,
    terms: &TextTerms,
    blocks: &mut [i32],
    marks: &mut [i32],
) -> Result<Part, TextFault>
    requires fits { IsHead terms.now.head.now }
    requires open { IsIn (source_state input.old) }
    requires count { length blocks.old ≡ 64 * length marks.old }
    requires marks { length marks.old ≡ terms.now.head.now.blocks }
    requires clear { AreClear blocks.old }
    ensures takes { TakesText I.source (by_tables terms.now.tables.now terms.now.restore) terms.now.head.now result (source_state input.old)
        (source_state input.new) blocks.new }
    ensures sizes { (length blocks.new ≡ length blocks.old) × (length marks.new ≡ length marks.old) }
{
    if let Some(part) = take_start(input, terms.head, terms.restore, blocks, marks)? {
        return Ok(part);
    }
    let sent = sent_planes(terms.head, terms.restore);
    take_planes(input, &sent, terms.tables, blocks, marks)
}
