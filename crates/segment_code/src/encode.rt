// The writer of a segment's text.
ghost use Rattle.std.specs.Prelude.{◌≡◌, ◌≤◌, ◌*◌, IsTrue, length, take, MatchResult};
ghost use Rattle.item_defs.specs.Items.{text};
ghost use Rattle.bit_pipe.specs.SinkState.{sink_state, Adds, Breaks, Puts, IsReady, Writes};
ghost use Rattle.wave_defs.specs.Held.{blocks_in};
ghost use Rattle.plane_defs.specs.Codes.{is_book_sound};
ghost use Rattle.segment_defs.specs.Depths.{depth_dc_of, depth_ac_of};
ghost use Rattle.segment_defs.specs.Head.{IsHead, head_length};
ghost use Rattle.segment_defs.specs.Coded.{coded, coded_bits};
ghost use Rattle.segment_defs.specs.SegmentItems.{dc_shift};
ghost use Rattle.segment_code.specs.CodedParts.{coded_rest};
ghost use Rattle.segment_code.specs.Text.{GivesText, BreaksWithin, EncodesItems};

use crate::blocks::SegmentBlocks;
use crate::depths::reset_marks;
use crate::head_plans::{plan_of, select_of};
use crate::planes::put_planes;
use base_122::Book;
use bit_pipe::{BitOut, Failed, OctetOut, PutFault};
use dc_depths::{DcPlan, put_dc, put_depths};
use plane_coder::CodeTables;
use segment_head::{SegmentHead, write_head};

/// A writer of coded segments, with tables of the codes of its book that are made once.
#[derive(Drop)]
pub struct SegmentWriter {
    /// The codes of the words, as the writer's book has them.
    pub tables: CodeTables,
}

impl SegmentWriter {
    /// Returns a writer of segments with the codes of this book, which must be sound.
    pub fn new(book: &Book) -> SegmentWriter
        requires sound { IsTrue (is_book_sound book.now) }
        ensures book { result.tables.book ≡ book.now }
    {
        SegmentWriter {
            tables: CodeTables::new(book),
        }
    }

    /// Writes the text of a segment, and returns its length in octets (docs/formats.md, "Stops, cut and fill"). The sink was given
    /// nothing yet. The depths of the head are those of the blocks, as `SegmentBlocks::depths` returns them. The blocks stay.
    ///
    /// # Errors
    ///
    /// `Failed` only if the sink failed.
    pub fn encode<O: OctetOut>(
        &self,
        out: &mut O,
        head: &SegmentHead,
        blocks: &mut SegmentBlocks,
    ) -> Result<u64, Failed>
        requires fits { IsHead head.now }
        requires count { length blocks.old.numbers ≡ 64 * head.now.blocks }
        requires dc { head.now.depth_dc ≡ depth_dc_of (blocks_in blocks.old.numbers) }
        requires ac { head.now.depth_ac ≡ depth_ac_of (blocks_in blocks.old.numbers) }
        requires none { (O.sink.counts out.old).given ≡ 0 }
        ensures text { MatchResult result
            (λ octets. GivesText O.sink out.old out.new (coded self.now.tables.book head.now (blocks_in blocks.old.numbers)) octets)
            (λ _. BreaksWithin O.sink out.old out.new (coded self.now.tables.book head.now (blocks_in blocks.old.numbers))) }
        ensures most { blocks.new.most ≡ blocks.old.most }
        ensures numbers { blocks.new.numbers ≡ blocks.old.numbers }
    {
        let mut bits = BitOut::new(out, u64::from(head.limit), 0);
        put_fitting(&mut bits, head, blocks, &self.tables)?;
        bits.end(head.image.word, head.fill)
    }

    /// Puts the items of a segment's text, which follow its head (docs/formats.md, "Stops, cut and fill"): the DC part, the block
    /// depths and the bit planes up to the stop. The blocks are those of `encode`. It neither pads nor ends the text.
    ///
    /// # Errors
    ///
    /// Those of `BitOut`: `Stopped` exactly if the items do not all fit below the bound.
    pub fn encode_items<O: OctetOut>(
        &self,
        out: &mut BitOut<O>,
        head: &SegmentHead,
        blocks: &mut SegmentBlocks,
    ) -> Result<(), PutFault>
        requires fits { IsHead head.now }
        requires open { IsReady O.sink out.old }
        requires count { length blocks.old.numbers ≡ 64 * head.now.blocks }
        requires dc { head.now.depth_dc ≡ depth_dc_of (blocks_in blocks.old.numbers) }
        requires ac { head.now.depth_ac ≡ depth_ac_of (blocks_in blocks.old.numbers) }
        ensures encodes { EncodesItems O.sink self.now.tables.book head.now (blocks_in blocks.old.numbers) result (sink_state O.sink out.old)
            (sink_state O.sink out.new) }
        ensures most { blocks.new.most ≡ blocks.old.most }
        ensures numbers { blocks.new.numbers ≡ blocks.old.numbers }
    {
        put_items(out, head, &plan_of(head), blocks, &self.tables)
    }
}

/// The same for a single segment, with a sound book: `SegmentWriter` serves many.
///
/// # Errors
///
/// Those of `encode`.
pub fn encode_segment<O: OctetOut>(
    out: &mut O,
    head: &SegmentHead,
    blocks: &mut SegmentBlocks,
    book: &Book,
) -> Result<u64, Failed>
    requires sound { IsTrue (is_book_sound book.now) }
    requires fits { IsHead head.now }
    requires count { length blocks.old.numbers ≡ 64 * head.now.blocks }
    requires dc { head.now.depth_dc ≡ depth_dc_of (blocks_in blocks.old.numbers) }
    requires ac { head.now.depth_ac ≡ depth_ac_of (blocks_in blocks.old.numbers) }
    requires none { (O.sink.counts out.old).given ≡ 0 }
    ensures text { MatchResult result
        (λ octets. GivesText O.sink out.old out.new (coded book.now head.now (blocks_in blocks.old.numbers)) octets)
        (λ _. BreaksWithin O.sink out.old out.new (coded book.now head.now (blocks_in blocks.old.numbers))) }
    ensures most { blocks.new.most ≡ blocks.old.most }
    ensures numbers { blocks.new.numbers ≡ blocks.old.numbers }
{
    SegmentWriter::new(book).encode(out, head, blocks)
}

// Puts the part of the text that fits below the bound: a text that is stopped is cut there.
fn put_fitting<O: OctetOut>(
    out: &mut BitOut<O>,
    head: &SegmentHead,
    blocks: &mut SegmentBlocks,
    tables: &CodeTables,
) -> Result<(), Failed>
    requires fits { IsHead head.now }
    requires open { IsReady O.sink out.old }
    requires room { 8 * head_length head.now ≤ (sink_state O.sink out.old).room }
    requires count { length blocks.old.numbers ≡ 64 * head.now.blocks }
    requires dc { head.now.depth_dc ≡ depth_dc_of (blocks_in blocks.old.numbers) }
    requires ac { head.now.depth_ac ≡ depth_ac_of (blocks_in blocks.old.numbers) }
    ensures puts { MatchResult result
        (λ _. Adds O.sink (sink_state O.sink out.old) (sink_state O.sink out.new)
        (take (sink_state O.sink out.old).room (coded_bits tables.now.book head.now (blocks_in blocks.old.numbers))))
        (λ _. Breaks O.sink (sink_state O.sink out.old) (sink_state O.sink out.new)
        (take (sink_state O.sink out.old).room (coded_bits tables.now.book head.now (blocks_in blocks.old.numbers)))) }
    ensures ten { length head.now.image.weights.shifts ≡ 10 }
    ensures most { blocks.new.most ≡ blocks.old.most }
    ensures numbers { blocks.new.numbers ≡ blocks.old.numbers }
{
    match put_text(out, head, blocks, tables) {
        Ok(()) => Ok(()),
        Err(PutFault::Stopped) => Ok(()),
        Err(PutFault::WriteFault) => Err(Failed),
    }
}

// Puts the head and the items after it.
fn put_text<O: OctetOut>(
    out: &mut BitOut<O>,
    head: &SegmentHead,
    blocks: &mut SegmentBlocks,
    tables: &CodeTables,
) -> Result<(), PutFault>
    requires fits { IsHead head.now }
    requires open { IsReady O.sink out.old }
    requires room { 8 * head_length head.now ≤ (sink_state O.sink out.old).room }
    requires count { length blocks.old.numbers ≡ 64 * head.now.blocks }
    requires dc { head.now.depth_dc ≡ depth_dc_of (blocks_in blocks.old.numbers) }
    requires ac { head.now.depth_ac ≡ depth_ac_of (blocks_in blocks.old.numbers) }
    ensures puts { Writes O.sink result out.old out.new (coded_bits tables.now.book head.now (blocks_in blocks.old.numbers)) }
    ensures ten { length head.now.image.weights.shifts ≡ 10 }
    ensures most { blocks.new.most ≡ blocks.old.most }
    ensures numbers { blocks.new.numbers ≡ blocks.old.numbers }
{
    let plan = plan_of(head);
    write_head(out, head)?;
    put_items(out, head, &plan, blocks, tables)
}

// Puts the items of a text by the plan of its DC part.
fn put_items<O: OctetOut>(
    out: &mut BitOut<O>,
    head: &SegmentHead,
    plan: &DcPlan,
    blocks: &mut SegmentBlocks,
    tables: &CodeTables,
) -> Result<(), PutFault>
    requires fits { IsHead head.now }
    requires open { IsReady O.sink out.old }
    requires plan_dc { plan.now.depth_dc ≡ head.now.depth_dc }
    requires plan_ac { plan.now.depth_ac ≡ head.now.depth_ac }
    requires plan_shift { plan.now.shift ≡ dc_shift head.now }
    requires count { length blocks.old.numbers ≡ 64 * head.now.blocks }
    requires dc { head.now.depth_dc ≡ depth_dc_of (blocks_in blocks.old.numbers) }
    requires ac { head.now.depth_ac ≡ depth_ac_of (blocks_in blocks.old.numbers) }
    ensures encodes { EncodesItems O.sink tables.now.book head.now (blocks_in blocks.old.numbers) result (sink_state O.sink out.old)
        (sink_state O.sink out.new) }
    ensures most { blocks.new.most ≡ blocks.old.most }
    ensures numbers { blocks.new.numbers ≡ blocks.old.numbers }
{
    put_dc(out, blocks.masks.dcs(), plan, select_of(head.best_dc))?;
    put_rest(out, head, blocks, tables)
}

// Puts the block depths and the planes, if the text does not stop at the DC numbers.
fn put_rest<O: OctetOut>(
    out: &mut BitOut<O>,
    head: &SegmentHead,
    blocks: &mut SegmentBlocks,
    tables: &CodeTables,
) -> Result<(), PutFault>
    requires fits { IsHead head.now }
    requires open { IsReady O.sink out.old }
    requires count { length blocks.old.numbers ≡ 64 * head.now.blocks }
    requires dc { head.now.depth_dc ≡ depth_dc_of (blocks_in blocks.old.numbers) }
    requires ac { head.now.depth_ac ≡ depth_ac_of (blocks_in blocks.old.numbers) }
    ensures puts { Writes O.sink result out.old out.new (text (coded_rest tables.now.book head.now (blocks_in blocks.old.numbers))) }
    ensures most { blocks.new.most ≡ blocks.old.most }
    ensures numbers { blocks.new.numbers ≡ blocks.old.numbers }
{
    if head.stop.dc {
        return Ok(());
    }
    reset_marks(&mut blocks.marks);
    put_depths(out, &blocks.marks, head.depth_ac, select_of(head.best_ac))?;
    put_planes(out, head, blocks, tables)
}
