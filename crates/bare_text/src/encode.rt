// Writes the text of a segment, whose head carries only the parts that changed.
ghost use Rattle.std.specs.Prelude.{◌≡◌, ◌≤◌, ◌*◌, length, take, MatchResult, IfSome};
ghost use Rattle.bit_pipe.specs.SinkState.{sink_state, Adds, Breaks, IsReady, Writes};
ghost use Rattle.wave_defs.specs.Held.{blocks_in};
ghost use Rattle.segment_defs.specs.Depths.{depth_dc_of, depth_ac_of};
ghost use Rattle.segment_defs.specs.Head.{IsHead, head_length};
ghost use Rattle.segment_code.specs.Text.{GivesText, BreaksWithin};
ghost use Rattle.bare_text.specs.Writing.{bare_bits, bare_text};

use crate::write::put_bare_head;
use bit_pipe::{BitOut, Failed, OctetOut, PutFault};
use segment_code::{SegmentBlocks, SegmentWriter};
use segment_head::SegmentHead;

/// How the text of a segment is written: after which head, whose parts are in force then, and with which codes.
#[derive(Drop)]
pub struct BareWriter<'a> {
    /// The head of the segment before, or none before the first segment.
    pub before: Option<SegmentHead>,
    /// The writer of the items, whose tables have the codes.
    pub items: &'a SegmentWriter,
}

impl BareWriter<'_> {
    /// Writes the text of a segment as it is in a bare stream, and returns its length in octets (docs/formats.md, "Bare texts"). Its head
    /// carries the parts that differ from those in force, which are those of the head before; the first head carries all. The limit counts
    /// this head. Sink and blocks are as for `SegmentWriter::encode`.
    ///
    /// # Errors
    ///
    /// `Failed` only if the sink failed.
    pub fn encode_text<O: OctetOut>(
        &self,
        out: &mut O,
        head: &SegmentHead,
        blocks: &mut SegmentBlocks,
    ) -> Result<u64, Failed>
        requires before { IfSome self.now.before (λ h. IsHead h) }
        requires fits { IsHead head.now }
        requires count { length blocks.old.numbers ≡ 64 * head.now.blocks }
        requires dc { head.now.depth_dc ≡ depth_dc_of (blocks_in blocks.old.numbers) }
        requires ac { head.now.depth_ac ≡ depth_ac_of (blocks_in blocks.old.numbers) }
        requires none { (O.sink.counts out.old).given ≡ 0 }
        ensures text { MatchResult result
            (λ octets. GivesText O.sink out.old out.new (bare_text self.now.items.now.tables.book self.now.before head.now (blocks_in blocks.old.numbers))
            octets)
            (λ _. BreaksWithin O.sink out.old out.new (bare_text self.now.items.now.tables.book self.now.before head.now (blocks_in blocks.old.numbers))) }
        ensures most { blocks.new.most ≡ blocks.old.most }
    {
        let mut bits = BitOut::new(out, limit_of(*head), 0);
        put_fitting(&mut bits, self, head, blocks)?;
        bits.end(head.image.word, head.fill)
    }
}

// Returns the limit of a text in octets, or 0.
fn limit_of(head: SegmentHead) -> u64
    ensures limit { result ≡ head.limit }
    ensures ten { length head.image.weights.shifts ≡ 10 }
{
    u64::from(head.limit)
}

// Puts the part of the text that fits below the bound: a text that is stopped is cut there.
fn put_fitting<O: OctetOut>(
    out: &mut BitOut<O>,
    writer: &BareWriter,
    head: &SegmentHead,
    blocks: &mut SegmentBlocks,
) -> Result<(), Failed>
    requires before { IfSome writer.now.before (λ h. IsHead h) }
    requires fits { IsHead head.now }
    requires open { IsReady O.sink out.old }
    requires room { 8 * head_length head.now ≤ (sink_state O.sink out.old).room }
    requires count { length blocks.old.numbers ≡ 64 * head.now.blocks }
    requires dc { head.now.depth_dc ≡ depth_dc_of (blocks_in blocks.old.numbers) }
    requires ac { head.now.depth_ac ≡ depth_ac_of (blocks_in blocks.old.numbers) }
    ensures puts { MatchResult result
        (λ _. Adds O.sink (sink_state O.sink out.old) (sink_state O.sink out.new)
        (take (sink_state O.sink out.old).room (bare_bits writer.now.items.now.tables.book writer.now.before head.now (blocks_in blocks.old.numbers))))
        (λ _. Breaks O.sink (sink_state O.sink out.old) (sink_state O.sink out.new)
        (take (sink_state O.sink out.old).room (bare_bits writer.now.items.now.tables.book writer.now.before head.now (blocks_in blocks.old.numbers)))) }
    ensures most { blocks.new.most ≡ blocks.old.most }
{
    match put_text(out, writer, head, blocks) {
        Ok(()) => Ok(()),
        Err(PutFault::Stopped) => Ok(()),
        Err(PutFault::WriteFault) => Err(Failed),
    }
}

// Puts the head and the items after it.
fn put_text<O: OctetOut>(
    out: &mut BitOut<O>,
    writer: &BareWriter,
    head: &SegmentHead,
    blocks: &mut SegmentBlocks,
) -> Result<(), PutFault>
    requires before { IfSome writer.now.before (λ h. IsHead h) }
    requires fits { IsHead head.now }
    requires open { IsReady O.sink out.old }
    requires room { 8 * head_length head.now ≤ (sink_state O.sink out.old).room }
    requires count { length blocks.old.numbers ≡ 64 * head.now.blocks }
    requires dc { head.now.depth_dc ≡ depth_dc_of (blocks_in blocks.old.numbers) }
    requires ac { head.now.depth_ac ≡ depth_ac_of (blocks_in blocks.old.numbers) }
    ensures puts { Writes O.sink result out.old out.new (bare_bits writer.now.items.now.tables.book writer.now.before head.now (blocks_in blocks.old.numbers)) }
    ensures most { blocks.new.most ≡ blocks.old.most }
{
    put_bare_head(out, writer.before, head)?;
    writer.items.encode_items(out, head, blocks)
}
