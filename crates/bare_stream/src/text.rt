// Writes the text of a segment to a port.
ghost use Rattle.std.specs.Prelude.{◌≡◌, ◌*◌, length, MatchResult, IfSome};
ghost use Rattle.wave_defs.specs.Held.{blocks_in};
ghost use Rattle.segment_defs.specs.Depths.{depth_dc_of, depth_ac_of};
ghost use Rattle.segment_defs.specs.Head.{IsHead};
ghost use Rattle.bare_text.specs.Writing.{bare_text};
ghost use Rattle.bare_stream.specs.Steps.{TextOut, TextCut};

use crate::sink::TextSink;
use bare_text::BareWriter;
use port_122::{Failed, Port};
use segment_code::SegmentBlocks;
use segment_head::SegmentHead;

/// Writes the text of a segment as it is in a bare stream to a port, and returns its length in octets (docs/formats.md, "Bare texts").
/// Writer, head and blocks are as for `BareWriter::encode_text`. After `Failed`, a prefix of the text is written.
pub fn write_text<X: Port>(
    port: &mut X,
    writer: &BareWriter,
    head: &SegmentHead,
    blocks: &mut SegmentBlocks,
) -> Result<u64, Failed>
    requires before { IfSome writer.now.before (λ h. IsHead h) }
    requires fits { IsHead head.now }
    requires count { length blocks.old.numbers ≡ 64 * head.now.blocks }
    requires dc { head.now.depth_dc ≡ depth_dc_of (blocks_in blocks.old.numbers) }
    requires ac { head.now.depth_ac ≡ depth_ac_of (blocks_in blocks.old.numbers) }
    ensures text { MatchResult result
        (λ octets. TextOut (X.outside port.old) (X.outside port.new) (bare_text writer.now.items.now.tables.book writer.now.before head.now
        (blocks_in blocks.old.numbers)) octets)
        (λ _. TextCut (X.outside port.old) (X.outside port.new) (bare_text writer.now.items.now.tables.book writer.now.before head.now
        (blocks_in blocks.old.numbers))) }
    ensures most { blocks.new.most ≡ blocks.old.most }
{
    let mut sink = TextSink::new(port);
    let Ok(octets) = writer.encode_text(&mut sink, head, blocks) else {
        return Err(Failed);
    };
    let Ok(()) = sink.flush() else {
        return Err(Failed);
    };
    Ok(octets)
}
