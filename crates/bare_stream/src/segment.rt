// Writes the segments of an image as texts.
ghost use Rattle.std.specs.Prelude.{◌≡◌, ◌≤◌, ◌<◌, ◌*◌, length, MatchResult};
ghost use Rattle.wave_defs.specs.Held.{blocks_in};
ghost use Rattle.stream_defs.specs.Output.{segments_of};
ghost use Rattle.strip_coder.specs.Plans.{IsPlan, packed, whole};
ghost use Rattle.bare_stream.specs.Steps.{TextOut, TextCut, parts_before, text_now};
ghost use Rattle.bare_stream.specs.Works.{texts};

use crate::text::write_text;
use bare_text::BareWriter;
use port_122::{Failed, Port};
use segment_code::{SegmentBlocks, SegmentWriter};
use segment_head::SegmentHead;
use strip_coder::{Plan, SegmentOut, Work, make_head};

// Returns a head with the parts in force before the segment of this index. Its depths can be any.
fn parts_before(plan: &Plan, index: u32, depths: (u8, u8)) -> Option<SegmentHead>
    requires in_range { IsPlan (packed plan.now) }
    requires index { index < segments_of (whole (packed plan.now)) }
    ensures { result ≡ parts_before (whole (packed plan.now)) index depths.0 depths.1 }
{
    if index == 0 {
        return None;
    }
    let setting = &plan.setting;
    Some(make_head(plan, index - 1, setting.limit, setting.segment, depths))
}

// Writes the text of the segment of this index, and returns its length in octets.
fn write_segment<X: Port>(
    port: &mut X,
    plan: &Plan,
    index: u32,
    blocks: &mut SegmentBlocks,
    items: &SegmentWriter,
) -> Result<u64, Failed>
    requires in_range { IsPlan (packed plan.now) }
    requires no_total { plan.now.setting.total ≡ 0 }
    requires book { items.now.tables.book ≡ plan.now.setting.book }
    requires index { index < segments_of (whole (packed plan.now)) }
    requires some { 64 ≤ length blocks.old.numbers }
    requires most { length blocks.old.numbers ≤ 64 * 1048575 }
    ensures text { MatchResult result
        (λ octets. TextOut (X.outside port.old) (X.outside port.new) (text_now (whole (packed plan.now)) index (blocks_in blocks.old.numbers)) octets)
        (λ _. TextCut (X.outside port.old) (X.outside port.new) (text_now (whole (packed plan.now)) index (blocks_in blocks.old.numbers))) }
    ensures most { blocks.new.most ≡ blocks.old.most }
{
    let depths = blocks.depths();
    let head = make_head(plan, index, plan.setting.limit, blocks.len() as u32, depths);
    let writer = BareWriter {
        before: parts_before(plan, index, depths),
        items,
    };
    write_text(port, &writer, &head, blocks)
}

/// Segments as the texts of a bare stream (docs/formats.md, "Bare texts").
pub struct AsTexts;

impl SegmentOut for AsTexts {
    ghost form = { texts };

    fn write_present<X: Port>(port: &mut X, plan: &Plan, work: &mut Work) -> Result<(), Failed> {
        let Ok(octets) = write_segment(port, plan, work.at.index, &mut work.blocks, &work.writer)
        else {
            return Err(Failed);
        };
        work.blocks.clear();
        work.at.index += 1;
        work.at.filled = 0;
        work.at.used += octets;
        Ok(())
    }
}
