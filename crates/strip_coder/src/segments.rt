// Writes one segment of an image as packets.
ghost use Rattle.std.specs.Prelude.{◌≡◌, ◌≤◌, ◌<◌, ◌-◌, ◌*◌, ◌/◌, ◌^◌, length, MatchResult};
ghost use Rattle.wave_defs.specs.Held.{blocks_in};
ghost use Rattle.space_packets.specs.Writes.{TextOut, TextCut};
ghost use Rattle.space_packets.specs.declared.stage.PacketiserState.TheVariants.{Idle};
ghost use Rattle.strip_coder.specs.SegmentsOut.{text_of, text_for};
ghost use Rattle.base_122.specs.Sizes.{padded_size};
ghost use Rattle.strip_coder.specs.Plans.{IsPlan, packed, whole};
ghost use Rattle.strip_coder.specs.Works.{KeepsShare};
ghost use Rattle.stream_defs.specs.Output.{ancillary_of, head_with, image_part, segments_of, share, reports_last, written_stop};

use crate::plan::Plan;
use crate::work::ImageAt;
use base_122::{FieldRange, Select, Setting, Stop};
use port_122::{Failed, Port};
use segment_code::{SegmentBlocks, SegmentWriter};
use segment_head::{ImagePart, SegmentHead};
use space_packets::{Ancillary, Packetiser};

/// The present segment of an image: the plan of the image, and its progress.
#[derive(Clone, Copy)]
pub struct Present<'a> {
    pub plan: &'a Plan,
    pub at: &'a ImageAt,
}

/// Writes the packets of the present segment, and returns the octets of its text, which has the codes of the book of the setting.
pub fn write_segment<X: Port>(
    port: &mut X,
    present: &Present,
    blocks: &mut SegmentBlocks,
    packets: &mut Packetiser,
    writer: &SegmentWriter,
) -> Result<u64, Failed>
    requires in_range { IsPlan (packed present.now.plan.now) }
    requires book { writer.now.tables.book ≡ present.now.plan.now.setting.book }
    requires index { present.now.at.now.index < segments_of (whole (packed present.now.plan.now)) }
    requires share { KeepsShare (whole (packed present.now.plan.now)) present.now.at.now }
    requires some { 64 ≤ length blocks.old.numbers }
    requires most { length blocks.old.numbers ≤ 64 * 1048575 }
    requires packet { packets.old.packet ≡ present.now.plan.now.setting.packet }
    requires idle { packets.old.stage ≡ Idle }
    requires texts { packets.old.texts < 2 ^ 28 }
    ensures text { MatchResult result
        (λ octets. TextOut (text_of (packed present.now.plan.now) present.now.at.now.index) (X.outside port.old) (X.outside port.new) packets.old packets.new
        (text_for (packed present.now.plan.now) present.now.at.now.index present.now.at.now.used (blocks_in blocks.old.numbers))
        × (octets ≡ length (text_for (packed present.now.plan.now) present.now.at.now.index present.now.at.now.used (blocks_in blocks.old.numbers))))
        (λ _. TextCut (text_of (packed present.now.plan.now) present.now.at.now.index) (X.outside port.old) (X.outside port.new) packets.old packets.new
        (text_for (packed present.now.plan.now) present.now.at.now.index present.now.at.now.used (blocks_in blocks.old.numbers))) }
    ensures most { blocks.new.most ≡ blocks.old.most }
{
    let depths = blocks.depths();
    let limit = share(present.plan, present.at);
    let index = present.at.index;
    let head = make_head(present.plan, index, limit, blocks.len() as u32, depths);
    packets.begin(present.plan.setting.apid, ancillary(present.plan, index));
    let mut sink = packets.sink(port);
    let Ok(octets) = writer.encode(&mut sink, &head, blocks) else {
        return Err(Failed);
    };
    let Ok(()) = packets.close(port) else {
        return Err(Failed);
    };
    Ok(octets)
}

// Returns the greatest number of octets of the text of the present segment; 0 is no bound. Of a bound on all texts it is an even share of
// what is left, in whole code words.
fn share(plan: &Plan, at: &ImageAt) -> u32
    requires in_range { IsPlan (packed plan.now) }
    requires index { at.now.index < segments_of (whole (packed plan.now)) }
    requires left { KeepsShare (whole (packed plan.now)) at.now }
    ensures { result ≡ share (whole (packed plan.now)) at.now.index at.now.used }
{
    let setting = &plan.setting;
    if setting.total == 0 {
        return setting.limit;
    }
    let left = setting.total - at.used;
    let segments = u64::from(setting.geometry_for(plan.rows).segments() - at.index);
    let word = u64::from(setting.word);
    let octets = (left / segments).min(FieldRange::LIMIT.most) / word * word;
    octets as u32
}

// Returns the image part of each head.
fn image_part(setting: &Setting) -> ImagePart
    ensures { result ≡ image_part setting.now }
{
    ImagePart {
        signed: setting.signed,
        depth: setting.depth,
        width: setting.width,
        word: setting.word,
        weights: setting.weights,
    }
}

// Returns the number of padding rows of the image.
fn pad_rows(plan: &Plan) -> u8
    requires { IsPlan (packed plan.now) }
    ensures { result ≡ padded_size plan.now.rows - plan.now.rows }
{
    (plan.setting.geometry_for(plan.rows).padded_rows() - plan.rows) as u8
}

// Returns the stop as a head has it.
fn written_stop(stop: Stop) -> Stop
    ensures { result ≡ written_stop stop }
{
    if stop.dc {
        Stop {
            plane: 0,
            stage: 3,
            ..stop
        }
    } else {
        stop
    }
}

/// Returns the head of the segment of this index, with this limit and this number of blocks, which have these depths of DC and AC numbers
/// (docs/formats.md, "The head").
pub fn make_head(plan: &Plan, index: u32, limit: u32, count: u32, depths: (u8, u8)) -> SegmentHead
    requires in_range { IsPlan (packed plan.now) }
    requires index { index < segments_of (whole (packed plan.now)) }
    ensures { result ≡ head_with (whole (packed plan.now)) index limit count depths.0 depths.1 }
{
    let setting = &plan.setting;
    let last = index + 1 == setting.geometry_for(plan.rows).segments();
    let best = setting.select == Select::Optimal;
    let (depth_dc, depth_ac) = depths;
    SegmentHead {
        first: index == 0,
        last,
        count: (index % 256) as u8,
        depth_dc,
        depth_ac,
        pad_rows: if last { pad_rows(plan) } else { 0 },
        limit,
        stop: written_stop(setting.stop),
        fill: setting.fill,
        blocks: count,
        best_dc: best,
        best_ac: best,
        image: image_part(setting),
    }
}

// Returns the ancillary data of a segment's packets.
fn ancillary(plan: &Plan, index: u32) -> Ancillary
    requires in_range { IsPlan (packed plan.now) }
    requires index { index < segments_of (whole (packed plan.now)) }
    ensures { result ≡ ancillary_of (reports_last plan.now.setting) (whole (packed plan.now)) index }
{
    let setting = &plan.setting;
    Ancillary {
        reported_last: setting.rows == 0,
        image: setting.image,
        rows: setting.rows,
        segment: setting.segment,
        index,
        first: index * setting.segment,
        part: 0,
    }
}
