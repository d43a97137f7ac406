// Whether a segment header agrees with the image of its packet.
ghost use Rattle.std.specs.Prelude.{◌≡◌, ◌<◌, ◌^◌, ◌&&◌, true, if◌then◌else◌};
ghost use Rattle.stream_defs.specs.Agreement.{geometry_for, blocks_of, has_blocks, ends_where_reported, pads_as_reported, may_have_blocks, reported_height};
ghost use Rattle.stream_defs.specs.Agreement.{may_end};
ghost use Rattle.stream_defs.specs.Agreement.{is_of_image, disagreement, geometry_past};

use base_122::{FieldRange, Geometry};
use packet_defs::Ancillary;
use segment_defs::{HeadFault, HeadField, ImagePart, SegmentHead};

/// Returns the geometry that is known, or that of a segment's packet and header.
pub fn geometry_for(current: Option<Geometry>, ancillary: &Ancillary, image: &ImagePart) -> Geometry
    ensures { result ≡ geometry_for current ancillary.now image.now }
{
    if let Some(geometry) = current {
        return geometry;
    }
    Geometry {
        width: image.width,
        rows: ancillary.rows,
        depth: image.depth,
        signed: image.signed,
        segment: ancillary.segment,
        image: ancillary.image,
        word: image.word,
        weights: image.weights,
    }
}

/// Returns the number of blocks of an image of any size.
pub fn blocks_of(geometry: &Geometry) -> u64
    ensures value { result ≡ blocks_of geometry.now }
    ensures small { result < 2 ^ 60 }
{
    u64::from(geometry.width.div_ceil(8)) * u64::from(geometry.rows.div_ceil(8))
}

/// Returns the first test by which a segment header doesn't agree with its packet, in an image of this geometry (docs/formats.md,
/// "Fates").
#[tactic(auto, unfolding(stream_defs::specs::Agreement::disagreement))]
pub fn disagreement(
    geometry: &Geometry,
    ancillary: &Ancillary,
    head: &SegmentHead,
) -> Option<HeadFault>
    requires { 0 < geometry.now.width }
    ensures { result ≡ disagreement geometry.now ancillary.now head.now }
{
    if head.first != (ancillary.index == 0) {
        return Some(HeadFault::BadValue(HeadField::First));
    }
    if !agree_in_blocks(geometry, ancillary, head) {
        return Some(HeadFault::BadValue(HeadField::Blocks));
    }
    if !agree_in_end(geometry, ancillary, head) {
        return Some(HeadFault::BadValue(HeadField::Last));
    }
    if u32::from(head.count) != ancillary.index % 256 {
        return Some(HeadFault::BadValue(HeadField::Count));
    }
    if !ancillary.reported_last && !pads_as_reported(geometry, head) {
        return Some(HeadFault::BadValue(HeadField::PadRows));
    }
    if !is_of_image(geometry, &head.image) {
        return Some(HeadFault::BadValue(HeadField::Image));
    }
    None
}

// Returns whether the blocks are those that the segment can have.
fn agree_in_blocks(geometry: &Geometry, ancillary: &Ancillary, head: &SegmentHead) -> bool
    ensures { result ≡ (if ancillary.now.reported_last then may_have_blocks geometry.now head.now else has_blocks geometry.now ancillary.now head.now) }
{
    if ancillary.reported_last {
        return may_have_blocks(geometry, head);
    }
    has_blocks(geometry, ancillary, head)
}

// Returns whether the segment is the last one exactly if the image can end, or ends, with it.
fn agree_in_end(geometry: &Geometry, ancillary: &Ancillary, head: &SegmentHead) -> bool
    requires { 0 < geometry.now.width }
    ensures { result ≡ (if ancillary.now.reported_last then may_end geometry.now ancillary.now head.now else ends_where_reported geometry.now ancillary.now
        head.now) }
{
    if ancillary.reported_last {
        return may_end(geometry, ancillary, head);
    }
    ends_where_reported(geometry, ancillary, head)
}

// Returns whether the blocks are the segment's, if the height is known.
fn has_blocks(geometry: &Geometry, ancillary: &Ancillary, head: &SegmentHead) -> bool
    ensures { result ≡ has_blocks geometry.now ancillary.now head.now }
{
    let total = blocks_of(geometry);
    let first = u64::from(ancillary.first);
    if total <= first {
        return false;
    }
    u64::from(head.blocks) == u64::from(geometry.segment).min(total - first)
}

// Returns whether the segment is the last one exactly if it has the image's last block.
fn ends_where_reported(geometry: &Geometry, ancillary: &Ancillary, head: &SegmentHead) -> bool
    ensures { result ≡ ends_where_reported geometry.now ancillary.now head.now }
{
    let ends = u64::from(ancillary.first) + u64::from(head.blocks) == blocks_of(geometry);
    head.last == ends
}

// Returns whether the padding rows are those of the image, in its last segment.
fn pads_as_reported(geometry: &Geometry, head: &SegmentHead) -> bool
    ensures { result ≡ pads_as_reported geometry.now head.now }
{
    let rows = u64::from(geometry.rows);
    !head.last || u64::from(head.pad_rows) == rows.div_ceil(8) * 8 - rows
}

// Returns whether the blocks are those of a whole segment, or fewer in the last one.
fn may_have_blocks(geometry: &Geometry, head: &SegmentHead) -> bool
    ensures { result ≡ may_have_blocks geometry.now head.now }
{
    if head.last {
        return 1 <= head.blocks && head.blocks <= geometry.segment;
    }
    head.blocks == geometry.segment
}

// Returns whether the segment ends a block row at a height in range if it is the last one, and otherwise leaves room for another.
fn may_end(geometry: &Geometry, ancillary: &Ancillary, head: &SegmentHead) -> bool
    requires { 0 < geometry.now.width }
    ensures { result ≡ may_end geometry.now ancillary.now head.now }
{
    let columns = u64::from(geometry.width.div_ceil(8));
    let first = u64::from(ancillary.first);
    if !head.last {
        return first + u64::from(geometry.segment) < 32_768 * columns;
    }
    (first + u64::from(head.blocks)) % columns == 0
        && FieldRange::ROWS.contains(reported_height(geometry, ancillary, head))
}

/// Returns the geometry after a header that agrees is kept: if the height is reported last, the last header reports it.
pub fn geometry_past(geometry: &Geometry, ancillary: &Ancillary, head: &SegmentHead) -> Geometry
    requires width { 0 < geometry.now.width }
    requires height { (ancillary.now.reported_last && head.now.last) ≡ true → reported_height geometry.now ancillary.now head.now < 2 ^ 32 }
    ensures { result ≡ geometry_past geometry.now ancillary.now head.now }
{
    if !ancillary.reported_last || !head.last {
        return *geometry;
    }
    let rows = reported_height(geometry, ancillary, head) as u32;
    Geometry { rows, ..*geometry }
}

// Returns the height that a last header reports.
fn reported_height(geometry: &Geometry, ancillary: &Ancillary, head: &SegmentHead) -> u64
    requires { 0 < geometry.now.width }
    ensures { result ≡ reported_height geometry.now ancillary.now head.now }
{
    let columns = u64::from(geometry.width.div_ceil(8));
    let block_rows = (u64::from(ancillary.first) + u64::from(head.blocks)) / columns;
    (8 * block_rows).saturating_sub(u64::from(head.pad_rows))
}

// Returns whether the image part of a header is that of this geometry.
fn is_of_image(geometry: &Geometry, image: &ImagePart) -> bool
    ensures { result ≡ is_of_image geometry.now image.now }
{
    if image.signed != geometry.signed {
        return false;
    }
    image.depth == geometry.depth
        && image.width == geometry.width
        && image.word == geometry.word
        && image.weights.shifts == geometry.weights.shifts
}
