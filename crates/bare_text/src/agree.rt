// Tests whether a head agrees with the first head of its stream.
ghost use Rattle.std.specs.Prelude.{◌≡◌};
ghost use Rattle.segment_defs.specs.Head.{IsHead};
ghost use Rattle.segment_defs.specs.Reading.{answer, first_refusal};
ghost use Rattle.bare_text.specs.Agreement.{columns, blocks_agree, last_agrees, image_agrees, agreement_tests};

use crate::write::same_weights;
use segment_head::{HeadFault, HeadField, ImagePart, SegmentHead};

/// Tests whether the head of the segment of this index, from 0, agrees with the first head of its bare stream (docs/formats.md, "Bare
/// texts").
///
/// # Errors
///
/// `BadValue` of the first point that fails: `First`, `Blocks`, `Last`, `Count`, `Image`.
#[tactic(auto, unfolding(crate::specs::Agreement::agreement_tests))]
pub fn check_agreement(head: &SegmentHead, index: u32, first: &SegmentHead) -> Result<(), HeadFault>
    requires fits { IsHead head.now }
    requires first { IsHead first.now }
    ensures { result ≡ answer (first_refusal (agreement_tests first.now index head.now)) tt }
{
    if head.first != (index == 0) {
        return Err(HeadFault::BadValue(HeadField::First));
    }
    if !blocks_agree(head, first) {
        return Err(HeadFault::BadValue(HeadField::Blocks));
    }
    if !last_agrees(head, index, first) {
        return Err(HeadFault::BadValue(HeadField::Last));
    }
    if u32::from(head.count) != index % 256 {
        return Err(HeadFault::BadValue(HeadField::Count));
    }
    if !image_agrees(&head.image, &first.image) {
        return Err(HeadFault::BadValue(HeadField::Image));
    }
    Ok(())
}

// Returns whether the number of blocks is one that this segment may have.
fn blocks_agree(head: &SegmentHead, first: &SegmentHead) -> bool
    ensures { result ≡ blocks_agree first.now head.now }
{
    let enough = (16 <= first.blocks) | first.last;
    if head.last {
        return (1 <= head.blocks) & (head.blocks <= first.blocks) & enough;
    }
    (head.blocks == first.blocks) & enough
}

// Returns the number of blocks in a row of blocks.
fn columns(first: &SegmentHead) -> u64
    requires { IsHead first.now }
    ensures { result ≡ columns first.now }
{
    (u64::from(first.image.width) + 7) / 8
}

// Returns whether the last flag is one that this segment may have.
fn last_agrees(head: &SegmentHead, index: u32, first: &SegmentHead) -> bool
    requires fits { IsHead head.now }
    requires first { IsHead first.now }
    ensures { result ≡ last_agrees first.now index head.now }
{
    let before = u64::from(index) * u64::from(first.blocks);
    if !head.last {
        return before + u64::from(first.blocks) < 32768 * columns(first);
    }
    let blocks = before + u64::from(head.blocks);
    let rows = 8 * (blocks / columns(first));
    let height = rows.saturating_sub(u64::from(head.pad_rows));
    (blocks % columns(first) == 0) & ((17 <= height) & (height <= 262_144))
}

// Returns whether the image parts are the same.
fn image_agrees(one: &ImagePart, other: &ImagePart) -> bool
    ensures { result ≡ image_agrees one.now other.now }
{
    (one.signed == other.signed)
        & ((one.depth == other.depth)
            & ((one.width == other.width)
                & ((one.word == other.word) & same_weights(&one.weights, &other.weights))))
}
