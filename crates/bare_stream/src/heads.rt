// Reads the head of a segment of a bare stream, and tests it against the first one.
ghost use Rattle.std.specs.Prelude.{◌≡◌, ◌≤◌, true, IfOk};
ghost use Rattle.segment_defs.specs.Head.{IsHead};
ghost use Rattle.bare_text.specs.Agreement.{height_at};
ghost use Rattle.bare_stream.specs.Inputs.{source_of};
ghost use Rattle.bare_stream.specs.Pictures.{pixels_at};
ghost use Rattle.bare_stream.specs.Heads.{AgreesWith, TakesHead, ChecksHead};

use crate::fault::{BareCause, BareFault};
use crate::input::PortIn;
use bare_text::{BareHead, BareHeadFault, PartsInForce, check_agreement, read_bare_head};
use base_122::FieldRange;
use bit_pipe::InFault;
use port_122::Port;
use segment_head::SegmentHead;

/// Reads the head of the segment of this index.
pub fn take_head<X: Port>(
    input: &mut PortIn<X>,
    parts: &mut PartsInForce,
    index: u32,
) -> Result<BareHead, BareFault>
    ensures takes { TakesHead (source_of X.outside) parts.old index result input.old input.new parts.new }
    ensures fits { IfOk result (λ read. IsHead read.head × (read.size ≤ 20)) }
{
    match read_bare_head(input, parts) {
        Ok(read) => Ok(read),
        Err(BareHeadFault::Refused(fault)) => Err(BareFault::Refused {
            index,
            cause: BareCause::Head(fault),
        }),
        Err(BareHeadFault::Input(InFault::ReadFault)) => Err(BareFault::ReadFault),
        Err(BareHeadFault::Input(_)) => Err(BareFault::LongInput),
    }
}

/// Returns the rows of an image that ends with this segment, whose head agrees with the first one.
pub fn height_with(head: &SegmentHead, index: u32, first: &SegmentHead) -> u32
    requires fits { IsHead head.now }
    requires first { IsHead first.now }
    requires agrees { AgreesWith first.now index head.now }
    requires last { head.now.last ≡ true }
    ensures { result ≡ height_at first.now index head.now }
{
    let columns = u64::from(first.image.width.div_ceil(8));
    let blocks = u64::from(index) * u64::from(first.blocks) + u64::from(head.blocks);
    let rows = 8 * (blocks / columns);
    (rows - u64::from(head.pad_rows)) as u32
}

// Returns the pixels of an image with this head, or the least number of pixels of one that has its blocks while the height isn't known.
fn pixels_with(head: &SegmentHead, index: u32, first: &SegmentHead) -> u64
    requires fits { IsHead head.now }
    requires first { IsHead first.now }
    requires agrees { AgreesWith first.now index head.now }
    ensures { result ≡ pixels_at first.now index head.now }
{
    let width = u64::from(first.image.width);
    if head.last {
        return width * u64::from(height_with(head, index, first));
    }
    let ended = u64::from(index) * u64::from(first.blocks) + u64::from(head.blocks);
    let block_rows = ended.div_ceil(u64::from(first.image.width.div_ceil(8)));
    width * FieldRange::ROWS.least.max(8 * block_rows - 7)
}

/// Tests whether a head agrees with the first one, and reports at most the pixels of the wish.
pub fn check_head(
    head: &SegmentHead,
    index: u32,
    first: &SegmentHead,
    pixels: u64,
) -> Result<(), BareFault>
    requires fits { IsHead head.now }
    requires first { IsHead first.now }
    ensures { ChecksHead pixels first.now index head.now result }
{
    if let Err(fault) = check_agreement(head, index, first) {
        return Err(BareFault::Refused {
            index,
            cause: BareCause::Head(fault),
        });
    }
    let found = pixels_with(head, index, first);
    if pixels < found {
        return Err(BareFault::TooManyPixels { pixels: found });
    }
    Ok(())
}
