// The fate of an image's packet, by its fields.
ghost use Rattle.std.specs.Prelude.{◌≡◌, ◌&&◌, Some, None, Ok, Err, if◌then◌else◌, MatchResult, IfOk, IfSome};
ghost use Rattle.stream_defs.specs.Agreement.{head_refusal};
ghost use Rattle.stream_defs.specs.Fates.{reports_rows, is_past, differs, is_foreign, is_late, follows, is_out_of_place, closes};
ghost use Rattle.segment_defs.specs.Head.{IsHead};
ghost use Rattle.segment_defs.specs.Reading.{head_read};
ghost use Rattle.base_122.specs.Ranges.{IsGeometryInRange};
ghost use Rattle.packet_assembly.specs.Classification.{classified, past_kept};
ghost use Rattle.packet_assembly.specs.Ranged.{IsRanged, ReportsHeight};

use crate::agreement::{blocks_of, disagreement, geometry_for, geometry_past};
use base_122::{FieldRange, Geometry};
use packet_defs::Ancillary;
use segment_defs::{HeadFault, SegmentHead};
use segment_head::read_head;
use stream_defs::{Fate, FateState, LastPart};

/// Returns the segment header of a packet that is kept, if the packet is its segment's first, or why it isn't kept
/// (docs/formats.md, "Fates").
pub fn classify(
    state: &FateState,
    flags: u8,
    ancillary: &Ancillary,
    text: &[u8],
) -> Result<Option<SegmentHead>, Fate>
    requires ranged { IsRanged state.now }
    ensures value { result ≡ classified state.now flags ancillary.now text.now }
    ensures fits { IfOk result (λ found. IfSome found IsHead) }
{
    if is_foreign(state, ancillary) {
        return Err(Fate::Foreign);
    }
    if is_late(state.last, ancillary) {
        return Err(Fate::Late);
    }
    if is_out_of_place(state.last, flags, ancillary) {
        return Err(Fate::OutOfPlace);
    }
    if ancillary.part > 0 {
        return Ok(None);
    }
    match read_first(state.geometry, ancillary, text) {
        Ok(head) => Ok(Some(head)),
        Err(fault) => Err(Fate::BadHead(fault)),
    }
}

/// Returns the state that a kept packet leaves for the next one's fate.
pub fn past_kept(
    state: &FateState,
    flags: u8,
    ancillary: &Ancillary,
    head: Option<SegmentHead>,
) -> FateState
    requires ranged { IsRanged state.now }
    requires fits { IfSome head IsHead }
    requires height { IfSome head (ReportsHeight state.now ancillary.now) }
    ensures { result ≡ past_kept state.now flags ancillary.now head }
{
    let last = Some(LastPart {
        index: ancillary.index,
        part: ancillary.part,
        closed: flags >= 2,
    });
    let geometry = match head {
        None => state.geometry,
        Some(head) => {
            let geometry = geometry_for(state.geometry, ancillary, &head.image);
            Some(geometry_past(&geometry, ancillary, &head))
        }
    };
    FateState {
        geometry,
        reported_last: ancillary.reported_last,
        last,
    }
}

// Returns the segment header in a segment's first packet, if it agrees with the rest.
fn read_first(
    current: Option<Geometry>,
    ancillary: &Ancillary,
    text: &[u8],
) -> Result<SegmentHead, HeadFault>
    requires ranged { IfSome current IsGeometryInRange }
    ensures read { MatchResult result
        (λ head. (head_read text.now ≡ Ok head) × (head_refusal current ancillary.now (Ok head) ≡ None))
        (λ fault. head_refusal current ancillary.now (head_read text.now) ≡ Some fault) }
    ensures fits { IfOk result (λ head. IsHead head) }
{
    let head = read_head(text)?;
    let geometry = geometry_for(current, ancillary, &head.image);
    match disagreement(&geometry, ancillary, &head) {
        None => Ok(head),
        Some(fault) => Err(fault),
    }
}

// Returns whether the packet can't be one of the image.
fn is_foreign(state: &FateState, ancillary: &Ancillary) -> bool
    ensures { result ≡ is_foreign state.now ancillary.now }
{
    if !reports_rows(ancillary) || !FieldRange::SEGMENT.contains(u64::from(ancillary.segment)) {
        return true;
    }
    if u64::from(ancillary.first) != u64::from(ancillary.index) * u64::from(ancillary.segment) {
        return true;
    }
    match state.geometry {
        None => false,
        Some(geometry) => differs(&geometry, state.reported_last, ancillary),
    }
}

// Returns whether the rows are those of an image, or 0 if its height is reported last.
fn reports_rows(ancillary: &Ancillary) -> bool
    ensures { result ≡ reports_rows ancillary.now }
{
    if ancillary.reported_last {
        return ancillary.rows == 0;
    }
    FieldRange::ROWS.contains(u64::from(ancillary.rows))
}

// Returns whether the packet is one of another image than this, or has a block past its last.
fn differs(geometry: &Geometry, reported_last: bool, ancillary: &Ancillary) -> bool
    ensures { result ≡ differs (Some geometry.now) reported_last ancillary.now }
{
    let rows = if reported_last { 0 } else { geometry.rows };
    ancillary.reported_last != reported_last
        || ancillary.image != geometry.image
        || ancillary.rows != rows
        || ancillary.segment != geometry.segment
        || is_past(geometry, ancillary)
}

// Returns whether the packet has a block past the last one, if that is known.
fn is_past(geometry: &Geometry, ancillary: &Ancillary) -> bool
    ensures { result ≡ is_past geometry.now ancillary.now }
{
    geometry.rows != 0 && blocks_of(geometry) <= u64::from(ancillary.first)
}

// Returns whether the packet's place isn't past the last one.
fn is_late(last: Option<LastPart>, ancillary: &Ancillary) -> bool
    ensures { result ≡ is_late last ancillary.now }
{
    let Some(last) = last else {
        return false;
    };
    ancillary.index < last.index || (ancillary.index == last.index && ancillary.part <= last.part)
}

// Returns whether the packet is the next part of a segment that isn't closed.
fn follows(last: Option<LastPart>, ancillary: &Ancillary) -> bool
    ensures { result ≡ follows last ancillary.now }
{
    let Some(last) = last else {
        return false;
    };
    ancillary.index == last.index
        && u64::from(ancillary.part) == u64::from(last.part) + 1
        && !last.closed
}

// Returns whether the packet's flags don't agree with its part, or it doesn't follow the last one.
fn is_out_of_place(last: Option<LastPart>, flags: u8, ancillary: &Ancillary) -> bool
    ensures { result ≡ is_out_of_place last flags ancillary.now }
{
    let begins = flags % 2 == 1;
    if ancillary.part == 0 {
        return !begins;
    }
    begins || !follows(last, ancillary)
}
