// The fate of a packet.
use base_122::Geometry;
use packet_defs::Skip;
use segment_defs::HeadFault;

/// The fate of a packet (docs/formats.md, "Fates").
#[derive(Clone, Copy, Debug, PartialEq, Eq)]
pub enum Fate {
    Kept,
    Skipped(Skip),
    /// The packet can't be one of the image.
    Foreign,
    /// The packet's place isn't past the last one.
    Late,
    /// The packet doesn't follow the last one and begins no segment, or its flags don't agree with its part.
    OutOfPlace,
    /// The packet begins a segment, and its head is refused.
    BadHead(HeadFault),
}

/// The place of the part in the packet that was kept last.
#[derive(Clone, Copy, Debug, PartialEq, Eq)]
pub struct LastPart {
    /// The index of its segment.
    pub index: u32,
    pub part: u32,
    /// Whether it closed its segment's text.
    pub closed: bool,
}

/// The state that the packets so far leave for the next one's fate (docs/formats.md, "Fates").
#[derive(Clone, Copy, Debug, PartialEq, Eq)]
pub struct FateState {
    /// The geometry that is known; its rows are 0 while the height isn't known.
    pub geometry: Option<Geometry>,
    /// Whether its packets leave the height to the last head.
    pub reported_last: bool,
    pub last: Option<LastPart>,
}
