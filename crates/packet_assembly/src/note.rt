// The reports on packets and segments.
use packet_defs::Ancillary;
use segment_defs::SegmentHead;
use stream_defs::Fate;

/// The fate of one packet (docs/formats.md, "Fates").
#[derive(Clone, Copy, Debug, PartialEq, Eq)]
pub struct PacketNote {
    /// The number of the packet in the stream, from 0.
    pub number: u64,
    pub fate: Fate,
    /// The index of its segment; 0 if the packet is skipped.
    pub index: u32,
    /// The number of its part; 0 if the packet is skipped.
    pub part: u32,
    /// The octets of its text; 0 if the packet is skipped.
    pub octets: u32,
}

/// What a segment's first packet reports of it.
#[derive(Clone, Copy, Debug, PartialEq, Eq)]
pub struct SegmentStart {
    pub ancillary: Ancillary,
    pub head: SegmentHead,
}

/// The report of a packet that was passed, and the start of the segment that it begins.
#[derive(Clone, Copy, Debug, PartialEq, Eq)]
pub struct Passed {
    pub note: PacketNote,
    pub start: Option<SegmentStart>,
}
