// The ancillary data of a packet.

/// The fields of a packet's 24 octets of ancillary data, with the meaning of its mark (docs/formats.md, "Packets").
#[derive(Clone, Copy, Debug, PartialEq, Eq)]
pub struct Ancillary {
    /// The number of the image.
    pub image: u16,
    /// Whether the height of the image is reported last, by the head of its last segment.
    pub reported_last: bool,
    /// The rows of the image; 0 if they are reported last.
    pub rows: u32,
    /// The blocks of each segment of the image except the last.
    pub segment: u32,
    /// The index of the segment, from 0.
    pub index: u32,
    /// The segment's first block: its index times `segment`.
    pub first: u32,
    /// The number of this part of the segment's text, from 0.
    pub part: u32,
}
