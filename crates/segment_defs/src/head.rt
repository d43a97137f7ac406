// The values of a segment's head.

use base_122::{Stop, Weights};

/// What a head says of the whole image: Part 4 (docs/formats.md, "The head").
#[derive(Clone, Copy, Debug, PartialEq, Eq)]
pub struct ImagePart {
    pub signed: bool,
    /// The number of bits of a pixel, 1 to 16.
    pub depth: u8,
    /// The number of pixels of a row.
    pub width: u32,
    /// The number of octets of a code word, 1 to 4.
    pub word: u8,
    pub weights: Weights,
}

/// A segment's head (docs/formats.md, "The head").
#[derive(Clone, Copy, Debug, PartialEq, Eq)]
pub struct SegmentHead {
    /// Whether this is the image's first segment.
    pub first: bool,
    /// Whether this is the image's last segment.
    pub last: bool,
    /// The segment's index, modulo 256.
    pub count: u8,
    /// BitDepthDC, 1 to 28.
    pub depth_dc: u8,
    /// BitDepthAC, 0 to 27.
    pub depth_ac: u8,
    /// The number of rows that pad the image, 0 to 7; 0 except in the last segment.
    pub pad_rows: u8,
    /// The greatest number of octets of the text, with its head; 0 is no limit.
    pub limit: u32,
    pub stop: Stop,
    /// Whether the text is filled up to the limit.
    pub fill: bool,
    /// The number of blocks of this segment.
    pub blocks: u32,
    /// Whether the options of the DC numbers are the optimal ones.
    pub best_dc: bool,
    /// Whether the options of the block depths are the optimal ones.
    pub best_ac: bool,
    pub image: ImagePart,
}

impl SegmentHead {
    ghost use Rattle.std.specs.Prelude.{◌≡◌};
    ghost use Rattle.segment_defs.specs.Head.{head_length};

    /// Returns the number of octets of the head: 20 in the image's last segment, otherwise 19 (docs/formats.md, "The head").
    pub fn octets(&self) -> u8
        ensures { result ≡ head_length self.now }
    {
        if self.last { 20 } else { 19 }
    }
}
