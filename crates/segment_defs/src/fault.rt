// Why octets are not a head.

/// A feature of a head that this project does not read (docs/formats.md, "The head").
#[derive(Clone, Copy, Debug, PartialEq, Eq)]
pub enum Odd {
    /// The transform in floating point.
    Float,
    /// Pixels of more than 16 bits.
    Extended,
    /// A transposed image.
    Transpose,
    /// A code word that is not of 1 to 4 octets.
    WordLength,
    /// A width of 0.
    Width,
    /// A segment of 0 blocks.
    Blocks,
}

/// A wrong value in a head (docs/formats.md, "The head", and "Fates" from `First` on).
#[derive(Clone, Copy, Debug, PartialEq, Eq)]
pub enum HeadField {
    DepthDc,
    Width,
    Limit,
    Fill,
    First,
    Blocks,
    Last,
    Count,
    PadRows,
    Image,
}

/// The first test that refuses a head (docs/formats.md, "The head").
#[derive(Clone, Copy, Debug, PartialEq, Eq)]
pub enum HeadFault {
    /// There are only this number of octets.
    HeadShort { octets: u32 },
    /// The least of the Parts 2, 3 and 4 that is missing.
    MissingPart { part: u8 },
    Unsupported(Odd),
    /// The depths in the head, if one of them is above its bound.
    DepthTooLarge { dc: u8, ac: u8 },
    BadValue(HeadField),
}
