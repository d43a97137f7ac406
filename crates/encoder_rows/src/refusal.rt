// What an encoder answers.

use base_122::Field;
use strip_coder::EncodeDone;

/// The reason why there is no encoder.
#[derive(Clone, Copy, Debug, PartialEq, Eq)]
pub enum NewRefusal {
    /// The first field of the setting that is out of range.
    OutOfRange(Field),
    /// There is no memory.
    Memory,
}

/// The reason why a row was not taken. The encoder and the room are as they were, so the next row may be given, or this one again.
#[derive(Clone, Copy, Debug, PartialEq, Eq)]
pub enum RowRefusal {
    /// The image has all of its rows.
    Full,
    /// The row has fewer octets than the setting's width and depth need.
    Short,
    /// The row has more octets than the setting's width and depth need.
    Long,
    /// The packets of the segments that the row settles may have this number of octets, and the room has fewer.
    SmallRoom { octets: u64 },
    /// The first value of the row that is out of range.
    BadPixel { column: u32, value: i32 },
}

/// The reason why an image was not ended. The encoder and the room are as they were.
#[derive(Clone, Copy, Debug, PartialEq, Eq)]
pub enum EndRefusal {
    /// Rows of the image are missing: it has fewer than the setting's or, if the setting leaves the rows open, fewer than 17.
    Unfinished,
    /// The packets that are left may have this number of octets, and the room has fewer.
    SmallRoom { octets: u64 },
}

/// What the end of an image gave.
#[derive(Clone, Copy, Debug, PartialEq, Eq)]
pub struct Ended {
    /// The number of octets of the packets that the end gave.
    pub octets: usize,
    /// What was given for the whole image.
    pub done: EncodeDone,
}
