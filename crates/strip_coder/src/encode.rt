// The results of the encoder.

use thiserror::Error;

/// What was written for an image.
#[derive(Clone, Copy, Debug, PartialEq, Eq)]
pub struct EncodeDone {
    pub segments: u32,
    pub packets: u64,
    pub octets: u64,
}

/// The reason why an image was not encoded, or only a part of it.
#[derive(Clone, Copy, Debug, PartialEq, Eq, Error)]
pub enum EncodeFault {
    /// A read failed.
    #[error("read fault")]
    ReadFault,
    /// A write failed.
    #[error("write fault")]
    WriteFault,
    /// The input ended before the raster was whole, after this number of octets.
    #[error("input short, {octets} octets taken")]
    Short { octets: u64 },
    /// The input has more than the raster.
    #[error("input long")]
    Long,
    /// The first value out of range.
    #[error("bad pixel {value} at row {row} column {column}")]
    BadPixel { row: u32, column: u32, value: i32 },
}
