// The results of a mux.
use thiserror::Error;

/// What was written for all cameras, at most 2^64 - 1 of each.
#[derive(Clone, Copy, Debug, PartialEq, Eq)]
pub struct MuxDone {
    pub packets: u64,
    pub octets: u64,
}

/// The reason why the images of the cameras were not written, or only a part of them.
#[derive(Clone, Copy, Debug, PartialEq, Eq, Error)]
pub enum MuxFault {
    /// A read failed.
    #[error("read fault")]
    ReadFault,
    /// A write failed.
    #[error("write fault")]
    WriteFault,
    /// The input ended before each camera had all its rows; this number of octets was taken.
    #[error("input short, {octets} octets taken")]
    Short {
        octets: u64,
    },
    /// The input has more than the records.
    #[error("input long")]
    Long,
    /// The record of this number, from 0, has a camera that doesn't exist, or that has all its rows.
    #[error("bad camera {camera} at record {place}")]
    BadCamera {
        place: u64,
        camera: u8,
    },
    /// The first value out of range.
    #[error("bad pixel {value} of camera {camera} at row {row} column {column}")]
    BadPixel {
        camera: u8,
        row: u32,
        column: u32,
        value: i32,
    },
}
