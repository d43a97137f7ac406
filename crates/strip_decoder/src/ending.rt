// What a walk over segments returns.
use base_122::Geometry;
use damage_rows::Damage;
use packet_defs::Framing;
use thiserror::Error;

/// What was read: the geometry of the image, whose rows are 0 if no header reported its height; the damage of the rows that were written;
/// their number, which is the height if it is known; and why the stream can't be read on, if that was found.
#[derive(Drop)]
pub struct DecodeDone {
    pub geometry: Geometry,
    pub damage: Damage,
    pub written: u32,
    pub framing: Option<Framing>,
}

/// The reason why no picture was given, or only a part of it.
#[derive(Clone, Copy, Debug, PartialEq, Eq, Error)]
pub enum DecodeFault {
    /// A read failed.
    #[error("read fault")]
    ReadFault,
    /// A write failed.
    #[error("write fault")]
    WriteFault,
    /// The input ended, and no packet that was kept began a segment.
    #[error("no segment")]
    NoSegment,
    /// A header reports an image of more pixels than are wished, or of at least this number while its height isn't known.
    #[error("too many pixels: {pixels}")]
    TooManyPixels { pixels: u64 },
    /// The input has more octets than are read.
    #[error("input too long")]
    LongInput,
    /// There is no memory for a segment's blocks, or for a strip of the picture.
    #[error("out of memory")]
    Memory,
}
