// The reasons why a bare stream isn't read.
use segment_head::HeadFault;
use thiserror::Error;

/// The reason why octets are no bare stream (docs/formats.md, "Bare texts").
#[derive(Clone, Copy, Debug, PartialEq, Eq)]
pub enum BareCause {
    /// The head is refused by itself, or doesn't agree with the first head.
    Head(HeadFault),
    /// An identifier names no option.
    BadOption,
    /// A unary part has too many zeros.
    BadDelta,
    /// A block depth is above that of the head.
    BadDepth,
    /// A flag reports a set whose members can't be significant.
    FalseFlag,
    /// The octets end within the text, after its head.
    Short,
    /// An octet follows the last segment.
    Trailing,
}

/// The reason why no picture was given, or only a part of it.
#[derive(Clone, Copy, Debug, PartialEq, Eq, Error)]
pub enum BareFault {
    /// A read failed.
    #[error("read fault")]
    ReadFault,
    /// A write failed.
    #[error("write fault")]
    WriteFault,
    /// The input has more octets than are read.
    #[error("input too long")]
    LongInput,
    /// There is too little memory for a segment's blocks, or for a strip of the picture.
    #[error("out of memory")]
    Memory,
    /// A head reports an image of more pixels than are wished, or of at least this number while its height isn't known.
    #[error("too many pixels: {pixels}")]
    TooManyPixels { pixels: u64 },
    /// The segment of this index is the first that is refused.
    #[error("segment {index} refused")]
    Refused { index: u32, cause: BareCause },
}
