// The wish for a list of images, and its results.
use packet_defs::Framing;
use thiserror::Error;

/// The wish for a list of images.
#[derive(Clone, Copy, Debug, PartialEq, Eq)]
pub struct InfoWish {
    /// The APID of the images; `None` for those of every APID.
    pub apid: Option<u16>,
    /// The most octets that are read.
    pub octets: u64,
}

/// What was listed: the number of images, at most 4,096, and why the stream can't be read on, if that was found.
#[derive(Clone, Copy, Debug, PartialEq, Eq)]
pub struct InfoDone {
    pub images: u64,
    pub framing: Option<Framing>,
}

/// The reason why the images were not listed.
#[derive(Clone, Copy, Debug, PartialEq, Eq, Error)]
pub enum InfoFault {
    /// A read failed.
    #[error("read fault")]
    ReadFault,
    /// A write failed.
    #[error("write fault")]
    WriteFault,
    /// The input has more octets than are read.
    #[error("input too long")]
    LongInput,
    /// The images that begin are more than there are lines for.
    #[error("too many images")]
    TooManyImages,
    /// There is no memory for a packet or for the table of images.
    #[error("out of memory")]
    Memory,
}
