// The results of a list of packets, or a pick of them.
use packet_defs::Framing;
use thiserror::Error;

/// What was listed or picked: the number of packets, and why the stream can't be read on, if that was found.
#[derive(Clone, Copy, Debug, PartialEq, Eq)]
pub struct ListDone {
    pub packets: u64,
    pub framing: Option<Framing>,
}

/// The reason why not all packets were listed or picked.
#[derive(Clone, Copy, Debug, PartialEq, Eq, Error)]
pub enum ListFault {
    /// A read failed.
    #[error("read fault")]
    ReadFault,
    /// A write failed.
    #[error("write fault")]
    WriteFault,
    /// The input has more octets than are read.
    #[error("input too long")]
    LongInput,
    /// There is no memory for a packet.
    #[error("out of memory")]
    Memory,
}
