// What is read of a packet.
use crate::ancillary::Ancillary;

/// A packet's primary header, without its version, its type and its flag for a secondary header.
#[derive(Clone, Copy, Debug, PartialEq, Eq)]
pub struct PacketHead {
    pub apid: u16,
    /// The sequence flags: 1 for the first part of more, 0 for one between, 2 for the last, 3 for one that is alone.
    pub flags: u8,
    /// The sequence count.
    pub count: u16,
    /// The number of octets of the packet data field.
    pub length: u32,
}

/// The reason why a packet isn't one of the image with the wanted APID (docs/formats.md, "Fates").
#[derive(Clone, Copy, Debug, PartialEq, Eq)]
pub enum Skip {
    Idle,
    NotTelemetry,
    OtherApid,
    NoSecondary,
    ShortAncillary,
    OtherMark,
}

/// The reason why a stream of packets can't be read on (docs/formats.md, "Packets").
#[derive(Clone, Copy, Debug, PartialEq, Eq)]
pub enum Framing {
    /// A packet begins with another version than 000, at this octet of the stream, from 0.
    BadVersion { octet: u64 },
    /// The input ends inside a packet: this number of octets is missing, of its primary header if that is cut, otherwise of its packet data
    /// field.
    CutPacket { missing: u32 },
}

/// What was read: a packet of the image, another packet, the end, or no packet.
#[derive(Clone, Copy, Debug, PartialEq, Eq)]
pub enum PacketRead {
    Mine {
        head: PacketHead,
        ancillary: Ancillary,
    },
    Skipped(Skip),
    Ended,
    Fault(Framing),
}
