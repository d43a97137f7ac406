//! The definitions of packets: their octets, and how a stream of octets is read as packets.
//!
//! Layer: definitions and their laws, no code. It is used by `stream_defs`, `space_packets`, `packet_assembly`, `strip_coder`,
//! `strip_decoder`, `encoder_rows`, `quick_look` and 5 more.
#![tactic(auto)]

ghost use Rattle.packet_defs.specs.Laws.{PacketsReadBack, StreamsSplit};

mod ancillary;
mod packet;

pub use ancillary::Ancillary;
pub use packet::{Framing, PacketHead, PacketRead, Skip};

/// A packet is read as it was written.
pub const fn packets_read_back()
    ensures { PacketsReadBack }
{}

/// A stream is whole packets and a rest that begins with no packet, in exactly one way.
pub const fn streams_split()
    ensures { StreamsSplit }
{}
