//! Packets that carry the texts of segments. The rules are in docs/formats.md, "Packets".
//!
//! Layer: packets and pictures. It uses `port_122`, `item_defs`, `packet_defs` and `bit_pipe`. It is used by `packet_assembly`,
//! `strip_coder`, `strip_decoder`, `camera_mux` and `port_tests`.
#![tactic(auto)]

mod header;
mod laws;
mod packet_reader;
mod packetiser;
mod reading;
mod sink;
mod stage;

pub use laws::{packetiser_serves_again, texts_go_whole};
pub use packet_defs::{Ancillary, Framing, PacketHead, PacketRead, Skip};
pub use packet_reader::PacketReader;
pub use packetiser::Packetiser;
pub use reading::skip_of;
pub use sink::PacketSink;
