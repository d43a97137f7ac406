//! This crate has the outside of the program: octets that are read, octets that are written and notes, with each
//! fault counted. The rules are in docs/architecture.md, "The outside".
//!
//! Layer: settings and the outside. It is used by `raster_rows`, `code_book`, `space_packets`, `packet_assembly`, `picture_rows`,
//! `strip_coder`, `strip_decoder` and 9 more.
#![tactic(auto)]

mod answers;
mod memory;
mod pieces;
mod port;
mod retries;
mod standard;
mod steady;

pub use answers::{Reader, Writer};
pub use memory::MemoryPort;
pub use pieces::{note_all, write_all};
pub use port::{Failed, Port};
pub use standard::StdPort;
pub use steady::SteadyPort;
