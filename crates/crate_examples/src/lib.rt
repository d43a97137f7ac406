//! An example for each of three ways to call the crates: rows are encoded, a segment's text is read, packets are listed (crates/README.md).
//! It is not part of the program.
//!
//! Layer: tests and examples, no part of the program. It uses `base_122`, `port_122`, `raster_rows`, `item_defs`, `wave_defs`,
//! `plane_defs`, `segment_defs` and 9 more.
#![tactic(auto)]

mod lists;
#[cfg(test)]
mod openings;
mod rows;
#[cfg(test)]
mod tests;
mod texts;

pub use lists::list_octets;
pub use rows::{encode_frame, hand_in};
pub use texts::{NotRead, ReadBlocks, read_text};
