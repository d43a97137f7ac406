//! The definitions of the stream of packets: all packets of an image, and what a reader takes from any packets.
//!
//! Layer: definitions and their laws, no code. It uses `base_122`, `raster_rows`, `wave_defs`, `plane_defs`, `segment_defs` and
//! `packet_defs`. It is used by `packet_assembly`, `damage_rows`, `picture_rows`, `strip_coder`, `strip_decoder`, `encoder_rows`,
//! `quick_look` and 5 more.
#![tactic(auto)]

mod fate;
mod laws;
mod range;

pub use fate::{Fate, FateState, LastPart};
pub use laws::{
    damage_is_least, heights_are_known, images_are_kept, images_settle, packets_of_blocks,
    settled_is_same, shares_fit, sublists_are_kept,
};
pub use range::RowRange;
