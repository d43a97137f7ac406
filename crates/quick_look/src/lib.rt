//! A small picture with one value for each block of an image, without the inverse transform: each row is given as soon as its block row
//! is whole. Besides, the rectangles of a picture that losses damage: a line for each, and the laws that no loss changes a pixel outside
//! them.
//!
//! Layer: packets and pictures. It uses `base_122`, `port_122`, `raster_rows`, `wave_defs`, `plane_defs`, `segment_defs`, `packet_defs` and
//! 5 more. It is used by `strip122` and `strip122_c`.
#![tactic(auto)]

mod containment;
mod gap;
mod gaps;
mod laws;
mod look;
mod rect;
mod rect_laws;
mod rect_lines;
mod rect_list;
mod row;

pub use containment::decoding_stays_in_rects;
pub use gap::Gap;
pub use gaps::Gaps;
pub use laws::{look_is_low, looks_are_of_images};
pub use look::look_packets;
pub use rect::Rect;
pub use rect_laws::{gaps_give_rects, losses_stay_in_rects, rects_are_reach, worked_rects};
pub use rect_list::list_rects;
