//! The decoder: one walk over the segments that the packets of a stream carry, and what is made of their blocks: the picture, row by row and
//! in the memory of a strip, or the lines of the rows that losses damage. Besides, the list of packets with a line for each.
//!
//! Layer: packets and pictures. It uses `base_122`, `port_122`, `raster_rows`, `item_defs`, `number_defs`, `wave_defs`, `plane_defs` and 11
//! more. It is used by `encoder_rows`, `quick_look`, `camera_mux`, `bare_stream`, `strip122`, `strip122_c` and `crate_examples`.
//!
//! `walk_segments` passes all blocks of an image to a `BlockSink` in raster order: those of the segments that are received, each with its
//! 64 numbers, and all others as missing. It marks the missing block rows, and returns what was read with the sink. What is made of the
//! blocks is the sink's: this crate has one for the picture and one for the damaged rows, and `quick_look` one for a small picture and one
//! for the damaged rectangles.
//!
//! Packets in memory are decoded so (`a_packet_gives_its_picture` of `crate_examples`):
//!
//! ```rust
//! let wish = DecodeWish {
//!     pixels: 1 << 20,
//!     ..DecodeWish::usual()
//! };
//! let done = decode_packets(rt.alloc(), &mut port, &wish);
//! assert_eq!(rt; done.map(|done| done.written), Ok(17));
//! assert_eq!(rt; port.given(), [200; 289].as_slice());
//! ```
#![tactic(auto)]

mod blocks;
mod decode;
mod ending;
mod engine;
mod find;
mod laws;
mod list;
mod listing;
mod packet_lines;
mod pictures;
mod received;
mod segments;
mod sink;
mod walk;

pub use decode::decode_packets;
pub use ending::{DecodeDone, DecodeFault};
pub use engine::{Walked, walk_segments};
pub use find::{NoPicture, find_damage};
pub use laws::{decoding_contains, losses_are_contained, round_trip};
pub use list::{ListDone, ListFault};
pub use listing::list_packets;
pub use received::received_is_known;
pub use segments::least_pixels;
pub use sink::BlockSink;
