//! The encoder: from a raster's octets to space packets, row by row and in the memory of a strip.
//!
//! Layer: packets and pictures. It uses `base_122`, `port_122`, `raster_rows`, `item_defs`, `wave_defs`, `plane_defs`, `segment_defs` and 7
//! more. It is used by `encoder_rows`, `camera_mux`, `bare_stream`, `strip122`, `strip122_c`, `port_tests` and `crate_examples`.
//!
//! A frame in memory is encoded so (`encode_frame` of `crate_examples`, whose `hand_in` puts a row into `work.row` and calls `row_in`):
//!
//! ```rust
//! start_image(setting, work);
//! let width = setting.width as usize;
//! for row in 0..setting.rows as usize {
//!     let start = row * width;
//!     let Ok(()) = hand_in(port, setting, work, &frame[start..start + width]) else {
//!         return Err(Failed);
//!     };
//! }
//! image_end(port, setting, work)
//! ```
#![tactic(auto)]

mod encode;
mod engine;
mod form;
mod gather;
mod laws;
mod plan;
mod room;
mod rows;
mod segments;
mod work;

pub use encode::{EncodeDone, EncodeFault};
pub use engine::{image_end, push, row_in, start_image, write_rest};
pub use form::{AsPackets, SegmentOut};
pub use laws::last_row_settles_all;
pub use plan::Plan;
pub use rows::{encode_rows, row_fault};
pub use segments::make_head;
pub use work::{ImageAt, Work};
