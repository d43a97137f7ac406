//! The encoder as a value that its caller keeps from row to row: it takes rows from memory, and puts their packets into memory.
//!
//! Layer: packets and pictures. It uses `base_122`, `port_122`, `raster_rows`, `item_defs`, `number_defs`, `wave_defs`, `plane_defs` and 8
//! more. It is used by `strip122_c`.
//!
//! ```rust
//! let mut encoder = Encoder::new(alloc, &setting)?;
//! for row in raster.chunks(row_octets) {
//!     let octets = encoder.row(row, &mut room)?;
//!     send(&room[..octets]);
//! }
//! let ended = encoder.end(next_image, &mut room)?;
//! send(&room[..ended.octets]);
//! ```
#![tactic(auto)]

mod encoder;
mod laws;
mod ports;
mod progress;
mod refusal;
mod room;
mod rows;

pub use encoder::Encoder;
pub use laws::{gives_as_encode, outputs_fit, rooms_are_enough};
pub use ports::OctetsIn;
pub use progress::Progress;
pub use refusal::{EndRefusal, Ended, NewRefusal, RowRefusal};
pub use room::{end_room, image_room, row_room};
