//! This crate reads and writes rows of a raster, and makes the made image (docs/formats.md, "Raster and made image").
//!
//! Layer: settings and the outside. It uses `base_122` and `port_122`. It is used by `stream_defs`, `picture_rows`, `strip_coder`,
//! `strip_decoder`, `encoder_rows`, `quick_look`, `camera_mux` and 6 more.
#![tactic(auto)]

mod end;
mod form;
mod gathered;
mod made;
mod padding;
mod reading;
mod writing;

pub use end::at_end;
pub use gathered::GatheredRows;
pub use made::{MadeImage, made_pixel};
pub use padding::pad_row;
pub use reading::{RowFault, read_row};
pub use writing::write_row;
