//! This crate has the settings of the coder, the wishes of a decoder, code books, the geometry of an image and the weights of its subbands.
//!
//! Layer: settings and the outside. It is used by `raster_rows`, `plane_defs`, `segment_defs`, `stream_defs`, `block_families`,
//! `wave_strip`, `inverse_strip` and 27 more.
//!
//! A setting is made, checked and measured so (`a_setting_is_checked` of `crate_examples`):
//!
//! ```rust
//! let setting = Setting {
//!     depth: 12,
//!     segment: 128,
//!     ..Setting::usual(1024, 768)
//! };
//! assert_eq!(rt; setting.check(), Ok(()));
//! let geometry = setting.geometry_for(setting.rows);
//! assert_eq!(rt; geometry.segments(), 96);
//! ```
#![tactic(auto)]

mod book;
mod field;
mod geometry;
mod range;
mod setting;
mod weights;
mod wish;

pub use book::{Book, Code};
pub use field::{Field, OutOfRange};
pub use geometry::Geometry;
pub use range::FieldRange;
pub use setting::{Select, Setting, Stop, is_limit_in_range, is_total_in_range, need};
pub use weights::{Band, Weights};
pub use wish::DecodeWish;
