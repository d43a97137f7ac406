//! This crate codes numbers by differences, gaggle by gaggle (docs/formats.md, "Numbers by differences").
//!
//! Layer: bits and the parts of a segment. It uses `base_122`, `item_defs`, `number_defs` and `bit_pipe`. It is used by `dc_depths`,
//! `segment_code` and `layer_tests`.
#![tactic(auto)]

mod choice;
mod gaggle_heights;
mod mapped_values;
mod mapping;
mod numbers;
mod put;
mod range;
mod strided_cells;
mod take;
mod take_gaggle;
mod unmapping;
mod values;

pub use choice::choose;
pub use put::put_values;
pub use range::{BoundedRange, NumberRange};
pub use take::{take_bounded, take_values};
