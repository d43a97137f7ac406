//! This crate has the inverse transform of an image whose block rows arrive one after the other, in the
//! memory of some rows.
//!
//! Layer: transform and blocks. It uses `base_122`, `wave_defs`, `lift_rows`, `block_families` and `line_rings`. It is used by
//! `picture_rows` and `wave_tests`.
#![tactic(auto)]

mod block_row;
mod columns;
mod level;
mod sink;
mod small;
mod stage;
mod strip;
mod zeros;

pub use strip::StripInverse;
