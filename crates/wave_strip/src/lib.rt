//! This crate has the forward transform of an image whose rows arrive one after the other, in the memory of
//! some rows.
//!
//! Layer: transform and blocks. It uses `base_122`, `wave_defs`, `lift_rows`, `block_families` and `line_rings`. It is used by
//! `strip_coder`, `encoder_rows`, `camera_mux`, `bare_stream` and `wave_tests`.
#![tactic(auto)]

mod chain;
mod columns;
mod level;
mod pairs;
mod strip;
mod tail;

pub use strip::StripWave;
