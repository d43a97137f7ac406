//! This crate gathers the 64 numbers of a block from the bands of a transform and puts them back into the bands.
//!
//! Layer: transform and blocks. It uses `base_122` and `wave_defs`. It is used by `wave_strip`, `inverse_strip`, `wave_plain`,
//! `block_masks`, `picture_rows`, `strip_coder`, `strip_decoder` and 2 more.
#![tactic(auto)]

mod bands;
mod gathering;
mod place;
mod scattering;

pub use bands::{BandRows, BandSink, BandSource};
pub use gathering::{gather, gather_run};
pub use place::{Place, place_of};
pub use scattering::scatter;
