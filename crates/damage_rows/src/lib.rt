//! The rows of an image that missing block rows damage. The rules are in docs/formats.md, "Picture and damage".
//!
//! Layer: packets and pictures. It uses `base_122`, `wave_defs` and `stream_defs`. It is used by `strip_decoder`, `strip122` and
//! `strip122_c`.
#![tactic(auto)]

mod damage;

pub use damage::Damage;
pub use stream_defs::RowRange;
