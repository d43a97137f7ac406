//! A picture that is made of its blocks, one after another, in the memory of a strip: each row is given as soon as the blocks so far
//! determine it.
//!
//! Layer: packets and pictures. It uses `base_122`, `port_122`, `raster_rows`, `wave_defs`, `stream_defs`, `block_families` and
//! `inverse_strip`. It is used by `strip_decoder`, `quick_look` and `bare_stream`.
#![tactic(auto)]

mod blocks;
mod picture;
mod rows;

pub use blocks::{put_block, put_missing};
pub use picture::{Picture, PictureAt};
