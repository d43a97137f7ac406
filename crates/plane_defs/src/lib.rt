//! This crate defines the bit planes: the sets of a block, what a block sends in each stage of a plane,
//! the codes of words, and how planes are read, as scripts (docs/formats.md, "Bit planes" and "Words and codes").
//!
//! Layer: definitions and their laws, no code. It uses `base_122`, `item_defs` and `wave_defs`. It is used by `segment_defs`,
//! `stream_defs`, `block_masks`, `word_codes`, `code_book`, `plane_coder`, `plane_reader` and 12 more.
#![tactic(auto)]

mod entries;
mod laws;
mod scripts;
mod sets;
mod stages;

pub use entries::{Bits, Entry};
pub use laws::words_read_once;
pub use scripts::{
    planes_are_read, planes_are_returned, planes_go, types_are_read, worked_lows, worked_texts,
};
pub use sets::Set;
pub use stages::Stage;
