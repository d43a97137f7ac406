//! This crate reads the bit planes of a segment (docs/formats.md, "Bit planes", "Words and codes" and "Stops, cut and fill").
//!
//! Layer: bits and the parts of a segment. It uses `base_122`, `item_defs`, `wave_defs`, `plane_defs`, `block_masks`, `bit_pipe` and
//! `word_codes`. It is used by `segment_code` and `layer_tests`.
//!
//! `take_planes` goes over the planes, from the top down, with masks in the place of the numbers: `slicing` makes them before the first
//! plane, and `joining` turns them into numbers after the last, block by block (`number_lanes`). Before that `restoring` moves the numbers
//! into their intervals, if it is asked to. `plane` goes over the stages and gaggles of a plane, and `dc_bits` reads stage 0. A stage of a
//! gaggle is read from a window of the text that is held while it lasts: `gaggles` goes over its blocks that are deep enough (`deep`).
//!
//! A `Cursor` holds the window: the input is behind by the bits that were read of it, until the cursor is closed. `PlaceTables` have the
//! word that is first in an octet for each mask of what is due. A `Reading` reads flags, words, types and signs by them, and deals out the
//! bits of half a block at once; a word whose option is not known yet, for which the window is too short, or for which there are no tables is read item
//! by item after the cursor is closed, by `word`, `types` and `signs`. `children`, `grandchildren` and `refine` read what a block sends in stages 2, 3 and 4,
//! and `stages` adds what was found to the masks of the block.
#![tactic(auto)]

mod apply;
mod children;
mod cursor;
mod dc_bits;
mod deep;
mod found;
mod gaggles;
mod grandchildren;
mod groups;
mod joining;
mod number_lanes;
mod places;
mod plane;
mod planes;
mod reading;
mod refine;
mod restoring;
mod signs;
mod slicing;
mod stages;
mod types;
mod word;

pub use places::PlaceTables;
pub use planes::{SentPlanes, take_planes};
