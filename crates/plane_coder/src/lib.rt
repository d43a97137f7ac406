//! This crate writes a bit plane of a segment as raw bits and coded words (docs/formats.md, "Bit planes" and "Words and codes").
//!
//! Layer: bits and the parts of a segment. It uses `base_122`, `item_defs`, `wave_defs`, `plane_defs`, `block_masks`, `bit_pipe` and
//! `word_codes`. It is used by `segment_code` and `layer_tests`.
//!
//! `SegmentMasks` of `block_masks` has masks of the numbers of a segment, and `view` reads those of a block in a plane.
//! `plane_masks` has the word and the signs that each set of positions and flags sends, by masks and tables.
//! `fours` looks up the types of four positions with their signs, without a test of whether their set is significant. `collect`
//! makes lists of the words of a gaggle in stages 1 to 3 (`words`), without those that have no bits. `choose` adds up the bits that
//! these words take under each option (`costs`) and chooses the gaggle's options. While the words are at hand, `kept` makes their bits, which are collected
//! in a `pending`, and puts them into the gaggle's masks of a `room`. Then `stages` puts these bits stage by stage. The
//! words of a stage for whose bits a gaggle has no room are found again, and put with `put`. The first and the last stage, which have no
//! words, go over the blocks. The states of the blocks have the options meanwhile. At the end of a plane, the masks are prepared for
//! the plane below (`plane`).
//!
//! `block_masks` has what the reader of planes needs too: plans, masks, sets of positions and the states of blocks.
#![tactic(auto)]

mod choose;
mod collect;
mod costs;
mod fours;
mod kept;
mod masks;
mod option_codes;
mod pending;
mod plane;
mod plane_masks;
mod pushes;
mod put;
mod room;
mod stages;
mod tables;
mod view;
mod words;

pub use block_masks::{PlanePlan, SegmentMasks};
pub use plane::{PlaneSource, put_plane};
pub use room::GaggleRoom;
pub use tables::CodeTables;
