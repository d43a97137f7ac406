//! This crate has the numbers of a block in a bit plane as masks of 64 bits, and what the writer and the reader of a plane
//! share (docs/formats.md, "Bit planes").
//!
//! Layer: transform and blocks. It uses `base_122`, `item_defs`, `wave_defs`, `plane_defs` and `block_families`. It is used by
//! `plane_coder`, `plane_reader`, `segment_code` and `layer_tests`.
//!
//! Bit k of a mask is for the k-th position. `plan` makes a `CodedPlane` of a `PlanePlan`, once for all blocks. `masks` and
//! `bytes` read a block, `mask_sets` makes masks of masks, `sets` finds the sets of positions that have a member of a mask, and `picks`
//! collects the bits of up to four positions. `paired` has two masks beside each other, of which it picks like `picks`. `walk` goes over
//! the positions of a mask. `segment_masks` has the masks of a segment that is written, which are made block by block. `slices` has those of
//! a segment that is read, in the place of its numbers. From one stage to the next `gaggle` keeps in the states of blocks which options and
//! words the gaggles have, and which families of a block are significant.
#![tactic(auto)]

mod bytes;
mod gaggle;
mod mask_sets;
mod masks;
mod paired;
mod picks;
mod plan;
mod segment_masks;
mod sets;
mod slices;
mod walk;

pub use gaggle::{Gaggle, depth_of, families_of, gaggle_in, load, mark_of, store, with_families};
pub use mask_sets::{both, either, except, four, has, is_any, joined, masked, one, part, three};
pub use paired::PairedFours;
pub use picks::{pick, spread, spread_first};
pub use plan::{CodedPlane, PlanePlan};
pub use segment_masks::SegmentMasks;
pub use sets::{Sets, fours_of, is_any_of, quads_of};
pub use slices::{ABOVE, Column, DC, GROUP, MINUS, RAW, mask_of, put_mask, settle_above};
pub use walk::{first_in, without};
