//! This crate writes and reads a whole segment: its depths and its text (docs/formats.md, "Segments and depths", "Stops, cut and
//! fill" and "Reading a segment").
//!
//! Layer: bits and the parts of a segment. It uses `base_122`, `item_defs`, `number_defs`, `wave_defs`, `plane_defs`, `segment_defs`,
//! `block_masks` and 6 more. It is used by `bare_text`, `strip_coder`, `strip_decoder`, `encoder_rows`, `quick_look`, `bare_stream`,
//! `strip122` and 2 more.
//!
//! A segment's blocks are decoded from the octets after its header so (`read_text` of `crate_examples`):
//!
//! ```rust
//! let rest = &text[usize::from(head.octets())..];
//! let count = head.blocks as usize;
//! let Ok(mut numbers) = vec![in alloc; 0; 64 * count] else {
//!     return Err(NotRead::NoMemory);
//! };
//! let Ok(mut marks) = vec![in alloc; 0; count] else {
//!     return Err(NotRead::NoMemory);
//! };
//! match decode_segment(
//!     &mut SliceIn::new(rest),
//!     &head,
//!     &mut numbers,
//!     &mut marks,
//!     &profile_book(),
//! ) {
//!     Ok(part) => Ok(ReadBlocks {
//!         head,
//!         part,
//!         numbers,
//!     }),
//!     Err(fault) => Err(NotRead::BadText(fault)),
//! }
//! ```
#![tactic(auto)]

mod blocks;
mod decode;
mod depths;
mod encode;
mod end_in;
mod fault;
mod head_plans;
mod laws;
mod planes;
mod start;
mod text_end;
mod text_in;

pub use blocks::SegmentBlocks;
pub use decode::{SegmentReader, decode_segment};
pub use encode::{SegmentWriter, encode_segment};
pub use fault::SegmentFault;
pub use laws::{
    answers_agree, coded_texts_are_read, outcomes_agree, spelled_texts_decide, texts_are_short,
    texts_end_so, texts_end_there, texts_give_parts, worked_answers,
};
