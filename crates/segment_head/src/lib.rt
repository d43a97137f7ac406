//! This crate writes and reads the head of a segment as octets (docs/formats.md, "The head").
//!
//! Layer: bits and the parts of a segment. It uses `base_122`, `item_defs`, `segment_defs` and `bit_pipe`. It is used by `segment_code`,
//! `bare_text`, `packet_assembly`, `strip_coder`, `strip_decoder`, `encoder_rows`, `bare_stream` and 2 more.
#![tactic(auto)]

ghost use Rattle.segment_head.specs.Laws.{HeadsUndo};

mod carried;
mod field;
mod places;
mod read;
mod write;

pub use carried::Carried;
pub use read::{carried_in, part_1_length, read_head};
pub use segment_defs::{HeadFault, HeadField, ImagePart, Odd, SegmentHead};
pub use write::{put_part_1, put_part_2, put_part_3, put_part_4, write_head};

/// A head is read as it was written, and one that was read can be written.
pub const fn heads_undo()
    ensures { HeadsUndo }
{}
