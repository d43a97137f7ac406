//! This crate defines a coded segment: its depths, its head, its text with padding, cut and fill, what a text is read as, and the name by
//! which it is refused (docs/formats.md, "Reading a segment"). A text is read as values exactly if it holds some.
//!
//! Layer: definitions and their laws, no code. It uses `base_122`, `item_defs`, `number_defs`, `wave_defs` and `plane_defs`. It is used by
//! `stream_defs`, `segment_head`, `segment_code`, `bare_text`, `packet_assembly`, `strip_coder`, `strip_decoder` and 8 more.
#![tactic(auto)]

ghost use Rattle.segment_defs.specs.Laws.{SizeIsLeast, DepthsAreLeast, StopsAtDc};

mod fault;
mod head;
mod texts;

pub use fault::{HeadFault, HeadField, Odd};
pub use head::{ImagePart, SegmentHead};
pub use texts::{
    segments_are_read, texts_are_given, texts_are_read, texts_are_restored, texts_have_outcomes,
    texts_read_as_wished, wishes_agree, worked_given, worked_texts,
};

/// The size of a number is the least number of bits that hold it.
pub const fn size_is_least()
    ensures { SizeIsLeast }
{}

/// The depths of a segment are the least that hold its numbers.
pub const fn depths_are_least()
    ensures { DepthsAreLeast }
{}

/// A text that stops at the DC numbers has only the DC part after its head.
pub const fn stops_at_dc()
    ensures { StopsAtDc }
{}
