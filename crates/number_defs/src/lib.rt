//! This crate defines numbers by differences, the DC part and the block depths of a segment's text: how they
//! are written, how they are read, as scripts, and their laws (docs/formats.md, "Numbers by differences" and "DC part and block
//! depths").
//!
//! Layer: definitions and their laws, no code. It uses `item_defs`. It is used by `segment_defs`, `gaggle_codes`, `dc_depths`,
//! `segment_code`, `strip_decoder`, `encoder_rows`, `bare_stream` and `layer_tests`.
#![tactic(auto)]

mod scripts;

ghost use Rattle.number_defs.specs.Laws.{MappingUndoes, HeightsUndo, CountsBits, DcBitsAreFew};

pub use scripts::{
    dc_part_is_read, dcs_are_given, depths_are_read, numbers_are_read, worked_lows, worked_texts,
};

/// After each number, mapped values and numbers undo each other.
pub const fn mapping_undoes()
    ensures { MappingUndoes }
{}

/// Numbers, their heights and their two's complement form undo each other.
pub const fn heights_undo()
    ensures { HeightsUndo }
{}

/// The choice of an option counts the bits of its items.
pub const fn choice_counts_bits()
    ensures { CountsBits }
{}

/// The numbers of a DC part have at most 10 bits, and hold each DC of the head's BitDepthDC.
pub const fn dc_bits_are_few()
    ensures { DcBitsAreFew }
{}
