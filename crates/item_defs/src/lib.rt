//! This crate defines texts: bits, the items that a text is made of, the code of each item, and how a text is
//! read as items, by a script of questions (docs/formats.md, "Reading a segment").
//!
//! Layer: definitions and their laws, no code. It is used by `number_defs`, `plane_defs`, `segment_defs`, `block_masks`, `bit_pipe`,
//! `gaggle_codes`, `dc_depths` and 13 more.
#![tactic(auto)]

mod scripts;

ghost use Rattle.item_defs.specs.Laws.{BitsUndo};

pub use scripts::{scripts_complete, scripts_run_in_order, scripts_say, turns_split};

/// Bits and numbers, and bits and octets, represent each other.
pub const fn bits_undo()
    ensures { BitsUndo }
{}
