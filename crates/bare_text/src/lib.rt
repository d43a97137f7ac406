//! One text of a bare stream, both ways: a head that carries only the parts that changed, and the items after it
//! (docs/formats.md, "Bare texts").
//!
//! Layer: bits and the parts of a segment. It uses `base_122`, `item_defs`, `wave_defs`, `plane_defs`, `segment_defs`, `bit_pipe`,
//! `segment_head` and `segment_code`. It is used by `bare_stream`.
#![tactic(auto)]

ghost use Rattle.bare_text.specs.Laws.{BareHeadsUndo, BareHeadsEndThere, BareTextsHold};

mod agree;
mod encode;
mod parts;
mod read;
mod write;

pub use agree::check_agreement;
pub use encode::BareWriter;
pub use parts::PartsInForce;
pub use read::{BareHead, BareHeadFault, BareReader, read_bare_head};
pub use segment_code::SegmentFault;
use segment_code::spelled_texts_decide;
pub use segment_head::{Carried, HeadFault, SegmentHead};
pub use write::put_bare_head;

/// A head that carries only the parts that changed is read as it was written, by a reader that has read the head before.
pub const fn bare_heads_undo()
    ensures { BareHeadsUndo }
{}

/// Octets that decide a head, or its refusal, decide it whatever octets follow.
pub const fn bare_heads_end_there()
    ensures { BareHeadsEndThere }
{}

/// What was encoded can be decoded, with restored numbers or without: a text is its head and the octets that decide its blocks, the coded
/// ones if there is neither a stop nor a limit.
pub const fn bare_texts_hold()
    ensures { BareTextsHold }
{
    spelled_texts_decide();
}
