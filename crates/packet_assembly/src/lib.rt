//! The fate of each packet of a stream, and the texts of the segments that the kept ones carry. The rules are in docs/formats.md, "Fates".
//!
//! Layer: packets and pictures. It uses `base_122`, `port_122`, `segment_defs`, `packet_defs`, `stream_defs`, `bit_pipe`, `segment_head`
//! and `space_packets`. It is used by `strip_decoder`, `quick_look`, `camera_mux`, `strip122`, `strip122_c`, `port_tests` and
//! `crate_examples`.
//!
//! A segment is found, and its text is taken after its header, so (`the_text_of_a_segment_is_assembled` of `crate_examples`):
//!
//! ```rust
//! let mut assembly = Assembly::new(rt.alloc(), 100, 1 << 20)?;
//! let start = assembly.next_segment(&mut port);
//! assert_eq!(rt;
//!     start.map(|start| start.map(|start| start.head.blocks)),
//!     Ok(Some(9))
//! );
//! let mut text = assembly.text(&mut port);
//! assert_eq!(rt; text.take(), Ok(Some(0x06)));
//! ```
#![tactic(auto)]

mod agreement;
mod assembly;
mod classification;
mod laws;
mod note;
mod packet_steps;
mod text;

pub use assembly::Assembly;
pub use classification::{classify, past_kept};
pub use laws::{answers_again, tails_report};
pub use note::{PacketNote, SegmentStart};
pub use packet_defs::{Ancillary, Framing, Skip};
pub use packet_steps::framing_in;
pub use stream_defs::Fate;
pub use text::SegmentText;
