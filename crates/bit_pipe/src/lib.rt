//! This crate writes and reads bits over octets, for texts up to a bound (docs/formats.md, "Stops, cut and fill").
//!
//! Layer: bits and the parts of a segment. It uses `item_defs`. It is used by `gaggle_codes`, `dc_depths`, `word_codes`, `plane_coder`,
//! `plane_reader`, `segment_head`, `segment_code` and 10 more.
//!
//! Bits are taken from octets so (`bits_are_taken_from_octets` of `crate_examples`):
//!
//! ```rust
//! let mut input = SliceIn::new(&[0xa5, 0x80]);
//! let mut bits = BitIn::new(&mut input, 0, 0);
//! assert_eq!(rt; bits.take(), Ok(Some(true)));
//! assert_eq!(rt; bits.take_bits(7), Ok(Some(0x25)));
//! assert_eq!(rt; bits.used(), 8);
//! ```
#![tactic(auto)]

mod bit_in;
mod bit_out;
mod bound;
mod fault;
mod octets;
mod piece;
mod prefix;
mod sink;
mod slice_in;
mod slice_out;
mod source;
mod word;

pub use bit_in::BitIn;
pub use bit_out::BitOut;
pub use fault::{Failed, InFault, Part, PutFault, TextFault};
pub use prefix::Prefix;
pub use sink::OctetOut;
pub use slice_in::SliceIn;
pub use slice_out::SliceOut;
pub use source::OctetIn;
