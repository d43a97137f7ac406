//! Which code books are sound, and how one is read from a port (docs/formats.md, "Words and codes").
//!
//! Layer: bits and the parts of a segment. It uses `base_122`, `port_122`, `item_defs` and `plane_defs`. It is used by `strip122`,
//! `strip122_c`, `port_tests` and `layer_tests`.
#![tactic(auto)]

mod check;
mod fault;
mod laws;
mod read;

pub use base_122::{Book, Code};
pub use check::check_book;
pub use fault::BookFault;
pub use laws::sound_books_are_read;
pub use read::read_book;
