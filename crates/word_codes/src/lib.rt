//! This crate codes words of up to four bits, and chooses the codes' tables.
//!
//! Layer: bits and the parts of a segment. It uses `base_122`, `item_defs`, `plane_defs` and `bit_pipe`. It is used by `plane_coder`,
//! `plane_reader`, `layer_tests` and `crate_examples`.
#![tactic(auto)]

mod book;
mod choice;
mod put;
mod symbols;
mod tables;
mod take;

pub use base_122::{Book, Code};
pub use book::profile_book;
pub use choice::best_option;
pub use put::{code_of_word, put_option, put_word};
pub use symbols::symbol_of;
pub use tables::WordTables;
pub use take::{FirstWord, first_word, take_option, take_word, take_word_by};
