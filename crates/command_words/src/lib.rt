//! This crate reads the arguments of the command line, and returns the command that they ask for or the first thing that is wrong with
//! them, or the program's own answer to `help` and `version`.
//!
//! Layer: the program and the library for C. It uses `base_122` and `raster_rows`. It is used by `strip122`.
#![tactic(auto)]

mod answers;
mod command;
mod entries;
mod given;
mod help;
mod reading;
mod tables;
mod values;

pub use answers::{Answer, answer_text, answer_to};
pub use command::{Command, WordFault};
pub use reading::read_words;
pub use tables::Reading;
