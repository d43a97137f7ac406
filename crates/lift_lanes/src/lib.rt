//! This crate has the lifting steps at each place of slices of one length, on lanes. Nothing is refused: the
//! sums fit by the bounds that the caller guarantees.
//!
//! Layer: transform and blocks. It uses `wave_defs`. It is used by `lift_rows` and `wave_tests`.
#![tactic(auto)]

mod back;
mod back_samples;
mod even_rows;
mod lanes;
mod narrow;
mod narrow_onto;
mod samples;
mod wide;
mod wide_samples;

pub use back::{predict_add_narrow, predict_add_widened, update_add_narrow};
pub use back_samples::{even_sample_narrow, odd_sample_narrow};
pub use even_rows::EvenRows;
pub use narrow::{predict_sub, update_sub};
pub use narrow_onto::{predict_sub_onto, update_sub_onto};
pub use samples::{high_sample, low_sample};
pub use wide::{predict_add, update_add};
pub use wide_samples::{even_sample, odd_sample};
