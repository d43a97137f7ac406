//! This crate codes the DC part and the block depths of a segment's text (docs/formats.md, "DC part and block depths").
//!
//! Layer: bits and the parts of a segment. It uses `base_122`, `item_defs`, `number_defs`, `bit_pipe` and `gaggle_codes`. It is used by
//! `segment_code` and `layer_tests`.
#![tactic(auto)]

mod dc;
mod dc_in;
mod depths;
mod depths_in;
mod plan;
mod reach;
mod restore;

pub use dc::put_dc;
pub use dc_in::{take_dc, take_dc_reach};
pub use depths::put_depths;
pub use depths_in::take_depths;
pub use plan::DcPlan;
pub use reach::DcReach;
pub use restore::restore_dcs;
