//! This crate defines the wavelet transform, with its laws: a line, a level, the ten bands of three levels,
//! padding, and the numbers of a block.
//!
//! Layer: definitions and their laws, no code. It is used by `plane_defs`, `segment_defs`, `stream_defs`, `lift_lanes`, `lift_rows`,
//! `block_families`, `wave_strip` and 19 more.
#![tactic(auto)]

ghost use Rattle.wave_defs.specs.Settled.{RowsSettle};
ghost use Rattle.wave_defs.specs.Reach.{LineReach, InverseReach, OneReach, RisingInverse, ForwardReach};
ghost use Rattle.wave_defs.specs.Laws.{LineMirrors, LineUndoes, LevelUndoes, PyramidUndoes, ForwardBounds, BlockBounds, InverseBounds};

/// The mirror of the even samples is that of all samples (docs/formats.md, "A line").
pub const fn mirrors()
    ensures { LineMirrors }
{}

/// The definitions and their inverses undo each other in both orders (docs/formats.md, "A line", "Levels and
/// padding").
pub const fn undoes()
    ensures line { LineUndoes }
    ensures level { LevelUndoes }
    ensures pyramid { PyramidUndoes }
{}

/// The values of both directions have bounds (docs/formats.md, "Bounds").
pub const fn stays_bounded()
    ensures forward { ForwardBounds }
    ensures blocks { BlockBounds }
    ensures inverse { InverseBounds }
{}

/// A sample of the inverse is made from certain numbers only, and so a block has a reach (docs/formats.md,
/// "Picture and damage").
pub const fn reaches()
    ensures line { LineReach }
    ensures blocks { InverseReach }
    ensures one { OneReach }
    ensures rising { RisingInverse }
{}

/// The first rows of an image determine the first rows of its bands, and so a block row (docs/formats.md,
/// "Levels and padding", "Picture and damage").
pub const fn settles()
    ensures rows { RowsSettle }
    ensures blocks { ForwardReach }
{}
