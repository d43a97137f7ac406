// The stages of a plane.

/// A stage of a bit plane, in order (docs/formats.md, "Bit planes").
#[derive(Clone, Copy, Debug, PartialEq, Eq)]
pub enum Stage {
    /// Stage 0: the bits of the DC numbers.
    DcBits,
    /// Stage 1: the types of the parents.
    Parents,
    /// Stage 2: the flags of all descendants and of the families, and the types of the children.
    Children,
    /// Stage 3: the flags of the sets of grandchildren, and their types.
    Grandchildren,
    /// Stage 4: the bits of numbers that were significant before.
    Refinement,
}
