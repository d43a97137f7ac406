// The sets of a block's children and grandchildren.

/// A set of children and grandchildren of a block (docs/formats.md, "Bit planes"). Families are
/// numbered 0 to 2 for HL, LH and HH, the children of a family 0 to 3.
#[derive(Clone, Copy, Debug, PartialEq, Eq)]
pub enum Set {
    /// B: all children and grandchildren.
    Descendants,
    /// D_i: the children and grandchildren of family i.
    Family(u8),
    /// G_i: the sixteen grandchildren of family i.
    Grandchildren(u8),
    /// H_ij: the four grandchildren of family i below child j.
    Quad(u8, u8),
}
