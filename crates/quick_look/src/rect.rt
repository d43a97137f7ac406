// Rectangles of a picture.

/// The pixels from a first to a last row and from a first to a last column, all four included (docs/formats.md, "Picture and damage").
#[derive(Clone, Copy, Debug, PartialEq, Eq)]
pub struct Rect {
    pub first_row: u32,
    pub last_row: u32,
    pub first_column: u32,
    pub last_column: u32,
}
