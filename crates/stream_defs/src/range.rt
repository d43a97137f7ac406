// Rows of a picture.

/// The rows from `first` to `last`, both included.
#[derive(Clone, Copy, Debug, PartialEq, Eq)]
pub struct RowRange {
    pub first: u32,
    pub last: u32,
}
