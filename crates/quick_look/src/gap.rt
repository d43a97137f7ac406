// Missing blocks of an image.

/// A maximal run of consecutive missing blocks: the numbers of the first and of the last, in raster order.
#[derive(Clone, Copy, Debug, PartialEq, Eq)]
pub struct Gap {
    pub first: u64,
    pub last: u64,
}
