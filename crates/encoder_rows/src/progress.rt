// How far an image is.

/// What was taken and given of an image so far.
#[derive(Clone, Copy, Debug, PartialEq, Eq)]
pub struct Progress {
    pub rows: u32,
    pub segments: u32,
    pub packets: u64,
    pub octets: u64,
}
