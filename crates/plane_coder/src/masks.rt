// What the numbers of a block are in a plane.

// Masks of the positions whose number is significant above the plane, has the plane's bit, or is negative.
#[derive(Clone, Copy)]
pub(crate) struct Masks {
    pub above: u64,
    pub bits: u64,
    pub negative: u64,
}
