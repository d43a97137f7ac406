// The item that an octet begins with.

/// The number of an item that an octet begins with, and how many bits it has there.
#[derive(Clone, Copy, Debug, PartialEq, Eq)]
pub struct Prefix {
    pub number: u8,
    pub len: u8,
}
