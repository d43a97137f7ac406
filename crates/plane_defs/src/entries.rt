// The entries that a block sends.

/// A word: its bits as a number with the highest bit first.
#[derive(Clone, Copy, Debug, PartialEq, Eq)]
pub struct Bits {
    pub value: u8,
    pub count: u8,
}

/// An entry that a block sends in a plane: a raw bit or a word of up to four bits (docs/formats.md, "Bit
/// planes").
#[derive(Clone, Copy, Debug, PartialEq, Eq)]
pub enum Entry {
    Bit(bool),
    Word(Bits),
}
