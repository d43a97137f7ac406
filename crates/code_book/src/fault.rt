// Why a book is refused, or not read.

/// Why there is no book: it was not read whole, or the first thing that is wrong with it (docs/formats.md, "Words and codes"). Tables are
/// counted from 0 in the order of `Book`, and symbols from 0 in each of them.
#[derive(Clone, Copy, Debug, PartialEq, Eq)]
pub enum BookFault {
    /// A read failed.
    ReadFault,
    /// The input ended before the 138 octets of a book. This number of octets was taken.
    Short { octets: u32 },
    /// The first two octets are not the mark of a book.
    BadMark,
    /// A code has no bits, or more than 8.
    BadLength { table: u8, symbol: u8 },
    /// A code's bits do not fit its length.
    BadBits { table: u8, symbol: u8 },
    /// One of two codes is a prefix of the other.
    Clash { table: u8, first: u8, second: u8 },
    /// Some strings of 8 bits have none of the codes as a prefix.
    Incomplete { table: u8 },
}
