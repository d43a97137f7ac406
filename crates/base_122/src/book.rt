ghost use Rattle.std.specs.Prelude.{◌≡◌};

/// A code word: the lowest `len` bits of `bits`, highest first.
#[derive(Clone, Copy, Debug, PartialEq, Eq)]
pub struct Code {
    pub bits: u8,
    pub len: u8,
}

/// The code of each symbol in six tables (docs/formats.md, "Words and codes"): one table for words of two
/// bits, two for words of three, three for words of four. Entries that a table does not use have length 0.
#[derive(Clone, Copy, Debug, PartialEq, Eq)]
pub struct Book {
    pub codes: [[Code; 16]; 6],
}

// Sixteen codes, each written as its bits and their number.
macro_rules! table {
    ($($bits:literal: $len:literal),*) => { [$(Code { bits: $bits, len: $len }),*] };
}

const PROFILE: [[Code; 16]; 6] = [
    table!(1:1, 0b01:2, 0b001:3, 0:3, 0:0, 0:0, 0:0, 0:0, 0:0, 0:0, 0:0, 0:0, 0:0, 0:0, 0:0, 0:0),
    table!(
        1:1, 0b01:2, 0b001:3, 0:5, 0b00001:5, 0b00010:5, 0b000110:6, 0b000111:6,
        0:0, 0:0, 0:0, 0:0, 0:0, 0:0, 0:0, 0:0
    ),
    table!(
        0b10:2, 0b11:2, 0b010:3, 0b011:3, 0b0010:4, 0b0011:4, 0:4, 0b0001:4,
        0:0, 0:0, 0:0, 0:0, 0:0, 0:0, 0:0, 0:0
    ),
    table!(
        1:1, 0b01:2, 0b001:3, 0b0001:4, 0:7, 0b0000001:7, 0b0000010:7, 0b0000011:7,
        0b00001000:8, 0b00001001:8, 0b00001010:8, 0b00001011:8,
        0b00001100:8, 0b00001101:8, 0b00001110:8, 0b00001111:8
    ),
    table!(
        0b10:2, 0b11:2, 0b010:3, 0b011:3, 0b0010:4, 0b0011:4, 0:6, 0b000001:6,
        0b000010:6, 0b000011:6, 0b000100:6, 0b000101:6, 0b0001100:7, 0b0001101:7, 0b0001110:7, 0b0001111:7
    ),
    table!(
        0b100:3, 0b101:3, 0b110:3, 0b111:3, 0b0100:4, 0b0101:4, 0b0110:4, 0b0111:4,
        0b00100:5, 0b00101:5, 0b00110:5, 0b00111:5, 0:5, 0b00001:5, 0b00010:5, 0b00011:5
    ),
];

impl Book {
    ghost use Rattle.base_122.specs.Profile.{profile};

    /// Returns the code book of this product's profile (docs/formats.md, "Words and codes").
    pub fn profile() -> Book
        ensures { result ≡ profile }
    {
        Book { codes: PROFILE }
    }
}
