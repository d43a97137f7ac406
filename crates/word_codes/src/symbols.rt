// The symbols of words.

ghost use Rattle.std.specs.Prelude.{◌≡◌, ◌≤◌, ◌<◌, ◌^◌};
ghost use Rattle.plane_defs.specs.Codes.{symbol};

// The symbol of each word of two bits.
const SYMBOLS_OF_TWO: [u8; 4] = [0, 2, 1, 3];

// The symbol of each word of three bits.
const SYMBOLS_OF_THREE: [u8; 8] = [0, 3, 2, 6, 1, 5, 4, 7];

// The symbol of each word of four bits.
const SYMBOLS_OF_FOUR: [u8; 16] = [0, 4, 3, 10, 2, 9, 8, 14, 1, 7, 6, 13, 5, 12, 11, 15];

/// Returns the symbol of a word of 2 to 4 bits, highest bit first: words are ordered by their number of ones,
/// then by falling value (docs/formats.md, "Words and codes").
pub fn symbol_of(word: u8, length: u8) -> u8
    requires short { 2 ≤ length }
    requires long { length ≤ 4 }
    requires fits { word < 2 ^ length }
    ensures value { result ≡ symbol length word }
    ensures within { result < 2 ^ length }
{
    let word = word as usize;
    match length {
        2 => SYMBOLS_OF_TWO[word],
        3 => SYMBOLS_OF_THREE[word],
        _ => SYMBOLS_OF_FOUR[word],
    }
}

// The word of each symbol of two bits.
const WORDS_OF_TWO: [u8; 4] = [0b00, 0b10, 0b01, 0b11];

// The word of each symbol of three bits.
const WORDS_OF_THREE: [u8; 8] = [0b000, 0b100, 0b010, 0b001, 0b110, 0b101, 0b011, 0b111];

// The word of each symbol of four bits.
const WORDS_OF_FOUR: [u8; 16] = [
    0b0000, 0b1000, 0b0100, 0b0010, 0b0001, 0b1100, 0b1010, 0b1001, 0b0110, 0b0101, 0b0011, 0b1110,
    0b1101, 0b1011, 0b0111, 0b1111,
];

// Returns the word of the symbol at this place of a table.
pub(crate) fn word_of(place: u8, length: u8) -> u8
    requires short { 2 ≤ length }
    requires long { length ≤ 4 }
    requires fits { place < 2 ^ length }
    ensures value { symbol length result ≡ place }
    ensures within { result < 2 ^ length }
{
    let place = place as usize;
    match length {
        2 => WORDS_OF_TWO[place],
        3 => WORDS_OF_THREE[place],
        _ => WORDS_OF_FOUR[place],
    }
}
