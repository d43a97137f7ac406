// The writer of words and options.

ghost use Rattle.std.specs.Prelude.{◌≡◌, ◌+◌, ◌≤◌, ◌<◌, ◌^◌, IsTrue};
ghost use Rattle.item_defs.specs.Items.{item_bits};
ghost use Rattle.bit_pipe.specs.SinkState.{Puts, IsReady, Writes};
ghost use Rattle.plane_defs.specs.Codes.{is_book_sound, symbol, code_at, code_bits, word_item, option_item};

use crate::choice::table_at;
use crate::symbols::symbol_of;
use base_122::{Book, Code};
use bit_pipe::{BitOut, OctetOut, PutFault};

/// Puts the identifier of an option (docs/formats.md, "Words and codes").
///
/// `length` is 2 to 4, and `option` one of its options: uncoded is 1, 2 or 3.
pub fn put_option<O: OctetOut>(out: &mut BitOut<O>, length: u8, option: u8) -> Result<(), PutFault>
    requires open { IsReady O.sink out.old }
    requires short { 2 ≤ length }
    requires long { length ≤ 4 }
    requires known { option < length }
    ensures { Writes O.sink result out.old out.new (item_bits (option_item length option)) }
{
    let number = if length == 3 && option == 2 {
        3
    } else {
        option
    };
    let width = if length == 2 { 1 } else { 2 };
    out.put_bits(u32::from(number), width)
}

fn code_of(book: &Book, length: u8, option: u8, word: u8) -> Code
    requires short { 2 ≤ length }
    requires long { length ≤ 4 }
    requires coded { option + 1 < length }
    requires fits { word < 2 ^ length }
    ensures code { result ≡ code_at book.now length option (symbol length word) }
    ensures within { symbol length word < 2 ^ length }
{
    book.codes[table_at(length, option)][symbol_of(word, length) as usize]
}

// Returns the same code, with no bits set above it.
pub(crate) fn trimmed(code: Code) -> Code
    requires { code.len ≤ 8 }
    ensures same { code_bits result ≡ code_bits code }
    ensures len { result.len ≡ code.len }
    ensures fits { result.bits < 2 ^ result.len }
{
    let low = u16::from(code.bits) % (1 << code.len);
    Code {
        bits: low as u8,
        len: code.len,
    }
}

/// Returns the code of a word of 2 to 4 bits, highest bit first, by an option of its length: the word itself if
/// the option is uncoded.
///
/// The book is sound, `option` is one of the length's options, and `word` fits the length. The code has at most 8 bits, and no bits set above them.
pub fn code_of_word(book: &Book, option: u8, word: u8, length: u8) -> Code
    requires sound { IsTrue (is_book_sound book.now) }
    requires short { 2 ≤ length }
    requires long { length ≤ 4 }
    requires known { option < length }
    requires fits { word < 2 ^ length }
    ensures code { code_bits result ≡ item_bits (word_item book.now length option word) }
    ensures few { result.len ≤ 8 }
    ensures fits { result.bits < 2 ^ result.len }
{
    if option + 1 == length {
        return Code {
            bits: word,
            len: length,
        };
    }
    trimmed(code_of(book, length, option, word))
}

/// Puts a word of 2 to 4 bits, highest bit first, by an option of its length (docs/formats.md, "Words
/// and codes").
///
/// The book is sound, `option` is one of the length's options, and `word` fits the length.
pub fn put_word<O: OctetOut>(
    out: &mut BitOut<O>,
    book: &Book,
    option: u8,
    word: u8,
    length: u8,
) -> Result<(), PutFault>
    requires open { IsReady O.sink out.old }
    requires sound { IsTrue (is_book_sound book.now) }
    requires short { 2 ≤ length }
    requires long { length ≤ 4 }
    requires known { option < length }
    requires fits { word < 2 ^ length }
    ensures { Writes O.sink result out.old out.new (item_bits (word_item book.now length option word)) }
{
    if option + 1 == length {
        return out.put_bits(u32::from(word), length);
    }
    let code = code_of(book, length, option, word);
    out.put_bits(u32::from(code.bits), code.len)
}
