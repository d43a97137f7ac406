// The reader of words and options.

ghost use Rattle.std.specs.Prelude.{◌≡◌, ◌≤◌, ◌<◌, ◌+◌, ◌^◌, IsTrue, MatchOption, false, count_ones};
ghost use Rattle.bit_pipe.specs.SourceState.{source_state, IsIn};
ghost use Rattle.bit_pipe.specs.Answers.{IsBelow, TakesOne};
ghost use Rattle.bit_pipe.specs.Windows.{first_of};
ghost use Rattle.item_defs.specs.Items.{item_bits, plain};
ghost use Rattle.word_codes.specs.WordPrefixes.{IsFirst};
ghost use Rattle.plane_defs.specs.Codes.{is_book_sound, word_item, identifier_width, identifier_number, names_option, option_item};

use crate::tables::WordTables;
use base_122::Book;
use bit_pipe::{BitIn, OctetIn, Prefix, TextFault};

// Returns the number of bits of an identifier.
fn identifier_bits(length: u8) -> u8
    ensures is { result ≡ identifier_width length }
    ensures few { result ≤ 2 }
{
    if length < 3 { 1 } else { 2 }
}

// Returns the option of an identifier. Identifier 10 of length 3 has none.
fn option_named(length: u8, number: u32) -> Option<u8>
    requires short { 2 ≤ length }
    requires long { length ≤ 4 }
    requires fits { number < 2 ^ identifier_width length }
    ensures { MatchOption result (names_option length number ≡ false)
        (λ option. (option < length) × (identifier_number length option ≡ number)) }
{
    if length != 3 || number < 2 {
        return Some(number as u8);
    }
    if number == 2 {
        return None;
    }
    Some(2)
}

/// Reads the identifier of an option (docs/formats.md, "Words and codes"). Returns none if the input or the
/// bound ends before the identifier is whole.
///
/// `length` is 2 to 4.
///
/// # Errors
///
/// `BadOption` at identifier 10 of length 3; the faults of the input.
pub fn take_option<I: OctetIn>(input: &mut BitIn<I>, length: u8) -> Result<Option<u8>, TextFault>
    requires open { IsIn (source_state input.old) }
    requires short { 2 ≤ length }
    requires long { length ≤ 4 }
    ensures { TakesOne I.source (IsBelow length) (option_item length) result (source_state input.old) (source_state input.new) }
{
    let Some(number) = input.take_bits(identifier_bits(length))? else {
        return Ok(None);
    };
    match option_named(length, number) {
        Some(option) => Ok(Some(option)),
        None => Err(TextFault::BadOption),
    }
}

// Reads a word that is sent as it is.
#[inline(always)]
fn take_plain<I: OctetIn>(input: &mut BitIn<I>, length: u8) -> Result<Option<u8>, TextFault>
    requires open { IsIn (source_state input.old) }
    requires long { length ≤ 4 }
    ensures { TakesOne I.source (IsBelow (2 ^ length)) (plain length) result (source_state input.old) (source_state input.new) }
{
    let Some(word) = input.take_bits(length)? else {
        return Ok(None);
    };
    Ok(Some(word as u8))
}

/// Reads the code of a word of 2 to 4 bits by an option of its length, and returns the word, highest bit first
/// (docs/formats.md, "Words and codes"). No bits are refused. Returns none if the input or the bound ends
/// before the code is whole.
///
/// `option` is one of the length's options.
///
/// # Errors
///
/// The faults of the input.
#[inline(always)]
pub fn take_word_by<I: OctetIn>(
    input: &mut BitIn<I>,
    tables: &WordTables,
    option: u8,
    length: u8,
) -> Result<Option<u8>, TextFault>
    requires open { IsIn (source_state input.old) }
    requires short { 2 ≤ length }
    requires long { length ≤ 4 }
    requires known { option < length }
    ensures { TakesOne I.source (IsBelow (2 ^ length)) (word_item tables.now.book length option) result (source_state input.old) (source_state input.new) }
{
    if option + 1 == length {
        return take_plain(input, length);
    }
    input.take_prefix(tables.row(length, option))
}

/// The word that is first in a window: its bits, the highest first, the number of bits of its code, and this number with that of the
/// signs that follow a word of types, one for each 1.
#[derive(Clone, Copy)]
pub struct FirstWord {
    pub number: u8,
    pub len: u8,
    pub signed_len: u8,
}

// Returns the word of at most 4 bits whose code is first in an octet.
#[inline(always)]
fn first_prefix(tables: &WordTables, option: u8, length: u8, octet: usize) -> Prefix
    requires long { length ≤ 4 }
    requires none { length ≡ 0 → option ≡ 0 }
    requires known { 1 ≤ length → option < length }
    requires octet { octet < 256 }
    ensures { IsFirst tables.now.book length option octet result }
{
    if option + 1 < length {
        return tables.row(length, option)[octet];
    }
    Prefix {
        number: (octet >> (8 - length)) as u8,
        len: length,
    }
}

/// Returns the word of at most 4 bits whose code is first in a window of the next bits, the first highest (docs/formats.md, "Words and
/// codes"). There is always one.
///
/// `option` is one of the length's options, and 0 for words of no bit and of one bit, which are sent as they are.
#[inline(always)]
pub fn first_word(tables: &WordTables, option: u8, length: u8, window: u64) -> FirstWord
    requires long { length ≤ 4 }
    requires none { length ≡ 0 → option ≡ 0 }
    requires known { 1 ≤ length → option < length }
    ensures fits { result.number < 2 ^ length }
    ensures few { result.len ≤ 8 }
    ensures none { length ≡ 0 → result.len ≡ 0 }
    ensures first { 1 ≤ length → item_bits (word_item tables.now.book length option result.number) ≡ first_of result.len window }
    ensures signed_len { result.signed_len ≡ result.len + count_ones result.number }
{
    let prefix = first_prefix(tables, option, length, (window >> 56) as usize);
    FirstWord {
        number: prefix.number,
        len: prefix.len,
        signed_len: prefix.len + prefix.number.count_ones() as u8,
    }
}

/// Reads the code of one word, by a sound book, as `take_word_by` does.
///
/// # Errors
///
/// The faults of the input.
pub fn take_word<I: OctetIn>(
    input: &mut BitIn<I>,
    book: &Book,
    option: u8,
    length: u8,
) -> Result<Option<u8>, TextFault>
    requires open { IsIn (source_state input.old) }
    requires sound { IsTrue (is_book_sound book.now) }
    requires short { 2 ≤ length }
    requires long { length ≤ 4 }
    requires known { option < length }
    ensures { TakesOne I.source (IsBelow (2 ^ length)) (word_item book.now length option) result (source_state input.old) (source_state input.new) }
{
    take_word_by(input, &WordTables::new(book), option, length)
}
