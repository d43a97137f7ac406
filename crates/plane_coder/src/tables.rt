// The codes of words, by the packed number of a word.

ghost use Rattle.std.specs.Prelude.{◌≡◌, ◌+◌, ◌<◌, ◌≤◌, ◌/◌, ◌%◌, ◌^◌, ℕ, IsTrue, [], ◌∷◌, slice_index_or};
ghost use Rattle.base_122.specs.Profile.{no_code};
ghost use Rattle.plane_defs.specs.Codes.{is_book_sound};
ghost use Rattle.base_122.specs.declared.book.Book.{Book as BookValue};
ghost use Rattle.plane_coder.specs.Coding.{IsCodeOf, AreCodes, code_in};
ghost use Rattle.plane_coder.specs.Costs.{short_bits, long_bits, AreWordCosts};
ghost use Rattle.plane_coder.specs.Picked.{IsPacked, word_of};

use base_122::{Book, Code};
use word_codes::code_of_word;

pub(crate) const NOTHING: Code = Code { bits: 0, len: 0 };

/// The code of each word under each option of its length, as a sound book has them (docs/formats.md, "Words and
/// codes"). The tables are made once, and are right for all planes of a segment.
#[derive(Drop)]
pub struct CodeTables {
    /// The book that the tables are of.
    pub book: Book,
    // An empty word, words of one bit, then the options of words of two, three and four bits.
    pub(crate) rows: [[Code; 16]; 11],
    // The bits of each word, by its packed number, in the fields of `Costs`.
    pub(crate) short_costs: [u64; 80],
    pub(crate) long_costs: [u64; 80],
    ghost sound: { IsTrue (is_book_sound book) },
    ghost coded: { AreCodes book rows },
    ghost costed: { AreWordCosts book short_costs long_costs },
}

// Returns the codes of the words of this length under an option, by their values.
fn codes_of(book: &Book, length: u8, option: u8) -> [Code; 16]
    requires sound { IsTrue (is_book_sound book.now) }
    requires short { 2 ≤ length }
    requires long { length ≤ 4 }
    requires known { option < length }
    ensures { (v : ℕ) → v < 2 ^ length → IsCodeOf book.now length option v (slice_index_or result v no_code) }
{
    let mut codes = [NOTHING; 16];
    for word in 0..1u8 << length {
        codes[word as usize] = code_of_word(book, option, word, length);
    }
    codes
}

// Returns the codes of words of one bit, which are the words themselves.
fn raw_codes() -> [Code; 16]
    ensures { (book : BookValue) (v : ℕ) → v < 2 → IsCodeOf book 1 0 v (slice_index_or result v no_code) }
{
    let mut codes = [NOTHING; 16];
    codes[0] = Code { bits: 0, len: 1 };
    codes[1] = Code { bits: 1, len: 1 };
    codes
}

// Returns the bits of the code of a value in a row.
fn bits_in(rows: &[[Code; 16]; 11], row: usize, value: usize) -> u64
    requires row { row < 11 }
    requires value { value < 16 }
    ensures bits { result ≡ (code_in rows.now row value).len }
    ensures few { result < 256 }
{
    u64::from(rows[row][value].len)
}

// Returns the bits of a word of two or three bits under each option.
fn short_cost(rows: &[[Code; 16]; 11], word: usize) -> u64
    requires { word < 80 }
    ensures { (book : BookValue) → AreCodes book rows.now → IsPacked word → result ≡ short_bits book (word_of word ∷ []) }
{
    let value = word % 16;
    match word / 16 {
        2 => bits_in(rows, 2, value) + 0x1000 * bits_in(rows, 3, value),
        3 => {
            0x100_0000 * bits_in(rows, 4, value)
                + 0x10_0000_0000 * bits_in(rows, 5, value)
                + 0x1_0000_0000_0000 * bits_in(rows, 6, value)
        }
        _ => 0,
    }
}

// Returns the bits of a word of four bits under each option.
fn long_cost(rows: &[[Code; 16]; 11], word: usize) -> u64
    requires { word < 80 }
    ensures { (book : BookValue) → AreCodes book rows.now → IsPacked word → result ≡ long_bits book (word_of word ∷ []) }
{
    if word / 16 != 4 {
        return 0;
    }
    let value = word % 16;
    bits_in(rows, 7, value)
        + 0x1000 * bits_in(rows, 8, value)
        + 0x100_0000 * bits_in(rows, 9, value)
        + 0x10_0000_0000 * bits_in(rows, 10, value)
}

fn short_costs_of(rows: &[[Code; 16]; 11]) -> [u64; 80]
    ensures { (book : BookValue) → AreCodes book rows.now → (word : ℕ) → IsPacked word →
        slice_index_or result word 0 ≡ short_bits book (word_of word ∷ []) }
{
    let mut costs = [0; 80];
    for word in 0..80usize {
        costs[word] = short_cost(rows, word);
    }
    costs
}

fn long_costs_of(rows: &[[Code; 16]; 11]) -> [u64; 80]
    ensures { (book : BookValue) → AreCodes book rows.now → (word : ℕ) → IsPacked word →
        slice_index_or result word 0 ≡ long_bits book (word_of word ∷ []) }
{
    let mut costs = [0; 80];
    for word in 0..80usize {
        costs[word] = long_cost(rows, word);
    }
    costs
}

impl CodeTables {
    /// Returns the tables of a sound book.
    pub fn new(book: &Book) -> CodeTables
        requires { IsTrue (is_book_sound book.now) }
        ensures { result.book ≡ book.now }
    {
        let rows = [
            [NOTHING; 16],
            raw_codes(),
            codes_of(book, 2, 0),
            codes_of(book, 2, 1),
            codes_of(book, 3, 0),
            codes_of(book, 3, 1),
            codes_of(book, 3, 2),
            codes_of(book, 4, 0),
            codes_of(book, 4, 1),
            codes_of(book, 4, 2),
            codes_of(book, 4, 3),
        ];
        CodeTables {
            book: *book,
            rows,
            short_costs: short_costs_of(&rows),
            long_costs: long_costs_of(&rows),
        }
    }
}
