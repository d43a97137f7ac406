// The word whose code is first in an octet.

ghost use Rattle.std.specs.Prelude.{◌≡◌, ◌≤◌, ◌<◌, ◌+◌, ◌-◌, ◌/◌, ◌^◌, ℕ, IsTrue, [], slice_index_or};
ghost use Rattle.bit_pipe.specs.Prefixes.{prefix_at};
ghost use Rattle.plane_defs.specs.Codes.{is_book_sound, table_place};
ghost use Rattle.word_codes.specs.WordPrefixes.{ArePrefixes};

use crate::choice::table_at;
use crate::put::trimmed;
use crate::symbols::word_of;
use base_122::{Book, Code};
use bit_pipe::Prefix;

const NOTHING: Prefix = Prefix { number: 0, len: 0 };

/// Tables, for each coded option of words of 2 to 4 bits, of the word that is first in an octet, with the codes of a sound book
/// (docs/formats.md, "Words and codes"). They are made once, and are used for all words that are read.
#[derive(Drop)]
pub struct WordTables {
    /// The book that the tables are of.
    pub book: Book,
    // The tables, in the order of those of the book.
    rows: [[Prefix; 256]; 6],
    ghost sound: { IsTrue (is_book_sound book) },
    ghost if_known: { (n option : ℕ) → 2 ≤ n → n ≤ 4 → option + 1 < n → ArePrefixes book n option (slice_index_or rows (table_place n option) []) },
}

// Sets the entries of the octets that begin with a code.
fn put_prefix(prefixes: &mut [Prefix; 256], code: Code, number: u8)
    requires few { code.len ≤ 8 }
    requires fits { code.bits < 2 ^ code.len }
    ensures begun { (octet : ℕ) → octet < 256 → octet / 2 ^ (8 - code.len) ≡ code.bits → prefix_at prefixes.new octet ≡ record {
      number = number;
      len =
          code.len;
    } }
    ensures others { (octet : ℕ) → (octet / 2 ^ (8 - code.len) ≡ code.bits → ⊥) → prefix_at prefixes.new octet ≡ prefix_at prefixes.old octet }
{
    let wide = 1usize << (8 - code.len);
    let first = usize::from(code.bits) * wide;
    let prefix = Prefix {
        number,
        len: code.len,
    };
    for octet in first..first + wide {
        prefixes[octet] = prefix;
    }
}

// Returns the table of a coded option.
fn prefixes_of(book: &Book, length: u8, option: u8) -> [Prefix; 256]
    requires sound { IsTrue (is_book_sound book.now) }
    requires short { 2 ≤ length }
    requires long { length ≤ 4 }
    requires coded { option + 1 < length }
    ensures { ArePrefixes book.now length option result }
{
    let codes = &book.codes[table_at(length, option)];
    let mut prefixes = [NOTHING; 256];
    for symbol in 0..1u8 << length {
        put_prefix(
            &mut prefixes,
            trimmed(codes[symbol as usize]),
            word_of(symbol, length),
        );
    }
    prefixes
}

impl WordTables {
    ghost use Rattle.std.specs.Prelude.{◌≡◌, ◌≤◌, ◌<◌, ◌+◌, IsTrue, [], slice_index_or};
    ghost use Rattle.plane_defs.specs.Codes.{is_book_sound, table_place};

    /// Returns the tables of a sound book.
    pub fn new(book: &Book) -> WordTables
        requires { IsTrue (is_book_sound book.now) }
        ensures { result.book ≡ book.now }
    {
        WordTables {
            book: *book,
            rows: [
                prefixes_of(book, 2, 0),
                prefixes_of(book, 3, 0),
                prefixes_of(book, 3, 1),
                prefixes_of(book, 4, 0),
                prefixes_of(book, 4, 1),
                prefixes_of(book, 4, 2),
            ],
        }
    }

    // Returns the table of a coded option.
    #[inline(always)]
    pub(crate) fn row(&self, length: u8, option: u8) -> &[Prefix; 256]
        requires short { 2 ≤ length }
        requires long { length ≤ 4 }
        requires coded { option + 1 < length }
        ensures { result.now ≡ slice_index_or self.now.rows (table_place length option) [] }
    {
        &self.rows[table_at(length, option)]
    }
}
