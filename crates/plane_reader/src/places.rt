// The word of up to four due positions that is first in a window, as the positions whose bit is 1.

ghost use Rattle.std.specs.Prelude.{◌≡◌, ◌+◌, ◌*◌, ◌<◌, ◌≤◌, ℕ, count_ones, max, if◌then◌else◌, IsTrue, IfOk, IsSome, IsNone};
ghost use Rattle.std.specs.Option.{ForSome};
ghost use Rattle.block_masks.specs.Gaggles.{AreOptions};
ghost use Rattle.plane_defs.specs.Codes.{is_book_sound};
ghost use Rattle.plane_reader.specs.Places.{AreEntries, AreTables, IsFirst};

use crate::word::count_of;
use base_122::Book;
use block_masks::{Gaggle, spread};
use std::alloc::{AllocError, Global};
use word_codes::{WordTables, first_word};

// The word that is first in a window: the positions whose bit is 1, the number of bits of the word's code, and this number with that of
// the signs that follow a word of types, one for each 1.
#[derive(Clone, Copy)]
pub(crate) struct FirstPlaces {
    pub places: u8,
    pub len: u8,
    pub signed_len: u8,
}

const NOTHING: FirstPlaces = FirstPlaces {
    places: 0,
    len: 0,
    signed_len: 0,
};

/// The codes of words as tables, for words of which some positions are due: a table for each mask of what is due and each option of words
/// of that length has the word that is first in each octet. If they are missing, each word is read by the tables of the words.
#[derive(Drop)]
pub struct PlaceTables {
    /// The tables of the words themselves.
    pub words: WordTables,
    entries: Option<Vec<[FirstPlaces; 256]>>,
    ghost if_known: { ForSome entries (λ tables. AreTables words.book tables.items) },
}

// Returns the table of a mask of what is due and an option of words of that length.
fn entries_of(words: &WordTables, due: u8, option: u8) -> [FirstPlaces; 256]
    requires due { due < 16 }
    requires option { option < max 1 (count_ones due) }
    ensures { AreEntries words.now.book due option result }
{
    let mask = u64::from(due);
    let count = count_of(mask);
    let mut entries = [NOTHING; 256];
    for octet in 0..256usize {
        let word = first_word(words, option, count, (octet as u64) << 56);
        entries[octet] = FirstPlaces {
            places: spread(mask, word.number) as u8,
            len: word.len,
            signed_len: word.signed_len,
        };
    }
    entries
}

// The number of tables of each mask.
const OPTIONS: u8 = 4;

// The number of tables of all masks.
const TABLES: u8 = 64;

// Returns the tables of all masks and options, in memory that it takes.
fn tables_of(alloc: Global, words: &WordTables) -> Result<Vec<[FirstPlaces; 256]>, AllocError>
    ensures { IfOk result (λ tables. AreTables words.now.book tables.items) }
{
    let mut tables = Vec::with_capacity(alloc, TABLES as usize)?;
    for table in 0..TABLES {
        let due = table / OPTIONS;
        let option = table % OPTIONS;
        let is_used = option < count_of(u64::from(due)).max(1);
        let row = if is_used {
            entries_of(words, due, option)
        } else {
            [NOTHING; 256]
        };
        tables.push_reserved(row);
    }
    Ok(tables)
}

impl PlaceTables {
    /// Returns the tables of a sound book, 48 kB of them in memory that it takes. The only error is a lack of memory.
    pub fn new(alloc: Global, book: &Book) -> Result<PlaceTables, AllocError>
        requires { IsTrue (is_book_sound book.now) }
        ensures book { IfOk result (λ tables. tables.words.book ≡ book.now) }
        ensures all { IfOk result (λ tables. IsSome tables.entries) }
    {
        let words = WordTables::new(book);
        let entries = tables_of(alloc, &words)?;
        Ok(PlaceTables {
            words,
            entries: Some(entries),
        })
    }

    /// Returns the tables of the words of a sound book alone. They take no memory, and each word takes more time.
    pub fn of_words(book: &Book) -> PlaceTables
        requires { IsTrue (is_book_sound book.now) }
        ensures book { result.words.book ≡ book.now }
        ensures none { IsNone result.entries }
    {
        PlaceTables {
            words: WordTables::new(book),
            entries: None,
        }
    }

    // Returns the word that is first in a window by a table.
    #[inline(always)]
    pub(crate) fn first(&self, table: u8, window: u64) -> FirstPlaces
        requires some { IsSome self.now.entries }
        requires table { table < 64 }
        ensures { (due option : ℕ) → due < 16 → option < max 1 (count_ones due) → table ≡ 4 * due + option →
            IsFirst self.now.words.book due option window result }
    {
        let Some(entries) = &self.entries else {
            unreachable!()
        };
        entries[table as usize][(window >> 56) as usize]
    }
}

// The table of a mask whose words have an option that is not known yet.
pub(crate) const UNKNOWN: u8 = 255;

// What is in the place of an option that is not known yet: four bits of 1.
const MISSING: u64 = 15;

// The lowest of the four bits of each mask of two, three and four places.
const TWOS: u64 = 0x0001_0110_0110_1000;

const THREES: u64 = 0x0110_1000_1000_0000;

const FOURS: u64 = 0x1000_0000_0000_0000;

// Returns the option of a length that is known, or what is in its place.
#[inline(always)]
fn option_of(option: u8, is_known: bool) -> u64
    ensures { result ≡ (if is_known then option else 15) }
{
    if is_known { u64::from(option) } else { MISSING }
}

// The options of the words of each mask of what is due, by the options of a gaggle: four bits for each mask, the lowest for mask 0. They are
// in one number, so that it can be in a register while words are read.
#[derive(Clone, Copy)]
pub(crate) struct Rows {
    options: u64,
}

impl Rows {
    ghost use Rattle.plane_reader.specs.Places.{AreRows, table_in};

    // Returns the options of a gaggle that are known, if there are tables.
    #[inline(always)]
    pub fn of(tables: &PlaceTables, gaggle: &Gaggle) -> Rows
        requires known { AreOptions gaggle.now.options }
        ensures { AreRows tables.now.entries gaggle.now result }
    {
        if tables.entries.is_none() {
            return Rows { options: u64::MAX };
        }
        let two = option_of(gaggle.options[0], gaggle.sent[0]);
        let three = option_of(gaggle.options[1], gaggle.sent[1]);
        let four = option_of(gaggle.options[2], gaggle.sent[2]);
        Rows {
            options: TWOS * two + THREES * three + FOURS * four,
        }
    }

    // Returns the table of a mask, if its option is known.
    #[inline(always)]
    pub fn table_of(&self, due: u64) -> u8
        requires { due < 16 }
        ensures { result ≡ table_in self.now due }
    {
        let option = (self.options >> (4 * due)) & 15;
        if option == MISSING {
            return UNKNOWN;
        }
        (4 * due + option) as u8
    }
}
