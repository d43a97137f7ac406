// A book from a port.
ghost use Rattle.std.specs.Prelude.{◌≡◌, ◌+◌, ◌*◌, ◌≤◌, MatchResult, IfOk, IsTrue, Err, length};
ghost use Rattle.plane_defs.specs.Codes.{is_book_sound};
ghost use Rattle.code_book.specs.Filling.{FilledTo};
ghost use Rattle.code_book.specs.Sound.{IsSound};
ghost use Rattle.code_book.specs.Reading.{ReadsBook, has_mark, table_from, book_in, book_read};

use crate::check::check_book;
use crate::fault::BookFault;
use base_122::{Book, Code};
use port_122::Port;

// The mark, and two octets for each of the 68 codes.
const OCTETS: usize = 138;

// The first two octets.
const MARK: [u8; 2] = [0x12, 0x2B];

/// Reads a book of 138 octets (docs/formats.md, "Words and codes"). It takes no octet after them and no memory, and gives nothing.
/// Returns exactly the sound books (`sound_books_are_read`); entries that a table doesn't use have length 0.
///
/// # Errors
///
/// - `ReadFault`: a read failed. The port's count rose.
/// - `Short`: the input ended before 138 octets. It has the number of octets taken.
/// - `BadMark`, or a fault of `check_book`: all 138 octets were taken, and this is the first thing that is wrong with them.
pub fn read_book<X: Port>(port: &mut X) -> Result<Book, BookFault>
    ensures reads { ReadsBook (X.outside port.old) (X.outside port.new) result }
    ensures sound { IfOk result IsSound }
    ensures usable { IfOk result (λ book. IsTrue (is_book_sound book)) }
{
    let mut octets = [0; OCTETS];
    fill(port, &mut octets)?;
    book_of(&octets)
}

// Reads octets until a piece is full.
fn fill<X: Port>(port: &mut X, octets: &mut [u8]) -> Result<(), BookFault>
    requires { length octets.old ≡ 138 }
    ensures { MatchResult result
        (λ _. FilledTo (X.outside port.old) (X.outside port.new) octets.new 138)
        (λ fault. ReadsBook (X.outside port.old) (X.outside port.new) (Err fault)) }
{
    let mut filled = 0;
    while filled < OCTETS {
        let Ok(count) = port.read(&mut octets[filled..]) else {
            return Err(BookFault::ReadFault);
        };
        if count == 0 {
            return Err(BookFault::Short {
                octets: filled as u32,
            });
        }
        filled += count;
    }
    Ok(())
}

// The book of these octets, or the first thing that is wrong with them.
fn book_of(octets: &[u8]) -> Result<Book, BookFault>
    requires { length octets.now ≡ 138 }
    ensures { result ≡ book_read octets.now }
{
    if !has_mark(octets) {
        return Err(BookFault::BadMark);
    }
    let book = book_in(octets);
    match check_book(&book) {
        Ok(()) => Ok(book),
        Err(fault) => Err(fault),
    }
}

// The mark of a book is there.
fn has_mark(octets: &[u8]) -> bool
    requires { length octets.now ≡ 138 }
    ensures { result ≡ has_mark octets.now }
{
    octets[0] == MARK[0] && octets[1] == MARK[1]
}

// The codes of these octets, table by table.
fn book_in(octets: &[u8]) -> Book
    requires { length octets.now ≡ 138 }
    ensures { result ≡ book_in octets.now }
{
    Book {
        codes: [
            table_from(octets, 2, 4),
            table_from(octets, 10, 8),
            table_from(octets, 26, 8),
            table_from(octets, 42, 16),
            table_from(octets, 74, 16),
            table_from(octets, 106, 16),
        ],
    }
}

// The codes of a table, whose octets begin here.
fn table_from(octets: &[u8], start: usize, count: usize) -> [Code; 16]
    requires few { count ≤ 16 }
    requires within { start + 2 * count ≤ length octets.now }
    ensures { result ≡ table_from octets.now start count }
{
    let mut codes = [Code { bits: 0, len: 0 }; 16];
    for symbol in 0..count {
        let place = start + 2 * symbol;
        codes[symbol] = Code {
            bits: octets[place + 1],
            len: octets[place],
        };
    }
    codes
}
