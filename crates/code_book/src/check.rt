// The check whether a book is sound.
ghost use Rattle.std.specs.Prelude.{◌≡◌, ℕ, ◌<◌, ◌≤◌, ◌+◌, ◌*◌, ◌↔◌, Ok, IsTrue, IfErr, length};
ghost use Rattle.plane_defs.specs.Codes.{entry, is_book_sound};
ghost use Rattle.code_book.specs.Sound.{IsCode, AreCodes, IsSound, symbols_of};
ghost use Rattle.code_book.specs.Tests.{has_length, fits, clashes, bad_length, bad_bits, clash_of, clash_from, room_of, table_fault, fault_from, book_check};
ghost use Rattle.code_book.specs.Tests.{IsOfCodes};

use crate::fault::BookFault;
use base_122::{Book, Code};

// The number of symbols of each table.
const SYMBOLS: [u8; 6] = [4, 8, 8, 16, 16, 16];

/// Returns `Ok` exactly if the book is sound, otherwise the first thing that is wrong with it: table by table a length outside 1 to 8,
/// bits that do not fit their length, the least pair of codes of which one is a prefix of the other, or strings of 8 bits without a
/// code as a prefix. Entries after a table's symbols are not tested.
pub fn check_book(book: &Book) -> Result<(), BookFault>
    ensures first { result ≡ book_check book.now }
    ensures sound { (result ≡ Ok tt) ↔ IsSound book.now }
    ensures usable { result ≡ Ok tt → IsTrue (is_book_sound book.now) }
    ensures kind { IfErr result IsOfCodes }
{
    match first_fault(book) {
        Some(fault) => Err(fault),
        None => Ok(()),
    }
}

// Returns the fault of the first table that has one.
fn first_fault(book: &Book) -> Option<BookFault>
    ensures { result ≡ fault_from book.now 0 6 }
{
    for table in 0..6u8 {
        let fault = table_fault(table, &book.codes[table as usize], SYMBOLS[table as usize]);
        if fault.is_some() {
            return fault;
        }
    }
    None
}

// Returns the first thing that is wrong with a table.
fn table_fault(table: u8, codes: &[Code], count: u8) -> Option<BookFault>
    requires some { 1 ≤ count }
    requires few { count ≤ 16 }
    requires codes { length codes.now ≡ 16 }
    ensures { result ≡ table_fault table codes.now count }
{
    if let Some(symbol) = bad_length(codes, count) {
        return Some(BookFault::BadLength { table, symbol });
    }
    if let Some(symbol) = bad_bits(codes, count) {
        return Some(BookFault::BadBits { table, symbol });
    }
    if let Some(fault) = first_clash(table, codes, count) {
        return Some(fault);
    }
    if room_of(codes, count) != 256 {
        return Some(BookFault::Incomplete { table });
    }
    None
}

// Returns the first symbol whose code has no bits, or more than 8.
fn bad_length(codes: &[Code], count: u8) -> Option<u8>
    requires { count ≤ length codes.now }
    ensures { result ≡ bad_length codes.now count }
{
    for symbol in 0..count {
        if !has_length(codes[symbol as usize]) {
            return Some(symbol);
        }
    }
    None
}

// Returns the first symbol whose bits do not fit their length.
fn bad_bits(codes: &[Code], count: u8) -> Option<u8>
    requires count { count ≤ length codes.now }
    requires lengths { (s : ℕ) → s < count → (entry codes.now s).len ≤ 8 }
    ensures { result ≡ bad_bits codes.now count }
{
    for symbol in 0..count {
        if !fits(codes[symbol as usize]) {
            return Some(symbol);
        }
    }
    None
}

// Returns whether the code has 1 to 8 bits.
fn has_length(code: Code) -> bool
    ensures { result ≡ has_length code }
{
    1 <= code.len && code.len <= 8
}

// Returns whether the bits fit their length.
fn fits(code: Code) -> bool
    requires { code.len ≤ 8 }
    ensures { result ≡ fits code }
{
    u16::from(code.bits) < 1 << code.len
}

// Returns whether one of two codes is a prefix of the other. Their bits fit.
fn clashes(a: Code, b: Code) -> bool
    requires a { IsCode a }
    requires b { IsCode b }
    ensures { result ≡ clashes a b }
{
    if a.len <= b.len {
        return b.bits >> (b.len - a.len) == a.bits;
    }
    a.bits >> (a.len - b.len) == b.bits
}

// Returns the first later code that clashes with this one.
fn clash_of(codes: &[Code], count: u8, first: u8) -> Option<u8>
    requires codes { AreCodes codes.now count }
    requires count { count ≤ length codes.now }
    requires first { first < count }
    ensures { result ≡ clash_of codes.now count first }
{
    for second in first + 1..count {
        if clashes(codes[first as usize], codes[second as usize]) {
            return Some(second);
        }
    }
    None
}

// Returns the least pair of codes of which one is a prefix of the other.
fn first_clash(table: u8, codes: &[Code], count: u8) -> Option<BookFault>
    requires codes { AreCodes codes.now count }
    requires count { count ≤ length codes.now }
    ensures { result ≡ clash_from table codes.now count 0 count }
{
    for first in 0..count {
        if let Some(second) = clash_of(codes, count, first) {
            return Some(BookFault::Clash {
                table,
                first,
                second,
            });
        }
    }
    None
}

// Returns the number of strings of 8 bits that begin with one of the codes; no code is a prefix of another.
fn room_of(codes: &[Code], count: u8) -> u32
    requires codes { AreCodes codes.now count }
    requires count { count ≤ length codes.now }
    ensures value { result ≡ room_of codes.now count }
    ensures most { result ≤ 256 * count }
{
    let mut room = 0u32;
    for symbol in 0..count {
        room += 1 << (8 - codes[symbol as usize].len);
    }
    room
}
