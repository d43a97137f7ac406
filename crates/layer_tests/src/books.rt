// Code books, checked and read.
ghost use Rattle.std.specs.Prelude.{◌≡◌, ◌<◌, ◌≤◌, IfOk};

use crate::case::{Case, Refusal, number};
use base_122::Code;
use code_book::{check_book, read_book};
use port_122::MemoryPort;
use word_codes::profile_book;

// The octets of the profile's book, and another one.
const PROFILE: [u8; 139] = [
    0x12, 0x2b, 1, 1, 2, 1, 3, 1, 3, 0, 1, 1, 2, 1, 3, 1, 5, 0, 5, 1, 5, 2, 6, 6, 6, 7, 2, 2, 2, 3,
    3, 2, 3, 3, 4, 2, 4, 3, 4, 0, 4, 1, 1, 1, 2, 1, 3, 1, 4, 1, 7, 0, 7, 1, 7, 2, 7, 3, 8, 8, 8, 9,
    8, 10, 8, 11, 8, 12, 8, 13, 8, 14, 8, 15, 2, 2, 2, 3, 3, 2, 3, 3, 4, 2, 4, 3, 6, 0, 6, 1, 6, 2,
    6, 3, 6, 4, 6, 5, 7, 12, 7, 13, 7, 14, 7, 15, 3, 4, 3, 5, 3, 6, 3, 7, 4, 4, 4, 5, 4, 6, 4, 7,
    5, 4, 5, 5, 5, 6, 5, 7, 5, 0, 5, 1, 5, 2, 5, 3, 0,
];

// The profile's book with other codes: of each its table, its symbol, its length and its bits.
pub(crate) fn check(case: &Case) -> Result<String, Refusal> {
    let mut book = profile_book();
    for change in case.data.chunks_exact(4) {
        let table = number(change[0], 0, 5)? as usize;
        let symbol = number(change[1], 0, 15)? as usize;
        book.codes[table][symbol] = Code {
            len: number(change[2], 0, 255)? as u8,
            bits: number(change[3], 0, 255)? as u8,
        };
    }
    let checked = check_book(&book);
    Ok(format!(in case.alloc; "{checked:?}")?)
}

// The first `octets` of the octets of the profile's book and one more, with some of them changed: of each change its place and the new
// octet. They are read in pieces of at most 7, and the call of the number `fails` fails.
pub(crate) fn read(case: &Case) -> Result<String, Refusal> {
    let count = case.named("octets", 0, 139)? as usize;
    let mut octets = PROFILE;
    for change in case.data.chunks_exact(2) {
        let place = number(change[0], 0, 138)? as usize;
        octets[place] = number(change[1], 0, 255)? as u8;
    }
    let mut fails = Vec::new(case.alloc);
    if case.has("fails") {
        fails
            .push(case.named("fails", 0, 1000)?)
            .map_err(|_| Refusal::Memory)?;
    }
    let input = octets[..count].to_vec(case.alloc)?;
    let mut port = MemoryPort::new(case.alloc, input, fails, 7)?;
    let answer = match read_book(&mut port) {
        Ok(book) if book == profile_book() => format!(in case.alloc; "the profile's book")?,
        Ok(_) => format!(in case.alloc; "another book")?,
        Err(fault) => format!(in case.alloc; "{fault:?}")?,
    };
    let (taken, given) = (port.taken(), port.given().len());
    Ok(format!(in case.alloc; "{answer}; {taken} octets taken, {given} given")?)
}
