// Runs the commands whose input begins with a code book.
ghost use Rattle.std.specs.Prelude.{◌≡◌, ◌++◌, IsTrue, codes, decimal, true};
ghost use Rattle.plane_defs.specs.Codes.{is_book_sound};
ghost use Rattle.base_122.specs.Ranges.{IsInRange};
ghost use Rattle.strip122.specs.Books.{book_report, clash_line, code_line, with_book};
ghost use Rattle.strip122.specs.Closed.{ClosedBy};
ghost use Rattle.strip122.specs.Decoding.{reads};
ghost use Rattle.strip122.specs.Encoding.{encodes_with_book};
ghost use Rattle.strip122.specs.Notes.{Notes};

use crate::encoders::encode_raster;
use crate::notes::{NoteLine, note_line};
use crate::packets::read;
use arrayvec::ArrayString;
use base_122::{DecodeWish, Setting};
use code_book::{BookFault, read_book};
use command_words::Reading;
use itoa::Buffer;
use port_122::Port;
use segment_code::SegmentWriter;
use std::alloc::Global;
use strip_coder::Work;

fn short_line(octets: u32) -> NoteLine
    ensures { result.bytes ≡ codes "strip122: book short, " ++ decimal octets ++ codes " octets taken\n" }
{
    let mut line = ArrayString::new();
    line.push_str("strip122: book short, ");
    line.push_str(Buffer::new().format(octets));
    line.push_str(" octets taken\n");
    line
}

fn code_line(table: u8, symbol: u8) -> NoteLine
    ensures { result.bytes ≡ code_line table symbol }
{
    let mut line = ArrayString::new();
    line.push_str("strip122: book refused: code ");
    line.push_str(Buffer::new().format(symbol));
    line.push_str(" of table ");
    line.push_str(Buffer::new().format(table));
    line.push_str("\n");
    line
}

fn clash_line(table: u8, first: u8, second: u8) -> NoteLine
    ensures { result.bytes ≡ clash_line table first second }
{
    let mut line = ArrayString::new();
    line.push_str("strip122: book refused: codes ");
    line.push_str(Buffer::new().format(first));
    line.push_str(" and ");
    line.push_str(Buffer::new().format(second));
    line.push_str(" of table ");
    line.push_str(Buffer::new().format(table));
    line.push_str(" clash\n");
    line
}

fn incomplete_line(table: u8) -> NoteLine
    ensures { result.bytes ≡ codes "strip122: book refused: table " ++ decimal table ++ codes " incomplete\n" }
{
    let mut line = ArrayString::new();
    line.push_str("strip122: book refused: table ");
    line.push_str(Buffer::new().format(table));
    line.push_str(" incomplete\n");
    line
}

// Notes why the input doesn't begin with a book.
fn note_book_fault<X: Port>(port: &mut X, fault: BookFault)
    ensures { Notes (X.outside port.old) (X.outside port.new) (book_report fault).line }
{
    match fault {
        BookFault::ReadFault => note_line(port, "strip122: read fault\n"),
        BookFault::Short { octets } => note_line(port, short_line(octets).as_str()),
        BookFault::BadMark => note_line(port, "strip122: book without mark\n"),
        BookFault::BadLength { table, symbol } => {
            note_line(port, code_line(table, symbol).as_str());
        }
        BookFault::BadBits { table, symbol } => {
            note_line(port, code_line(table, symbol).as_str());
        }
        BookFault::Clash {
            table,
            first,
            second,
        } => note_line(port, clash_line(table, first, second).as_str()),
        BookFault::Incomplete { table } => note_line(port, incomplete_line(table).as_str()),
    }
}

fn book_status(fault: BookFault) -> u8
    ensures { result ≡ (book_report fault).status }
{
    match fault {
        BookFault::ReadFault => 4,
        _ => 3,
    }
}

/// Runs the command `encode` for an input that begins with a code book, and returns the status. The memory is taken first, so if there is
/// too little, nothing was read.
pub fn encode_with_book<X: Port>(alloc: Global, setting: &Setting, port: &mut X) -> u8
    requires range { IsInRange setting.now }
    requires book { IsTrue (is_book_sound setting.now.book) }
    ensures runs { (encodes_with_book setting.now).performs (X.outside port.old) (X.outside port.new) result }
    ensures closed { result ≡ 0 → ClosedBy true setting.now (X.outside port.old) (X.outside port.new) }
{
    let Ok(mut work) = Work::new(alloc, setting) else {
        note_line(port, "strip122: no memory\n");
        return 6;
    };
    match read_book(port) {
        Ok(book) => {
            work.writer = SegmentWriter::new(&book);
            encode_raster(port, &Setting { book, ..*setting }, &mut work)
        }
        Err(fault) => {
            note_book_fault(port, fault);
            book_status(fault)
        }
    }
}

/// Runs a command that reads packets for an input that begins with a code book, and returns the status.
pub fn read_with_book<X: Port>(
    alloc: Global,
    reading: Reading,
    wish: &DecodeWish,
    port: &mut X,
) -> u8
    ensures { (with_book (λ book. reads reading (record wish.now { book = book }))).performs (X.outside port.old) (X.outside port.new) result }
{
    match read_book(port) {
        Ok(book) => read(alloc, reading, &DecodeWish { book, ..*wish }, port),
        Err(fault) => {
            note_book_fault(port, fault);
            book_status(fault)
        }
    }
}
