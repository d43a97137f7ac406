// Tests of a small image as a bare stream with another code book.
ghost use Rattle.std.specs.Prelude.{◌≡◌, ◌≢◌, IsTrue};
ghost use Rattle.base_122.specs.Ranges.{IsInRange};
ghost use Rattle.plane_defs.specs.Codes.{is_book_sound};

use bare_stream::encode_bare;
use base_122::{Book, Setting};
use code_book::check_book;
use port_122::MemoryPort;
use std::alloc::Global;
use std::mem;
use std::process::Abort;
use std::test::Fail;
use strip_coder::{EncodeDone, EncodeFault, Work};

// Encodes the raster of a port, and returns the result.
fn encode_port(
    alloc: Global,
    setting: &Setting,
    port: &mut MemoryPort,
) -> Result<Result<EncodeDone, EncodeFault>, Fail>
    requires in_range { IsInRange setting.now }
    requires known { setting.now.rows ≢ 0 }
    requires no_total { setting.now.total ≡ 0 }
    requires book { IsTrue (is_book_sound setting.now.book) }
{
    let mut work = Work::new(alloc, setting)?;
    let answer = encode_bare(port, setting, &mut work);
    // Its drop would be costly to prove.
    mem::forget(work);
    Ok(answer)
}

// Expects this result for a raster, and returns the port.
fn port_of(
    rt: &(impl Abort + AllocGlobal),
    setting: &Setting,
    raster: Vec<u8>,
    fail: &[u64],
    answer: Result<EncodeDone, EncodeFault>,
) -> Result<MemoryPort, Fail> {
    assert_ne!(rt; setting.rows, 0);
    assert_eq!(rt; setting.total, 0);
    setting.check()?;
    assert_eq!(rt; check_book(&setting.book), Ok(()));
    let mut port = MemoryPort::new(rt.alloc(), raster, fail.to_vec(rt.alloc())?, 65_536)?;
    assert_eq!(rt; encode_port(rt.alloc(), setting, &mut port)?, answer);
    Ok(port)
}

// The profile's book with the codes of symbols 0 and 1 exchanged in the first table of words of four bits: 01 and 1.
pub fn exchanged() -> Book {
    let mut book = Book::profile();
    let first = book.codes[3][0];
    book.codes[3][0] = book.codes[3][1];
    book.codes[3][1] = first;
    book
}

// The stream of an image of 17 by 17 black pixels of which the first has the value 1, with that book.
pub const WITH_EXCHANGED: [u8; 26] = [
    0xc0, 0x02, 0x27, 0xe0, 0, 0, 0, 0, 0x60, 0, 0, 0x9c, 0x88, 0, 0x01, 0x10, 0, 0, 0, 0, 0, 0x21,
    0xff, 0x19, 0xf3, 0x00,
];

#[test]
fn texts_have_the_codes_of_the_book_in_the_setting(rt: HostRuntime) -> Result<(), Fail> {
    let mut setting = Setting::usual(17, 17);
    let done = EncodeDone {
        segments: 1,
        packets: 0,
        octets: 26,
    };
    let mut raster = vec![in rt.alloc(); 0; 289]?;
    raster[0] = 1;
    let port = port_of(&rt, &setting, raster.clone()?, &[], Ok(done))?;
    // A word with symbol 1 of the first table of words of four bits has the code 01 with the book of the profile, and 1 with the other:
    // the streams are the same up to the first of them, and the second has fewer bits after it.
    assert!(rt; port.given().starts_with(&WITH_EXCHANGED[..23]));
    assert!(rt; port.given().ends_with(&[0x18, 0xbc, 0x50]));
    setting.book = exchanged();
    let port = port_of(&rt, &setting, raster, &[], Ok(done))?;
    assert_eq!(rt; port.given(), WITH_EXCHANGED.as_slice());
    Ok(())
}
