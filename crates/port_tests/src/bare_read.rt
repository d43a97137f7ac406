// Tests of a bare stream that is decoded with another code book.
use crate::bare_written::{WITH_EXCHANGED, exchanged};
use bare_stream::{BareFault, decode_bare};
use base_122::{DecodeWish, Geometry, Setting};
use code_book::check_book;
use port_122::MemoryPort;
use std::process::Abort;
use std::test::Fail;

// Expects this result for these octets, and returns the port.
fn port_of(
    rt: &(impl Abort + AllocGlobal),
    octets: &[u8],
    wish: &DecodeWish,
    answer: Result<Geometry, BareFault>,
) -> Result<MemoryPort, Fail> {
    assert_eq!(rt; check_book(&wish.book), Ok(()));
    let input = octets.to_vec(rt.alloc())?;
    let fails = Vec::new(rt.alloc());
    let mut port = MemoryPort::new(rt.alloc(), input, fails, 65_536)?;
    assert_eq!(rt; decode_bare(rt.alloc(), &mut port, wish), answer);
    Ok(port)
}

#[test]
fn texts_are_read_with_the_book_of_the_wish(rt: HostRuntime) -> Result<(), Fail> {
    let mut wish = DecodeWish::usual();
    wish.book = exchanged();
    let geometry = Geometry {
        segment: 9,
        ..Setting::usual(17, 17).geometry_for(17)
    };
    let port = port_of(&rt, &WITH_EXCHANGED, &wish, Ok(geometry))?;
    assert_eq!(rt; port.given().len(), 289);
    assert!(rt; port.given().starts_with(&[1]));
    assert!(rt; port.given()[1..].iter().all(|pixel| *pixel == 0));
    Ok(())
}
