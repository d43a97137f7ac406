// A bare stream without an end.
use bare_stream::{BareCause, BareFault, decode_bare};
use base_122::DecodeWish;
use code_book::check_book;
use port_122::{Failed, Port};
use std::process::Abort;
use std::test::Fail;

// A port that gives one octet for each call: these, and then zeros without an end. It reports nothing of them.
#[derive(Drop)]
struct EndlessPort {
    octets: [u8; 21],
    taken: usize,
}

impl Port for EndlessPort {
    ghost use Rattle.port_tests.specs.Endless.{unknown};

    ghost outside = { λ _. unknown };

    fn read(&mut self, into: &mut [u8]) -> Result<usize, Failed> {
        if into.is_empty() {
            return Ok(0);
        }
        into[0] = self.octets.get(self.taken).copied().unwrap_or(0);
        self.taken = self.taken.saturating_add(1);
        Ok(1)
    }

    fn write(&mut self, bytes: &[u8]) -> Result<usize, Failed> {
        Ok(bytes.len())
    }

    fn note(&mut self, bytes: &[u8]) -> Result<usize, Failed> {
        Ok(bytes.len())
    }
}

// The header of one segment of nine blocks of an image of 17 by 17 pixels, with BitDepthDC 8 and BitDepthAC 0, so that DC numbers have five
// bits; and an identifier 100, which no option has.
const WITH_BAD_OPTION: [u8; 21] = [
    0xc0, 0x10, 0x07, 0xe0, 0, 0, 0, 0, 0x60, 0, 0, 0x9c, 0x88, 0, 0x01, 0x10, 0, 0, 0, 0, 0x80,
];

#[test]
fn refused_item_ends_an_endless_stream(rt: HostRuntime) -> Result<(), Fail> {
    let wish = DecodeWish::usual();
    assert_eq!(rt; check_book(&wish.book), Ok(()));
    let mut port = EndlessPort {
        octets: WITH_BAD_OPTION,
        taken: 0,
    };
    let refused = BareFault::Refused {
        index: 0,
        cause: BareCause::BadOption,
    };
    assert_eq!(rt; decode_bare(rt.alloc(), &mut port, &wish), Err(refused));
    assert_eq!(rt; port.taken, 21);
    Ok(())
}
