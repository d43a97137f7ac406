// A stream without an end.
ghost use Rattle.std.specs.Prelude.{◌<◌};

use crate::examples::BLACK;
use bit_pipe::InFault;
use packet_assembly::{Assembly, Fate};
use port_122::{Failed, Port};
use std::test::Fail;

// A port that gives the same 52 octets again and again, and takes all that is written. It reports nothing of them.
#[derive(Drop)]
struct EndlessPort {
    octets: [u8; 52],
    at: usize,
    ghost within: { at < 52 },
}

impl Port for EndlessPort {
    ghost use Rattle.port_tests.specs.Endless.{unknown};

    ghost outside = { λ _. unknown };

    fn read(&mut self, into: &mut [u8]) -> Result<usize, Failed> {
        let count = into.len().min(52 - self.at);
        into[..count].copy_from_slice(&self.octets[self.at..self.at + count]);
        self.at = (self.at + count) % 52;
        Ok(count)
    }

    fn write(&mut self, bytes: &[u8]) -> Result<usize, Failed> {
        Ok(bytes.len())
    }

    fn note(&mut self, bytes: &[u8]) -> Result<usize, Failed> {
        Ok(bytes.len())
    }
}

#[test]
fn cap_ends_an_endless_stream(rt: HostRuntime) -> Result<(), Fail> {
    let mut port = EndlessPort {
        octets: BLACK,
        at: 0,
    };
    let mut packets = Assembly::new(rt.alloc(), 100, 5_200)?;
    let mut last = (0, Fate::Kept);
    for _ in 0..100 {
        if let Ok(Some(note)) = packets.next_packet(&mut port) {
            last = (note.number, note.fate);
        }
    }
    assert_eq!(rt; last, (99, Fate::Late));
    assert_eq!(rt; packets.next_packet(&mut port), Err(InFault::LongInput));
    assert_eq!(rt; packets.next_packet(&mut port), Err(InFault::LongInput));
    assert_eq!(rt; packets.framing(), None);
    Ok(())
}

#[test]
fn cap_ends_the_search_for_a_segment(rt: HostRuntime) -> Result<(), Fail> {
    let mut port = EndlessPort {
        octets: BLACK,
        at: 0,
    };
    let mut packets = Assembly::new(rt.alloc(), 100, 5_200)?;
    assert!(rt; packets.next_segment(&mut port).is_ok());
    assert_eq!(rt; packets.next_segment(&mut port), Err(InFault::LongInput));
    Ok(())
}
