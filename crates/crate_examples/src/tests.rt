// The three examples on one picture, calculated by hand from the rules.
ghost use Rattle.std.specs.Prelude.{◌≡◌, ◌≢◌, ◌*◌, length, IsTrue};
ghost use Rattle.base_122.specs.Ranges.{IsInRange};
ghost use Rattle.plane_defs.specs.Codes.{is_book_sound};
ghost use Rattle.crate_examples.specs.Frames.{HasOctets};

use crate::{NotRead, encode_frame, list_octets, read_text};
use base_122::Setting;
use bit_pipe::Part;
use port_122::MemoryPort;
use segment_code::SegmentFault;
use segment_head::HeadFault;
use std::alloc::Global;
use std::process::Abort;
use std::test::Fail;
use strip_coder::{EncodeDone, Work};

// A picture of 17 by 17 pixels of 200, as one segment of nine blocks with 1,600 for each DC and no other number: its packet has
// 30 octets before the segment's text.
pub(crate) const PACKET: [u8; 53] = [
    0x08, 0x64, 0xc0, 0, 0, 0x2e, 0x12, 0x20, 0, 0, 0, 0, 0, 0x11, 0, 0, 0, 0x40, 0, 0, 0, 0, 0, 0,
    0, 0, 0, 0, 0, 0, 0xc0, 0x18, 0x07, 0xe0, 0, 0, 0, 0, 0x60, 0, 0, 0x9c, 0x88, 0, 0x01, 0x10, 0,
    0, 0, 0, 0x06, 0x47, 0xf8,
];

// Returns the setting of a camera of 8 bits. Its code book, the profile's, is sound.
fn camera(width: u32, rows: u32) -> Setting
    ensures octets { HasOctets result }
    ensures book { IsTrue (is_book_sound result.book) }
    ensures width { result.width ≡ width }
    ensures rows { result.rows ≡ rows }
{
    Setting::usual(width, rows)
}

// Encodes a frame, and returns what was done.
fn encode_to(
    alloc: Global,
    port: &mut MemoryPort,
    setting: &Setting,
    frame: &[u8],
) -> Option<EncodeDone>
    requires in_range { IsInRange setting.now }
    requires book { IsTrue (is_book_sound setting.now.book) }
    requires known { setting.now.rows ≢ 0 }
    requires octets { HasOctets setting.now }
    requires frame { length frame.now ≡ setting.now.rows * setting.now.width }
{
    let Ok(mut work) = Work::new(alloc, setting) else {
        return None;
    };
    encode_frame(port, setting, &mut work, frame).ok()
}

// Returns the packet of a frame that has one.
fn packet_of(
    rt: &(impl Abort + AllocGlobal),
    setting: &Setting,
    frame: &[u8],
) -> Result<Vec<u8>, Fail>
    requires book { IsTrue (is_book_sound setting.now.book) }
    requires octets { HasOctets setting.now }
    requires frame { length frame.now ≡ setting.now.rows * setting.now.width }
{
    assert_eq!(rt; setting.check(), Ok(()));
    assert!(rt; setting.rows != 0);
    let mut port = MemoryPort::new(rt.alloc(), Vec::new(rt.alloc()), Vec::new(rt.alloc()), 4096)?;
    let done = encode_to(rt.alloc(), &mut port, setting, frame).expect(rt, "packets");
    assert_eq!(rt; done.segments, 1);
    assert_eq!(rt; done.packets, 1);
    assert_eq!(rt; done.octets, 53);
    Ok(port.given().to_vec(rt.alloc())?)
}

#[test]
fn a_frame_goes_out_as_packets(rt: HostRuntime) -> Result<(), Fail> {
    let packet = packet_of(&rt, &camera(17, 17), &[200; 289])?;
    assert_eq!(rt; packet.as_slice(), PACKET.as_slice());
    Ok(())
}

#[test]
fn a_text_holds_blocks(rt: HostRuntime) {
    let text = &PACKET[30..];
    let read = read_text(rt.alloc(), text).expect(&rt, "blocks");
    assert_eq!(rt; read.part, Part::Whole);
    let mut numbers = [0; 576];
    for block in 0..9 {
        numbers[64 * block] = 1600;
    }
    assert_eq!(rt; read.numbers.as_slice(), numbers.as_slice());
    assert_eq!(rt;
        read_text(rt.alloc(), &text[..22]).err(),
        Some(NotRead::BadText(SegmentFault::ShortSegment))
    );
    assert_eq!(rt;
        read_text(rt.alloc(), &text[..19]).err(),
        Some(NotRead::BadHead(HeadFault::HeadShort { octets: 19 }))
    );
}

#[test]
fn packets_have_lines(rt: HostRuntime) -> Result<(), Fail> {
    let mut octets = PACKET.to_vec(rt.alloc())?;
    octets.extend_from_slice(&PACKET)?;
    octets.extend_from_slice(&PACKET[..50])?;
    let lines = list_octets(rt.alloc(), octets, 100).expect(&rt, "lines");
    assert_eq!(rt; lines.as_slice(), b"0 kept 0 0 23\n1 late\n".as_slice());
    Ok(())
}
