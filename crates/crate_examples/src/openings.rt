// The openings of the crates that others call: each crate's first page shows the lines of one of these tests, or of an example.
use crate::tests::PACKET;
use base_122::{DecodeWish, Setting};
use bit_pipe::{BitIn, OctetIn, SliceIn};
use packet_assembly::Assembly;
use port_122::MemoryPort;
use std::test::Fail;
use strip_decoder::decode_packets;

#[test]
fn a_setting_is_checked(rt: HostRuntime) {
    let setting = Setting {
        depth: 12,
        segment: 128,
        ..Setting::usual(1024, 768)
    };
    assert_eq!(rt; setting.check(), Ok(()));
    let geometry = setting.geometry_for(setting.rows);
    assert_eq!(rt; geometry.segments(), 96);
}

#[test]
fn bits_are_taken_from_octets(rt: HostRuntime) {
    let mut input = SliceIn::new(&[0xa5, 0x80]);
    let mut bits = BitIn::new(&mut input, 0, 0);
    assert_eq!(rt; bits.take(), Ok(Some(true)));
    assert_eq!(rt; bits.take_bits(7), Ok(Some(0x25)));
    assert_eq!(rt; bits.used(), 8);
}

#[test]
fn the_text_of_a_segment_is_assembled(rt: HostRuntime) -> Result<(), Fail> {
    let packets = PACKET.to_vec(rt.alloc())?;
    let mut port = MemoryPort::new(rt.alloc(), packets, Vec::new(rt.alloc()), 4096)?;
    let mut assembly = Assembly::new(rt.alloc(), 100, 1 << 20)?;
    let start = assembly.next_segment(&mut port);
    assert_eq!(rt;
        start.map(|start| start.map(|start| start.head.blocks)),
        Ok(Some(9))
    );
    let mut text = assembly.text(&mut port);
    assert_eq!(rt; text.take(), Ok(Some(0x06)));
    Ok(())
}

#[test]
fn a_packet_gives_its_picture(rt: HostRuntime) -> Result<(), Fail> {
    let packets = PACKET.to_vec(rt.alloc())?;
    let mut port = MemoryPort::new(rt.alloc(), packets, Vec::new(rt.alloc()), 4096)?;
    let wish = DecodeWish {
        pixels: 1 << 20,
        ..DecodeWish::usual()
    };
    let done = decode_packets(rt.alloc(), &mut port, &wish);
    assert_eq!(rt; done.map(|done| done.written), Ok(17));
    assert_eq!(rt; port.given(), [200; 289].as_slice());
    Ok(())
}
