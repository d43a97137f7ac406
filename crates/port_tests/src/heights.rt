// The text of a segment before the one whose header reports the height.
use crate::examples::{FIRST, port_of};
use bit_pipe::InFault;
use packet_assembly::{Assembly, SegmentStart};
use std::test::Fail;

// Returns the packet of the first segment of an image of 17 columns, whose height is reported last: 16 blocks, of 3 in each block row. It
// begins the segment's text and doesn't close it.
fn first() -> [u8; 51] {
    let mut packet = FIRST;
    packet[2] = 0x40;
    packet[7] = 0x21;
    packet[13] = 0;
    packet[43] = 0x01;
    packet[44] = 0x10;
    packet
}

// The packet of the second segment, which is the last one: 2 blocks, so that 18 blocks are 6 block rows of 48 rows. 7 of these pad.
const LAST: [u8; 52] = [
    0x08, 0x64, 0xc0, 0x01, 0, 0x2d, 0x12, 0x21, 0, 0, 0, 0, 0, 0, 0, 0, 0, 0x10, 0, 0, 0, 0x01, 0,
    0, 0, 0x10, 0, 0, 0, 0, 0x40, 0x42, 0x07, 0xe0, 0, 0, 0, 0, 0x60, 0, 0, 0x2c, 0x88, 0, 0x01,
    0x10, 0, 0, 0, 0, 0x77, 0,
];

// Returns the index and the first block of a segment.
fn place(start: SegmentStart) -> (u32, u32) {
    (start.ancillary.index, start.ancillary.first)
}

#[test]
fn last_header_reports_the_height(rt: HostRuntime) -> Result<(), Fail> {
    let mut port = port_of(rt.alloc(), &[&first(), &LAST], &[], 7)?;
    let mut packets = Assembly::new(rt.alloc(), 100, 1000)?;
    assert_eq!(rt; packets.geometry().map(|geometry| geometry.rows), None);
    let first = packets.next_segment(&mut port);
    assert_eq!(rt; first.map(|start| start.map(place)), Ok(Some((0, 0))));
    assert_eq!(rt; packets.geometry().map(|geometry| geometry.rows), Some(0));
    // The second segment's packet ends the text of the first.
    assert_eq!(rt; packets.take_octet(&mut port), Ok(Some(0x5a)));
    assert_eq!(rt; packets.take_octet(&mut port), Ok(Some(0xa5)));
    assert_eq!(rt; packets.held().map(place), None);
    assert_eq!(rt; packets.take_octet(&mut port), Err(InFault::Broken));
    assert_eq!(rt; packets.held().map(place), Some((1, 16)));
    assert_eq!(rt; packets.geometry().map(|geometry| geometry.rows), Some(41));
    let last = packets.next_segment(&mut port);
    assert_eq!(rt; last.map(|start| start.map(place)), Ok(Some((1, 16))));
    assert_eq!(rt; packets.held().map(place), None);
    assert_eq!(rt; packets.take_octet(&mut port), Ok(Some(0x77)));
    assert_eq!(rt; packets.take_octet(&mut port), Ok(Some(0)));
    assert_eq!(rt; packets.take_octet(&mut port), Ok(None));
    Ok(())
}
