// Packets calculated by hand, and ports that give them.
ghost use Rattle.std.specs.Prelude.{◌<◌};

use port_122::MemoryPort;
use space_packets::Ancillary;
use std::alloc::{AllocError, Global};

// The packet of the only segment of a black image of 17 by 17 pixels of 8 bits.
pub const BLACK: [u8; 52] = [
    0x08, 0x64, 0xc0, 0, 0, 0x2d, 0x12, 0x20, 0, 0, 0, 0, 0, 0x11, 0, 0, 0, 0x40, 0, 0, 0, 0, 0, 0,
    0, 0, 0, 0, 0, 0, 0xc0, 0x02, 0x07, 0xe0, 0, 0, 0, 0, 0x60, 0, 0, 0x9c, 0x88, 0, 0x01, 0x10, 0,
    0, 0, 0, 0, 0,
];

// The packet of the first of eight segments of a black image of 64 by 128 pixels of 8 bits.
pub const FIRST: [u8; 51] = [
    0x08, 0x64, 0xc0, 0, 0, 0x2c, 0x12, 0x20, 0, 0, 0, 0, 0, 0x80, 0, 0, 0, 0x10, 0, 0, 0, 0, 0, 0,
    0, 0, 0, 0, 0, 0, 0x80, 0x02, 0x07, 0, 0, 0, 0, 0x60, 0, 0x01, 0x0c, 0x88, 0, 0x04, 0, 0, 0, 0,
    0, 0x5a, 0xa5,
];

// Segment 0 of image 0, which has 17 rows and segments of 64 blocks.
pub const FIRST_SEGMENT: Ancillary = Ancillary {
    reported_last: false,
    image: 0,
    rows: 17,
    segment: 64,
    index: 0,
    first: 0,
    part: 0,
};

// Returns the black image's packet with another octet in one place.
pub fn changed(place: usize, octet: u8) -> [u8; 52]
    requires { place < 52 }
{
    let mut packet = BLACK;
    packet[place] = octet;
    packet
}

// Returns the packet of the second segment of the second image.
pub fn second() -> [u8; 51] {
    let mut packet = FIRST;
    packet[21] = 1;
    packet[25] = 16;
    packet[30] = 0;
    packet[31] = 0x42;
    packet[49] = 0x77;
    packet
}

// A stream, and how it is read: in pieces of at most this size, up to the cap, and with calls of these numbers that fail.
#[derive(Clone, Copy)]
pub struct Stream<'a> {
    pub parts: &'a [&'a [u8]],
    pub fail: &'a [u64],
    pub piece: usize,
    pub cap: u64,
}

// Returns a stream of these octets, of which no read fails.
pub fn whole<'a>(parts: &'a [&'a [u8]], piece: usize, cap: u64) -> Stream<'a> {
    Stream {
        parts,
        fail: &[],
        piece,
        cap,
    }
}

// Returns a port with these octets, which moves at most `piece` of them at a time, and whose calls of these numbers fail.
pub fn port_of(
    alloc: Global,
    parts: &[&[u8]],
    fail: &[u64],
    piece: usize,
) -> Result<MemoryPort, AllocError>
    requires { 0 < piece }
{
    let mut input = Vec::new(alloc);
    for part in parts {
        input.extend_from_slice(part)?;
    }
    MemoryPort::new(alloc, input, fail.to_vec(alloc)?, piece)
}
