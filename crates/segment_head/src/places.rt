// Fields of bits in octets.
ghost use Rattle.std.specs.Prelude.{◌≡◌, ◌≤◌, ◌<◌, ◌+◌, ◌*◌, ◌^◌, length};
ghost use Rattle.segment_defs.specs.Fields.{number_in, is_set};

use byteorder::{BigEndian, ByteOrder};

// Returns the number in `width` bits from a place on, the highest bit of the first octet at place 0.
pub(crate) fn number_in(octets: &[u8], start: u8, width: u8) -> u32
    requires width { (1 ≤ width) × (width ≤ 32) }
    requires within { start + width ≤ 8 * length octets.now }
    ensures value { result ≡ number_in octets.now start width }
    ensures below { result < 2 ^ width }
{
    let end = usize::from(start) + usize::from(width);
    let first = usize::from(start) / 8;
    let past = end.div_ceil(8);
    let number = BigEndian::read_uint(&octets[first..past], past - first);
    ((number >> (8 * past - end)) & ((1 << width) - 1)) as u32
}

// Returns the flag at a place.
pub(crate) fn is_set(octets: &[u8], place: u8) -> bool
    requires { place + 1 ≤ 8 * length octets.now }
    ensures { result ≡ is_set octets.now place }
{
    number_in(octets, place, 1) == 1
}
