// The octets of a packet before its text.
ghost use Rattle.std.specs.Prelude.{◌≡◌, ◌≤◌, ◌+◌, ◌*◌, ◌^◌, ◌%◌, ◌<◌, ◌++◌, length, drop};
ghost use Rattle.byteorder.specs.Endian.{big_bytes};
ghost use Rattle.packet_defs.specs.Packets.{ancillary_octets, mark_of};
ghost use Rattle.space_packets.specs.Parts.{flags_of, packet_of};

use crate::stage::Text;
use byteorder::{BigEndian, ByteOrder};
use packet_defs::Ancillary;

// The marks that begin the ancillary data: if they report the height of the image, and if it is reported last.
const MARK: u16 = 0x1220;

const MARK_LAST: u16 = 0x1221;

/// The octets of the primary header.
pub const PRIMARY: usize = 6;

/// The octets of the ancillary data.
pub const ANCILLARY: usize = 24;

/// The octets of a packet before its text.
pub const HEADER: usize = PRIMARY + ANCILLARY;

/// Returns the mark that begins the ancillary data, by whether the height of the image is reported last.
pub fn mark_of(reported_last: bool) -> u16
    ensures { result ≡ mark_of reported_last }
{
    if reported_last { MARK_LAST } else { MARK }
}

// Returns the sequence flags of a part: 01 for the first of more, 10 for the last of more, 11 for one that is alone.
fn flags_of_part(part: u32, last: bool) -> u16
    ensures value { result ≡ flags_of part last }
    ensures small { result < 4 }
{
    let first = part == 0;
    u16::from(first) + 2 * u16::from(last)
}

// Writes the ancillary data.
fn write_ancillary(field: &mut [u8], ancillary: &Ancillary)
    requires { 24 ≤ length field.old }
    ensures { field.new ≡ ancillary_octets ancillary.now ++ drop 24 field.old }
{
    BigEndian::write_u16(field, mark_of(ancillary.reported_last));
    BigEndian::write_u16(&mut field[2..], ancillary.image);
    BigEndian::write_u32(&mut field[4..], ancillary.rows);
    BigEndian::write_u32(&mut field[8..], ancillary.segment);
    BigEndian::write_u32(&mut field[12..], ancillary.index);
    BigEndian::write_u32(&mut field[16..], ancillary.first);
    BigEndian::write_u32(&mut field[20..], ancillary.part);
}

/// Writes the headers of a packet before its part of the text, after `number` packets of the image.
#[tactic(auto, unfolding(crate::specs::Parts::packet_of))]
pub fn write_header(packet: &mut [u8], text: &Text, number: u64, last: bool)
    requires apid { text.now.apid < 2 ^ 11 }
    requires header { 30 ≤ length packet.old }
    requires fits { length packet.old ≤ 2 ^ 16 + 6 }
    ensures { packet.new ≡ packet_of text.now number last (drop 30 packet.old) }
{
    let length = (packet.len() - PRIMARY - 1) as u16;
    let flags = flags_of_part(text.ancillary.part, last);
    BigEndian::write_u16(packet, (1 << 11) + text.apid);
    BigEndian::write_u16(
        &mut packet[2..],
        (flags << 14) + (number % (1 << 14)) as u16,
    );
    BigEndian::write_u16(&mut packet[4..], length);
    write_ancillary(&mut packet[PRIMARY..], &text.ancillary);
}
