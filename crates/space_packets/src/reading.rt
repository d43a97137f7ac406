// Reads the fields of a packet.
ghost use Rattle.std.specs.Prelude.{◌≡◌, ◌≤◌, ◌<◌, ◌-◌, length, false, IfNone};
ghost use Rattle.packet_defs.specs.Reading.{head_in, ancillary_in, has_mark, skip_of};
ghost use Rattle.packet_defs.specs.Streams.{has_bad_version, reported_length, begins_packet, missing};
ghost use Rattle.packet_defs.specs.declared.packet.PacketRead.TheVariants.{Mine};

use crate::header::{ANCILLARY, PRIMARY, mark_of};
use byteorder::{BigEndian, ByteOrder};
use packet_defs::{Ancillary, PacketHead, PacketRead, Skip};

// The APID of idle packets.
const IDLE: u16 = 2047;

/// Returns whether the first octet has another version than 000.
pub fn has_bad_version(octets: &[u8]) -> bool
    ensures { result ≡ has_bad_version octets.now }
{
    !octets.is_empty() && octets[0] >= 1 << 5
}

/// Returns the number of octets of the packet with which these begin, by its header.
#[tactic(auto, unfolding(packet_defs::specs::Streams::reported_length))]
pub fn reported_length(octets: &[u8]) -> usize
    requires { 6 ≤ length octets.now }
    ensures value { result ≡ reported_length octets.now }
    ensures most { result ≤ 65542 }
{
    PRIMARY + BigEndian::read_u16(&octets[4..]) as usize + 1
}

/// Returns whether the octets begin with a whole packet. If they don't, and the version is 000, they are fewer than those of the
/// longest packet.
#[tactic(auto, unfolding(packet_defs::specs::Streams::begins_packet))]
pub fn begins_packet(octets: &[u8]) -> bool
    ensures value { result ≡ begins_packet octets.now }
    ensures short { result ≡ false → has_bad_version octets.now ≡ false → length octets.now < 65542 }
{
    !has_bad_version(octets) && octets.len() >= PRIMARY && reported_length(octets) <= octets.len()
}

/// Returns the number of missing octets of a packet that begins with these and isn't whole.
pub fn missing(octets: &[u8]) -> u32
    ensures { result ≡ missing octets.now }
{
    if octets.len() < PRIMARY {
        return (PRIMARY - octets.len()) as u32;
    }
    reported_length(octets).saturating_sub(octets.len()) as u32
}

/// Returns why a whole packet isn't one of an image with this APID.
#[tactic(auto, unfolding(packet_defs::specs::Reading::skip_of, packet_defs::specs::Streams::reported_length))]
pub fn skip_of(packet: &[u8], apid: u16) -> Option<Skip>
    requires { length packet.now ≡ reported_length packet.now }
    ensures value { result ≡ skip_of apid packet.now }
    ensures long { IfNone result (30 ≤ length packet.now) }
{
    let first = BigEndian::read_u16(packet);
    let own = first % (1 << 11);
    if own == IDLE {
        return Some(Skip::Idle);
    }
    if first / (1 << 12) % 2 == 1 {
        return Some(Skip::NotTelemetry);
    }
    if own != apid {
        return Some(Skip::OtherApid);
    }
    if first / (1 << 11) % 2 == 0 {
        return Some(Skip::NoSecondary);
    }
    if packet.len() < PRIMARY + ANCILLARY {
        return Some(Skip::ShortAncillary);
    }
    if !has_mark(packet) {
        return Some(Skip::OtherMark);
    }
    None
}

// Returns whether the ancillary data begin with one of their marks.
fn has_mark(packet: &[u8]) -> bool
    requires { 30 ≤ length packet.now }
    ensures { result ≡ has_mark packet.now }
{
    let mark = BigEndian::read_u16(&packet[6..]);
    mark == mark_of(false) || mark == mark_of(true)
}

/// Returns the primary header and the ancillary data of a packet of an image.
pub fn mine_in(packet: &[u8]) -> PacketRead
    requires { 30 ≤ length packet.now }
    ensures { result ≡ Mine (head_in packet.now) (ancillary_in packet.now) }
{
    PacketRead::Mine {
        head: head_in(packet),
        ancillary: ancillary_in(packet),
    }
}

// Returns the primary header of a packet.
fn head_in(packet: &[u8]) -> PacketHead
    requires { 6 ≤ length packet.now }
    ensures { result ≡ head_in packet.now }
{
    let second = BigEndian::read_u16(&packet[2..]);
    PacketHead {
        apid: BigEndian::read_u16(packet) % (1 << 11),
        flags: (second >> 14) as u8,
        count: second % (1 << 14),
        length: u32::from(BigEndian::read_u16(&packet[4..])) + 1,
    }
}

// Returns the ancillary data of a packet.
fn ancillary_in(packet: &[u8]) -> Ancillary
    requires { 30 ≤ length packet.now }
    ensures { result ≡ ancillary_in packet.now }
{
    Ancillary {
        reported_last: BigEndian::read_u16(&packet[6..]) == mark_of(true),
        image: BigEndian::read_u16(&packet[8..]),
        rows: BigEndian::read_u32(&packet[10..]),
        segment: BigEndian::read_u32(&packet[14..]),
        index: BigEndian::read_u32(&packet[18..]),
        first: BigEndian::read_u32(&packet[22..]),
        part: BigEndian::read_u32(&packet[26..]),
    }
}
