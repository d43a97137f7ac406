// The report on what is made of packets.
ghost use Rattle.std.specs.Prelude.{◌≡◌};
ghost use Rattle.strip122_c.specs.Decoding.{geometry_report, framing_report, report_with, answer_with};

use crate::decode::{DecodeRefusal, Made};
use base_122::Geometry;
use packet_defs::Framing;

/// What was found, or what room is needed. A field that the answer does not need is 0.
#[repr(C)]
#[derive(Clone, Copy, Debug, PartialEq, Eq)]
pub struct Strip122Decoded {
    /// The size of this structure.
    pub size: u32,
    pub width: u32,
    /// The number of octets that are made, which the room needs.
    pub octets: u64,
    /// The number of ranges of damaged rows, including those for which there was no place.
    pub ranges: u64,
    /// The octet at which a packet has another version, or the octets that are missing from the last packet.
    pub fault_octets: u64,
    /// The number of pixels that a header reports, if they are too many.
    pub pixels: u64,
    /// The height of the image; 0 if no header reports it.
    pub rows: u32,
    /// The number of rows of the picture: the height if it is known, otherwise those that the received headers determine.
    pub written: u32,
    pub segment: u32,
    pub image: u16,
    pub depth: u8,
    pub is_signed: u8,
    pub word: u8,
    /// Why the packets can't be read on: 1 if a packet has another version, 2 if the last one is cut.
    pub fault: u8,
    pub weights: [u8; 10],
}

/// The size of a report.
pub(crate) const DECODED_SIZE: u32 = 72;

const _: () = prove!(size_of::<Strip122Decoded>() == 72);

/// Returns a report of nothing.
pub(crate) const NOTHING: Strip122Decoded = Strip122Decoded {
    size: DECODED_SIZE,
    width: 0,
    octets: 0,
    ranges: 0,
    fault_octets: 0,
    pixels: 0,
    rows: 0,
    written: 0,
    segment: 0,
    image: 0,
    depth: 0,
    is_signed: 0,
    word: 0,
    fault: 0,
    weights: [0; 10],
};

/// Returns the report on a reading that ended so, with this number of ranges of damaged rows.
pub(crate) fn report_of(ended: &Result<Made, DecodeRefusal>, ranges: u64) -> Strip122Decoded
    ensures { result ≡ report_with ended.now ranges }
{
    match ended {
        Ok(made) => made_report(made, ranges),
        Err(
            DecodeRefusal::SmallRoom {
                geometry,
                rows,
                octets,
            },
        ) => geometry_report(geometry, *rows, *octets),
        Err(DecodeRefusal::TooManyPixels { pixels }) => Strip122Decoded {
            pixels: *pixels,
            ..NOTHING
        },
        Err(_) => NOTHING,
    }
}

// Returns the report on what was made.
fn made_report(made: &Made, ranges: u64) -> Strip122Decoded
    ensures { result ≡ record (framing_report (geometry_report made.now.done.geometry made.now.done.written made.now.octets) made.now.done.framing)
        { ranges = ranges } }
{
    let done = &made.done;
    let mut report = geometry_report(&done.geometry, done.written, made.octets);
    report.ranges = ranges;
    match done.framing {
        None => {}
        Some(Framing::BadVersion { octet }) => {
            report.fault = 1;
            report.fault_octets = octet;
        }
        Some(Framing::CutPacket { missing }) => {
            report.fault = 2;
            report.fault_octets = u64::from(missing);
        }
    }
    report
}

// Returns the report on a geometry, a number of rows of its picture, and the octets that are made.
fn geometry_report(geometry: &Geometry, written: u32, octets: u64) -> Strip122Decoded
    ensures { result ≡ geometry_report geometry.now written octets }
{
    Strip122Decoded {
        size: DECODED_SIZE,
        width: geometry.width,
        octets,
        ranges: 0,
        fault_octets: 0,
        pixels: 0,
        rows: geometry.rows,
        written,
        segment: geometry.segment,
        image: geometry.image,
        depth: geometry.depth,
        is_signed: u8::from(geometry.signed),
        word: geometry.word,
        fault: 0,
        weights: geometry.weights.shifts,
    }
}

/// Returns the answer to a reading that ended so, with this number of ranges of damaged rows.
pub(crate) fn answer_of(ended: &Result<Made, DecodeRefusal>, ranges: u64) -> u32
    ensures { result ≡ answer_with ended.now ranges }
{
    match ended {
        Ok(made) => {
            let done = &made.done;
            if ranges == 0 && done.framing.is_none() && done.geometry.rows != 0 {
                0
            } else {
                1
            }
        }
        Err(DecodeRefusal::NoSegment) => 6,
        Err(DecodeRefusal::SmallRoom { .. }) => 7,
        Err(DecodeRefusal::Memory) => 8,
        Err(DecodeRefusal::TooManyPixels { .. }) => 14,
        Err(DecodeRefusal::LongInput) => 15,
    }
}
