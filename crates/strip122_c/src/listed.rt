// The report on a list of images.
ghost use Rattle.std.specs.Prelude.{◌≡◌};
ghost use Rattle.strip122_c.specs.Listing.{report_of, answer_of};

use crate::info::{InfoRefusal, Listed};
use packet_defs::Framing;

/// What was listed, or what room is needed. A field that the answer does not need is 0.
#[repr(C)]
#[derive(Clone, Copy, Debug, PartialEq, Eq)]
pub struct Strip122Listed {
    /// The size of this structure.
    pub size: u32,
    /// Why the packets can't be read on: 1 if a packet has another version, 2 if the last one is cut.
    pub fault: u32,
    /// The number of octets of the lines, which the room needs.
    pub octets: u64,
    /// The number of images, at most 4,096.
    pub images: u64,
    /// The octet at which a packet has another version, or the octets that are missing from the last packet.
    pub fault_octets: u64,
}

/// The size of a report.
pub(crate) const LISTED_SIZE: u32 = 32;

const _: () = prove!(size_of::<Strip122Listed>() == 32);

/// Returns a report of nothing.
pub(crate) const NOTHING: Strip122Listed = Strip122Listed {
    size: LISTED_SIZE,
    fault: 0,
    octets: 0,
    images: 0,
    fault_octets: 0,
};

/// Returns the report on a list that ended so.
pub(crate) fn report_of(ended: &Result<Listed, InfoRefusal>) -> Strip122Listed
    ensures { result ≡ report_of ended.now }
{
    match ended {
        Ok(listed) => listed_report(listed),
        Err(InfoRefusal::SmallRoom { octets }) => Strip122Listed {
            octets: *octets,
            ..NOTHING
        },
        Err(_) => NOTHING,
    }
}

// Returns the report on a list that was given.
fn listed_report(listed: &Listed) -> Strip122Listed
    ensures { result ≡ report_of (Ok listed.now) }
{
    let mut report = Strip122Listed {
        octets: listed.octets,
        images: listed.images,
        ..NOTHING
    };
    match listed.framing {
        None => {}
        Some(Framing::BadVersion { octet }) => {
            report.fault = 1;
            report.fault_octets = octet;
        }
        Some(Framing::CutPacket { missing }) => {
            report.fault = 2;
            report.fault_octets = u64::from(missing);
        }
    }
    report
}

/// Returns the answer to a list that ended so.
pub(crate) fn answer_of(ended: &Result<Listed, InfoRefusal>) -> u32
    ensures { result ≡ answer_of ended.now }
{
    match ended {
        Ok(listed) => { if listed.framing.is_none() { 0 } else { 1 } }
        Err(InfoRefusal::SmallRoom { .. }) => 7,
        Err(InfoRefusal::Memory) => 8,
        Err(InfoRefusal::LongInput) => 15,
        Err(InfoRefusal::TooManyImages) => 16,
    }
}
