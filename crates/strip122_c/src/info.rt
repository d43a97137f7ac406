// Lists the images of packets.
ghost use Rattle.std.specs.Prelude.{◌≡◌, Some};
ghost use Rattle.strip122_c.specs.Lent.{outside_of};
ghost use Rattle.strip122_c.specs.WholeListing.{HasRun, Lists};
ghost use Rattle.strip122_c.specs.Listing.{ListsInto, info_wish};

use crate::encoder::WRONG_SIZE;
use crate::listed::{LISTED_SIZE, NOTHING, Strip122Listed, answer_of, report_of};
use crate::port::LentPort;
use crate::setting::refusal_answer;
use crate::wish::{Strip122Wish, read_wish};
use base_122::DecodeWish;
use camera_mux::{InfoDone, InfoFault, InfoWish, list_images};
use packet_defs::Framing;
use std::alloc::Global;

// The APID of a wish for the images of each APID.
const EACH_APID: u16 = 65535;

/// What was listed: the number of images, the octets of their lines, and why the packets can't be read on, if that was found.
#[derive(Clone, Copy, Debug, PartialEq, Eq)]
pub struct Listed {
    pub images: u64,
    pub octets: u64,
    pub framing: Option<Framing>,
}

/// The reason why no images are listed.
#[derive(Clone, Copy, Debug, PartialEq, Eq)]
pub enum InfoRefusal {
    /// The room has fewer octets than the lines, which have this number.
    SmallRoom { octets: u64 },
    /// The packets have the number of octets at which reading ends.
    LongInput,
    /// More than 4,096 images begin.
    TooManyImages,
    /// There is no memory.
    Memory,
}

/// Lists the images of packets by the wish that a structure gives, and reports.
pub(crate) fn list_into(
    alloc: Global,
    wish: &Strip122Wish,
    packets: &[u8],
    room: &mut [u8],
    listed: &mut Strip122Listed,
) -> u32
    ensures { ListsInto wish.now packets.now room.old room.new listed.old listed.new result }
{
    if listed.size != LISTED_SIZE {
        return WRONG_SIZE;
    }
    let wish = match read_wish(wish) {
        Ok(wish) => wish,
        Err(refusal) => {
            *listed = NOTHING;
            return refusal_answer(refusal);
        }
    };
    let ended = list_whole(alloc, &info_wish(&wish), packets, room);
    *listed = report_of(&ended);
    answer_of(&ended)
}

// Returns the wish for a list of images.
fn info_wish(wish: &DecodeWish) -> InfoWish
    ensures { result ≡ info_wish wish.now }
{
    InfoWish {
        apid: if wish.apid == EACH_APID {
            None
        } else {
            Some(wish.apid)
        },
        octets: wish.octets,
    }
}

/// Reads packets, and puts the lines of their images at the start of the room; the rest of the room is unchanged, and so is all of it after a
/// refusal. The causes of the results exclude each other, so each result except `Memory` is given exactly if its cause holds.
pub fn list_whole(
    alloc: Global,
    wish: &InfoWish,
    packets: &[u8],
    room: &mut [u8],
) -> Result<Listed, InfoRefusal>
    ensures { Lists wish.now packets.now room.old room.new result }
{
    let Ok(mut port) = LentPort::new(alloc, packets, None) else {
        return Err(InfoRefusal::Memory);
    };
    let done = match run(alloc, wish, &mut port) {
        Ok(done) => done,
        Err(refusal) => return Err(refusal),
    };
    // No clause of a port states that it keeps what there is memory for, so this is tested.
    let Some(lines) = port.given() else {
        return Err(InfoRefusal::Memory);
    };
    let octets = lines.len() as u64;
    if lines.len() > room.len() {
        return Err(InfoRefusal::SmallRoom { octets });
    }
    room[..lines.len()].copy_from_slice(lines);
    Ok(Listed {
        images: done.images,
        octets,
        framing: done.framing,
    })
}

// Lists the images of the packets that a port has.
fn run(alloc: Global, wish: &InfoWish, port: &mut LentPort) -> Result<InfoDone, InfoRefusal>
    ensures { HasRun wish.now (outside_of port.old) (outside_of port.new) result }
{
    match list_images(alloc, port, wish) {
        Ok(done) => Ok(done),
        Err(InfoFault::LongInput) => Err(InfoRefusal::LongInput),
        Err(InfoFault::TooManyImages) => Err(InfoRefusal::TooManyImages),
        Err(InfoFault::Memory) => Err(InfoRefusal::Memory),
        Err(InfoFault::ReadFault) => unreachable!(),
        Err(InfoFault::WriteFault) => unreachable!(),
    }
}
