// Picks the packets of one APID, or of one image of it, from a stream.
ghost use Rattle.std.specs.Prelude.{◌≡◌};
ghost use Rattle.packet_defs.specs.Streams.{IsPacket};
ghost use Rattle.camera_mux.specs.Picked.{is_picked};
ghost use Rattle.camera_mux.specs.PickSteps.{PicksNext};
ghost use Rattle.camera_mux.specs.PickAnswers.{Picks};

use base_122::DecodeWish;
use byteorder::{BigEndian, ByteOrder};
use packet_assembly::{Framing, framing_in};
use port_122::{Port, write_all};
use space_packets::{PacketReader, skip_of};
use std::alloc::Global;
use strip_decoder::{ListDone, ListFault};

/// Reads the packets of a stream and writes those with the wish's APID, octet for octet, each before the next read call (docs/formats.md,
/// "Packets"). If the number of an image is given, it writes only packets of an image with this APID whose ancillary data, of either mark,
/// have that number. It reads to the end, or to what can't be read on, and at most the octets of the wish. After `Memory` nothing was read
/// or written, after `WriteFault` a prefix of the picked packets is written, and otherwise all picked packets of the octets that were
/// taken. `ReadFault` and `WriteFault` are returned only if the port's count rose. The most pixels of the wish don't matter.
pub fn pick_packets<X: Port>(
    alloc: Global,
    port: &mut X,
    wish: &DecodeWish,
    image: Option<u16>,
) -> Result<ListDone, ListFault>
    ensures { Picks wish.now image (X.outside port.old) (X.outside port.new) result }
{
    let Ok(mut reader) = PacketReader::new(alloc, wish.octets) else {
        return Err(ListFault::Memory);
    };
    let mut packets = 0;
    'packets: loop {
        match pick_next(port, &mut reader, wish.apid, image) {
            Ok(Step::Given) => packets += 1,
            Ok(Step::Passed) => {}
            Ok(Step::Over(framing)) => return Ok(ListDone { packets, framing }),
            Err(fault) => return Err(fault),
        }
    }
}

// The result for the next packet: it was written, or another one was passed, or there is none, and maybe the stream can't be read on.
#[derive(Clone, Copy)]
enum Step {
    Given,
    Passed,
    Over(Option<Framing>),
}

// Reads the next packet, and writes it if it is picked.
fn pick_next<X: Port>(
    port: &mut X,
    reader: &mut PacketReader,
    apid: u16,
    image: Option<u16>,
) -> Result<Step, ListFault>
    ensures { PicksNext apid image (X.outside port.old) (X.outside port.new) reader.old reader.new result }
{
    let Ok(()) = reader.fill(port) else {
        return Err(ListFault::ReadFault);
    };
    if !reader.has_packet() {
        let Ok(read) = reader.answer(apid) else {
            return Err(ListFault::LongInput);
        };
        return Ok(Step::Over(framing_in(read)));
    }
    let picked = is_picked(reader.octets(), apid, image);
    if picked {
        let Ok(()) = write_all(port, reader.octets()) else {
            return Err(ListFault::WriteFault);
        };
    }
    let _ = reader.answer(apid);
    if picked {
        Ok(Step::Given)
    } else {
        Ok(Step::Passed)
    }
}

// Returns whether a packet is picked.
fn is_picked(packet: &[u8], apid: u16, image: Option<u16>) -> bool
    requires { IsPacket packet.now }
    ensures { result ≡ is_picked apid image packet.now }
{
    let Some(number) = image else {
        return BigEndian::read_u16(packet) % (1 << 11) == apid;
    };
    skip_of(packet, apid).is_none() && BigEndian::read_u16(&packet[8..]) == number
}
