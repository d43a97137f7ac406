// Passes one packet of the stream, and counts it in the table.
ghost use Rattle.std.specs.Prelude.{◌≡◌, ◌≤◌, ◌+◌, [], length, true, Some, None};
ghost use Rattle.packet_defs.specs.Reading.{apid_in};
ghost use Rattle.packet_defs.specs.Streams.{begins_packet, first_packet};
ghost use Rattle.space_packets.specs.Intake.{is_decided, answered};
ghost use Rattle.camera_mux.specs.Images.{is_wanted};
ghost use Rattle.camera_mux.specs.Tables.{AreRanged, CanCount, PassesImage, PassesPacket};

use crate::image::{ImageEntry, ImageId};
use crate::image_table::{Table, TableFull};
use byteorder::{BigEndian, ByteOrder};
use packet_assembly::{classify, past_kept};
use packet_defs::{Ancillary, PacketHead, PacketRead};
use space_packets::PacketReader;

// The number of octets of a primary header.
const HEADER: u64 = 6;

/// Passes the next packet, which the octets that were taken hold, and counts it for its image if it is kept.
pub fn pass_packet(
    reader: &mut PacketReader,
    table: &mut Table,
    wanted: Option<u16>,
) -> Result<(), TableFull>
    requires whole { begins_packet reader.old.pending ≡ true }
    requires decided { is_decided reader.old ≡ true }
    requires no_text { reader.old.text ≡ [] }
    requires ranged { AreRanged table.old.entries.items }
    requires room { CanCount table.old.entries.items (length (first_packet reader.old.pending)) }
    ensures passed { PassesPacket wanted table.old.entries.items table.new.entries.items (first_packet reader.old.pending) result }
    ensures in_range { AreRanged table.new.entries.items }
    ensures valid { reader.new ≡ answered (apid_in (first_packet reader.old.pending)) reader.old }
{
    let apid = BigEndian::read_u16(reader.octets()) % (1 << 11);
    let Ok(read) = reader.answer(apid) else {
        return Ok(());
    };
    let PacketRead::Mine { head, ancillary } = read else {
        return Ok(());
    };
    if !is_wanted(wanted, apid) {
        return Ok(());
    }
    pass_image(table, &head, &ancillary, reader.text())
}

// Returns whether images with an APID are listed.
fn is_wanted(wanted: Option<u16>, apid: u16) -> bool
    ensures { result ≡ is_wanted wanted apid }
{
    match wanted {
        None => true,
        Some(own) => apid == own,
    }
}

// Passes a packet of an image. If it is kept, it is counted for its image, which begins with it if it has none before.
fn pass_image(
    table: &mut Table,
    head: &PacketHead,
    ancillary: &Ancillary,
    text: &[u8],
) -> Result<(), TableFull>
    requires ranged { AreRanged table.old.entries.items }
    requires room { CanCount table.old.entries.items (6 + head.now.length) }
    requires image { ancillary.now.image ≤ 65535 }
    ensures passed { PassesImage table.old.entries.items table.new.entries.items (record { apid = head.now.apid; image = ancillary.now.image })
        head.now.flags ancillary.now text.now (6 + head.now.length) result }
    ensures in_range { AreRanged table.new.entries.items }
{
    let id = ImageId {
        apid: head.apid,
        image: ancillary.image,
    };
    let place = table.place_of(id);
    let state = table.state_at(place);
    let Ok(found) = classify(&state, head.flags, ancillary, text) else {
        return Ok(());
    };
    let octets = HEADER + u64::from(head.length);
    let entry = ImageEntry {
        id,
        state: past_kept(&state, head.flags, ancillary, found),
        count: table.count_at(place).with_packet(octets, head.flags >= 2),
    };
    table.put(place, entry)
}
