// Lists the images of a stream as lines.
ghost use Rattle.std.specs.Prelude.{◌≡◌};
ghost use Rattle.camera_mux.specs.InfoAnswers.{Informs};
ghost use Rattle.camera_mux.specs.ImageSteps.{CanTake, TakesNext};
ghost use Rattle.camera_mux.specs.Tables.{AreRanged};

use crate::giving::give_lines;
use crate::image_table::Table;
use crate::info::{InfoDone, InfoFault, InfoWish};
use crate::passing::pass_packet;
use packet_assembly::{Framing, framing_in};
use port_122::Port;
use space_packets::PacketReader;
use std::alloc::Global;

/// Reads the packets of a stream, and then gives one line for each image that begins in it, in the order in which they begin
/// (docs/formats.md, "Images of a stream"). It reads to the end, or to what can't be read on, and at most the octets of the wish. The
/// fate of a packet is that among the packets of its APID and image alone, and an image begins with its first kept packet. Memory for
/// 4,096 images is taken before anything is read.
///
/// # Errors
///
/// - `Memory`: nothing was read or given.
/// - `ReadFault`: the port's count rose. Nothing is given.
/// - `LongInput`: all octets of the wish were taken and don't end the stream. Nothing is given.
/// - `TooManyImages`: more than 4,096 images begin in the octets that were taken. Nothing is given.
/// - `WriteFault`: the port's count rose. A prefix of the lines is given.
pub fn list_images<X: Port>(
    alloc: Global,
    port: &mut X,
    wish: &InfoWish,
) -> Result<InfoDone, InfoFault>
    ensures { Informs wish.now (X.outside port.old) (X.outside port.new) result }
{
    let Ok(mut reader) = PacketReader::new(alloc, wish.octets) else {
        return Err(InfoFault::Memory);
    };
    let Ok(mut table) = Table::new(alloc) else {
        return Err(InfoFault::Memory);
    };
    'packets: loop {
        match take_next(port, &mut reader, &mut table, wish.apid) {
            Ok(Step::Passed) => {}
            Ok(Step::Over(framing)) => {
                let Ok(()) = give_lines(port, table.entries()) else {
                    return Err(InfoFault::WriteFault);
                };
                return Ok(InfoDone {
                    images: table.entries().len() as u64,
                    framing,
                });
            }
            Err(fault) => return Err(fault),
        }
    }
}

// The result for the next packet: it was passed, or there is none, and maybe the stream can't be read on.
#[derive(Clone, Copy)]
enum Step {
    Passed,
    Over(Option<Framing>),
}

// Reads the next packet, and counts it for its image if it is kept.
fn take_next<X: Port>(
    port: &mut X,
    reader: &mut PacketReader,
    table: &mut Table,
    wanted: Option<u16>,
) -> Result<Step, InfoFault>
    requires { CanTake table.old.entries.items reader.old }
    ensures next { TakesNext wanted (X.outside port.old) (X.outside port.new) reader.old reader.new table.old.entries.items table.new.entries.items result }
    ensures ranged { AreRanged table.new.entries.items }
{
    let Ok(()) = reader.fill(port) else {
        return Err(InfoFault::ReadFault);
    };
    if !reader.has_packet() {
        let Ok(read) = reader.answer(0) else {
            return Err(InfoFault::LongInput);
        };
        return Ok(Step::Over(framing_in(read)));
    }
    let Ok(()) = pass_packet(reader, table, wanted) else {
        return Err(InfoFault::TooManyImages);
    };
    Ok(Step::Passed)
}
