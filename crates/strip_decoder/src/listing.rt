// Lists the packets of a stream as lines.
ghost use Rattle.std.specs.Prelude.{◌≡◌, ◌≤◌, ◌+◌, length};
ghost use Rattle.strip_decoder.specs.ListSteps.{GivesDue, ListsNext};
ghost use Rattle.strip_decoder.specs.ListAnswers.{Lists};

use crate::list::{ListDone, ListFault};
use crate::packet_lines::{LINE, line_of};
use arrayvec::ArrayString;
use base_122::DecodeWish;
use bit_pipe::InFault;
use packet_assembly::Assembly;
use port_122::{Failed, Port, write_all};
use std::alloc::Global;

// The room for lines that wait to be given.
type Lines = ArrayString<4096>;

/// Reads the packets of a stream and gives one line for each, at the latest before the next read call (docs/formats.md, "Packets" and
/// "Fates"). It reads to the end, or to what can't be read on, and at most the octets of the wish. A line is the packet's number from 0, a
/// space and its fate: `kept` with the segment's index, the part and the octets of the text, each after a space, or `idle`,
/// `not-telemetry`, `other-apid`, `no-secondary`, `short-ancillary`, `other-mark`, `foreign`, `late`, `out-of-place` or `bad-head`. After
/// `Memory` nothing was read or given, after `WriteFault` a prefix of the lines is given, and otherwise those of all packets of the octets
/// that were taken. `ReadFault` and `WriteFault` are returned only if the port's count rose. The most pixels of the wish don't matter.
pub fn list_packets<X: Port>(
    alloc: Global,
    port: &mut X,
    wish: &DecodeWish,
) -> Result<ListDone, ListFault>
    ensures { Lists wish.now (X.outside port.old) (X.outside port.new) result }
{
    let Ok(mut assembly) = Assembly::new(alloc, wish.apid, wish.octets) else {
        return Err(ListFault::Memory);
    };
    let mut lines = Lines::new();
    let mut packets = 0;
    'packets: loop {
        match list_next(port, &mut assembly, &mut lines) {
            Ok(true) => packets += 1,
            Ok(false) => {
                return Ok(ListDone {
                    packets,
                    framing: assembly.framing(),
                });
            }
            Err(fault) => return Err(fault),
        }
    }
}

// Reads the next packet, and adds its line to those that wait. They are given first if the packet wasn't read yet or there is no
// room for its line. Returns false at the end and at what can't be read on; then no line waits.
fn list_next<X: Port>(
    port: &mut X,
    assembly: &mut Assembly,
    lines: &mut Lines,
) -> Result<bool, ListFault>
    ensures { ListsNext (X.outside port.old) (X.outside port.new) assembly.old assembly.new lines.old.bytes lines.new.bytes result }
{
    let Ok(()) = give_due(port, assembly, lines) else {
        return Err(ListFault::WriteFault);
    };
    let note = match assembly.next_packet(port) {
        Ok(Some(note)) => note,
        Ok(None) => return Ok(false),
        Err(InFault::LongInput) => return Err(ListFault::LongInput),
        Err(_) => return Err(ListFault::ReadFault),
    };
    lines.push_str(line_of(&note).as_str());
    Ok(true)
}

// Gives the lines that wait, if a read may follow or there is no room for another line.
fn give_due<X: Port>(port: &mut X, assembly: &Assembly, lines: &mut Lines) -> Result<(), Failed>
    ensures given { GivesDue (X.outside port.old) (X.outside port.new) assembly.now lines.old.bytes lines.new.bytes result }
    ensures room { length lines.new.bytes + 64 ≤ 4096 }
{
    if assembly.has_packet() && lines.remaining_capacity() >= LINE {
        return Ok(());
    }
    let given = write_all(port, lines.as_str().as_bytes());
    lines.clear();
    given
}
