// Encodes whole rasters to packets.
ghost use Rattle.std.specs.Prelude.{◌≡◌, length, IsTrue, Some, MatchResult};
ghost use Rattle.base_122.specs.Ranges.{IsInRange};
ghost use Rattle.plane_defs.specs.Codes.{is_book_sound};
ghost use Rattle.strip122_c.specs.Lent.{outside_of};
ghost use Rattle.strip122_c.specs.WholeEncoding.{IsAdmitted, first_refused, HasRun, Encodes, Accepts};
ghost use Rattle.strip_coder.specs.Answers.{TookRaster};
ghost use Rattle.strip_coder.specs.Works.{IsMadeFor};

use crate::port::LentPort;
use base_122::{Field, FieldRange, Setting};
use std::alloc::Global;
use strip_coder::{EncodeDone, EncodeFault, Work, encode_rows};

/// The reason why no packets of a raster are given.
#[derive(Clone, Copy, Debug, PartialEq, Eq)]
pub enum EncodeRefusal {
    /// The first field of the setting that is out of range is this one. Rows are out of range too if they are 0.
    OutOfRange(Field),
    /// The raster has fewer octets than the setting's width, rows and depth need.
    Short,
    /// The raster has more octets than the setting's width, rows and depth need.
    Long,
    /// The first value out of range.
    BadPixel { row: u32, column: u32, value: i32 },
    /// The room has fewer octets than the packets.
    SmallRoom { octets: u64 },
    /// There is no memory.
    Memory,
}

/// Encodes a raster, and puts all of its packets at the start of the room; the rest of the room is unchanged, and so is all of it after a
/// refusal. The causes of the results exclude each other, so each result except `Memory` is given exactly if its cause holds. The caller
/// has the whole raster, and so knows its height: a setting that leaves its rows open is refused by the name of the rows. The packets are
/// written with the setting's code book, which must be sound.
pub fn encode_whole(
    alloc: Global,
    setting: &Setting,
    raster: &[u8],
    room: &mut [u8],
) -> Result<EncodeDone, EncodeRefusal>
    requires book { IsTrue (is_book_sound setting.now.book) }
    ensures encodes { Encodes setting.now raster.now room.old room.new result }
    ensures accepts { IsInRange setting.now → TookRaster setting.now setting.now.rows raster.now → Accepts result }
{
    put_packets(alloc, setting, raster, room)
}

// Encodes a raster, and puts its packets at the start of the room.
fn put_packets(
    alloc: Global,
    setting: &Setting,
    raster: &[u8],
    room: &mut [u8],
) -> Result<EncodeDone, EncodeRefusal>
    requires book { IsTrue (is_book_sound setting.now.book) }
    ensures { Encodes setting.now raster.now room.old room.new result }
{
    ten_weights(&setting.weights.shifts);
    if let Err(field) = admit(setting) {
        return Err(EncodeRefusal::OutOfRange(field));
    }
    let Ok(mut port) = LentPort::new(alloc, raster, Some(room.len())) else {
        return Err(EncodeRefusal::Memory);
    };
    let done = match encode(alloc, setting, &mut port) {
        Ok(done) => done,
        Err(refusal) => return Err(refusal),
    };
    if done.octets > room.len() as u64 {
        return Err(EncodeRefusal::SmallRoom {
            octets: done.octets,
        });
    }
    // The packets fit, so they were kept. No clause of a port states that it keeps what fits, so this is tested.
    let Some(packets) = port.given() else {
        return Err(EncodeRefusal::Memory);
    };
    room[..done.octets as usize].copy_from_slice(packets);
    Ok(done)
}

// Refuses a setting by its first field out of range, and one that leaves its rows open by these.
fn admit(setting: &Setting) -> Result<(), Field>
    ensures { MatchResult result
        (λ _. IsAdmitted setting.now)
        (λ field. first_refused setting.now ≡ Some field) }
{
    if setting.rows == 0 && FieldRange::WIDTH.contains(u64::from(setting.width)) {
        return Err(Field::Rows);
    }
    match setting.check() {
        Ok(()) => Ok(()),
        Err(out) => Err(out.field),
    }
}

// Encodes the raster that a port has.
fn encode(
    alloc: Global,
    setting: &Setting,
    port: &mut LentPort,
) -> Result<EncodeDone, EncodeRefusal>
    requires admitted { IsAdmitted setting.now }
    requires book { IsTrue (is_book_sound setting.now.book) }
    ensures { HasRun setting.now (outside_of port.old) (outside_of port.new) result }
{
    let Ok(mut work) = Work::new(alloc, setting) else {
        return Err(EncodeRefusal::Memory);
    };
    encode_with(port, setting, &mut work)
}

// Encodes the raster that a port has with a work that was made for the setting.
fn encode_with(
    port: &mut LentPort,
    setting: &Setting,
    work: &mut Work,
) -> Result<EncodeDone, EncodeRefusal>
    requires admitted { IsAdmitted setting.now }
    requires made { IsMadeFor setting.now work.old }
    ensures { HasRun setting.now (outside_of port.old) (outside_of port.new) result }
{
    match encode_rows(port, setting, work) {
        Ok(done) => Ok(done),
        Err(EncodeFault::Short { octets: _ }) => Err(EncodeRefusal::Short),
        Err(EncodeFault::Long) => Err(EncodeRefusal::Long),
        Err(EncodeFault::BadPixel { row, column, value }) => {
            Err(EncodeRefusal::BadPixel { row, column, value })
        }
        Err(EncodeFault::ReadFault) => unreachable!(),
        Err(EncodeFault::WriteFault) => unreachable!(),
    }
}

// The number of weights is ten, which is known once they are read.
fn ten_weights(shifts: &[u8; 10])
    ensures { length shifts.now ≡ 10 }
{
    let _first = shifts[0];
}
