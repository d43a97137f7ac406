// Takes a row that is in memory, and ends an image.
ghost use Rattle.std.specs.Prelude.{◌≡◌, ◌<◌, ◌≤◌, ◌+◌, [], length, vec_len, MatchResult};
ghost use Rattle.base_122.specs.Ranges.{IsInRange};
ghost use Rattle.base_122.specs.Setting.{IsHeight};
ghost use Rattle.base_122.specs.Sizes.{padded_size};
ghost use Rattle.strip_coder.specs.Plans.{plan_of, tallest};
ghost use Rattle.strip_coder.specs.Rasters.{row_length};
ghost use Rattle.strip_coder.specs.Steps.{IsRowInRange, TakesRow};
ghost use Rattle.strip_coder.specs.Works.{HasTaken};
ghost use Rattle.encoder_rows.specs.Ports.{packets_outside, room_outside};
ghost use Rattle.encoder_rows.specs.Room.{row_need, end_need};
ghost use Rattle.encoder_rows.specs.Rows.{HasNext, HasRows, IsUsable};
ghost use Rattle.encoder_rows.specs.Steps.{ReadsRow, IsRunning, TakesOctets, GivesRest};

use crate::ports::{OctetsIn, PacketRoom};
use crate::refusal::RowRefusal;
use base_122::Setting;
use raster_rows::{RowFault, read_row};
use std::mem::swap;
use strip_coder::{EncodeDone, Work, image_end, row_in};

/// Takes the octets of a row, and keeps the packets of the segments that it settles. The row is read into `row`, and exchanged for that of
/// the work only if each value is in range.
pub(crate) fn take_row(
    setting: &Setting,
    octets: &[u8],
    work: &mut Work,
    row: &mut Vec<i32>,
    packets: &mut PacketRoom,
) -> Result<(), RowRefusal>
    requires usable { IsUsable setting.now }
    requires running { IsRunning setting.now work.old }
    requires few { work.old.at.rows < tallest setting.now }
    requires whole { length octets.now ≡ row_length setting.now }
    requires row { vec_len row.old ≡ padded_size setting.now.width }
    requires room { row_need setting.now work.old.at.rows < packets.old.size }
    ensures row { vec_len row.new ≡ padded_size setting.now.width }
    ensures room { packets.new.size ≡ packets.old.size }
    ensures takes { TakesOctets setting.now octets.now work.old work.new packets.new.kept.items result }
{
    if let Err(refusal) = read_octets(setting, octets, row) {
        return Err(refusal);
    }
    swap(&mut work.row, row);
    settle(setting, work, packets);
    Ok(())
}

// Reads the octets of a row.
fn read_octets(setting: &Setting, octets: &[u8], row: &mut Vec<i32>) -> Result<(), RowRefusal>
    requires in_range { IsInRange setting.now }
    requires whole { length octets.now ≡ row_length setting.now }
    requires row { vec_len row.old ≡ padded_size setting.now.width }
    ensures row { vec_len row.new ≡ padded_size setting.now.width }
    ensures reads { ReadsRow setting.now octets.now row.new.items result }
{
    let mut port = OctetsIn::new(octets);
    match read_row(&mut port, setting, 0, row) {
        Ok(()) => Ok(()),
        Err(
            RowFault::BadPixel {
                row: _,
                column,
                value,
            },
        ) => Err(RowRefusal::BadPixel { column, value }),
        Err(RowFault::Short { octets: _ }) => unreachable!(),
        Err(RowFault::ReadFault) => unreachable!(),
    }
}

// Takes the row that the work has, and keeps the packets of the segments that it settles: they fit, so no write fails.
fn settle(setting: &Setting, work: &mut Work, packets: &mut PacketRoom)
    requires usable { IsUsable setting.now }
    requires taken { HasTaken (plan_of setting.now (tallest setting.now)) work.old.at.rows work.old }
    requires few { work.old.at.rows < tallest setting.now }
    requires values { IsRowInRange setting.now work.old.row.items }
    requires next { HasNext setting.now work.old }
    requires room { row_need setting.now work.old.at.rows < packets.old.size }
    ensures row { TakesRow setting.now work.old.at.rows (room_outside packets.old.size [] 0) (packets_outside packets.new) work.old work.new }
    ensures fits { length packets.new.kept.items ≤ row_need setting.now work.old.at.rows }
    ensures room { packets.new.size ≡ packets.old.size }
{
    packets.clear();
    let Ok(()) = row_in(packets, setting, work) else {
        unreachable!()
    };
}

/// Ends an image that has all of its rows, and keeps the packets that are left.
pub(crate) fn end_image(setting: &Setting, work: &mut Work, packets: &mut PacketRoom) -> EncodeDone
    requires usable { IsUsable setting.now }
    requires running { IsRunning setting.now work.old }
    requires height { IsHeight setting.now work.old.at.rows }
    requires room { end_need setting.now work.old.at.rows < packets.old.size }
    ensures gives { GivesRest setting.now work.old work.new packets.new.kept.items result }
    ensures room { packets.new.size ≡ packets.old.size }
{
    packets.clear();
    let Ok(done) = image_end(packets, setting, work) else {
        unreachable!()
    };
    done
}
