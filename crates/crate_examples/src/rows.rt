// Encodes rows that are in memory as packets.
ghost use Rattle.std.specs.Prelude.{◌≡◌, ◌≢◌, ◌<◌, ◌≤◌, ◌+◌, ◌*◌, ℕ, ℤ, false, length, MatchResult, OnOk};
ghost use Rattle.port_122.specs.Outside.{Outside};
ghost use Rattle.base_122.specs.Ranges.{IsInRange};
ghost use Rattle.wave_defs.specs.Held.{Agrees, signal};
ghost use Rattle.raster_rows.specs.Pixels.{pixel_at, raster_pixel};
ghost use Rattle.raster_rows.specs.RowReads.{FirstInRange};
ghost use Rattle.strip_coder.specs.Plans.{plan_of, tallest};
ghost use Rattle.strip_coder.specs.Works.{HasTaken, IsMadeFor};
ghost use Rattle.crate_examples.specs.Frames.{HasOctets, HasGiven, BrokeOff, GaveAll};

use base_122::Setting;
use port_122::{Failed, Port};
use strip_coder::{EncodeDone, Work, image_end, row_in, start_image};

// Puts the octets into the first numbers of a row.
fn put_row(octets: &[u8], row: &mut [i32])
    requires fits { length octets.now ≤ length row.old }
    ensures row { Agrees (length octets.now) (signal row.new) (pixel_at 8 false octets.now) }
    ensures in_range { FirstInRange 8 false octets.now (length octets.now) }
{
    for column in 0..octets.len() {
        row[column] = i32::from(octets[column]);
    }
}

/// Takes the next row of an image, one octet for each pixel, and gives the packets of the segments that it settles. Fewer rows were taken
/// than the image has, whose height is known. After `Failed` a prefix of all packets is given, and only `start_image` may follow.
pub fn hand_in<X: Port>(
    port: &mut X,
    setting: &Setting,
    work: &mut Work,
    row: &[u8],
) -> Result<(), Failed>
    requires in_range { IsInRange setting.now }
    requires octets { HasOctets setting.now }
    requires taken { HasTaken (plan_of setting.now (tallest setting.now)) work.old.at.rows work.old }
    requires few { work.old.at.rows < setting.now.rows }
    requires row { length row.now ≡ setting.now.width }
    ensures made { IsMadeFor setting.now work.new }
    ensures count { OnOk result (work.new.at.rows ≡ work.old.at.rows + 1) }
    ensures given { (image : ℕ → ℕ → ℤ) (start : Outside) → HasGiven setting.now image start (X.outside port.old) work.old →
        Agrees setting.now.width (pixel_at 8 false row.now) (image work.old.at.rows) → MatchResult result
        (λ _. HasGiven setting.now image start (X.outside port.new) work.new)
        (λ _. BrokeOff setting.now image start (X.outside port.new)) }
{
    put_row(row, &mut work.row);
    row_in(port, setting, work)
}

/// Encodes an image that is in memory, one octet for each pixel and row after row. All of its packets are given, and after `Failed` a
/// prefix of them. The work was made for an equal setting, whose rows are known, and can be used again after either result.
pub fn encode_frame<X: Port>(
    port: &mut X,
    setting: &Setting,
    work: &mut Work,
    frame: &[u8],
) -> Result<EncodeDone, Failed>
    requires in_range { IsInRange setting.now }
    requires known { setting.now.rows ≢ 0 }
    requires octets { HasOctets setting.now }
    requires made { IsMadeFor setting.now work.old }
    requires frame { length frame.now ≡ setting.now.rows * setting.now.width }
    ensures made { IsMadeFor setting.now work.new }
    ensures gave { let image = raster_pixel 8 false setting.now.width frame.now in MatchResult result
        (λ done. GaveAll setting.now image (X.outside port.old) (X.outside port.new) done)
        (λ _. BrokeOff setting.now image (X.outside port.old) (X.outside port.new)) }
{
    start_image(setting, work);
    let width = setting.width as usize;
    for row in 0..setting.rows as usize {
        let start = row * width;
        let Ok(()) = hand_in(port, setting, work, &frame[start..start + width]) else {
            return Err(Failed);
        };
    }
    image_end(port, setting, work)
}
