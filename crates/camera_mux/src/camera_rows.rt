// Takes one row of a camera.
ghost use Rattle.std.specs.Prelude.{◌≡◌, ◌≢◌, ◌<◌, ◌*◌, ◌^◌, List, ℕ, length, MatchResult};
ghost use Rattle.base_122.specs.Ranges.{IsInRange};
ghost use Rattle.strip_coder.specs.Plans.{plan_of, tallest};
ghost use Rattle.strip_coder.specs.Rasters.{row_length, image_of};
ghost use Rattle.strip_coder.specs.Works.{IsMadeFor, HasTaken, Represents};
ghost use Rattle.camera_mux.specs.RowSteps.{fault_of, ShortOf, TakesCameraRow, FailsInRow, GivesRow, FailsAtRow};

use crate::mux::{MuxDone, MuxFault};
use base_122::Setting;
use port_122::Port;
use raster_rows::{RowFault, read_row};
use strip_coder::{Work, image_end, row_in};

// A record before its row: its camera, and the octets that were taken so far.
#[derive(Clone, Copy)]
pub(crate) struct Place {
    pub(crate) camera: u8,
    pub(crate) octets: u64,
}

// Takes a camera's next row, and writes the packets of the segments that it settles; after the last row these are all that are left. It
// returns what was done for the image if it is complete, and otherwise nothing.
pub(crate) fn take_camera_row<X: Port>(
    port: &mut X,
    setting: &Setting,
    work: &mut Work,
    place: Place,
) -> Result<MuxDone, MuxFault>
    requires in_range { IsInRange setting.now }
    requires known { setting.now.rows ≢ 0 }
    requires taken { HasTaken (plan_of setting.now (tallest setting.now)) work.old.at.rows work.old }
    requires few { work.old.at.rows < tallest setting.now }
    requires octets { place.octets < 2 ^ 63 }
    ensures made { IsMadeFor setting.now work.new }
    ensures row { (raster : List ℕ) → length raster ≡ work.old.at.rows * row_length setting.now →
        Represents setting.now work.old.at.rows (image_of setting.now raster) work.old → MatchResult result
        (λ done. GivesRow setting.now work.old.at.rows raster (X.outside port.old) (X.outside port.new) work.new done)
        (λ fault. FailsAtRow setting.now work.old.at.rows raster place (X.outside port.old) (X.outside port.new) fault) }
{
    if let Err(fault) = take_row(port, setting, work, place) {
        return Err(fault);
    }
    if work.at.rows < setting.rows {
        return Ok(MuxDone {
            packets: 0,
            octets: 0,
        });
    }
    let Ok(done) = image_end(port, setting, work) else {
        return Err(MuxFault::WriteFault);
    };
    Ok(MuxDone {
        packets: done.packets,
        octets: done.octets,
    })
}

// Takes a camera's next row, and writes the packets of the segments that it settles by its reach.
fn take_row<X: Port>(
    port: &mut X,
    setting: &Setting,
    work: &mut Work,
    place: Place,
) -> Result<(), MuxFault>
    requires in_range { IsInRange setting.now }
    requires taken { HasTaken (plan_of setting.now (tallest setting.now)) work.old.at.rows work.old }
    requires few { work.old.at.rows < tallest setting.now }
    requires octets { place.octets < 2 ^ 63 }
    ensures made { IsMadeFor setting.now work.new }
    ensures row { MatchResult result
        (λ _. TakesCameraRow setting.now work.old.at.rows (X.outside port.old) (X.outside port.new) work.old work.new)
        (λ fault. FailsInRow setting.now work.old.at.rows place (X.outside port.old) (X.outside port.new) work.old fault) }
{
    let row = work.at.rows;
    if let Err(fault) = read_row(port, setting, row, &mut work.row) {
        return Err(fault_of(place, fault));
    }
    let Ok(()) = row_in(port, setting, work) else {
        return Err(MuxFault::WriteFault);
    };
    Ok(())
}

// Returns the fault of the mux if a row has this fault.
fn fault_of(place: Place, fault: RowFault) -> MuxFault
    requires octets { place.octets < 2 ^ 63 }
    requires short { ShortOf fault }
    ensures { result ≡ fault_of place fault }
{
    match fault {
        RowFault::ReadFault => MuxFault::ReadFault,
        RowFault::Short { octets } => MuxFault::Short {
            octets: place.octets + octets,
        },
        RowFault::BadPixel { row, column, value } => MuxFault::BadPixel {
            camera: place.camera,
            row,
            column,
            value,
        },
    }
}
