// Takes the rows of a raster, and writes its packets.
ghost use Rattle.std.specs.Prelude.{◌≡◌, ◌<◌, ◌+◌, ◌*◌, MatchResult};
ghost use Rattle.port_122.specs.Outside.{Outside};
ghost use Rattle.base_122.specs.Ranges.{IsInRange};
ghost use Rattle.strip_coder.specs.Rasters.{row_length};
ghost use Rattle.strip_coder.specs.Answers.{EncodesImage};
ghost use Rattle.strip_coder.specs.Plans.{plan_of, tallest};
ghost use Rattle.strip_coder.specs.Works.{IsMadeFor, HasTaken, RepresentsNone};
ghost use Rattle.strip_coder.specs.RowsIn.{fault_after, ends_here, ShortOf, HasArrived, HasAll, TookOneMore};

use crate::encode::{EncodeDone, EncodeFault};
use crate::engine::{image_end, row_in, start_image};
use crate::plan::Plan;
use crate::work::Work;
use base_122::{FieldRange, Setting};
use port_122::Port;
use raster_rows::{RowFault, at_end, read_row};

/// Takes an image's raster and writes the packets of its segments, each segment as soon as the rows so far settle it
/// (docs/formats.md, "Raster and made image" and "Packets"; docs/architecture.md, "The encoder"). It reads a row only after all
/// packets that the whole rows before settle are written. It makes no read call after a pixel out of range or an octet past the raster.
///
/// A setting with rows has a raster of that number, and the end of the input is read after all packets are written. If the setting
/// leaves the rows open, the raster has the whole rows before the end of the input, 17 to 262,144, and the packets of the segments
/// that the end settles are written after it was read. The work was made for an equal setting, and can be used again after any return.
/// The coded segments have the codes of the setting's book.
///
/// # Errors
///
/// - `Short`: the input ended inside a row, or before the last row of the setting, or before row 17 if the rows are open; `Long`: it
///   has more than the raster, or than 262,144 rows. The packets of the settled segments are written; after the last row of a setting
///   these are all packets.
/// - `BadPixel`: the first pixel out of range; its row is the number of rows before it. The packets of the segments that these settle
///   are written.
/// - `ReadFault`, `WriteFault`: the port's count rose. After the first the packets of the settled segments are written, after the
///   second a prefix of the packets of each image that begins with the rows taken or, if open rows have ended, of the image of these
///   alone.
pub fn encode_rows<X: Port>(
    port: &mut X,
    setting: &Setting,
    work: &mut Work,
) -> Result<EncodeDone, EncodeFault>
    requires in_range { IsInRange setting.now }
    requires made { IsMadeFor setting.now work.old }
    ensures made { IsMadeFor setting.now work.new }
    ensures encodes { EncodesImage setting.now (X.outside port.old) (X.outside port.new) result }
{
    start_image(setting, work);
    take_rows(port, setting, work)?;
    let Ok(done) = image_end(port, setting, work) else {
        return Err(EncodeFault::WriteFault);
    };
    if setting.rows == 0 {
        return Ok(done);
    }
    match at_end(port) {
        Ok(true) => Ok(done),
        Ok(false) => Err(EncodeFault::Long),
        Err(_) => Err(EncodeFault::ReadFault),
    }
}

// Takes all rows of a raster. If their number is reported last, these are the rows before the end of the input.
fn take_rows<X: Port>(port: &mut X, setting: &Setting, work: &mut Work) -> Result<(), EncodeFault>
    requires in_range { IsInRange setting.now }
    requires start { RepresentsNone setting.now work.old }
    ensures made { IsMadeFor setting.now work.new }
    ensures rows { MatchResult result
        (λ _. HasAll setting.now (X.outside port.old) (X.outside port.new) work.new)
        (λ fault. EncodesImage setting.now (X.outside port.old) (X.outside port.new) (Err fault)) }
{
    for _ in 0..Plan::tallest(setting).rows {
        if !take_row(port, setting, work)? {
            return Ok(());
        }
    }
    if setting.rows != 0 {
        return Ok(());
    }
    match at_end(port) {
        Ok(true) => Ok(()),
        Ok(false) => Err(EncodeFault::Long),
        Err(_) => Err(EncodeFault::ReadFault),
    }
}

// Takes the next row of a raster, and gives the packets of the segments that it settles. It returns `false` if there is none, and the
// rows before are all.
fn take_row<X: Port>(port: &mut X, setting: &Setting, work: &mut Work) -> Result<bool, EncodeFault>
    requires in_range { IsInRange setting.now }
    requires taken { HasTaken (plan_of setting.now (tallest setting.now)) work.old.at.rows work.old }
    requires few { work.old.at.rows < tallest setting.now }
    ensures made { IsMadeFor setting.now work.new }
    ensures row { (start : Outside) → HasArrived setting.now work.old.at.rows start (X.outside port.old) work.old → MatchResult result
        (λ more. TookOneMore more setting.now work.old.at.rows start (X.outside port.new) work.new)
        (λ fault. EncodesImage setting.now start (X.outside port.new) (Err fault)) }
{
    let row = work.at.rows;
    if let Err(fault) = read_row(port, setting, row, &mut work.row) {
        if ends_here(setting, row, fault) {
            return Ok(false);
        }
        return Err(row_fault(setting, row, fault));
    }
    let Ok(()) = row_in(port, setting, work) else {
        return Err(EncodeFault::WriteFault);
    };
    Ok(true)
}

// Returns whether a fault of a row is the end of a raster whose rows are reported last.
fn ends_here(setting: &Setting, row: u32, fault: RowFault) -> bool
    ensures { result ≡ ends_here setting.now row fault }
{
    match fault {
        RowFault::Short { octets } => {
            setting.rows == 0 && u64::from(row) >= FieldRange::ROWS.least && octets == 0
        }
        RowFault::ReadFault | RowFault::BadPixel { .. } => false,
    }
}

/// Returns the fault of the whole raster if this row has a fault: the octets of a short one count from its start.
pub fn row_fault(setting: &Setting, row: u32, fault: RowFault) -> EncodeFault
    requires in_range { IsInRange setting.now }
    requires row { row < 262144 }
    requires octets { ShortOf fault (row_length setting.now) }
    ensures { result ≡ fault_after (row * row_length setting.now) fault }
{
    match fault {
        RowFault::ReadFault => EncodeFault::ReadFault,
        RowFault::Short { octets } => EncodeFault::Short {
            octets: u64::from(row) * row_octets(setting) + octets,
        },
        RowFault::BadPixel { row, column, value } => EncodeFault::BadPixel { row, column, value },
    }
}

// Returns the number of octets of a row of the raster.
fn row_octets(setting: &Setting) -> u64
    ensures { result ≡ row_length setting.now }
{
    let size = if setting.depth <= 8 { 1 } else { 2 };
    u64::from(setting.width) * size
}
