// Encodes a raster as a bare stream.
ghost use Rattle.std.specs.Prelude.{◌≡◌, ◌≢◌, ◌<◌, ◌+◌, MatchResult};
ghost use Rattle.port_122.specs.Outside.{Outside};
ghost use Rattle.base_122.specs.Ranges.{IsInRange};
ghost use Rattle.wave_strip.specs.Strip.{rows_of};
ghost use Rattle.strip_coder.specs.Works.{IsFresh, IsMadeFor, IsRunning};
ghost use Rattle.bare_stream.specs.Rasters.{IsBare};
ghost use Rattle.bare_stream.specs.Answers.{EncodesBare};
ghost use Rattle.bare_stream.specs.RowsIn.{AllTexts, HasArrived};
ghost use Rattle.bare_stream.specs.Works.{job};

use crate::segment::AsTexts;
use base_122::Setting;
use port_122::Port;
use raster_rows::{at_end, pad_row, read_row};
use strip_coder::{EncodeDone, EncodeFault, Plan, Work, push, row_fault, start_image, write_rest};

/// Takes an image's raster and writes its bare stream, each text as soon as the rows so far settle its segment (docs/formats.md, "Raster
/// and made image" and "Bare texts"). It reads a row only after all texts that the whole rows before settle are written, and reads the end
/// of the input after all texts are written. It makes no read call after a pixel out of range or an octet past the raster. The texts have
/// the codes of the setting's book. It takes no memory. The work was made for an equal setting, and can be used again after any return. In
/// the result, `packets` is 0.
///
/// # Errors
///
/// - `Short`: the input ended before the last row of the setting was whole; `Long`: it has more octets than the raster. The texts of the
///   settled segments are written; after the last row these are all texts.
/// - `BadPixel`: the first pixel out of range; its row is the number of rows before it. The texts of the segments that these settle are
///   written.
/// - `ReadFault`, `WriteFault`: the port's count rose. After the first the texts of the settled segments are written, after the second a
///   prefix of the bare stream of each image that begins with the rows taken.
pub fn encode_bare<X: Port>(
    port: &mut X,
    setting: &Setting,
    work: &mut Work,
) -> Result<EncodeDone, EncodeFault>
    requires in_range { IsInRange setting.now }
    requires known { setting.now.rows ≢ 0 }
    requires no_total { setting.now.total ≡ 0 }
    requires made { IsMadeFor setting.now work.old }
    ensures made { IsMadeFor setting.now work.new }
    ensures encodes { EncodesBare setting.now (X.outside port.old) (X.outside port.new) result }
{
    start_image(setting, work);
    write_texts(port, setting, work)?;
    match at_end(port) {
        Ok(true) => Ok(EncodeDone {
            segments: setting.geometry_for(setting.rows).segments(),
            packets: 0,
            octets: work.at.used,
        }),
        Ok(false) => Err(EncodeFault::Long),
        Err(_) => Err(EncodeFault::ReadFault),
    }
}

// Takes the next row of a raster, and writes the texts of the segments that it settles.
fn take_row<X: Port>(
    port: &mut X,
    setting: &Setting,
    row: u32,
    work: &mut Work,
) -> Result<(), EncodeFault>
    requires bare { IsBare setting.now }
    requires running { IsRunning (job setting.now) work.old }
    requires rows { rows_of work.old.strip ≡ row }
    requires few { row < setting.now.rows }
    ensures made { IsMadeFor setting.now work.new }
    ensures row { (start : Outside) → HasArrived setting.now row start (X.outside port.old) work.old → MatchResult result
        (λ _. HasArrived setting.now (row + 1) start (X.outside port.new) work.new)
        (λ fault. EncodesBare setting.now start (X.outside port.new) (Err fault)) }
{
    if let Err(fault) = read_row(port, setting, row, &mut work.row) {
        return Err(row_fault(setting, row, fault));
    }
    pad_row(setting.width, &mut work.row);
    let plan = Plan::new(setting, setting.rows);
    let Ok(()) = push::<AsTexts, X>(port, &plan, work) else {
        return Err(EncodeFault::WriteFault);
    };
    Ok(())
}

// Takes all rows of a raster, and writes all texts of its image.
fn write_texts<X: Port>(port: &mut X, setting: &Setting, work: &mut Work) -> Result<(), EncodeFault>
    requires bare { IsBare setting.now }
    requires made { IsMadeFor setting.now work.old }
    requires start { IsFresh setting.now work.old }
    ensures made { IsMadeFor setting.now work.new }
    ensures texts { MatchResult result
        (λ _. AllTexts setting.now (X.outside port.old) (X.outside port.new) work.new)
        (λ fault. EncodesBare setting.now (X.outside port.old) (X.outside port.new) (Err fault)) }
{
    for row in 0..setting.rows {
        take_row(port, setting, row, work)?;
    }
    let plan = Plan::new(setting, setting.rows);
    let Ok(()) = write_rest::<AsTexts, X>(port, &plan, work) else {
        return Err(EncodeFault::WriteFault);
    };
    Ok(())
}
