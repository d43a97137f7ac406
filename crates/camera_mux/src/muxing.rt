// Takes the rows of several cameras, and writes all their packets.
ghost use Rattle.std.specs.Prelude.{Err, ◌≡◌, ◌≢◌, ◌≤◌, ◌<◌, ◌+◌, ◌-◌, ◌*◌, ◌^◌, ◌↔◌, ℕ, List, length, min, sum, slice_index, slice_index_or, EachIndex};
ghost use Rattle.std.specs.Prelude.{IsTrue, MatchResult};
ghost use Rattle.port_122.specs.Outside.{Outside, ReadFailed};
ghost use Rattle.base_122.specs.Ranges.{IsInRange};
ghost use Rattle.strip_coder.specs.declared.work.Work.{Work};
ghost use Rattle.strip_coder.specs.Plans.{plan_of, tallest};
ghost use Rattle.strip_coder.specs.Rasters.{row_length, image_of};
ghost use Rattle.strip_coder.specs.Works.{IsMadeFor, HasTaken, Represents};
ghost use Rattle.camera_mux.specs.Records.{setting_at};
ghost use Rattle.camera_mux.specs.RowSteps.{GivesRow, FailsAtRow};
ghost use Rattle.camera_mux.specs.MuxProgress.{AreSettings, CanMux, IsReady, HasMuxed, IsUnbegun, SawOctet, with_record};
ghost use Rattle.camera_mux.specs.MuxAnswers.{Muxes};

use crate::camera_rows::{Place, take_camera_row};
use crate::mux::{MuxDone, MuxFault};
use base_122::Setting;
use port_122::{Failed, Port};
use raster_rows::at_end;
use strip_coder::{Work, start_image};

// The most cameras on a link.
const CAMERAS: usize = 16;

// The progress of a mux: the rows that are left of each camera, the records and the octets that were taken, and what was done.
#[derive(Clone, Copy)]
struct Progress {
    left: [u32; CAMERAS],
    records: u64,
    octets: u64,
    done: MuxDone,
}

/// Takes records, each one octet with a camera's number, from 0, and that camera's next row (docs/formats.md, "Raster and made image"), and
/// writes the packets of each camera's image. After each record, and before the next read call, the packets of the segments are written
/// that its row settles (docs/architecture.md, "The encoder"). It ends once each camera has all its rows and the end of the input is read,
/// and makes no read call after an octet that is refused. There are 1 to 16 settings with known rows and different APIDs, and a work that
/// was made for each; each camera's packets are written with the code book of its setting. The works can be used again after any return,
/// and no memory is taken.
///
/// # Errors
///
/// - `Short`: the input ended before each camera had all its rows, and no camera and no whole pixel before is refused.
/// - `BadCamera`: the first record with a camera that doesn't exist, or that has all its rows while another hasn't.
/// - `BadPixel`: the first pixel out of range, before any such record; its row is the number of the camera's rows before it.
/// - `Long`: an octet follows the records.
/// - `ReadFault`, `WriteFault`: the port's count rose.
///
/// The packets that the whole records before a fault settle are written; after `WriteFault`, those that the records before the last one
/// settle, and a prefix of those that the last one settles.
pub fn mux_rows<X: Port>(
    port: &mut X,
    settings: &[Setting],
    works: &mut [Work],
) -> Result<MuxDone, MuxFault>
    requires { CanMux settings.now works.old }
    ensures made { (camera : ℕ) (d : Work) → camera < length settings.now → IsMadeFor (setting_at settings.now camera) (slice_index_or works.new camera d) }
    ensures muxes { Muxes settings.now (X.outside port.old) (X.outside port.new) result }
{
    let mut progress = begin(settings);
    while !is_full(&progress.left) {
        if let Err(fault) = take_record(port, settings, works, &mut progress) {
            return Err(fault);
        }
    }
    match at_end(port) {
        Ok(true) => Ok(progress.done),
        Ok(false) => Err(MuxFault::Long),
        Err(_) => Err(MuxFault::ReadFault),
    }
}

// Takes the next record, and writes the packets of the segments that its row settles.
fn take_record<X: Port>(
    port: &mut X,
    settings: &[Setting],
    works: &mut [Work],
    progress: &mut Progress,
) -> Result<(), MuxFault>
    requires settings { AreSettings settings.now }
    requires same { length works.old ≡ length settings.now }
    requires going { (start : Outside) × HasMuxed settings.now works.old start (X.outside port.old) progress.old }
    requires misses { EachIndex progress.old.left (λ k. slice_index progress.old.left k ≡ 0) → ⊥ }
    ensures same { length works.new ≡ length settings.now }
    ensures made { (camera : ℕ) (d : Work) → camera < length settings.now → IsMadeFor (setting_at settings.now camera) (slice_index_or works.new camera d) }
    ensures record { (start : Outside) → HasMuxed settings.now works.old start (X.outside port.old) progress.old → MatchResult result
        (λ _. HasMuxed settings.now works.new start (X.outside port.new) progress.new × (sum progress.new.left < sum progress.old.left))
        (λ fault. Muxes settings.now start (X.outside port.new) (Err fault)) }
{
    let Ok(octet) = next_octet(port) else {
        return Err(MuxFault::ReadFault);
    };
    let Some(camera) = octet else {
        return Err(MuxFault::Short {
            octets: progress.octets,
        });
    };
    let index = usize::from(camera);
    let refused = MuxFault::BadCamera {
        place: progress.records,
        camera,
    };
    if index >= settings.len() {
        return Err(refused);
    }
    if progress.left[index] == 0 {
        return Err(refused);
    }
    let setting = &settings[index];
    let place = Place {
        camera,
        octets: progress.octets + 1,
    };
    let row = setting.rows - progress.left[index];
    match take_next_row(port, setting, &mut works[index], place, row) {
        Ok(done) => {
            add(progress, index, setting, done);
            Ok(())
        }
        Err(fault) => Err(fault),
    }
}

// Takes a camera's next row, of this number; before the first one its work begins an image.
fn take_next_row<X: Port>(
    port: &mut X,
    setting: &Setting,
    work: &mut Work,
    place: Place,
    row: u32,
) -> Result<MuxDone, MuxFault>
    requires in_range { IsInRange setting.now }
    requires known { setting.now.rows ≢ 0 }
    requires few { row < setting.now.rows }
    requires made { IsMadeFor setting.now work.old }
    requires taken { 0 < row → HasTaken (plan_of setting.now (tallest setting.now)) row work.old }
    requires octets { place.octets < 2 ^ 63 }
    ensures made { IsMadeFor setting.now work.new }
    ensures row { (raster : List ℕ) → length raster ≡ row * row_length setting.now → IsReady setting.now row raster work.old → MatchResult result
        (λ done. GivesRow setting.now row raster (X.outside port.old) (X.outside port.new) work.new done)
        (λ fault. FailsAtRow setting.now row raster place (X.outside port.old) (X.outside port.new) fault) }
{
    make_ready(setting, work, row);
    take_camera_row(port, setting, work, place)
}

// Makes a work ready for the row of this number: before the first one it begins an image.
fn make_ready(setting: &Setting, work: &mut Work, row: u32)
    requires in_range { IsInRange setting.now }
    requires made { IsMadeFor setting.now work.old }
    requires taken { 0 < row → HasTaken (plan_of setting.now (tallest setting.now)) row work.old }
    requires few { row < setting.now.rows }
    ensures taken { HasTaken (plan_of setting.now (tallest setting.now)) row work.new }
    ensures valid { (raster : List ℕ) → IsReady setting.now row raster work.old → Represents setting.now row (image_of setting.now raster) work.new }
{
    if row == 0 {
        start_image(setting, work);
    }
}

// Reads one octet, or none at the end of the input.
fn next_octet<X: Port>(port: &mut X) -> Result<Option<u8>, Failed>
    ensures { MatchResult result
        (SawOctet (X.outside port.old) (X.outside port.new))
        (λ _. ReadFailed (X.outside port.old) (X.outside port.new)) }
{
    let mut octet = [0];
    let count = port.read(&mut octet)?;
    if count == 0 {
        return Ok(None);
    }
    Ok(Some(octet[0]))
}

// Returns the progress before the first record.
fn begin(settings: &[Setting]) -> Progress
    requires { AreSettings settings.now }
    ensures { IsUnbegun settings.now result }
{
    let mut left = [0; CAMERAS];
    for (camera, setting) in settings.iter().enumerate() {
        left[camera] = setting.rows;
    }
    Progress {
        left,
        records: 0,
        octets: 0,
        done: MuxDone {
            packets: 0,
            octets: 0,
        },
    }
}

// Returns whether no row is left.
fn is_full(left: &[u32]) -> bool
    ensures { IsTrue result ↔ EachIndex left.now (λ k. slice_index left.now k ≡ 0) }
{
    left.iter().all(|rows| *rows == 0)
}

// Adds a record of a camera, and what was done at it.
fn add(progress: &mut Progress, camera: usize, setting: &Setting, done: MuxDone)
    requires camera { camera < length progress.old.left }
    requires some { 0 < slice_index progress.old.left camera }
    requires records { progress.old.records < 2 ^ 23 }
    requires octets { progress.old.octets < 2 ^ 62 }
    ensures { progress.new ≡ with_record progress.old camera (row_length setting.now) done }
{
    let size = if setting.depth <= 8 { 1 } else { 2 };
    progress.left[camera] -= 1;
    progress.records += 1;
    progress.octets += 1 + u64::from(setting.width) * size;
    progress.done = MuxDone {
        packets: progress.done.packets.saturating_add(done.packets),
        octets: progress.done.octets.saturating_add(done.octets),
    };
}
