// Runs the commands that encode rasters.
ghost use Rattle.std.specs.Prelude.{◌≡◌, ◌≤◌, ◌<◌, ◌+◌, ℕ, length, IfOk, IsTrue};
ghost use Rattle.camera_mux.specs.Records.{setting_at};
ghost use Rattle.base_122.specs.Ranges.{IsInRange, IsWithin, rows_range};
ghost use Rattle.plane_defs.specs.Codes.{is_book_sound};
ghost use Rattle.strip_coder.specs.Works.{IsMadeFor};
ghost use Rattle.camera_mux.specs.MuxProgress.{AreSettings, CanMux};
ghost use Rattle.command_words.specs.Commands.{AreCameras};
ghost use Rattle.strip122.specs.Notes.{fault_report, mux_report};
ghost use Rattle.strip122.specs.Encoding.{Encodes, encodes_raster};
ghost use Rattle.strip122.specs.BareStreams.{EncodesBare};
ghost use Rattle.strip122.specs.Closed.{BareClosed, EncodedClosed, MuxClosed};
ghost use Rattle.strip122.specs.Muxing.{Muxes, camera_settings};

use crate::notes::{note_fault, note_line, note_mux_fault};
use bare_stream::{bare_round_trip, bare_streams_are_read, encode_bare, images_are_bare_streams};
use base_122::Setting;
use camera_mux::{MuxFault, cameras_are_kept, mux_rows, picking_keeps};
use port_122::Port;
use segment_code::texts_are_short;
use std::alloc::{AllocError, Global};
use stream_defs::heights_are_known;
use strip_coder::{EncodeFault, Work, encode_rows};
use strip_decoder::round_trip;

fn fault_status(fault: EncodeFault) -> u8
    ensures { result ≡ (fault_report fault).status }
{
    match fault {
        EncodeFault::Short { .. } | EncodeFault::Long | EncodeFault::BadPixel { .. } => 3,
        EncodeFault::ReadFault => 4,
        EncodeFault::WriteFault => 5,
    }
}

fn mux_fault_status(fault: MuxFault) -> u8
    ensures { result ≡ (mux_report fault).status }
{
    match fault {
        MuxFault::Short { .. }
        | MuxFault::Long
        | MuxFault::BadCamera { .. }
        | MuxFault::BadPixel { .. } => 3,
        MuxFault::ReadFault => 4,
        MuxFault::WriteFault => 5,
    }
}

// The number of weights is ten, which is known once they are read.
pub(crate) fn ten_weights(shifts: &[u8; 10])
    ensures { length shifts.now ≡ 10 }
{
    let _first = shifts[0];
}

/// Runs the command `encode`, and returns the status. The memory is taken first, so if there is too little, nothing was read.
pub fn encode<X: Port>(alloc: Global, setting: &Setting, port: &mut X) -> u8
    requires range { IsInRange setting.now }
    requires book { IsTrue (is_book_sound setting.now.book) }
    ensures runs { Encodes setting.now (X.outside port.old) (X.outside port.new) result }
    ensures closed { result ≡ 0 → EncodedClosed setting.now (X.outside port.old) (X.outside port.new) }
{
    let Ok(mut work) = Work::new(alloc, setting) else {
        note_line(port, "strip122: no memory\n");
        return 6;
    };
    encode_raster(port, setting, &mut work)
}

/// Encodes a raster with a work that was made for the setting, and returns the status.
pub fn encode_raster<X: Port>(port: &mut X, setting: &Setting, work: &mut Work) -> u8
    requires range { IsInRange setting.now }
    requires book { IsTrue (is_book_sound setting.now.book) }
    requires made { IsMadeFor setting.now work.old }
    ensures runs { (encodes_raster setting.now).performs (X.outside port.old) (X.outside port.new) result }
    ensures closed { result ≡ 0 → EncodedClosed setting.now (X.outside port.old) (X.outside port.new) }
{
    texts_are_short();
    heights_are_known();
    round_trip();
    ten_weights(&setting.weights.shifts);
    match encode_rows(port, setting, work) {
        Ok(_) => 0,
        Err(fault) => {
            note_fault(port, fault);
            fault_status(fault)
        }
    }
}

/// Runs the command `bare-encode`, and returns the status. The memory is taken first, so if there is too little, nothing was read.
pub fn bare_encode<X: Port>(alloc: Global, setting: &Setting, port: &mut X) -> u8
    requires range { IsInRange setting.now }
    requires height { IsWithin rows_range setting.now.rows }
    requires book { IsTrue (is_book_sound setting.now.book) }
    requires no_total { setting.now.total ≡ 0 }
    ensures runs { EncodesBare setting.now (X.outside port.old) (X.outside port.new) result }
    ensures closed { result ≡ 0 → BareClosed setting.now (X.outside port.old) (X.outside port.new) }
{
    images_are_bare_streams();
    bare_streams_are_read();
    bare_round_trip();
    ten_weights(&setting.weights.shifts);
    let Ok(mut work) = Work::new(alloc, setting) else {
        note_line(port, "strip122: no memory\n");
        return 6;
    };
    match encode_bare(port, setting, &mut work) {
        Ok(_) => 0,
        Err(fault) => {
            note_fault(port, fault);
            fault_status(fault)
        }
    }
}

/// Runs the command `mux` for cameras of one setting with consecutive APIDs, and returns the status. The memory is taken first.
pub fn mux<X: Port>(alloc: Global, setting: &Setting, cameras: u8, port: &mut X) -> u8
    requires range { IsInRange setting.now }
    requires height { IsWithin rows_range setting.now.rows }
    requires cameras { AreCameras setting.now cameras }
    requires book { IsTrue (is_book_sound setting.now.book) }
    ensures runs { Muxes (camera_settings setting.now cameras) (X.outside port.old) (X.outside port.new) result }
    ensures closed { result ≡ 0 → MuxClosed (camera_settings setting.now cameras) (X.outside port.old) (X.outside port.new) }
{
    picking_keeps();
    texts_are_short();
    heights_are_known();
    round_trip();
    ten_weights(&setting.weights.shifts);
    let Ok(settings) = settings_of(alloc, setting, cameras) else {
        note_line(port, "strip122: no memory\n");
        return 6;
    };
    let Ok(mut works) = works_for(alloc, settings.as_slice()) else {
        note_line(port, "strip122: no memory\n");
        return 6;
    };
    cameras_are_kept();
    match mux_rows(port, settings.as_slice(), works.as_mut_slice()) {
        Ok(_) => 0,
        Err(fault) => {
            note_mux_fault(port, fault);
            mux_fault_status(fault)
        }
    }
}

// Returns the settings of all cameras.
fn settings_of(alloc: Global, setting: &Setting, cameras: u8) -> Result<Vec<Setting>, AllocError>
    requires apids { setting.now.apid + cameras ≤ 2047 }
    ensures { IfOk result (λ settings. settings.items ≡ camera_settings setting.now cameras) }
{
    let mut settings = Vec::with_capacity(alloc, usize::from(cameras))?;
    for camera in 0..cameras {
        let apid = setting.apid + u16::from(camera);
        settings.push(Setting { apid, ..*setting })?;
    }
    Ok(settings)
}

// Returns a work for each camera.
fn works_for(alloc: Global, settings: &[Setting]) -> Result<Vec<Work>, AllocError>
    requires settings { AreSettings settings.now }
    requires books { (camera : ℕ) → camera < length settings.now → IsTrue (is_book_sound (setting_at settings.now camera).book) }
    ensures { IfOk result (λ works. CanMux settings.now works.items) }
{
    let mut works = Vec::with_capacity(alloc, settings.len())?;
    for setting in settings {
        works.push(Work::new(alloc, setting)?)?;
    }
    Ok(works)
}
