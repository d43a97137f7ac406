// The encoder of images whose rows arrive one after another.
ghost use Rattle.std.specs.Prelude.{◌≡◌, ◌<◌, ◌≤◌, ◌↔◌, IsTrue, IfOk, length, MatchResult};
ghost use Rattle.base_122.specs.Setting.{IsHeight};
ghost use Rattle.plane_defs.specs.Codes.{is_book_sound};
ghost use Rattle.strip_coder.specs.Rasters.{row_length};
ghost use Rattle.encoder_rows.specs.Answers.{NewAnswers, HasPlace, RefusesSize, RowAnswers, IsComplete, EndCause, EndAnswers, Opens};
ghost use Rattle.encoder_rows.specs.Room.{row_need, end_need};
ghost use Rattle.encoder_rows.specs.Rows.{IsOpen, IsUsable, Counts, progress_of};

use crate::ports::PacketRoom;
use crate::progress::Progress;
use crate::refusal::{EndRefusal, Ended, NewRefusal, RowRefusal};
use crate::room::{end_need, end_room, row_need};
use crate::rows::{end_image, take_row};
use base_122::{FieldRange, Setting};
use std::alloc::{AllocError, Global};
use strip_coder::{Plan, Work, start_image};

/// The encoder of images of one setting, whose rows its caller has in memory one after another (docs/architecture.md, "The encoder").
///
/// It takes all memory that its images need when it is made: that of a `Work`, at most 64P + 65S samples, a second row, and the packets of
/// one call. What it gives is what `encode` gives: after any number of rows exactly the packets that `encode` has given after these rows,
/// and with the end all packets of the image.
#[derive(Drop)]
pub struct Encoder {
    setting: Setting,
    work: Work,
    /// A row is read into it, so that a row that is refused leaves the last one as it was.
    row: Vec<i32>,
    packets: PacketRoom,
}

impl Encoder {
    /// Makes an encoder of images of this setting, whose code book must be sound, and opens the first image.
    pub fn new(alloc: Global, setting: &Setting) -> Result<Encoder, NewRefusal>
        requires book { IsTrue (is_book_sound setting.now.book) }
        ensures { NewAnswers setting.now result }
    {
        ten_weights(&setting.weights.shifts);
        if let Err(out) = setting.check() {
            return Err(NewRefusal::OutOfRange(out.field));
        }
        match make(alloc, setting) {
            Ok(encoder) => Ok(encoder),
            Err(_) => Err(NewRefusal::Memory),
        }
    }

    /// Takes the octets of one row, as a raster has them, and puts the packets of the segments that it settles at the start of the room. Most
    /// rows settle none. Returns the number of octets of these packets.
    ///
    /// A row is refused before it is taken: if the image has all of its rows, if the octets aren't exactly one row, if the room may be too
    /// small, or if a value is out of range, in this order.
    pub fn row(&mut self, octets: &[u8], room: &mut [u8]) -> Result<usize, RowRefusal>
        requires open { IsOpen self.old }
        ensures open { IsOpen self.new }
        ensures answers { RowAnswers octets.now self.old self.new room.old room.new result }
    {
        if let Err(refusal) = self.admit_row(octets.len(), room.len()) {
            return Err(refusal);
        }
        if let Err(refusal) = take_row(
            &self.setting,
            octets,
            &mut self.work,
            &mut self.row,
            &mut self.packets,
        ) {
            return Err(refusal);
        }
        Ok(self.packets.put(room))
    }

    // Refuses a row of this number of octets if the image has no place for it, if it isn't one row, or if its packets may not fit a room of
    // this number of octets.
    fn admit_row(&self, octets: usize, room: usize) -> Result<(), RowRefusal>
        requires open { IsOpen self.now }
        ensures { MatchResult result
            (λ _. HasPlace self.now × (octets ≡ row_length self.now.setting) × (row_need self.now.setting self.now.work.at.rows ≤ room))
            (λ refusal. RefusesSize self.now octets room refusal) }
    {
        let rows = self.work.at.rows;
        if rows >= Plan::tallest(&self.setting).rows {
            return Err(RowRefusal::Full);
        }
        let size = row_octets(&self.setting);
        if octets < size {
            return Err(RowRefusal::Short);
        }
        if octets > size {
            return Err(RowRefusal::Long);
        }
        let need = row_need(&self.setting, rows);
        if need > room as u64 {
            return Err(RowRefusal::SmallRoom { octets: need });
        }
        Ok(())
    }

    /// Ends the image after its last row: puts the packets of all segments that are left at the start of the room, and opens the next image
    /// of the same setting, with this number. A setting with rows has exactly these; one that leaves the rows open has the rows that were
    /// taken, 17 to 262,144.
    pub fn end(&mut self, image: u16, room: &mut [u8]) -> Result<Ended, EndRefusal>
        requires open { IsOpen self.old }
        ensures open { IsOpen self.new }
        ensures answers { EndAnswers image self.old self.new room.old room.new result }
    {
        if let Err(refusal) = self.admit_end(room.len()) {
            return Err(refusal);
        }
        let done = end_image(&self.setting, &mut self.work, &mut self.packets);
        let octets = self.packets.put(room);
        self.setting.image = image;
        start_image(&self.setting, &mut self.work);
        Ok(Ended { octets, done })
    }

    // Refuses the end of an image whose rows are missing, or whose last packets may not fit a room of this number of octets.
    fn admit_end(&self, room: usize) -> Result<(), EndRefusal>
        requires open { IsOpen self.now }
        ensures { MatchResult result
            (λ _. IsComplete self.now × (end_need self.now.setting self.now.work.at.rows ≤ room))
            (λ refusal. EndCause self.now room refusal) }
    {
        let rows = self.work.at.rows;
        if !is_height(&self.setting, rows) {
            return Err(EndRefusal::Unfinished);
        }
        let need = end_need(&self.setting, rows);
        if need > room as u64 {
            return Err(EndRefusal::SmallRoom { octets: need });
        }
        Ok(())
    }

    /// Returns what was taken and given of the present image.
    pub fn progress(&self) -> Progress
        ensures value { result ≡ progress_of self.now }
        ensures counts { Counts self.now result }
    {
        Progress {
            rows: self.work.at.rows,
            segments: self.work.at.index,
            packets: self.work.packets.packets(),
            octets: self.work.packets.octets(),
        }
    }
}

// Takes the memory of an encoder.
fn make(alloc: Global, setting: &Setting) -> Result<Encoder, AllocError>
    requires usable { IsUsable setting.now }
    ensures { IfOk result (Opens setting.now) }
{
    let width = 8 * setting.width.div_ceil(8);
    let row = vec![in alloc; 0; width as usize]?;
    let packets = PacketRoom::new(alloc, end_room(setting) as usize + 1)?;
    let work = Work::new(alloc, setting)?;
    Ok(Encoder {
        setting: *setting,
        work,
        row,
        packets,
    })
}

// Returns the number of octets of a row.
fn row_octets(setting: &Setting) -> usize
    ensures { result ≡ row_length setting.now }
{
    let size = if setting.depth <= 8 { 1 } else { 2 };
    setting.width as usize * size
}

// Returns whether an image of this setting can have this number of rows.
fn is_height(setting: &Setting, rows: u32) -> bool
    ensures { IsTrue result ↔ IsHeight setting.now rows }
{
    FieldRange::ROWS.contains(u64::from(rows)) && (setting.rows == 0 || setting.rows == rows)
}

// The number of weights is ten, which is known once they are read.
fn ten_weights(shifts: &[u8; 10])
    ensures { length shifts.now ≡ 10 }
{
    let _first = shifts[0];
}
