// What was found at the keys.
use crate::entries::Entry;
use crate::tables::{COUNT, Key, Range, Task};
use crate::values::Value;
use base_122::{
    Book, DecodeWish, FieldRange, Select, Setting, Stop, Weights, is_limit_in_range,
    is_total_in_range,
};
use raster_rows::MadeImage;

// The most pixels of a trial.
const TRIAL: u64 = 1 << 24;

// The number of cameras on a link.
const CAMERAS: FieldRange = FieldRange { least: 1, most: 16 };

/// The value that was found at each key.
#[derive(Clone, Copy)]
pub struct Given {
    found: [Option<Value>; COUNT],
}

impl Given {
    ghost use Rattle.std.specs.Prelude.{◌≡◌, ◌<◌, ◌^◌, is_some};
    ghost use Rattle.base_122.specs.Ranges.{IsInRange, IsWishInRange, total_test};
    ghost use Rattle.command_words.specs.Tables.{value_at, number_at, given_number, setting_of, wish_of, made_image_of};
    ghost use Rattle.command_words.specs.Entries.{nothing, with_entry};
    ghost use Rattle.command_words.specs.Values.{cap_of, flag_of, stop_of, weights_of, select_of};
    ghost use Rattle.command_words.specs.Commands.{passes, range_test, is_missing, is_small, leaves_rows_open, cameras_test, IsMadeInRange};
    ghost use Rattle.command_words.specs.Given.{finds_of};

    /// Returns the table without any key.
    pub fn new() -> Given
        ensures { finds_of result ≡ nothing }
    {
        Given {
            found: [None; COUNT],
        }
    }

    /// Returns whether the key was found.
    pub fn has(&self, key: Key) -> bool
        ensures { result ≡ is_some (finds_of self.now key) }
    {
        self.found[key.place()].is_some()
    }

    /// Returns whether the key is required and wasn't found.
    pub fn lacks(&self, key: Key) -> bool
        ensures { result ≡ is_missing (finds_of self.now) key }
    {
        key.row().required && !self.has(key)
    }

    /// Puts in the entry's value at its key.
    pub fn put(&mut self, entry: Entry)
        ensures { finds_of self.new ≡ with_entry (finds_of self.old) entry }
    {
        self.found[entry.key.place()] = Some(entry.value);
    }

    // Returns the key's value, or its default.
    fn value(&self, key: Key) -> Value
        ensures { result ≡ value_at (finds_of self.now) key }
    {
        self.found[key.place()].unwrap_or(key.row().default)
    }

    /// Returns the number at a key.
    pub fn number(&self, key: Key) -> u32
        ensures { result ≡ number_at (finds_of self.now) key }
    {
        match self.value(key) {
            Value::Number(number) => number,
            _ => 0,
        }
    }

    /// Returns the number at a key, if the arguments have it.
    pub fn given_number(&self, key: Key) -> Option<u32>
        ensures { result ≡ given_number (finds_of self.now) key }
    {
        match self.found[key.place()]? {
            Value::Number(number) => Some(number),
            _ => Some(0),
        }
    }

    /// Returns the cap at a key.
    pub fn cap(&self, key: Key) -> u64
        ensures { result ≡ cap_of (value_at (finds_of self.now) key) }
    {
        match self.value(key) {
            Value::Cap(cap) => cap,
            _ => 0,
        }
    }

    /// Returns the flag at a key.
    pub fn flag(&self, key: Key) -> bool
        ensures { result ≡ flag_of (value_at (finds_of self.now) key) }
    {
        match self.value(key) {
            Value::Flag(flag) => flag,
            _ => false,
        }
    }

    fn stops_at_dc(&self) -> bool
        ensures { result ≡ (stop_of (value_at (finds_of self.now) Key.Stop)).dc }
    {
        match self.value(Key::Stop) {
            Value::StopDc => true,
            _ => false,
        }
    }

    // Returns the stop's plane and stage.
    fn stop_place(&self, key: Key) -> (u32, u32)
        ensures plane { result.0 ≡ (stop_of (value_at (finds_of self.now) key)).plane }
        ensures stage { result.1 ≡ (stop_of (value_at (finds_of self.now) key)).stage }
    {
        match self.value(key) {
            Value::StopAt { plane, stage } => (plane, stage),
            _ => (0, 3),
        }
    }

    fn is_stop_in_range(&self, key: Key, task: Task) -> bool
        ensures { result ≡ range_test Range.Stop task (finds_of self.now) key }
    {
        let (plane, stage) = self.stop_place(key);
        FieldRange::PLANE.contains(u64::from(plane)) && FieldRange::STAGE.contains(u64::from(stage))
    }

    fn weights(&self, key: Key) -> Weights
        ensures { result ≡ weights_of (value_at (finds_of self.now) key) }
    {
        match self.value(key) {
            Value::Weights(weights) => weights,
            _ => Weights::usual(),
        }
    }

    fn select(&self) -> Select
        ensures { result ≡ select_of (value_at (finds_of self.now) Key.Select) }
    {
        match self.value(Key::Select) {
            Value::Select(select) => select,
            _ => Select::Optimal,
        }
    }

    // Returns whether an image is small enough for what is done with it: a trial has at most 2^24 pixels.
    fn is_small(&self, task: Task) -> bool
        ensures { result ≡ is_small task (finds_of self.now) }
    {
        match task {
            Task::Trial => {
                u64::from(self.number(Key::Width)) * u64::from(self.number(Key::Rows)) <= TRIAL
            }
            _ => true,
        }
    }

    // Returns whether the rows are 0, and the command has an image whose height is reported last.
    fn leaves_rows_open(&self, task: Task) -> bool
        ensures { result ≡ leaves_rows_open task (finds_of self.now) }
    {
        match task {
            Task::Encode => self.number(Key::Rows) == 0,
            _ => false,
        }
    }

    // Returns whether there is no bound on all texts together, or it is in its range for the number of segments, and there is no limit. If
    // a segment has no blocks, the bound needn't be in its range, so that `segment` is named.
    fn keeps_total_range(&self) -> bool
        ensures { result ≡ total_test (setting_of (finds_of self.now)) }
    {
        let total = self.cap(Key::Total);
        if total == 0 {
            return true;
        }
        let rows = self.number(Key::Rows);
        if rows == 0 || self.number(Key::Limit) != 0 {
            return false;
        }
        let blocks = u64::from(self.number(Key::Width).div_ceil(8)) * u64::from(rows.div_ceil(8));
        let segment = u64::from(self.number(Key::Segment));
        segment == 0 || is_total_in_range(total, blocks.div_ceil(segment))
    }

    // Returns whether there are 1 to 16 cameras, and the APID of the last one is in its range.
    fn are_cameras_in_range(&self, key: Key) -> bool
        ensures { result ≡ cameras_test (number_at (finds_of self.now) Key.Apid) (number_at (finds_of self.now) key) }
    {
        let cameras = u64::from(self.number(key));
        let after = u64::from(self.number(Key::Apid)) + cameras;
        CAMERAS.contains(cameras) && after <= FieldRange::APID.most + 1
    }

    /// Returns whether the key's value, or its default, is in its range.
    pub fn is_in_range(&self, task: Task, key: Key) -> bool
        ensures { result ≡ passes task (finds_of self.now) key }
    {
        match key.row().range {
            Range::All => true,
            Range::Number(range) => range.contains(u64::from(self.number(key))),
            Range::Cap(range) => range.contains(self.cap(key)),
            Range::Rows(range) => {
                (self.leaves_rows_open(task) || range.contains(u64::from(self.number(key))))
                    && self.is_small(task)
            }
            Range::Limit => is_limit_in_range(
                u64::from(self.number(key)),
                u64::from(self.number(Key::Word)),
            ),
            Range::Total => self.keeps_total_range(),
            Range::Fill => {
                !self.flag(key) || self.number(Key::Limit) != 0 || self.cap(Key::Total) != 0
            }
            Range::Stop => self.is_stop_in_range(key, task),
            Range::Weights => self.weights(key).are_in_range(),
            Range::Cameras => self.are_cameras_in_range(key),
        }
    }

    /// Returns the setting, whose numbers are all in range, with the code book of the profile.
    pub fn setting(&self) -> Setting
        requires { IsInRange (setting_of (finds_of self.now)) }
        ensures { result ≡ setting_of (finds_of self.now) }
    {
        let (plane, stage) = self.stop_place(Key::Stop);
        Setting {
            width: self.number(Key::Width),
            rows: self.number(Key::Rows),
            depth: self.number(Key::Depth) as u8,
            signed: self.flag(Key::Signed),
            segment: self.number(Key::Segment),
            limit: self.number(Key::Limit),
            fill: self.flag(Key::Fill),
            word: self.number(Key::Word) as u8,
            stop: Stop {
                dc: self.stops_at_dc(),
                plane: plane as u8,
                stage: stage as u8,
            },
            weights: self.weights(Key::Weights),
            select: self.select(),
            apid: self.number(Key::Apid) as u16,
            image: self.number(Key::Image) as u16,
            packet: self.number(Key::Packet),
            total: self.cap(Key::Total),
            book: Book::profile(),
        }
    }

    /// Returns the wish, whose numbers are all in range, with the code book of the profile.
    pub fn wish(&self) -> DecodeWish
        requires { IsWishInRange (wish_of (finds_of self.now)) }
        ensures { result ≡ wish_of (finds_of self.now) }
    {
        DecodeWish {
            apid: self.number(Key::Apid) as u16,
            pixels: self.cap(Key::Pixels),
            octets: self.cap(Key::Octets),
            book: Book::profile(),
            restore: self.flag(Key::Restore),
        }
    }

    /// Returns the made image, whose numbers are all in range.
    pub fn made_image(&self) -> MadeImage
        requires { IsMadeInRange (made_image_of (finds_of self.now)) }
        ensures { result ≡ made_image_of (finds_of self.now) }
    {
        MadeImage {
            width: self.number(Key::Width),
            rows: self.number(Key::Rows),
            depth: self.number(Key::Depth) as u8,
            signed: self.flag(Key::Signed),
            seed: self.number(Key::Seed),
        }
    }
}
