// Tries a setting: the made image is encoded and decoded in memory.
ghost use Rattle.std.specs.Prelude.{◌≡◌, ◌<◌, ◌≤◌, ◌+◌, ◌*◌, ◌^◌, [], length, IfOk, IsTrue, Ok, Some};
ghost use Rattle.plane_defs.specs.Codes.{is_book_sound};
ghost use Rattle.std.specs.Ordering.{int_eq};
ghost use Rattle.port_122.specs.Outside.{WritesAll};
ghost use Rattle.port_122.specs.Memory.{outside_of, IsFresh};
ghost use Rattle.base_122.specs.Ranges.{IsInRange, IsWithin, rows_range};
ghost use Rattle.raster_rows.specs.Pixels.{IsDepth, pixel_size, pixel_at};
ghost use Rattle.raster_rows.specs.Made.{made_value};
ghost use Rattle.stream_defs.specs.Output.{output};
ghost use Rattle.strip_coder.specs.Answers.{EncodesImage, TookRaster};
ghost use Rattle.strip_coder.specs.Rasters.{image_of};
ghost use Rattle.strip122.specs.MadeRasters.{made_raster};
ghost use Rattle.strip122.specs.Trials.{made_with, raster_length, equal_places, trial_line, HasDecoded, AreEqualIn, IsTried};

use crate::encoders::ten_weights;
use crate::make::write_made;
use crate::notes::NoteLine;
use arrayvec::ArrayString;
use base_122::{DecodeWish, Setting};
use itoa::Buffer;
use port_122::{Failed, MemoryPort, Port, write_all};
use raster_rows::MadeImage;
use segment_code::texts_are_short;
use std::alloc::{AllocError, Global};
use stream_defs::heights_are_known;
use strip_coder::{EncodeDone, Work, encode_rows};
use strip_decoder::decode_packets;

/// The counts of a trial: what was encoded for a made image, and the number of its pixels that were decoded unchanged.
#[derive(Clone, Copy, Debug, PartialEq, Eq)]
pub struct TrialDone {
    pub segments: u32,
    pub packets: u64,
    pub octets: u64,
    /// The number of pixels that are decoded as they were made.
    pub equal: u64,
}

// The largest number of octets that a call of a port moves.
const PIECE: usize = 65_536;

/// Makes the image of a setting and a seed, encodes it, decodes its packets, and counts the pixels that are decoded unchanged
/// (docs/formats.md, "Raster and made image", "Packets" and "Picture and damage"). All is done in memory. It fails only if there is too
/// little memory, or if there are 2^40 octets of packets or more.
pub fn run_trial(alloc: Global, setting: &Setting, seed: u32) -> Result<TrialDone, AllocError>
    requires range { IsInRange setting.now }
    requires height { IsWithin rows_range setting.now.rows }
    requires book { IsTrue (is_book_sound setting.now.book) }
    requires few { setting.now.width * setting.now.rows ≤ 2 ^ 24 }
    ensures { IfOk result (IsTried setting.now (made_value (made_with setting.now seed))) }
{
    let port = make_raster(alloc, &made_with(setting, seed))?;
    try_raster(alloc, setting, port.given())
}

// Encodes a raster, decodes its packets, and counts the pixels that are decoded unchanged.
fn try_raster(alloc: Global, setting: &Setting, raster: &[u8]) -> Result<TrialDone, AllocError>
    requires range { IsInRange setting.now }
    requires height { IsWithin rows_range setting.now.rows }
    requires book { IsTrue (is_book_sound setting.now.book) }
    ensures { IfOk result (IsTried setting.now (image_of setting.now raster.now)) }
{
    let mut port = port_with(alloc, raster)?;
    let done = encode(alloc, setting, &mut port)?;
    let equal = count_decoded(alloc, setting, raster, port.given())?;
    Ok(TrialDone {
        segments: done.segments,
        packets: done.packets,
        octets: done.octets,
        equal,
    })
}

// Decodes the packets of a raster, and counts the pixels that are decoded unchanged.
fn count_decoded(
    alloc: Global,
    setting: &Setting,
    raster: &[u8],
    packets: &[u8],
) -> Result<u64, AllocError>
    requires range { IsInRange setting.now }
    requires height { IsWithin rows_range setting.now.rows }
    requires book { IsTrue (is_book_sound setting.now.book) }
    requires raster { TookRaster setting.now setting.now.rows raster.now }
    requires packets { packets.now ≡ output setting.now setting.now.rows (image_of setting.now raster.now) }
    ensures { IfOk result (AreEqualIn setting.now (image_of setting.now raster.now) packets.now) }
{
    texts_are_short();
    heights_are_known();
    ten_weights(&setting.weights.shifts);
    let mut port = port_with(alloc, packets)?;
    decode(alloc, setting, &mut port)?;
    Ok(count_equal(setting, raster, port.given()))
}

// Returns the made image of a setting.
fn made_with(setting: &Setting, seed: u32) -> MadeImage
    ensures { result ≡ made_with setting.now seed }
{
    MadeImage {
        width: setting.width,
        rows: setting.rows,
        depth: setting.depth,
        signed: setting.signed,
        seed,
    }
}

// Returns a port with this input, whose calls fail only if there is too little memory.
fn port_with(alloc: Global, input: &[u8]) -> Result<MemoryPort, AllocError>
    ensures { IfOk result (λ port. IsFresh port input.now [] 65536) }
{
    MemoryPort::new(alloc, input.to_vec(alloc)?, Vec::new(alloc), PIECE)
}

// Returns a port to which the raster of a made image is given.
fn make_raster(alloc: Global, made: &MadeImage) -> Result<MemoryPort, AllocError>
    requires { IsDepth made.now.depth }
    ensures { IfOk result (λ port. (outside_of port).given ≡ Some (made_raster made.now)) }
{
    let mut port = port_with(alloc, &[])?;
    match write_made(&mut port, made) {
        Ok(()) => Ok(port),
        Err(_) => Err(AllocError),
    }
}

// Encodes the raster that a port has, and gives its packets to the port.
fn encode(alloc: Global, setting: &Setting, port: &mut MemoryPort) -> Result<EncodeDone, AllocError>
    requires range { IsInRange setting.now }
    requires height { IsWithin rows_range setting.now.rows }
    requires book { IsTrue (is_book_sound setting.now.book) }
    ensures { IfOk result (λ done. EncodesImage setting.now (outside_of port.old) (outside_of port.new) (Ok done)) }
{
    let Ok(mut work) = Work::new(alloc, setting) else {
        return Err(AllocError);
    };
    match encode_rows(port, setting, &mut work) {
        Ok(done) => Ok(done),
        Err(_) => Err(AllocError),
    }
}

// Decodes the packets that a port has, and gives their picture to the port.
fn decode(alloc: Global, setting: &Setting, port: &mut MemoryPort) -> Result<(), AllocError>
    requires { IsTrue (is_book_sound setting.now.book) }
    ensures { IfOk result (λ _. HasDecoded setting.now (outside_of port.old) (outside_of port.new)) }
{
    let wish = DecodeWish {
        apid: setting.apid,
        pixels: u64::from(setting.width) * u64::from(setting.rows),
        octets: 1 << 40,
        book: setting.book,
        restore: false,
    };
    match decode_packets(alloc, port, &wish) {
        Ok(_) => Ok(()),
        Err(_) => Err(AllocError),
    }
}

// Returns the number of pixels of two rasters that are the same.
fn count_equal(setting: &Setting, made: &[u8], given: &[u8]) -> u64
    requires range { IsInRange setting.now }
    requires made { length made.now ≡ raster_length setting.now }
    requires given { length given.now ≡ raster_length setting.now }
    ensures { result ≡ equal_places setting.now.rows setting.now.width (image_of setting.now made.now) (image_of setting.now given.now) }
{
    let mut equal = 0;
    for place in 0..setting.rows as usize * setting.width as usize {
        if is_same(setting, made, given, place) {
            equal += 1;
        }
    }
    equal
}

// Returns whether the pixels at a place of two rasters are the same, which is so if their octets are.
fn is_same(setting: &Setting, made: &[u8], given: &[u8], place: usize) -> bool
    requires made { (place + 1) * pixel_size setting.now.depth ≤ length made.now }
    requires given { (place + 1) * pixel_size setting.now.depth ≤ length given.now }
    ensures { result ≡ int_eq (pixel_at setting.now.depth setting.now.signed made.now place) (pixel_at setting.now.depth setting.now.signed given.now place) }
{
    if setting.depth <= 8 {
        return made[place] == given[place];
    }
    made[2 * place] == given[2 * place] && made[2 * place + 1] == given[2 * place + 1]
}

/// Gives the line of a trial.
pub fn give_trial<X: Port>(port: &mut X, setting: &Setting, done: &TrialDone) -> Result<(), Failed>
    requires { IsInRange setting.now }
    ensures { WritesAll result (X.outside port.old) (X.outside port.new) (trial_line setting.now done.now) }
{
    write_all(port, trial_line(setting, done).as_bytes())
}

fn trial_line(setting: &Setting, done: &TrialDone) -> NoteLine
    requires { IsInRange setting.now }
    ensures { result.bytes ≡ trial_line setting.now done.now }
{
    let mut line = ArrayString::new();
    line.push_str("segments ");
    line.push_str(Buffer::new().format(done.segments));
    line.push_str(" packets ");
    line.push_str(Buffer::new().format(done.packets));
    line.push_str(" octets ");
    line.push_str(Buffer::new().format(done.octets));
    line.push_str(" equal ");
    line.push_str(Buffer::new().format(done.equal));
    line.push_str(" of ");
    line.push_str(Buffer::new().format(u64::from(setting.width) * u64::from(setting.rows)));
    line.push_str("\n");
    line
}
