// Writes the notes.
ghost use Rattle.std.specs.Prelude.{◌≡◌, ◌<◌, ◌++◌, length, codes, decimal};
ghost use Rattle.std.specs.Fmt.{signed_decimal};
ghost use Rattle.command_words.specs.Words.{texts, IsPlaced};
ghost use Rattle.strip122.specs.Notes.{Notes, word_at, field_text, word_line, short_report, fault_report, mux_report, decoder_report, bare_report};
ghost use Rattle.strip122.specs.Notes.{list_report};

use arrayvec::ArrayString;
use bare_stream::BareFault;
use base_122::Field;
use camera_mux::MuxFault;
use command_words::WordFault;
use itoa::Buffer;
use port_122::{Port, note_all};
use strip_coder::EncodeFault;
use strip_decoder::{DecodeFault, ListFault};

// Notes three parts of a line.
fn note_parts<X: Port>(port: &mut X, first: &str, middle: &str, last: &str)
    ensures { Notes (X.outside port.old) (X.outside port.new) (first.now ++ middle.now ++ last.now) }
{
    let Ok(()) = note_all(port, first.as_bytes()) else {
        return;
    };
    let Ok(()) = note_all(port, middle.as_bytes()) else {
        return;
    };
    let _ = note_all(port, last.as_bytes());
}

/// Notes a line. If the note fails, only a prefix of the line is noted, and no error is reported.
pub fn note_line<X: Port>(port: &mut X, line: &str)
    ensures { Notes (X.outside port.old) (X.outside port.new) line.now }
{
    let _ = note_all(port, line.as_bytes());
}

fn field_name(field: Field) -> &'static str
    ensures { result.now ≡ field_text field }
{
    match field {
        Field::Width => "width",
        Field::Rows => "rows",
        Field::Depth => "depth",
        Field::Segment => "segment",
        Field::Limit => "limit",
        Field::Fill => "fill",
        Field::Word => "word",
        Field::Stop => "stop",
        Field::Weights => "weights",
        Field::Apid => "apid",
        Field::Image => "image",
        Field::Packet => "packet",
        Field::Pixels => "pixels",
        Field::Octets => "octets",
        Field::Total => "total",
        Field::Cameras => "cameras",
    }
}

// Returns the argument at a place.
fn word(words: &[String], place: usize) -> &str
    requires { place < length words.now }
    ensures { result.now ≡ word_at (texts words.now) place }
{
    words[place].as_str()
}

/// Notes why the arguments are refused.
pub fn note_refusal<X: Port>(port: &mut X, words: &[String], fault: WordFault)
    requires { IsPlaced (length words.now) fault }
    ensures { Notes (X.outside port.old) (X.outside port.new) (word_line (texts words.now) fault) }
{
    match fault {
        WordFault::MissingCommand => note_line(port, "strip122: missing command\n"),
        WordFault::BadWord { place } => {
            note_parts(port, "strip122: bad word: ", word(words, place), "\n");
        }
        WordFault::MissingKey(field) => {
            note_parts(port, "strip122: missing: ", field_name(field), "\n");
        }
        WordFault::OutOfRange(field) => {
            note_parts(port, "strip122: out of range: ", field_name(field), "\n");
        }
    }
}

// A line of the note on an engine's result.
pub type NoteLine = ArrayString<160>;

fn short_line(octets: u64) -> NoteLine
    ensures { result.bytes ≡ (short_report octets).line }
{
    let mut line = ArrayString::new();
    line.push_str("strip122: input short, ");
    line.push_str(Buffer::new().format(octets));
    line.push_str(" octets taken\n");
    line
}

fn bad_pixel_line(row: u32, column: u32, value: i32) -> NoteLine
    ensures { result.bytes ≡ codes "strip122: bad pixel " ++ signed_decimal value ++ codes " at row " ++ decimal row ++ codes " column " ++ decimal
        column ++ codes "\n" }
{
    let mut line = ArrayString::new();
    line.push_str("strip122: bad pixel ");
    line.push_str(Buffer::new().format(value));
    line.push_str(" at row ");
    line.push_str(Buffer::new().format(row));
    line.push_str(" column ");
    line.push_str(Buffer::new().format(column));
    line.push_str("\n");
    line
}

/// Notes a fault of the encoder.
pub fn note_fault<X: Port>(port: &mut X, fault: EncodeFault)
    ensures { Notes (X.outside port.old) (X.outside port.new) (fault_report fault).line }
{
    match fault {
        EncodeFault::Short { octets } => note_line(port, short_line(octets).as_str()),
        EncodeFault::Long => note_line(port, "strip122: input long\n"),
        EncodeFault::BadPixel { row, column, value } => {
            note_line(port, bad_pixel_line(row, column, value).as_str());
        }
        EncodeFault::ReadFault => note_line(port, "strip122: read fault\n"),
        EncodeFault::WriteFault => note_line(port, "strip122: write fault\n"),
    }
}

fn bad_camera_line(camera: u8, place: u64) -> NoteLine
    ensures { result.bytes ≡ codes "strip122: bad camera " ++ decimal camera ++ codes " at record " ++ decimal place ++ codes "\n" }
{
    let mut line = ArrayString::new();
    line.push_str("strip122: bad camera ");
    line.push_str(Buffer::new().format(camera));
    line.push_str(" at record ");
    line.push_str(Buffer::new().format(place));
    line.push_str("\n");
    line
}

fn camera_pixel_line(camera: u8, row: u32, column: u32, value: i32) -> NoteLine
    ensures { result.bytes ≡ codes "strip122: bad pixel " ++ signed_decimal value ++ codes " of camera " ++ decimal camera ++ codes " at row " ++ decimal
        row ++ codes " column " ++ decimal column ++ codes "\n" }
{
    let mut line = ArrayString::new();
    line.push_str("strip122: bad pixel ");
    line.push_str(Buffer::new().format(value));
    line.push_str(" of camera ");
    line.push_str(Buffer::new().format(camera));
    line.push_str(" at row ");
    line.push_str(Buffer::new().format(row));
    line.push_str(" column ");
    line.push_str(Buffer::new().format(column));
    line.push_str("\n");
    line
}

/// Notes a fault of a mux.
pub fn note_mux_fault<X: Port>(port: &mut X, fault: MuxFault)
    ensures { Notes (X.outside port.old) (X.outside port.new) (mux_report fault).line }
{
    match fault {
        MuxFault::Short { octets } => note_line(port, short_line(octets).as_str()),
        MuxFault::Long => note_line(port, "strip122: input long\n"),
        MuxFault::BadCamera { place, camera } => {
            note_line(port, bad_camera_line(camera, place).as_str());
        }
        MuxFault::BadPixel {
            camera,
            row,
            column,
            value,
        } => note_line(port, camera_pixel_line(camera, row, column, value).as_str()),
        MuxFault::ReadFault => note_line(port, "strip122: read fault\n"),
        MuxFault::WriteFault => note_line(port, "strip122: write fault\n"),
    }
}

fn pixels_line(pixels: u64) -> NoteLine
    ensures { result.bytes ≡ codes "strip122: too many pixels, " ++ decimal pixels ++ codes "\n" }
{
    let mut line = ArrayString::new();
    line.push_str("strip122: too many pixels, ");
    line.push_str(Buffer::new().format(pixels));
    line.push_str("\n");
    line
}

/// Notes a fault of the decoder.
pub fn note_decoder_fault<X: Port>(port: &mut X, fault: DecodeFault)
    ensures { Notes (X.outside port.old) (X.outside port.new) (decoder_report fault).line }
{
    match fault {
        DecodeFault::NoSegment => note_line(port, "strip122: no segment\n"),
        DecodeFault::TooManyPixels { pixels } => note_line(port, pixels_line(pixels).as_str()),
        DecodeFault::LongInput => note_line(port, "strip122: input too long\n"),
        DecodeFault::ReadFault => note_line(port, "strip122: read fault\n"),
        DecodeFault::WriteFault => note_line(port, "strip122: write fault\n"),
        DecodeFault::Memory => note_line(port, "strip122: no memory\n"),
    }
}

fn segment_line(index: u32) -> NoteLine
    ensures { result.bytes ≡ codes "strip122: segment " ++ decimal index ++ codes " refused\n" }
{
    let mut line = ArrayString::new();
    line.push_str("strip122: segment ");
    line.push_str(Buffer::new().format(index));
    line.push_str(" refused\n");
    line
}

/// Notes a fault of the decoder of bare streams.
pub fn note_bare_fault<X: Port>(port: &mut X, fault: BareFault)
    ensures { Notes (X.outside port.old) (X.outside port.new) (bare_report fault).line }
{
    match fault {
        BareFault::Refused { index, .. } => note_line(port, segment_line(index).as_str()),
        BareFault::TooManyPixels { pixels } => note_line(port, pixels_line(pixels).as_str()),
        BareFault::LongInput => note_line(port, "strip122: input too long\n"),
        BareFault::ReadFault => note_line(port, "strip122: read fault\n"),
        BareFault::WriteFault => note_line(port, "strip122: write fault\n"),
        BareFault::Memory => note_line(port, "strip122: no memory\n"),
    }
}

/// Notes a fault of a list of packets.
pub fn note_list_fault<X: Port>(port: &mut X, fault: ListFault)
    ensures { Notes (X.outside port.old) (X.outside port.new) (list_report fault).line }
{
    match fault {
        ListFault::LongInput => note_line(port, "strip122: input too long\n"),
        ListFault::ReadFault => note_line(port, "strip122: read fault\n"),
        ListFault::WriteFault => note_line(port, "strip122: write fault\n"),
        ListFault::Memory => note_line(port, "strip122: no memory\n"),
    }
}
