// The table of keys and the table of commands.
ghost use Rattle.std.specs.Prelude.{◌≡◌, ◌<◌, [], Some, None, IfSome, MatchOption, length, map, position, slice_index_or, bytes_eq};
ghost use Rattle.command_words.specs.Listed.{commands};
ghost use Rattle.command_words.specs.Tables.{no_row, command_in, command_named, command_place};

use crate::values::Value;
use base_122::{Field, FieldRange, Select, Weights};

/// The task of a command.
#[derive(Clone, Copy)]
pub enum Task {
    Encode,
    Mux,
    Read(Reading),
    Info,
    Pick,
    BareEncode,
    BareDecode,
    Make,
    Trial,
}

/// The use of packets that are read.
#[derive(Clone, Copy, Debug, PartialEq, Eq)]
pub enum Reading {
    /// The picture is given.
    Decode,
    /// A line for each range of damaged rows is given.
    Damage,
    /// The small picture with one value for each block is given.
    Look,
    /// A line for each rectangle of damaged pixels is given.
    Rects,
    /// A line for each packet is given.
    List,
}

/// The keys of all commands.
#[derive(Clone, Copy)]
pub enum Key {
    Width,
    Rows,
    Depth,
    Signed,
    Segment,
    Limit,
    Fill,
    Word,
    Stop,
    Weights,
    Select,
    Apid,
    Image,
    Packet,
    Pixels,
    Octets,
    Total,
    Cameras,
    Book,
    Seed,
    Restore,
}

/// The form in which the value of a key is written.
#[derive(Clone, Copy)]
pub enum Form {
    Number,
    Cap,
    Flag,
    Stop,
    Weights,
    Select,
}

/// The range of the values of a key.
#[derive(Clone, Copy)]
pub enum Range {
    /// All values of its form are in range.
    All,
    Number(FieldRange),
    Cap(FieldRange),
    /// The rows of an image: 0 is in range only for `encode`, and a trial must have few enough of them for its width.
    Rows(FieldRange),
    /// A limit: 0, or a multiple of the code word length in its range.
    Limit,
    /// A bound on all texts together: 0, or at least 36 octets for each segment, without a limit.
    Total,
    /// Whether texts are filled up to their limits; if they are, there must be a limit or a total.
    Fill,
    Stop,
    Weights,
    /// The cameras on a link: 1 to 16, and the APID of the last one must be in its range.
    Cameras,
}

/// A row of the table of keys.
#[derive(Clone, Copy)]
pub struct KeyRow {
    /// The value if the arguments have none, which also determines how a value of the key is written.
    pub default: Value,
    /// Whether a command that has the key needs it; the default is then only that of the other commands.
    pub required: bool,
    /// The field that is named if the key is missing or out of range.
    pub field: Option<Field>,
    pub range: Range,
}

/// The number of keys.
pub const COUNT: usize = 21;

/// All keys in the order in which their ranges are tested, which is that of `Field`.
pub const ALL: [Key; COUNT] = [
    Key::Width,
    Key::Rows,
    Key::Depth,
    Key::Signed,
    Key::Segment,
    Key::Limit,
    Key::Fill,
    Key::Word,
    Key::Stop,
    Key::Weights,
    Key::Select,
    Key::Apid,
    Key::Image,
    Key::Packet,
    Key::Pixels,
    Key::Octets,
    Key::Total,
    Key::Cameras,
    Key::Book,
    Key::Seed,
    Key::Restore,
];

// The usual weights.
const USUAL: Weights = Weights {
    shifts: [0, 1, 1, 1, 2, 2, 2, 3, 3, 3],
};

// A row of the table of keys: the name; the default, of a required key after `required`; the field; the range; and the meaning.
macro_rules! key_row {
    ($text:literal: required $default:expr, $field:expr, $range:expr, $meaning:literal) => {
        ($text, KeyRow { default: $default, required: true, field: $field, range: $range }, $meaning)
    };
    ($text:literal: $default:expr, $field:expr, $range:expr, $meaning:literal) => {
        ($text, KeyRow { default: $default, required: false, field: $field, range: $range }, $meaning)
    };
}

// An entry of the table of keys: the name, the row and the meaning.
type KeyEntry = (&'static str, KeyRow, &'static str);

// The table of keys, in the order of `Key`.
const KEYS: [KeyEntry; COUNT] = [
    key_row! { "width": required Value::Number(17), Some(Field::Width), Range::Number(FieldRange::WIDTH),
        "pixels in a row" },
    key_row! { "rows": required Value::Number(17), Some(Field::Rows), Range::Rows(FieldRange::ROWS),
        "rows of the image; with 0, encode takes rows until the input ends" },
    key_row! { "depth": Value::Number(8), Some(Field::Depth), Range::Number(FieldRange::DEPTH),
        "bits in a pixel" },
    key_row! { "signed": Value::Flag(false), None, Range::All,
        "1 if pixels are signed, in two's complement" },
    key_row! { "segment": Value::Number(64), Some(Field::Segment), Range::Number(FieldRange::SEGMENT),
        "blocks of 8 x 8 pixels in a segment, which is received or lost as a whole" },
    key_row! { "limit": Value::Number(0), Some(Field::Limit), Range::Limit,
        "most octets of each coded segment, or 0 for no limit" },
    key_row! { "fill": Value::Flag(false), Some(Field::Fill), Range::Fill,
        "1 to fill each coded segment with zeros up to its limit" },
    key_row! { "word": Value::Number(1), Some(Field::Word), Range::Number(FieldRange::WORD),
        "octets in a code word; a coded segment is a multiple of it" },
    key_row! { "stop": Value::StopAt { plane: 0, stage: 3 }, Some(Field::Stop), Range::Stop,
        "the last part of a segment that is sent: its DC, or stage S of bit plane P" },
    key_row! { "weights": Value::Weights(USUAL), Some(Field::Weights), Range::Weights,
        "exponents of the weights of HH1 HL1 LH1 HH2 HL2 LH2 HH3 HL3 LH3 LL3" },
    key_row! { "select": Value::Select(Select::Optimal), None, Range::All,
        "how DCs and block depths choose their codes: the shortest or a faster rule" },
    key_row! { "apid": Value::Number(100), Some(Field::Apid), Range::Number(FieldRange::APID),
        "application process identifier of the packets" },
    key_row! { "image": Value::Number(0), Some(Field::Image), Range::Number(FieldRange::IMAGE),
        "number of the image, which distinguishes images of one APID" },
    key_row! { "packet": Value::Number(1024), Some(Field::Packet), Range::Number(FieldRange::PACKET),
        "most octets of a packet data field" },
    key_row! { "pixels": Value::Cap(1 << 32), Some(Field::Pixels), Range::Cap(FieldRange::PIXELS),
        "most pixels of a picture; a larger one is refused" },
    key_row! { "octets": Value::Cap(1 << 40), Some(Field::Octets), Range::Cap(FieldRange::OCTETS),
        "octets at which the input is refused as too long" },
    key_row! { "total": Value::Cap(0), Some(Field::Total), Range::Total,
        "most octets of all coded segments of the image together, or 0 for no bound" },
    key_row! { "cameras": Value::Number(1), Some(Field::Cameras), Range::Cameras,
        "cameras on the link; the APID of each is that of the one before, plus 1" },
    key_row! { "book": Value::Flag(false), None, Range::All,
        "1 if the input begins with a code book of 138 octets" },
    key_row! { "seed": Value::Number(0), None, Range::All,
        "number of the made image of this size" },
    key_row! { "restore": Value::Flag(false), None, Range::All,
        "1 to move coefficients that are given in part inside their intervals" },
];

// A group of keys: its title and the keys.
macro_rules! key_group {
    ($title:literal: $($key:ident)+) => { ($title, &[$(Key::$key),+]) };
}

/// The groups of keys in the help, in the order in which they are listed there: for each its title and its keys.
pub const GROUPS: [(&str, &[Key]); 4] = [
    key_group! { "what\n": Width Rows Depth Signed Seed },
    key_group! { "how much to keep\n": Limit Total Fill Stop Weights Select },
    key_group! { "segments and packets\n": Segment Word Book Apid Cameras Image Packet },
    key_group! { "reading\n": Pixels Octets Restore },
];

// The groups have as many keys as there are.
const _: () = prove!(
    GROUPS[0].1.len() + GROUPS[1].1.len() + GROUPS[2].1.len() + GROUPS[3].1.len() == COUNT
);

/// A row of the table of commands: the name, what it does, its keys, its meaning in one line, and a run of it in a shell.
pub type CommandRow = (
    &'static str,
    Task,
    &'static [Key],
    &'static str,
    &'static str,
);

macro_rules! command_row {
    ($name:literal: $task:expr, $meaning:literal, $example:literal, $($key:ident)+) => {
        ($name, $task, &[$(Key::$key),+], $meaning, $example)
    };
}

/// The table of commands.
pub const COMMANDS: [CommandRow; 13] = [
    command_row! { "encode": Task::Encode, "raster in, space packets out, each as soon as it is determined",
        "strip122 encode width=640 rows=480 < raster > packets",
        Width Rows Depth Signed Segment Limit Fill Word Stop Weights Select Apid Image Packet Total Book },
    command_row! { "mux": Task::Mux, "rows of cameras in, packets out, each as soon as it is determined",
        "strip122 mux cameras=2 width=640 rows=480 < records > packets",
        Width Rows Depth Signed Segment Limit Fill Word Stop Weights Select Apid Image Packet Total Cameras },
    command_row! { "decode": Task::Read(Reading::Decode), "packets in, raster out, each row as soon as it is determined",
        "strip122 decode < packets > raster",
        Apid Pixels Octets Restore Book },
    command_row! { "damage": Task::Read(Reading::Damage), "packets in, one line FIRST-LAST out for each range of damaged rows",
        "strip122 damage < packets > ranges",
        Apid Pixels Octets Book },
    command_row! { "rects": Task::Read(Reading::Rects), "packets in, one line ROWS COLUMNS out for each damaged rectangle",
        "strip122 rects < packets > rectangles",
        Apid Pixels Octets },
    command_row! { "look": Task::Read(Reading::Look), "packets in, a small picture out, with one value for each block",
        "strip122 look < packets > picture",
        Apid Pixels Octets Restore },
    command_row! { "list": Task::Read(Reading::List), "packets in, one line out for each: its number and its fate",
        "strip122 list < packets > fates",
        Apid Octets },
    command_row! { "info": Task::Info, "packets in, one line out for each image, of one APID or of all",
        "strip122 info < packets > images",
        Apid Octets },
    command_row! { "pick": Task::Pick, "packets in, those of an APID out, or of one image of it",
        "strip122 pick apid=101 image=7 < packets > picked",
        Apid Image Octets },
    command_row! { "bare-encode": Task::BareEncode, "raster in, a bare stream out: segments without packets",
        "strip122 bare-encode width=640 rows=480 < raster > stream",
        Width Rows Depth Signed Segment Limit Fill Word Stop Weights Select },
    command_row! { "bare-decode": Task::BareDecode, "a bare stream in, raster out, each row as soon as it is determined",
        "strip122 bare-decode < stream > raster",
        Pixels Octets Restore },
    command_row! { "make": Task::Make, "a made raster out; it reads no input",
        "strip122 make width=640 rows=480 seed=7 > raster",
        Width Rows Depth Signed Seed },
    command_row! { "trial": Task::Trial, "encodes and decodes a made image in memory; a line of counts out",
        "strip122 trial width=640 rows=480 limit=1024",
        Width Rows Depth Signed Segment Limit Fill Word Stop Weights Select Apid Image Packet Total Seed },
];

/// Returns what the command with this name does, and its keys.
pub fn command_named(text: &str) -> Option<(Task, &'static [Key])>
    ensures { MatchOption result (command_named text.now ≡ None) (λ found. command_named text.now ≡ Some (found.0, found.1.now)) }
{
    command_in(&COMMANDS, text)
}

fn command_in(mut table: &[CommandRow], text: &str) -> Option<(Task, &'static [Key])>
    ensures { MatchOption result (command_in (map (λ row. (row.0.now, row.1, row.2.now)) table.entry.now) text.now ≡ None)
        (λ found. command_in (map (λ row. (row.0.now, row.1, row.2.now)) table.entry.now) text.now ≡ Some (found.0, found.1.now)) }
{
    while let [row, rest @ ..] = table {
        if row.0 == text {
            return Some((row.1, row.2));
        }
        table = rest;
    }
    None
}

/// Returns the place in the table of the command with this name.
pub fn command_place(text: &str) -> Option<usize>
    ensures place { result ≡ command_place text.now }
    ensures within { IfSome result (λ place. place < length commands) }
{
    place_in(&COMMANDS, text)
}

fn place_in(table: &[CommandRow], text: &str) -> Option<usize>
    ensures place { result ≡ position (λ row. bytes_eq row.0.now text.now) table.now }
    ensures within { IfSome result (λ place. place < length table.now) }
{
    table.iter().position(|row| row.0 == text)
}

// Returns the entry at this place.
fn entry_at(table: &[KeyEntry], place: usize) -> KeyEntry
    requires { place < length table.now }
    ensures name { result.0.now ≡ slice_index_or (map (λ entry. entry.0.now) table.now) place [] }
    ensures row { result.1 ≡ slice_index_or (map (λ entry. entry.1) table.now) place no_row }
    ensures meaning { result.2.now ≡ slice_index_or (map (λ entry. entry.2.now) table.now) place [] }
{
    table[place]
}

impl Key {
    ghost use Rattle.command_words.specs.Listed.{key_text};
    ghost use Rattle.command_words.specs.Tables.{key_named, key_place, row_of, meaning_of, contains_key};

    /// Returns the name of the key.
    pub fn text(self) -> &'static str
        ensures { result.now ≡ key_text self }
    {
        entry_at(&KEYS, self.place()).0
    }

    /// Returns its meaning, in one line.
    pub fn meaning(self) -> &'static str
        ensures { result.now ≡ meaning_of self }
    {
        entry_at(&KEYS, self.place()).2
    }

    /// Returns its row in the table.
    pub fn row(self) -> KeyRow
        ensures { result ≡ row_of self }
    {
        entry_at(&KEYS, self.place()).1
    }

    /// Returns the key with this name.
    pub fn named(text: &str) -> Option<Key>
        ensures { result ≡ key_named text.now }
    {
        ALL.iter().copied().find(|key| key.text() == text)
    }

    /// Returns the place of the key in the table.
    pub fn place(self) -> usize
        ensures { result ≡ key_place self }
    {
        self as usize
    }

    /// Returns whether the key is among these.
    pub fn is_among(self, keys: &[Key]) -> bool
        ensures { result ≡ contains_key keys.now self }
    {
        keys.iter().any(|key| key.place() == self.place())
    }
}
