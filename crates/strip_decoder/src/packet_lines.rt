// The line of a packet.
ghost use Rattle.std.specs.Prelude.{◌≡◌, ◌≤◌, ◌++◌, length, codes, decimal};
ghost use Rattle.stream_defs.specs.declared.fate.Fate.TheVariants.{Kept};
ghost use Rattle.strip_decoder.specs.PacketLines.{skip_text, fate_text, line_of};

use arrayvec::ArrayString;
use itoa::Buffer;
use packet_assembly::{Fate, PacketNote, Skip};

/// The most octets of a line.
pub const LINE: usize = 64;

/// A line, which has at most 59 octets.
pub type PacketLine = ArrayString<LINE>;

fn skip_name(skip: Skip) -> &'static str
    ensures text { result.now ≡ skip_text skip }
    ensures short { length result.now ≤ 15 }
{
    match skip {
        Skip::Idle => "idle",
        Skip::NotTelemetry => "not-telemetry",
        Skip::OtherApid => "other-apid",
        Skip::NoSecondary => "no-secondary",
        Skip::ShortAncillary => "short-ancillary",
        Skip::OtherMark => "other-mark",
    }
}

fn fate_name(fate: Fate) -> &'static str
    ensures text { result.now ≡ fate_text fate }
    ensures short { length result.now ≤ 15 }
{
    match fate {
        Fate::Kept => "kept",
        Fate::Skipped(skip) => skip_name(skip),
        Fate::Foreign => "foreign",
        Fate::Late => "late",
        Fate::OutOfPlace => "out-of-place",
        Fate::BadHead(_) => "bad-head",
    }
}

// Returns the line of a packet that is kept.
fn kept_line(number: u64, index: u32, part: u32, octets: u32) -> PacketLine
    ensures { result.bytes ≡ decimal number ++ codes " kept " ++ decimal index ++ codes " " ++ decimal part ++ codes " " ++ decimal octets ++ codes "\n" }
{
    let mut line = ArrayString::new();
    line.push_str(Buffer::new().format(number));
    line.push_str(" kept ");
    line.push_str(Buffer::new().format(index));
    line.push_str(" ");
    line.push_str(Buffer::new().format(part));
    line.push_str(" ");
    line.push_str(Buffer::new().format(octets));
    line.push_str("\n");
    line
}

// Returns the line of another packet, with its fate's name.
fn other_line(number: u64, name: &str) -> PacketLine
    requires { length name.now ≤ 15 }
    ensures { result.bytes ≡ decimal number ++ codes " " ++ name.now ++ codes "\n" }
{
    let mut line = ArrayString::new();
    line.push_str(Buffer::new().format(number));
    line.push_str(" ");
    line.push_str(name);
    line.push_str("\n");
    line
}

/// Returns the line of a packet: its number and its fate, and for a kept one its segment's index, its part and the octets of its text.
pub fn line_of(note: &PacketNote) -> PacketLine
    ensures { result.bytes ≡ line_of note.now }
{
    match note.fate {
        Fate::Kept => kept_line(note.number, note.index, note.part, note.octets),
        fate => other_line(note.number, fate_name(fate)),
    }
}
