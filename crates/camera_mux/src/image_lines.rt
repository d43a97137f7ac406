// The line of an image.
ghost use Rattle.std.specs.Prelude.{◌≡◌, ◌≤◌, ◌+◌, ◌++◌, length, codes, decimal};
ghost use Rattle.base_122.specs.Ranges.{IsGeometryInRange};
ghost use Rattle.packet_assembly.specs.Ranged.{IsRanged};
ghost use Rattle.camera_mux.specs.ImageLines.{known_text, flag_text, id_text, geometry_text, count_text, line_of};

use crate::image::{ImageCount, ImageEntry, ImageId};
use arrayvec::ArrayString;
use base_122::Geometry;
use itoa::Buffer;

/// The most octets of a line.
pub const LINE: usize = 320;

/// A line, which has at most 281 octets.
pub type ImageLine = ArrayString<LINE>;

// Appends a word and a number.
fn push_number(line: &mut ImageLine, word: &str, number: u64)
    requires { length line.old.bytes + length word.now ≤ 300 }
    ensures text { line.new.bytes ≡ line.old.bytes ++ (word.now ++ decimal number) }
    ensures short { length line.new.bytes ≤ length line.old.bytes + length word.now + 20 }
{
    line.push_str(word);
    line.push_str(Buffer::new().format(number));
}

// Appends a word and a number that is known only if the height is.
fn push_known(line: &mut ImageLine, word: &str, geometry: &Geometry, number: u64)
    requires { length line.old.bytes + length word.now ≤ 300 }
    ensures text { line.new.bytes ≡ line.old.bytes ++ (word.now ++ known_text geometry.now number) }
    ensures short { length line.new.bytes ≤ length line.old.bytes + length word.now + 20 }
{
    if geometry.rows == 0 {
        line.push_str(word);
        line.push_str("unknown");
        return;
    }
    push_number(line, word, number);
}

// Appends the name of an image.
fn push_id(line: &mut ImageLine, id: ImageId)
    requires { length line.old.bytes ≤ 0 }
    ensures text { line.new.bytes ≡ line.old.bytes ++ id_text id }
    ensures short { length line.new.bytes ≤ 52 }
{
    push_number(line, "apid ", u64::from(id.apid));
    push_number(line, " image ", u64::from(id.image));
}

// Appends the size of an image and of its segments.
fn push_geometry(line: &mut ImageLine, geometry: &Geometry)
    requires { length line.old.bytes ≤ 52 }
    ensures text { line.new.bytes ≡ line.old.bytes ++ geometry_text geometry.now }
    ensures short { length line.new.bytes ≤ 170 }
{
    push_number(line, " width ", u64::from(geometry.width));
    push_known(line, " rows ", geometry, u64::from(geometry.rows));
    push_number(line, " depth ", u64::from(geometry.depth));
    line.push_str(" signed ");
    line.push_str(if geometry.signed { "1" } else { "0" });
    push_number(line, " segment ", u64::from(geometry.segment));
}

// Appends the counts of an image.
fn push_count(line: &mut ImageLine, geometry: &Geometry, count: &ImageCount)
    requires range { IsGeometryInRange geometry.now }
    requires room { length line.old.bytes ≤ 170 }
    ensures text { line.new.bytes ≡ line.old.bytes ++ count_text geometry.now count.now }
    ensures short { length line.new.bytes ≤ 281 }
{
    push_number(line, " packets ", count.packets);
    push_number(line, " octets ", count.octets);
    push_number(line, " segments ", count.received);
    push_known(line, " of ", geometry, u64::from(geometry.segments()));
}

/// Returns the line of an image: its APID and number, the size of the image and of its segments, and what is received of it.
pub fn line_of(entry: &ImageEntry) -> ImageLine
    requires { IsRanged entry.now.state }
    ensures { result.bytes ≡ line_of entry.now }
{
    let mut line = ArrayString::new();
    let Some(geometry) = entry.state.geometry else {
        return line;
    };
    push_id(&mut line, entry.id);
    push_geometry(&mut line, &geometry);
    push_count(&mut line, &geometry, &entry.count);
    line.push_str("\n");
    line
}
