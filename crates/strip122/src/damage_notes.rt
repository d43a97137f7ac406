// Writes the note on packets that aren't whole.
ghost use Rattle.std.specs.Prelude.{◌≡◌, ◌≤◌, ◌<◌, ◌^◌, ◌++◌, [], true, length, codes, decimal};
ghost use Rattle.std.specs.List.{flat_map};
ghost use Rattle.port_122.specs.Outside.{NotesAll};
ghost use Rattle.strip122.specs.Notes.{Notes};
ghost use Rattle.strip122.specs.DamageNotes.{damaged, range_text, ranges_text, height_text, framing_text, rest_text, damage_line};

use crate::notes::{NoteLine, note_line};
use arrayvec::ArrayString;
use damage_rows::{Damage, RowRange};
use itoa::Buffer;
use packet_defs::Framing;
use port_122::{Failed, Port, note_all};

/// Notes which rows are damaged, whether the height isn't known, and why the packets can't be read on.
pub fn note_damage<X: Port>(port: &mut X, damage: &Damage, known: bool, framing: Option<Framing>)
    requires { damage.now.rows < 2 ^ 32 }
    ensures { Notes (X.outside port.old) (X.outside port.new) (damage_line (damaged damage.now) known framing) }
{
    let Ok(()) = note_all(port, "strip122: damaged rows".as_bytes()) else {
        return;
    };
    let Ok(()) = note_ranges(port, damage) else {
        return;
    };
    note_line(port, end_line(known, framing).as_str());
}

/// Notes that no row is damaged, and why the packets can't be read on.
pub fn note_framing<X: Port>(port: &mut X, framing: Option<Framing>)
    ensures { Notes (X.outside port.old) (X.outside port.new) (damage_line [] true framing) }
{
    let Ok(()) = note_all(port, "strip122: damaged rows none".as_bytes()) else {
        return;
    };
    note_line(port, end_line(true, framing).as_str());
}

// Notes all ranges of damaged rows, or that there is none.
fn note_ranges<X: Port>(port: &mut X, damage: &Damage) -> Result<(), Failed>
    requires { damage.now.rows < 2 ^ 32 }
    ensures { NotesAll result (X.outside port.old) (X.outside port.new) (ranges_text (damaged damage.now)) }
{
    if damage.next_range(0).is_none() {
        return note_all(port, " none".as_bytes());
    }
    note_each(port, damage)
}

// Notes each range of damaged rows.
fn note_each<X: Port>(port: &mut X, damage: &Damage) -> Result<(), Failed>
    requires { damage.now.rows < 2 ^ 32 }
    ensures { NotesAll result (X.outside port.old) (X.outside port.new) (flat_map range_text (damaged damage.now)) }
{
    let mut from = 0;
    while let Some(range) = damage.next_range(from) {
        note_range(port, range)?;
        from = range.last + 1;
    }
    Ok(())
}

// Notes a range of damaged rows.
fn note_range<X: Port>(port: &mut X, range: RowRange) -> Result<(), Failed>
    ensures { NotesAll result (X.outside port.old) (X.outside port.new) (range_text range) }
{
    note_all(port, range_line(range).as_bytes())
}

fn range_line(range: RowRange) -> NoteLine
    ensures { result.bytes ≡ range_text range }
{
    let mut line = ArrayString::new();
    line.push_str(" ");
    line.push_str(Buffer::new().format(range.first));
    line.push_str("-");
    line.push_str(Buffer::new().format(range.last));
    line
}

// Returns the line after the ranges.
fn end_line(known: bool, framing: Option<Framing>) -> NoteLine
    ensures { result.bytes ≡ rest_text known framing ++ codes "\n" }
{
    let mut line = height_line(known);
    line.push_str(framing_line(framing).as_str());
    line.push_str("\n");
    line
}

// Returns the text that the height isn't known, if it isn't.
fn height_line(known: bool) -> NoteLine
    ensures text { result.bytes ≡ height_text known }
    ensures short { length result.bytes ≤ 16 }
{
    let mut line = ArrayString::new();
    if !known {
        line.push_str("; height unknown");
    }
    line
}

// Returns the text of the reason why the packets can't be read on.
fn framing_line(framing: Option<Framing>) -> NoteLine
    ensures text { result.bytes ≡ framing_text framing }
    ensures short { length result.bytes ≤ 60 }
{
    match framing {
        None => ArrayString::new(),
        Some(Framing::BadVersion { octet }) => version_line(octet),
        Some(Framing::CutPacket { missing }) => cut_line(missing),
    }
}

fn version_line(octet: u64) -> NoteLine
    ensures text { result.bytes ≡ codes "; bad version at octet " ++ decimal octet }
    ensures short { length result.bytes ≤ 60 }
{
    let mut line = ArrayString::new();
    line.push_str("; bad version at octet ");
    line.push_str(Buffer::new().format(octet));
    line
}

fn cut_line(missing: u32) -> NoteLine
    ensures text { result.bytes ≡ codes "; packet cut, " ++ decimal missing ++ codes " octets missing" }
    ensures short { length result.bytes ≤ 60 }
{
    let mut line = ArrayString::new();
    line.push_str("; packet cut, ");
    line.push_str(Buffer::new().format(missing));
    line.push_str(" octets missing");
    line
}
