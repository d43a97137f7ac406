// Finds the rows that losses damage, without the picture.
ghost use Rattle.std.specs.Prelude.{◌≡◌, ◌≤◌, IsTrue};
ghost use Rattle.port_122.specs.Outside.{WritesAll};
ghost use Rattle.plane_defs.specs.Codes.{is_book_sound};
ghost use Rattle.strip_decoder.specs.Lines.{range_line, damage_lines};
ghost use Rattle.strip_decoder.specs.Finding.{Finds};

use crate::{BlockSink, DecodeDone, DecodeFault, walk_segments};
use arrayvec::ArrayString;
use base_122::{DecodeWish, Geometry};
use damage_rows::Damage;
use itoa::Buffer;
use port_122::{Failed, Port, write_all};
use std::alloc::{AllocError, Global};
use stream_defs::RowRange;

/// A sink that ignores the blocks: its user needs only the missing block rows, which each walk marks.
#[derive(Clone, Copy, Debug, Drop, PartialEq, Eq)]
pub struct NoPicture;

impl BlockSink for NoPicture {
    ghost use Rattle.strip_decoder.specs.PictureSinks.{no_picture};

    ghost sink = { no_picture };

    fn begin(_alloc: Global, _geometry: &Geometry) -> Result<NoPicture, AllocError> {
        Ok(NoPicture)
    }

    fn put<X: Port>(&mut self, _port: &mut X, _numbers: &[i32]) -> Result<(), Failed> {
        Ok(())
    }

    fn lose<X: Port>(&mut self, _port: &mut X) -> Result<(), Failed> {
        Ok(())
    }

    fn end_at(&mut self, _geometry: &Geometry) {}
}

/// Takes the packets of an APID as `decode_packets` does and returns what it returns. It gives no row: after all is read, it gives a line
/// `first-last` for each range of damaged rows (docs/formats.md, "Picture and damage"). The wish's code book must be sound. The
/// answer does not depend on whether numbers are to be restored. After `WriteFault` a prefix of the lines is given, and nothing after the
/// other faults.
pub fn find_damage<X: Port>(
    alloc: Global,
    port: &mut X,
    wish: &DecodeWish,
) -> Result<DecodeDone, DecodeFault>
    requires book { IsTrue (is_book_sound wish.now.book) }
    ensures { Finds wish.now (X.outside port.old) (X.outside port.new) result }
{
    // Restored numbers would change no damage.
    let wish = DecodeWish {
        restore: false,
        ..*wish
    };
    let done = match walk_segments::<NoPicture, X>(alloc, port, &wish) {
        Ok(walked) => walked.done,
        Err(fault) => return Err(fault),
    };
    match give_lines(port, &done.damage) {
        Ok(()) => Ok(done),
        Err(_) => Err(DecodeFault::WriteFault),
    }
}

// Gives the line of each range.
fn give_lines<X: Port>(port: &mut X, damage: &Damage) -> Result<(), Failed>
    requires { damage.now.rows ≤ 262144 }
    ensures { WritesAll result (X.outside port.old) (X.outside port.new) (damage_lines damage.now) }
{
    let mut from = 0;
    while let Some(range) = damage.next_range(from) {
        give_line(port, range)?;
        from = range.last + 1;
    }
    Ok(())
}

// Gives the line of a range.
fn give_line<X: Port>(port: &mut X, range: RowRange) -> Result<(), Failed>
    ensures { WritesAll result (X.outside port.old) (X.outside port.new) (range_line range) }
{
    write_all(port, line_of(range).as_bytes())
}

// The characters of a range and the end of its line.
type RangeLine = ArrayString<32>;

fn line_of(range: RowRange) -> RangeLine
    ensures { result.bytes ≡ range_line range }
{
    let mut line = ArrayString::new();
    line.push_str(Buffer::new().format(range.first));
    line.push_str("-");
    line.push_str(Buffer::new().format(range.last));
    line.push_str("\n");
    line
}
