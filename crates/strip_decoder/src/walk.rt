// The state of a walk over segments.
ghost use Rattle.std.specs.Prelude.{◌≡◌, ◌≤◌, ◌+◌, ◌*◌, length, take, IfOk, IsTrue, vec_len};
ghost use Rattle.base_122.specs.Ranges.{IsGeometryInRange, IsWithin, rows_range};
ghost use Rattle.segment_code.specs.Starts.{AreClear};
ghost use Rattle.stream_defs.specs.Begun.{placed};
ghost use Rattle.strip_decoder.specs.Sinks.{MayEnd};
ghost use Rattle.strip_decoder.specs.WalkSteps.{walking, passed_in, IsCurrent, IsFresh, HasGeometry};
ghost use Rattle.strip_decoder.specs.Rooms.{IsRoom};

use crate::sink::BlockSink;
use base_122::{DecodeWish, FieldRange, Geometry};
use damage_rows::Damage;
use segment_code::SegmentReader;
use std::alloc::{AllocError, Global};

/// The block row and the column of the next block.
#[derive(Clone, Copy, Debug, PartialEq, Eq)]
pub struct BlockAt {
    pub row: u32,
    pub column: u32,
}

/// The place of a walk in its image, the missing block rows, and the sink of its blocks.
#[derive(Drop)]
pub struct Walk<S> {
    pub geometry: Geometry,
    pub at: BlockAt,
    pub damage: Damage,
    pub sink: S,
}

/// Returns the geometry by which the blocks of an image are placed: that of the tallest image while the height isn't known.
pub fn placed(geometry: &Geometry) -> Geometry
    ensures { result ≡ placed geometry.now }
{
    let rows = match geometry.rows {
        0 => FieldRange::ROWS.most as u32,
        rows => rows,
    };
    Geometry { rows, ..*geometry }
}

/// Returns a walk at the first block. It fails only if there is too little memory for the sink and the table of missing block rows.
pub fn begin_walk<S: BlockSink>(alloc: Global, geometry: &Geometry) -> Result<Walk<S>, AllocError>
    requires range { IsGeometryInRange geometry.now }
    requires height { IsWithin rows_range geometry.now.rows }
    ensures { IfOk result (λ p. IsFresh S.sink geometry.now (walking p)) }
{
    let damage = Damage::new(alloc, geometry.rows)?;
    let sink = S::begin(alloc, geometry)?;
    Ok(Walk {
        geometry: *geometry,
        at: BlockAt { row: 0, column: 0 },
        damage,
        sink,
    })
}

/// Returns the number of blocks before the next one.
pub fn passed<S: BlockSink>(walk: &Walk<S>) -> u64
    requires { IsCurrent S.sink (walking walk.now) }
    ensures { result ≡ passed_in (walking walk.now) }
{
    let columns = walk.geometry.padded_width() / 8;
    u64::from(walk.at.row) * u64::from(columns) + u64::from(walk.at.column)
}

/// Sets the geometry of the image from now on, if its height became known.
pub fn end_image<S: BlockSink>(walk: &mut Walk<S>, geometry: &Geometry)
    requires current { IsCurrent S.sink (walking walk.old) }
    requires ends { MayEnd walk.old.geometry geometry.now (passed_in (walking walk.old)) }
    ensures { HasGeometry S.sink geometry.now (walking walk.old) (walking walk.new) }
{
    if geometry.rows == walk.geometry.rows {
        return;
    }
    walk.sink.end_at(geometry);
    walk.damage.end_at(geometry.rows);
    walk.geometry = *geometry;
}

/// The room in which the segments of an image are read: a reader with the tables of their code book, the blocks of one segment, a state for
/// each, and the most pixels that the image may have. It holds at most 65 samples for each block of a segment.
#[derive(Drop)]
pub struct SegmentRoom {
    pub reader: SegmentReader,
    pub blocks: Vec<i32>,
    pub marks: Vec<i32>,
    pub pixels: u64,
    /// No segment was read yet, so all numbers of the blocks are 0.
    pub(crate) is_clear: bool,
    ghost clear: { IsTrue is_clear → AreClear blocks.items },
}

impl SegmentRoom {
    ghost use Rattle.std.specs.Prelude.{◌≡◌, ◌≤◌, ◌+◌, ◌*◌, false, take, IfOk, IsTrue, vec_len};
    ghost use Rattle.base_122.specs.Ranges.{IsGeometryInRange, IsWithin, rows_range};
    ghost use Rattle.plane_defs.specs.Codes.{is_book_sound};
    ghost use Rattle.segment_defs.specs.TextWish.{text_wish};
    ghost use Rattle.segment_code.specs.Readers.{wish_of};
    ghost use Rattle.segment_code.specs.Starts.{AreClear};
    ghost use Rattle.strip_decoder.specs.Rooms.{IsRoom};

    /// Takes the memory for the segments of an image, which are read with the wish's code book, and restored if that is wished. It fails only
    /// if there is too little memory.
    pub fn new(
        alloc: Global,
        geometry: &Geometry,
        wish: &DecodeWish,
    ) -> Result<SegmentRoom, AllocError>
        requires range { IsGeometryInRange geometry.now }
        requires height { IsWithin rows_range geometry.now.rows }
        requires book { IsTrue (is_book_sound wish.now.book) }
        ensures room { IfOk result (λ room. IsRoom geometry.now (vec_len room.blocks) (vec_len room.marks)) }
        ensures pixels { IfOk result (λ room. room.pixels ≡ wish.now.pixels) }
        ensures texts { IfOk result (λ room. wish_of room.reader ≡ text_wish wish.now) }
    {
        let count = geometry.blocks_of(0) as usize;
        let blocks = vec![in alloc; 0; 64 * count]?;
        let marks = vec![in alloc; 0; count]?;
        let reader = SegmentReader::new(alloc, &wish.book, wish.restore)?;
        Ok(SegmentRoom {
            reader,
            blocks,
            marks,
            pixels: wish.pixels,
            is_clear: true,
        })
    }

    // Clears the first `count` numbers of the blocks for a segment. The blocks of a new room are clear already: the first segment saves the
    // time of filling them again.
    pub(crate) fn clear_blocks(&mut self, count: usize)
        requires { count ≤ vec_len self.old.blocks }
        ensures clear { AreClear (take count self.new.blocks.items) }
        ensures blocks { vec_len self.new.blocks ≡ vec_len self.old.blocks }
        ensures used { self.new.is_clear ≡ false }
        ensures reader { self.new.reader ≡ self.old.reader }
        ensures marks { self.new.marks ≡ self.old.marks }
        ensures pixels { self.new.pixels ≡ self.old.pixels }
    {
        if self.is_clear {
            self.is_clear = false;
            return;
        }
        clear_first(&mut self.blocks, count);
    }
}

// Sets the first `count` numbers to 0.
fn clear_first(numbers: &mut [i32], count: usize)
    requires { count ≤ length numbers.old }
    ensures clear { AreClear (take count numbers.new) }
    ensures size { length numbers.new ≡ length numbers.old }
{
    numbers[..count].fill(0);
}
