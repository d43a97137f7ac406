// The lines of the rectangles that gaps reach.
ghost use Rattle.std.specs.Prelude.{◌≡◌, ◌≤◌, ◌<◌, ◌*◌, ◌/◌, if◌then◌else◌, All, filter, [], ◌∷◌};
ghost use Rattle.std.specs.List.{flat_map};
ghost use Rattle.port_122.specs.Outside.{WritesAll};
ghost use Rattle.base_122.specs.Sizes.{block_count};
ghost use Rattle.quick_look.specs.Gaps.{gap_rect, gap_rects};
ghost use Rattle.quick_look.specs.RectLines.{rect_line, rect_lines};
ghost use Rattle.quick_look.specs.Rects.{has_pixels};
ghost use Rattle.quick_look.specs.Sizes.{IsSize, IsWithinImage};

use crate::{Gap, Rect};
use arrayvec::ArrayString;
use itoa::Buffer;
use port_122::{Failed, Port, write_all};

/// The numbers of rows and columns of a picture.
#[derive(Clone, Copy, Debug, PartialEq, Eq)]
pub struct PictureSize {
    pub rows: u32,
    pub width: u32,
}

// Returns the number of blocks of a block row.
fn columns_of(size: &PictureSize) -> u64
    requires { IsSize size.now }
    ensures { result ≡ block_count size.now.width }
{
    u64::from(size.width.div_ceil(8))
}

/// Gives the line of each rectangle that these gaps reach.
pub fn give_rects<X: Port>(port: &mut X, size: &PictureSize, gaps: &[Gap]) -> Result<(), Failed>
    requires size { IsSize size.now }
    requires within { All (IsWithinImage size.now.width) gaps.now }
    ensures { WritesAll result (X.outside port.old) (X.outside port.new) (rect_lines (flat_map (gap_rects size.now.rows size.now.width) gaps.now)) }
{
    for gap in gaps {
        give_gap(port, size, gap)?;
    }
    Ok(())
}

// Gives the line of each rectangle that a gap reaches: one for each block row that has a part of it.
fn give_gap<X: Port>(port: &mut X, size: &PictureSize, gap: &Gap) -> Result<(), Failed>
    requires size { IsSize size.now }
    requires within { IsWithinImage size.now.width gap.now }
    ensures { WritesAll result (X.outside port.old) (X.outside port.new) (rect_lines (gap_rects size.now.rows size.now.width gap.now)) }
{
    let columns = columns_of(size);
    for block_row in gap.first / columns..gap.last / columns + 1 {
        give_part(port, size, gap, block_row)?;
    }
    Ok(())
}

// Gives the line of the rectangle that the part of a gap in a block row reaches, if it has a row of the picture.
fn give_part<X: Port>(
    port: &mut X,
    size: &PictureSize,
    gap: &Gap,
    block_row: u64,
) -> Result<(), Failed>
    requires size { IsSize size.now }
    requires within { IsWithinImage size.now.width gap.now }
    requires first { gap.now.first / block_count size.now.width ≤ block_row }
    requires last { block_row ≤ gap.now.last / block_count size.now.width }
    ensures { WritesAll result (X.outside port.old) (X.outside port.new)
        (rect_lines (filter (has_pixels size.now.rows size.now.width) (gap_rect size.now.rows size.now.width gap.now block_row ∷ []))) }
{
    match rect_of(size, gap, block_row) {
        Some(rect) => give_line(port, rect),
        None => Ok(()),
    }
}

// Returns that rectangle.
fn rect_of(size: &PictureSize, gap: &Gap, block_row: u64) -> Option<Rect>
    requires size { IsSize size.now }
    requires within { IsWithinImage size.now.width gap.now }
    requires first { gap.now.first / block_count size.now.width ≤ block_row }
    requires last { block_row ≤ gap.now.last / block_count size.now.width }
    ensures { let rect = gap_rect size.now.rows size.now.width gap.now block_row in result ≡
        (if has_pixels size.now.rows size.now.width rect then Some rect else None) }
{
    let first_row = (8 * block_row).saturating_sub(21);
    if first_row >= u64::from(size.rows) {
        return None;
    }
    let columns = columns_of(size);
    let start = block_row * columns;
    let first = gap.first.max(start) - start;
    let last = gap.last.min(start + columns - 1) - start;
    Some(Rect {
        first_row: first_row as u32,
        last_row: (8 * block_row + 29).min(u64::from(size.rows) - 1) as u32,
        first_column: (8 * first).saturating_sub(21) as u32,
        last_column: (8 * last + 29).min(u64::from(size.width) - 1) as u32,
    })
}

// Gives the line of a rectangle.
fn give_line<X: Port>(port: &mut X, rect: Rect) -> Result<(), Failed>
    ensures { WritesAll result (X.outside port.old) (X.outside port.new) (rect_line rect) }
{
    write_all(port, line_of(rect).as_bytes())
}

// The characters of four numbers, of what is between them, and of the end of the line.
type RectLine = ArrayString<48>;

fn line_of(rect: Rect) -> RectLine
    ensures { result.bytes ≡ rect_line rect }
{
    let mut line = ArrayString::new();
    line.push_str(Buffer::new().format(rect.first_row));
    line.push_str("-");
    line.push_str(Buffer::new().format(rect.last_row));
    line.push_str(" ");
    line.push_str(Buffer::new().format(rect.first_column));
    line.push_str("-");
    line.push_str(Buffer::new().format(rect.last_column));
    line.push_str("\n");
    line
}
