// A row of the padded image.
ghost use Rattle.std.specs.Prelude.{◌≤◌, ◌<◌, length};
ghost use Rattle.raster_rows.specs.Padding.{IsPadded};

/// Repeats the last of the first `width` numbers to the row's end (docs/formats.md, "Levels and padding").
pub fn pad_row(width: u32, row: &mut [i32])
    requires some { 1 ≤ width }
    requires within { width ≤ length row.old }
    ensures { IsPadded width row.old row.new }
{
    let width = width as usize;
    let last = row[width - 1];
    for pixel in row[width..].iter_mut() {
        *pixel = last;
    }
}
