// The state of a picture.
ghost use Rattle.std.specs.Prelude.{◌≡◌, ◌*◌, ◌≤◌, pos, true};
ghost use Rattle.base_122.specs.Sizes.{padded_size};
ghost use Rattle.inverse_strip.specs.Strip.{columns_of, numbers_of};
ghost use Rattle.wave_defs.specs.Blocks.{Place};

use base_122::Geometry;
use inverse_strip::StripInverse;
use std::alloc::{AllocError, Global};

/// The progress of a picture: the block row and the column of the next block, and the next row to be given.
#[derive(Clone, Copy, Debug, PartialEq, Eq)]
pub struct PictureAt {
    pub row: u32,
    pub column: u32,
    pub next: u32,
}

/// The inverse transform, and the progress of the picture. It holds at most 80 rows of the padded picture. If `lost`, all blocks so far of the
/// block row that is set next are missing.
#[derive(Drop)]
pub struct Picture {
    pub geometry: Geometry,
    pub at: PictureAt,
    pub strip: StripInverse,
    pub lost: bool,
    ghost within: { 80 * (8 * columns_of strip) ≤ 80 * padded_size geometry.width },
    ghost none: { lost ≡ true → (q : Place) → numbers_of strip q ≡ pos 0 },
}

impl Picture {
    ghost use Rattle.std.specs.Prelude.{◌≡◌, ◌≤◌, ◌<◌, ◌*◌, IfOk};
    ghost use Rattle.base_122.specs.Ranges.{IsGeometryInRange, IsWithin, rows_range};
    ghost use Rattle.base_122.specs.Sizes.{total_blocks};
    ghost use Rattle.picture_rows.specs.Pictures.{picture_state, samples_of, passed_in, IsPictureFresh, IsPictureCurrent};
    ghost use Rattle.picture_rows.specs.Steps.{HasHeight};

    /// Takes all memory that a picture of this geometry needs (docs/architecture.md, "The decoder"). If its height is reported last, it has
    /// the greatest height until `end_at` is called. It fails only if there is too little memory.
    pub fn new(alloc: Global, geometry: &Geometry) -> Result<Picture, AllocError>
        requires range { IsGeometryInRange geometry.now }
        requires height { IsWithin rows_range geometry.now.rows }
        ensures { IfOk result (λ p. IsPictureFresh geometry.now (picture_state p)) }
    {
        let strip = StripInverse::new(alloc, geometry.padded_width(), geometry.padded_rows())?;
        Ok(Picture {
            geometry: *geometry,
            at: PictureAt {
                row: 0,
                column: 0,
                next: 0,
            },
            strip,
            lost: true,
        })
    }

    /// Sets the number of rows of the image, 17 to 262,144 and at most the number that it had (docs/formats.md, "Levels and padding").
    /// At least one block of an image of this height is still to be passed. The rows that were given are its first rows too.
    pub fn end_at(&mut self, rows: u32)
        requires current { IsPictureCurrent (picture_state self.old) }
        requires range { IsWithin rows_range rows }
        requires fewer { rows ≤ self.old.geometry.rows }
        requires more { passed_in (picture_state self.old) < total_blocks self.old.geometry.width rows }
        ensures { HasHeight rows (picture_state self.old) (picture_state self.new) }
    {
        self.geometry.rows = rows;
        self.strip.end_at(self.geometry.padded_rows());
    }

    /// Returns the number of samples that it holds.
    pub fn samples(&self) -> u64
        requires { IsGeometryInRange self.now.geometry }
        ensures value { result ≡ samples_of (picture_state self.now) }
        ensures most { result ≤ 80 * padded_size self.now.geometry.width }
    {
        self.strip.samples()
    }
}
