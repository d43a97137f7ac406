ghost use Rattle.std.specs.Prelude.{◌≡◌, ◌<◌};
ghost use Rattle.base_122.specs.Sizes.{padded_size, total_blocks, segment_count, segment_blocks};

use crate::weights::Weights;

/// The fields that a reader has to know of an image.
#[derive(Clone, Copy, Debug, PartialEq, Eq)]
pub struct Geometry {
    pub width: u32,
    /// The number of rows of the image; 0 while its height is not known.
    pub rows: u32,
    pub depth: u8,
    pub signed: bool,
    pub segment: u32,
    pub image: u16,
    pub word: u8,
    pub weights: Weights,
}

impl Geometry {
    ghost use Rattle.base_122.specs.Ranges.{IsGeometryInRange};

    /// Returns the number of columns of the padded image (docs/formats.md, "Levels and padding").
    pub fn padded_width(&self) -> u32
        requires { IsGeometryInRange self.now }
        ensures { result ≡ padded_size self.now.width }
    {
        self.width.div_ceil(8) * 8
    }

    /// Returns the number of rows of the padded image (docs/formats.md, "Levels and padding").
    pub fn padded_rows(&self) -> u32
        requires { IsGeometryInRange self.now }
        ensures { result ≡ padded_size self.now.rows }
    {
        self.rows.div_ceil(8) * 8
    }

    /// Returns the number of blocks of the image (docs/formats.md, "Blocks").
    pub fn blocks(&self) -> u64
        requires { IsGeometryInRange self.now }
        ensures { result ≡ total_blocks self.now.width self.now.rows }
    {
        u64::from(self.width.div_ceil(8)) * u64::from(self.rows.div_ceil(8))
    }

    /// Returns the number of segments of the image (docs/formats.md, "Segments and depths").
    pub fn segments(&self) -> u32
        requires { IsGeometryInRange self.now }
        ensures { result ≡ segment_count (total_blocks self.now.width self.now.rows) self.now.segment }
    {
        self.blocks().div_ceil(u64::from(self.segment)) as u32
    }

    /// Returns the number of blocks of the segment of this index (docs/formats.md, "Segments and depths"): the last one may have fewer.
    pub fn blocks_of(&self, index: u32) -> u32
        requires range { IsGeometryInRange self.now }
        requires index { index < segment_count (total_blocks self.now.width self.now.rows) self.now.segment }
        ensures { result ≡ segment_blocks (total_blocks self.now.width self.now.rows) self.now.segment index }
    {
        let segment = u64::from(self.segment);
        let left = self.blocks() - u64::from(index) * segment;
        left.min(segment) as u32
    }
}
