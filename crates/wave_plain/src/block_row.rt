// A block row of bands over a whole array.
ghost use Rattle.std.specs.Prelude.{◌≡◌, ◌<◌, ◌+◌, ◌*◌, ◌^◌, vec_len, slice_get};
ghost use Rattle.base_122.specs.Weights.{band_place};
ghost use Rattle.wave_defs.specs.Blocks.{block_side};
ghost use Rattle.wave_defs.specs.Within.{IsWithin};
ghost use Rattle.wave_plain.specs.Images.{image_of};
ghost use Rattle.wave_plain.specs.BlockRows.{IsBlockRow};

use crate::{Bands, Plane};
use base_122::Band;
use block_families::{BandSource, Place};

/// One block row of the bands of an image.
#[derive(Clone, Copy)]
pub struct BlockRow<'a> {
    bands: &'a Bands,
    row: u32,
    ghost holds: { IsBlockRow bands.now row },
}

// Returns the number of rows, and of columns, of a band in one block.
fn side_of(band: Band) -> u32
    ensures { result ≡ block_side (band_place band) }
{
    match band {
        Band::Hh1 | Band::Hl1 | Band::Lh1 => 4,
        Band::Hh2 | Band::Hl2 | Band::Lh2 => 2,
        Band::Hh3 | Band::Hl3 | Band::Lh3 | Band::Ll3 => 1,
    }
}

// Returns the plane of a band.
fn plane_of<'a>(bands: &'a Bands, band: Band) -> &'a Plane
    requires { vec_len bands.now.planes ≡ 10 }
    ensures { slice_get bands.now.planes.items (band_place band) ≡ Some result.now }
{
    &bands.planes[band as usize]
}

// Returns the number at a row and a column of a plane.
fn cell_of(plane: &Plane, row: u32, column: u32) -> i32
    requires cell { row * plane.now.width + column < vec_len plane.now.cells }
    requires small { IsWithin (2 ^ 30) (image_of plane.now row column) }
    ensures { result ≡ image_of plane.now row column }
{
    plane.cells[row as usize * plane.width as usize + column as usize] as i32
}

impl<'a> BlockRow<'a> {
    /// Returns the block row of this number. The bands are those of an image, and have it.
    pub fn new(bands: &'a Bands, row: u32) -> BlockRow<'a>
        requires { IsBlockRow bands.now row }
        ensures bands { result.bands.now ≡ bands.now }
        ensures row { result.row ≡ row }
    {
        BlockRow { bands, row }
    }
}

impl<'a> BandSource for BlockRow<'a> {
    ghost use Rattle.std.specs.Prelude.{◌/◌, true};
    ghost use Rattle.wave_plain.specs.BlockRows.{number_in};

    ghost columns = { λ b. b.bands.now.width / 8 };

    ghost valid = { λ _. true };

    ghost number = { λ b. number_in b.bands.now b.row };

    fn value(&self, place: Place) -> i32 {
        let plane = plane_of(self.bands, place.band);
        let row = side_of(place.band) * self.row + place.row;
        cell_of(plane, row, place.column)
    }
}
