//! This crate has the wavelet transform of three levels over whole arrays, and its inverse.
//!
//! Layer: transform and blocks. It uses `base_122`, `wave_defs`, `lift_rows` and `block_families`. It is used by `wave_tests`.
#![tactic(auto)]

ghost use Rattle.std.specs.Prelude.{◌≡◌, ℕ, ◌+◌, ◌*◌, ◌-◌, ◌/◌, ◌^◌, ◌<◌, ◌≤◌, IfOk, vec_len};
ghost use Rattle.wave_defs.specs.Pyramid.{pyramid, rebuilt};
ghost use Rattle.wave_defs.specs.Blocks.{block_side};
ghost use Rattle.wave_defs.specs.Within.{EachWithin, PyramidWithin};
ghost use Rattle.wave_plain.specs.Laws.{RoundTrips};
ghost use Rattle.wave_plain.specs.Images.{image_of, band_in, pyramid_in, HasSize, IsWhole, Shows, ShowsBands};

mod block_row;
mod columns;
mod join;
mod level;
mod rows;
mod samples;

pub use block_row::BlockRow;
use join::{LevelBands, join};
use samples::Samples;
use std::alloc::{AllocError, Global};

/// An array of integers, in row order.
#[derive(Drop)]
pub struct Plane {
    pub width: u32,
    pub rows: u32,
    pub cells: Vec<i64>,
}

/// The ten bands of an image of `rows` rows of `width` cells, in the order HH1, HL1, LH1, HH2, HL2,
/// LH2, HH3, HL3, LH3, LL3.
#[derive(Drop)]
pub struct Bands {
    pub width: u32,
    pub rows: u32,
    pub planes: Vec<Plane>,
}

/// Returns the ten bands of an image (docs/formats.md, "Levels and padding").
///
/// Width and rows are multiples of 8 from 24, and the cells are at most 2^16 in magnitude. The values of the
/// bands are at most 16,000,000 in magnitude (docs/formats.md, "Bounds"). The only error is a lack of memory.
pub fn forward3(alloc: Global, image: &Plane) -> Result<Bands, AllocError>
    requires width { (image.now.width ≡ 8 * (image.now.width / 8)) × (24 ≤ image.now.width) }
    requires rows { (image.now.rows ≡ 8 * (image.now.rows / 8)) × (24 ≤ image.now.rows) }
    requires whole { vec_len image.now.cells ≡ image.now.rows * image.now.width }
    requires bounded { EachWithin (2 ^ 16) image.now.rows image.now.width (image_of image.now) }
    ensures bands { IfOk result (ShowsBands (image.now.rows / 8) (image.now.width / 8)
        (pyramid (image_of image.now) (image.now.rows / 8) (image.now.width / 8))) }
    ensures small { IfOk result
        (λ b. PyramidWithin 409600 2560000 16000000 (image.now.rows / 8) (image.now.width / 8) (pyramid_in b)) }
{
    let whole = Samples::narrowed(alloc, image)?;
    let first = whole.level(alloc)?;
    let second = first.ll.level(alloc)?;
    let third = second.ll.level(alloc)?;
    let ll = third.ll.widened(alloc)?;
    let planes = vec![in alloc;
        first.hh, first.hl, first.lh, second.hh, second.hl, second.lh, third.hh, third.hl,
        third.lh, ll,
    ]?;
    Ok(Bands {
        width: image.width,
        rows: image.rows,
        planes,
    })
}

/// Returns the plane of a band, by its number.
fn plane_of(bands: &Bands, band: usize) -> &Plane
    requires whole { IsWhole (bands.now.rows / 8) (bands.now.width / 8) bands.now }
    requires within { band < 10 }
    ensures size { HasSize (block_side band * (bands.now.rows / 8))
        (block_side band * (bands.now.width / 8)) result.now }
    ensures image { image_of result.now ≡ band_in bands.now band }
{
    &bands.planes[band]
}

/// Returns the image that has these ten bands (docs/formats.md, "Levels and padding").
///
/// Width and rows are multiples of 8 from 24, the ten planes have the sizes of their bands, and their values
/// are at most 2^27 in magnitude. The only error is a lack of memory.
pub fn inverse3(alloc: Global, bands: &Bands) -> Result<Plane, AllocError>
    requires long { (24 ≤ bands.now.width) × (24 ≤ bands.now.rows) }
    requires whole { IsWhole (bands.now.rows / 8) (bands.now.width / 8) bands.now }
    requires bounded { PyramidWithin (2 ^ 27) (2 ^ 27) (2 ^ 27) (bands.now.rows / 8)
        (bands.now.width / 8) (pyramid_in bands.now) }
    ensures { IfOk result (Shows bands.now.rows bands.now.width
        (rebuilt (pyramid_in bands.now) (bands.now.rows / 8) (bands.now.width / 8))) }
{
    let third_bands = LevelBands {
        ll: plane_of(bands, 9),
        hl: plane_of(bands, 7),
        lh: plane_of(bands, 8),
        hh: plane_of(bands, 6),
    };
    let second = join(alloc, bands.width / 4, bands.rows / 4, third_bands)?;
    let second_bands = LevelBands {
        ll: &second,
        hl: plane_of(bands, 4),
        lh: plane_of(bands, 5),
        hh: plane_of(bands, 3),
    };
    let first = join(alloc, bands.width / 2, bands.rows / 2, second_bands)?;
    let first_bands = LevelBands {
        ll: &first,
        hl: plane_of(bands, 1),
        lh: plane_of(bands, 2),
        hh: plane_of(bands, 0),
    };
    join(alloc, bands.width, bands.rows, first_bands)
}

/// The inverse of the bands of an image is the image, and the bands of the inverse are the bands
/// (docs/formats.md, "Levels and padding").
pub const fn round_trips()
    ensures { RoundTrips }
{}
