// The made image.
ghost use Rattle.std.specs.Prelude.{◌≡◌, ◌<◌, ◌*◌, ◌/◌, ◌%◌, ◌^◌, ◌≤ℤ◌, ◌<ℤ◌, pos};
ghost use Rattle.raster_rows.specs.Pixels.{IsDepth, IsPixel};
ghost use Rattle.raster_rows.specs.Made.{made_value, ramp, noise};

use crate::form::half_range;

/// An image that is made by a formula (docs/formats.md, "Raster and made image").
#[derive(Clone, Copy, Debug, PartialEq, Eq)]
pub struct MadeImage {
    pub width: u32,
    pub rows: u32,
    pub depth: u8,
    pub signed: bool,
    pub seed: u32,
}

/// Returns the pixel of a made image at a row and a column, in the range of its depth (docs/formats.md,
/// "Raster and made image").
#[tactic(auto, using(crate::proofs::Ranges::twice_half))]
pub fn made_pixel(made: &MadeImage, row: u32, column: u32) -> i32
    requires { IsDepth made.now.depth }
    ensures value { result ≡ made_value made.now row column }
    ensures in_range { IsPixel made.now.depth made.now.signed result }
{
    let level = 15 * ramp_at(made.seed, row, column) + noise_at(made.seed, row, column);
    let unsigned = scaled(level, made.depth);
    if made.signed {
        unsigned - half_range(made.depth)
    } else {
        unsigned
    }
}

// Returns a level of 12 bits at this depth.
#[tactic(auto, using(crate::proofs::Ranges::level_shift))]
fn scaled(level: u32, depth: u8) -> i32
    requires depth { IsDepth depth }
    requires level { level < 2 ^ 12 }
    ensures value { result ≡ pos (level * 2 ^ depth / 4096) }
    ensures below { result <ℤ pos (2 ^ depth) }
    ensures most { result ≤ℤ pos (2 ^ 16) }
{
    ((level << depth) / 4096) as i32
}

// Returns the ramp, 0 to 255.
fn ramp_at(seed: u32, row: u32, column: u32) -> u32
    ensures value { result ≡ ramp seed row column }
    ensures most { result < 256 }
{
    let phase = (3 * u64::from(row) + 5 * u64::from(column) + u64::from(seed)) % 512;
    let folded = if phase < 256 { phase } else { 511 - phase };
    folded as u32
}

// Returns the noise, 0 to 255: the upper octet of a sum of 32 bits.
fn noise_at(seed: u32, row: u32, column: u32) -> u32
    ensures value { result ≡ noise seed row column }
    ensures most { result < 256 }
{
    let sum = 1664525 * u64::from(row)
        + 22695477 * u64::from(column)
        + 1013904223 * u64::from(seed);
    (sum % (1 << 32) / (1 << 24)) as u32
}
