// The transform of whole images, and its inverse.
ghost use Rattle.std.specs.Prelude.{◌/◌, IfOk};
ghost use Rattle.wave_defs.specs.Within.{PyramidWithin};
ghost use Rattle.wave_plain.specs.Images.{IsWhole, pyramid_in};

use crate::case::{Case, Refusal};
use crate::pictures::{Frame, Picture, picture_in, plane_of};
use crate::shown::{Rows, word_of};
use base_122::Band;
use std::alloc::Global;
use std::fmt;
use wave_plain::{Bands, Plane, forward3, inverse3};

// The bands in the order of the transform's result.
const BANDS: [Band; 10] = [
    Band::Hh1,
    Band::Hl1,
    Band::Lh1,
    Band::Hh2,
    Band::Hl2,
    Band::Lh2,
    Band::Hh3,
    Band::Hl3,
    Band::Lh3,
    Band::Ll3,
];

fn is_zero(plane: &Plane) -> bool {
    plane.cells.iter().all(|cell| *cell == 0)
}

// The rows of each band that isn't 0.
#[derive(Clone, Copy)]
struct ShownBands<'a>(&'a Bands);

impl fmt::Display for ShownBands<'_> {
    fn fmt<W: fmt::Write>(&self, f: &mut fmt::Formatter<W>) -> fmt::Result {
        let mut is_next = false;
        for (band, plane) in BANDS.iter().zip(self.0.planes.iter()) {
            if is_zero(plane) {
                continue;
            }
            let rows = Rows {
                numbers: &plane.cells,
                width: plane.width as usize,
            };
            if is_next {
                write!(f, "; ")?;
            }
            write!(f, "{band:?}{rows}")?;
            is_next = true;
        }
        Ok(())
    }
}

// Returns the bands of an image, padded.
pub(crate) fn bands_of(alloc: Global, picture: &Picture, frame: Frame) -> Result<Bands, Refusal>
    ensures whole { IfOk result (IsWhole (frame.rows / 8) (frame.width / 8)) }
    ensures small { IfOk result (λ b. PyramidWithin 409600 2560000 16000000 (frame.rows / 8) (frame.width / 8) (pyramid_in b)) }
{
    let image = plane_of(alloc, picture, frame)?;
    Ok(forward3(alloc, &image)?)
}

// Returns the image of the bands of an image.
fn image_back(alloc: Global, picture: &Picture, frame: Frame) -> Result<Plane, Refusal> {
    let bands = bands_of(alloc, picture, frame)?;
    Ok(inverse3(alloc, &bands)?)
}

// An image: whether it is the inverse of its bands.
fn bands_back(case: &Case) -> Result<String, Refusal> {
    let picture = picture_in(case);
    let frame = picture.frame()?;
    let image = plane_of(case.alloc, &picture, frame)?;
    let back = image_back(case.alloc, &picture, frame)?;
    let (width, rows) = (back.width, back.rows);
    let found = word_of(back.cells.as_slice() == image.cells.as_slice());
    Ok(format!(in case.alloc; "{width} by {rows}, {found}")?)
}

// An image: the rows of each band that isn't 0, or whether it is the inverse of its bands.
pub(crate) fn answer(case: &Case) -> Result<String, Refusal> {
    if case.subject() == "bands-back" {
        return bands_back(case);
    }
    let picture = picture_in(case);
    let bands = bands_of(case.alloc, &picture, picture.frame()?)?;
    let shown = ShownBands(&bands);
    Ok(format!(in case.alloc; "{shown}")?)
}
