//! Arrays of i32, in which the forward transform computes.

ghost use Rattle.std.specs.Prelude.{◌≡◌, ℕ, ◌+◌, ◌*◌, ◌-◌, ◌/◌, ◌^◌, ◌<◌, ◌≤◌, length, IfOk, vec_len};
ghost use Rattle.wave_defs.specs.Within.{AllWithin, EachWithin};
ghost use Rattle.wave_defs.specs.Held.{Agrees, SameWithin, signal};

use crate::Plane;
use std::alloc::{AllocError, Global};

/// Rows of samples, one after the other.
#[derive(Drop)]
pub struct Samples {
    pub width: u32,
    pub rows: u32,
    pub cells: Vec<i32>,
    ghost covers: { vec_len cells ≡ rows * width },
}

/// Copies numbers that fit 32 bits.
fn narrow(from: &[i64], to: &mut [i32])
    requires same { length to.old ≡ length from.now }
    requires bounded { AllWithin (2 ^ 24) (length from.now) (signal from.now) }
    ensures { Agrees (length from.now) (signal to.new) (signal from.now) }
{
    for j in 0..from.len() {
        to[j] = from[j] as i32;
    }
}

/// Copies numbers to 64 bits.
fn widen(from: &[i32], to: &mut [i64])
    requires same { length to.old ≡ length from.now }
    ensures { Agrees (length from.now) (signal to.new) (signal from.now) }
{
    for j in 0..from.len() {
        to[j] = from[j] as i64;
    }
}

impl Samples {
    ghost use Rattle.std.specs.Prelude.{◌≡◌, ℕ, ◌+◌, ◌*◌, ◌-◌, ◌/◌, ◌^◌, ◌<◌, ◌≤◌, length, IfOk, vec_len};
    ghost use Rattle.wave_defs.specs.Within.{EachWithin};
    ghost use Rattle.wave_plain.specs.Images.{image_of, zeros, Shows};
    ghost use Rattle.wave_plain.specs.ShownSamples.{samples_of, ShowsSamples};

    /// Returns samples of zeros.
    pub fn zeros(alloc: Global, width: u32, rows: u32) -> Result<Samples, AllocError>
        ensures { IfOk result (ShowsSamples rows width zeros) }
    {
        let cells = vec![in alloc; 0; rows as usize * width as usize]?;
        Ok(Samples { width, rows, cells })
    }

    /// Returns the cells of a plane.
    pub fn narrowed(alloc: Global, plane: &Plane) -> Result<Samples, AllocError>
        requires whole { vec_len plane.now.cells ≡ plane.now.rows * plane.now.width }
        requires bounded { EachWithin (2 ^ 24) plane.now.rows plane.now.width (image_of plane.now) }
        ensures { IfOk result (ShowsSamples plane.now.rows plane.now.width (image_of plane.now)) }
    {
        let mut samples = Samples::zeros(alloc, plane.width, plane.rows)?;
        narrow(&plane.cells, &mut samples.cells);
        Ok(samples)
    }

    /// Returns the samples as a plane.
    pub fn widened(&self, alloc: Global) -> Result<Plane, AllocError>
        ensures { IfOk result (Shows self.now.rows self.now.width (samples_of self.now)) }
    {
        let mut cells = vec![in alloc; 0; self.rows as usize * self.width as usize]?;
        widen(&self.cells, &mut cells);
        Ok(Plane {
            width: self.width,
            rows: self.rows,
            cells,
        })
    }
}
