// The trait of a sink of an image's blocks.
ghost use Rattle.std.specs.Prelude.{None, Some, IfOk};
ghost use Rattle.base_122.specs.Ranges.{IsGeometryInRange, IsWithin, rows_range};
ghost use Rattle.strip_decoder.specs.Sinks.{SinkOf, Begins, IsNext, TakesBlock, IsEndable, EndsImage};

use base_122::Geometry;
use port_122::{Failed, Port};
use std::alloc::{AllocError, Global};

/// A sink of the blocks of one image, which follow in raster order: those of received segments, and the missing ones.
///
/// It may write to a port what it makes of them. A call returns `Failed` only if a write failed.
pub trait BlockSink {
    /// What is known of the blocks so far, and of what was given for them.
    ghost sink: { SinkOf Self };

    /// Returns a sink for an image of this geometry. It takes all of its memory, and fails only if there is too little.
    fn begin(alloc: Global, geometry: &Geometry) -> Result<Self, AllocError>
        requires range { IsGeometryInRange geometry.now }
        requires height { IsWithin rows_range geometry.now.rows }
        ensures { IfOk result (Begins sink geometry.now) };

    /// Takes the next block, which has these 64 numbers.
    fn put<X: Port>(&mut self, port: &mut X, numbers: &[i32]) -> Result<(), Failed>
        requires { IsNext sink (Some numbers.now) self.old }
        ensures { TakesBlock sink result (Some numbers.now) (X.outside port.old) (X.outside port.new) self.old self.new };

    /// Takes the next block, which is missing.
    fn lose<X: Port>(&mut self, port: &mut X) -> Result<(), Failed>
        requires { IsNext sink None self.old }
        ensures { TakesBlock sink result None (X.outside port.old) (X.outside port.new) self.old self.new };

    /// Sets the height of the image to that of this geometry, which equals the earlier geometry in all else. The next block is in it.
    fn end_at(&mut self, geometry: &Geometry)
        requires { IsEndable sink geometry.now self.old }
        ensures { EndsImage sink geometry.now self.old self.new };
}
