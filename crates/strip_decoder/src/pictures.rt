// A picture is a sink of blocks.
use crate::BlockSink;
use base_122::Geometry;
use picture_rows::{Picture, put_block, put_missing};
use port_122::{Failed, Port};
use std::alloc::{AllocError, Global};

/// A sink that gives the rows of a picture, each as soon as the blocks so far determine it.
#[derive(Drop)]
pub struct PictureSink {
    pub picture: Picture,
}

impl BlockSink for PictureSink {
    ghost use Rattle.strip_decoder.specs.PictureSinks.{picture_sink};

    ghost sink = { picture_sink };

    fn begin(alloc: Global, geometry: &Geometry) -> Result<PictureSink, AllocError> {
        let picture = Picture::new(alloc, geometry)?;
        Ok(PictureSink { picture })
    }

    fn put<X: Port>(&mut self, port: &mut X, numbers: &[i32]) -> Result<(), Failed> {
        put_block(port, &mut self.picture, numbers)
    }

    fn lose<X: Port>(&mut self, port: &mut X) -> Result<(), Failed> {
        put_missing(port, &mut self.picture)
    }

    fn end_at(&mut self, geometry: &Geometry) {
        self.picture.end_at(geometry.rows);
    }
}
