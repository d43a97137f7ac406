// What a call makes of packets.

/// What a call makes of the packets of an image.
#[derive(Clone, Copy, Debug, PartialEq, Eq)]
pub enum Product {
    /// The picture, which is a raster (docs/formats.md, "Picture and damage").
    Picture,
    /// The look, a raster with a value for each block (docs/formats.md, "Raster and made image").
    Look,
    /// A line for each rectangle of damaged pixels (docs/formats.md, "Picture and damage").
    Rects,
}
