// The size of what is made of packets, from their headers: no text is decoded.
ghost use Rattle.std.specs.Prelude.{◌≡◌, ◌≢◌, ◌≤◌, ◌<◌, ◌*◌, ◌/◌, ◌^◌, Some};
ghost use Rattle.base_122.specs.Ranges.{IsGeometryInRange, rows_range};
ghost use Rattle.base_122.specs.Sizes.{block_count};
ghost use Rattle.raster_rows.specs.Pixels.{pixel_size};
ghost use Rattle.stream_defs.specs.Begun.{height, block_rows, rows_reached};
ghost use Rattle.strip122_c.specs.Lent.{outside_of};
ghost use Rattle.strip122_c.specs.declared.product.Product.TheVariants.{Rects};
ghost use Rattle.strip122_c.specs.Measuring.{FindsHead, FindsSize, IsMeasured, IsMeasurable};
ghost use Rattle.strip122_c.specs.Products.{product_length};
ghost use Rattle.packet_assembly.specs.Assembling.{unread_assembly};

use crate::decode::DecodeRefusal;
use crate::port::LentPort;
use crate::product::Product;
use base_122::{DecodeWish, Geometry};
use bit_pipe::InFault;
use packet_assembly::{Assembly, SegmentStart};
use std::alloc::Global;
use strip_decoder::least_pixels;

/// What the headers of an image's packets report of its size.
#[derive(Clone, Copy, Debug, PartialEq, Eq)]
pub struct Measured {
    /// The geometry, whose rows are 0 if no header reports the height.
    pub geometry: Geometry,
    /// The first block after the segment that was found last.
    pub ended: u64,
}

/// Reads the headers of packets: up to the first packet that is kept if it reports the height, otherwise to the end. Refuses what
/// `decode_packets` refuses, except for want of memory for an image.
pub(crate) fn measure(
    alloc: Global,
    wish: &DecodeWish,
    packets: &[u8],
) -> Result<Measured, DecodeRefusal>
    ensures { IsMeasured wish.now packets.now result }
{
    let Ok(mut port) = LentPort::new(alloc, packets, Some(0)) else {
        return Err(DecodeRefusal::Memory);
    };
    let Ok(mut assembly) = Assembly::new(alloc, wish.apid, wish.octets) else {
        return Err(DecodeRefusal::Memory);
    };
    find_size(&mut port, &mut assembly, wish)
}

// Reads the headers of the packets that a port has.
fn find_size(
    port: &mut LentPort,
    assembly: &mut Assembly,
    wish: &DecodeWish,
) -> Result<Measured, DecodeRefusal>
    requires unread { assembly.old ≡ unread_assembly wish.now.apid wish.now.octets }
    ensures { FindsSize wish.now (outside_of port.old) result }
{
    let mut found = match next_head(port, assembly, wish.pixels) {
        Ok(Some(first)) => first,
        Ok(None) => return Err(DecodeRefusal::NoSegment),
        Err(refusal) => return Err(refusal),
    };
    if found.geometry.rows != 0 {
        return Ok(found);
    }
    'heads: loop {
        match next_head(port, assembly, wish.pixels) {
            Ok(Some(next)) => found = next,
            Ok(None) => return Ok(found),
            Err(refusal) => return Err(refusal),
        }
    }
}

// Advances to the next segment, or to the end. Returns what its header reports, unless these are too many pixels.
fn next_head(
    port: &mut LentPort,
    assembly: &mut Assembly,
    most: u64,
) -> Result<Option<Measured>, DecodeRefusal>
    ensures { FindsHead most (outside_of port.old) (outside_of port.new) assembly.old assembly.new result }
{
    let start = match assembly.next_segment(port) {
        Ok(Some(start)) => start,
        Ok(None) => return Ok(None),
        Err(InFault::LongInput) => return Err(DecodeRefusal::LongInput),
        Err(_) => unreachable!(),
    };
    let Some(geometry) = assembly.geometry() else {
        return Err(DecodeRefusal::NoSegment);
    };
    let ended = u64::from(start.ancillary.first) + u64::from(start.head.blocks);
    let pixels = least_pixels(&geometry, ended);
    if pixels > most {
        return Err(DecodeRefusal::TooManyPixels { pixels });
    }
    Ok(Some(Measured { geometry, ended }))
}

// Returns the number of whole block rows before a block.
fn begun(measured: &Measured) -> u32
    requires { IsMeasurable measured.now }
    ensures { result ≡ measured.now.ended / block_count measured.now.geometry.width }
{
    (measured.ended / u64::from(measured.geometry.width.div_ceil(8))) as u32
}

/// Returns the number of rows of the picture.
pub(crate) fn rows_of(measured: &Measured) -> u32
    requires { IsMeasurable measured.now }
    ensures { result ≡ height measured.now.geometry (measured.now.ended / block_count measured.now.geometry.width) }
{
    if measured.geometry.rows != 0 {
        return measured.geometry.rows;
    }
    (8 * begun(measured)).saturating_sub(21)
}

// Returns the number of rows of the look.
fn block_rows_of(measured: &Measured) -> u32
    requires { IsMeasurable measured.now }
    ensures { result ≡ block_rows measured.now.geometry (measured.now.ended / block_count measured.now.geometry.width) }
{
    if measured.geometry.rows != 0 {
        return measured.geometry.rows.div_ceil(8);
    }
    begun(measured)
}

/// Returns the number of octets of a picture or a look.
pub(crate) fn product_length(product: Product, measured: &Measured) -> usize
    requires raster { product ≢ Rects }
    requires measurable { IsMeasurable measured.now }
    ensures { result ≡ product_length product measured.now.geometry (measured.now.ended / block_count measured.now.geometry.width) }
{
    let width = measured.geometry.width;
    match product {
        Product::Picture => raster_size(&measured.geometry, rows_of(measured), width),
        Product::Look => raster_size(
            &measured.geometry,
            block_rows_of(measured),
            width.div_ceil(8),
        ),
        Product::Rects => unreachable!(),
    }
}

// Returns the number of octets of a raster of this size (docs/formats.md, "Raster and made image").
fn raster_size(geometry: &Geometry, rows: u32, width: u32) -> usize
    requires rows { rows ≤ rows_range.most }
    requires width { width ≤ 1048575 }
    ensures { result ≡ rows * (width * pixel_size geometry.now.depth) }
{
    let size = if geometry.depth <= 8 { 1 } else { 2 };
    rows as usize * (width as usize * size)
}
