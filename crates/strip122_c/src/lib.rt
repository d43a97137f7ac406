//! The coder for C: the encoder row by row, in memory that a caller lends from call to call, and whole images, a raster to its packets and
//! back (docs/c.md; c/strip122.h has its declarations for C).
//!
//! Layer: the program and the library for C. It uses `base_122`, `port_122`, `raster_rows`, `plane_defs`, `segment_defs`, `packet_defs`,
//! `stream_defs` and 9 more.
#![tactic(auto)]

mod decode;
mod decoded;
mod encode;
mod encoded;
mod encoder;
mod info;
mod laws;
mod listed;
mod measure;
mod port;
mod product;
mod ranges;
mod reading;
mod rooms;
mod row_reports;
mod setting;
mod whole;
mod wish;

ghost use Rattle.std.specs.Prelude.{◌≡◌};
ghost use Rattle.std.specs.Borrow.{full_share, sem};
ghost use Rattle.std.specs.Ptr.{lies_at, room_at};
ghost use Rattle.encoder_rows.specs.Room.{row_room, end_room};
ghost use Rattle.strip122_c.specs.Decoding.{DecodesInto};
ghost use Rattle.strip122_c.specs.Encoding.{EncodesInto};
ghost use Rattle.strip122_c.specs.Listing.{ListsInto};
ghost use Rattle.strip122_c.specs.Kept.{kept};
ghost use Rattle.strip122_c.specs.Rooms.{RoomIs, bound};
ghost use Rattle.strip122_c.specs.RowCalls.{Closes, EndsInto, IsReady, MakesInto, TakesInto};
ghost use Rattle.strip122_c.specs.Settings.{setting_in};
ghost use Rattle.strip122_c.specs.contracts.encoder.Strip122Encoder.{the_row};
ghost use Rattle.strip122_c.specs.declared.product.Product.TheVariants.{Picture, Look, Rects};
ghost use Rattle.strip122_c.specs.declared.encoder.Strip122Encoder.{Strip122Encoder};

use decode::make_whole;
pub use decoded::Strip122Decoded;
pub use encoded::Strip122Encoded;
pub use encoder::Strip122Encoder;
use info::list_into;
pub use laws::{causes_exclude, rasters_are_returned};
pub use listed::Strip122Listed;
use product::Product;
pub use ranges::Strip122Range;
use reading::{report_into, wish_for};
pub use setting::Strip122Setting;
use std::alloc::Global;
use whole::encode_into;
pub use wish::Strip122Wish;

// The room that c/strip122.h provides for an encoder, and its alignment.
const _: () = prove!(size_of::<Strip122Encoder>() <= 4096);

const _: () = prove!(align_of::<Strip122Encoder>() == 8);

/// Returns the version of the library: 10,000 times its first number, 100 times its second, and its third.
#[unsafe(no_mangle)]
pub extern "C" fn strip122_version() -> u32
    ensures { result ≡ 200 }
{
    200
}

/// Makes an encoder of images of a setting in the memory at `at`, and opens the first image. It takes all memory that its images need. If
/// the answer is not 0, there is no encoder, and the memory owns nothing.
#[unsafe(no_mangle)]
pub unsafe extern "C" fn strip122_encoder_new(
    at: *mut u8,
    alloc: Global,
    setting: &Strip122Setting,
    report: &mut Strip122Encoded,
) -> u32
    requires* { sem 𝓛 (room_at the_row at) }
    ensures* { sem 𝓛 (kept at (λ new. MakesInto setting.now new report.old report.new result)) }
{
    at.cast::<Strip122Encoder>().write(encoder::empty());
    encoder::new(&mut *at.cast::<Strip122Encoder>(), alloc, setting, report)
}

/// Takes the octets of a row, as a raster has them. If the answer is 0, the room begins with the packets of the segments that the row
/// settles; otherwise the encoder and the room are as they were.
#[unsafe(no_mangle)]
pub unsafe extern "C" fn strip122_encoder_row(
    at: *mut u8,
    octets: &[u8],
    room: &mut [u8],
    report: &mut Strip122Encoded,
) -> u32
    ghost place: { Strip122Encoder }
    requires* memory { sem 𝓛 (lies_at the_row full_share at place) }
    requires ready { IsReady place }
    ensures* { sem 𝓛 (kept at (λ new. TakesInto octets.now place new room.old room.new report.old report.new result)) }
{
    encoder::row(&mut *at.cast::<Strip122Encoder>(), octets, room, report)
}

/// Ends an image. If the answer is 0, the room begins with the packets that were left, and the image with this number is open, of the same
/// setting; otherwise the encoder and the room are as they were.
#[unsafe(no_mangle)]
pub unsafe extern "C" fn strip122_encoder_end(
    at: *mut u8,
    image: u16,
    room: &mut [u8],
    report: &mut Strip122Encoded,
) -> u32
    ghost place: { Strip122Encoder }
    requires* memory { sem 𝓛 (lies_at the_row full_share at place) }
    requires ready { IsReady place }
    ensures* { sem 𝓛 (kept at (λ new. EndsInto image place new room.old room.new report.old report.new result)) }
{
    encoder::end(&mut *at.cast::<Strip122Encoder>(), image, room, report)
}

/// Frees what the encoder at `at` owns, if there is one. There is none then.
#[unsafe(no_mangle)]
pub unsafe extern "C" fn strip122_encoder_free(at: *mut u8)
    ghost place: { Strip122Encoder }
    requires* { sem 𝓛 (lies_at the_row full_share at place) }
    ensures* { sem 𝓛 (kept at Closes) }
{
    encoder::free(&mut *at.cast::<Strip122Encoder>())
}

/// Returns the number of octets that is enough for the packets that any row gives (`encoder_rows::row_room`), or 0 if the setting is
/// refused.
#[unsafe(no_mangle)]
pub extern "C" fn strip122_row_room(setting: &Strip122Setting) -> u64
    ensures { RoomIs row_room (setting_in setting.now) result }
{
    rooms::row_room(setting)
}

/// Returns the number of octets that is enough for the packets that any end gives, and for those of any row (`encoder_rows::end_room`), or
/// 0 if the setting is refused.
#[unsafe(no_mangle)]
pub extern "C" fn strip122_end_room(setting: &Strip122Setting) -> u64
    ensures { RoomIs end_room (setting_in setting.now) result }
{
    rooms::end_room(setting)
}

/// Returns the number of octets that is enough for all packets of an image (`encoder_rows::image_room`), of 262,144 rows if the setting
/// leaves them open, or 0 if the setting is refused.
#[unsafe(no_mangle)]
pub extern "C" fn strip122_bound(setting: &Strip122Setting) -> u64
    ensures { RoomIs bound (setting_in setting.now) result }
{
    rooms::bound(setting)
}

/// Encodes a raster. If the answer is 0, the room begins with all of its packets; `encoded` reports what was done, or why it was not.
#[unsafe(no_mangle)]
pub extern "C" fn strip122_encode(
    alloc: Global,
    setting: &Strip122Setting,
    raster: &[u8],
    room: &mut [u8],
    encoded: &mut Strip122Encoded,
) -> u32
    ensures { EncodesInto setting.now raster.now room.old room.new encoded.old encoded.new result }
{
    encode_into(alloc, setting, raster, room, encoded)
}

/// Decodes the packets of the wish's APID. If the answer is 0 or 1, the room begins with their picture, and
/// `ranges` with the first ranges of damaged rows, one for each place; `decoded` reports what was found, or what room is needed.
#[unsafe(no_mangle)]
pub extern "C" fn strip122_decode(
    alloc: Global,
    wish: &Strip122Wish,
    packets: &[u8],
    room: &mut [u8],
    ranges: &mut [Strip122Range],
    decoded: &mut Strip122Decoded,
) -> u32
    ensures { DecodesInto Picture wish.now packets.now room.old room.new ranges.old ranges.new decoded.old decoded.new result }
{
    let wish = match wish_for(wish, decoded) {
        Ok(wish) => wish,
        Err(answer) => return answer,
    };
    let ended = make_whole(alloc, Product::Picture, &wish, packets, room);
    report_into(&ended, ranges, decoded)
}

/// Makes the look at the packets of the wish's APID, as the command `look` does. If the answer is 0 or 1, the room begins with it; the rest is
/// as with `strip122_decode`.
#[unsafe(no_mangle)]
pub extern "C" fn strip122_look(
    alloc: Global,
    wish: &Strip122Wish,
    packets: &[u8],
    room: &mut [u8],
    ranges: &mut [Strip122Range],
    decoded: &mut Strip122Decoded,
) -> u32
    ensures { DecodesInto Look wish.now packets.now room.old room.new ranges.old ranges.new decoded.old decoded.new result }
{
    let wish = match wish_for(wish, decoded) {
        Ok(wish) => wish,
        Err(answer) => return answer,
    };
    let ended = make_whole(alloc, Product::Look, &wish, packets, room);
    report_into(&ended, ranges, decoded)
}

/// Lists the rectangles of pixels that losses damage, as the command `rects` does. If the answer is 0 or 1, the room begins with their lines;
/// the rest is as with `strip122_decode`.
#[unsafe(no_mangle)]
pub extern "C" fn strip122_rects(
    alloc: Global,
    wish: &Strip122Wish,
    packets: &[u8],
    room: &mut [u8],
    ranges: &mut [Strip122Range],
    decoded: &mut Strip122Decoded,
) -> u32
    ensures { DecodesInto Rects wish.now packets.now room.old room.new ranges.old ranges.new decoded.old decoded.new result }
{
    let wish = match wish_for(wish, decoded) {
        Ok(wish) => wish,
        Err(answer) => return answer,
    };
    let ended = make_whole(alloc, Product::Rects, &wish, packets, room);
    report_into(&ended, ranges, decoded)
}

/// Lists the images of packets, as the command `info` does: those of the wish's APID, or of each APID. If the answer is 0 or 1, the room begins
/// with their lines; `listed` reports what was found, or what room is needed.
#[unsafe(no_mangle)]
pub extern "C" fn strip122_info(
    alloc: Global,
    wish: &Strip122Wish,
    packets: &[u8],
    room: &mut [u8],
    listed: &mut Strip122Listed,
) -> u32
    ensures { ListsInto wish.now packets.now room.old room.new listed.old listed.new result }
{
    list_into(alloc, wish, packets, room, listed)
}
