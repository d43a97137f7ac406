// The call that encodes a whole raster.
ghost use Rattle.std.specs.Prelude.{◌≡◌, IsTrue, Ok};
ghost use Rattle.plane_defs.specs.Codes.{is_book_sound};
ghost use Rattle.strip122_c.specs.Encoding.{EncodesFor, EncodesInto};

use crate::encode::encode_whole;
use crate::encoded::{ENCODED_SIZE, NOTHING, Strip122Encoded, answer_of, report_of};
use crate::encoder::WRONG_SIZE;
use crate::setting::{Strip122Setting, read_setting, refusal_answer};
use base_122::Setting;
use std::alloc::Global;

/// Encodes a raster with the setting that a structure gives, and reports.
pub(crate) fn encode_into(
    alloc: Global,
    setting: &Strip122Setting,
    raster: &[u8],
    room: &mut [u8],
    encoded: &mut Strip122Encoded,
) -> u32
    ensures { EncodesInto setting.now raster.now room.old room.new encoded.old encoded.new result }
{
    if encoded.size != ENCODED_SIZE {
        return WRONG_SIZE;
    }
    match read_setting(setting) {
        Ok(setting) => encode_with(alloc, &setting, raster, room, encoded),
        Err(refusal) => {
            *encoded = NOTHING;
            refusal_answer(refusal)
        }
    }
}

// Encodes a raster with a setting, and reports.
fn encode_with(
    alloc: Global,
    setting: &Setting,
    raster: &[u8],
    room: &mut [u8],
    encoded: &mut Strip122Encoded,
) -> u32
    requires book { IsTrue (is_book_sound setting.now.book) }
    ensures { EncodesFor (Ok setting.now) raster.now room.old room.new encoded.new result }
{
    let ended = encode_whole(alloc, setting, raster, room);
    *encoded = report_of(&ended);
    answer_of(&ended)
}
