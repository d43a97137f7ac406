// The encoder of images whose rows arrive one by one, in memory of C's.
ghost use Rattle.std.specs.Prelude.{◌≡◌, IsTrue};
ghost use Rattle.plane_defs.specs.Codes.{is_book_sound};
ghost use Rattle.strip122_c.specs.RowCalls.{Closes, EndsInto, IsReady, MakesInto, Opens, TakesInto};

use crate::encoded::{ENCODED_SIZE, NOTHING, Strip122Encoded};
use crate::row_reports::{end_answer, end_report, new_answer, new_report, row_answer, row_report};
use crate::setting::{Strip122Setting, read_setting, refusal_answer};
use base_122::Setting;
use encoder_rows::Encoder;
use std::alloc::Global;

/// The place of an encoder, or of none.
#[derive(Drop)]
pub struct Strip122Encoder {
    pub encoder: Option<Encoder>,
}

const NO_IMAGE: u32 = 9;

/// The answer to a call whose structure has another size.
pub(crate) const WRONG_SIZE: u32 = 13;

/// Returns a place without an encoder.
pub(crate) fn empty() -> Strip122Encoder
    ensures { Closes result }
{
    Strip122Encoder { encoder: None }
}

/// Makes an encoder of images of this setting, and opens an image. If it is refused, there is none.
pub(crate) fn new(
    place: &mut Strip122Encoder,
    alloc: Global,
    setting: &Strip122Setting,
    report: &mut Strip122Encoded,
) -> u32
    requires none { Closes place.old }
    ensures { MakesInto setting.now place.new report.old report.new result }
{
    if report.size != ENCODED_SIZE {
        return WRONG_SIZE;
    }
    match read_setting(setting) {
        Ok(setting) => make(place, alloc, &setting, report),
        Err(refusal) => {
            *report = NOTHING;
            refusal_answer(refusal)
        }
    }
}

// Makes an encoder of images of a setting with a sound book.
fn make(
    place: &mut Strip122Encoder,
    alloc: Global,
    setting: &Setting,
    report: &mut Strip122Encoded,
) -> u32
    requires none { Closes place.old }
    requires book { IsTrue (is_book_sound setting.now.book) }
    ensures { Opens setting.now place.new.encoder report.new result }
{
    let made = Encoder::new(alloc, setting);
    *report = new_report(&made);
    let answer = new_answer(&made);
    if let Ok(encoder) = made {
        put(place, Some(encoder));
    }
    answer
}

/// Takes a row, and puts the packets of the segments that it settles at the start of the room.
pub(crate) fn row(
    place: &mut Strip122Encoder,
    octets: &[u8],
    room: &mut [u8],
    report: &mut Strip122Encoded,
) -> u32
    requires ready { IsReady place.old }
    ensures { TakesInto octets.now place.old place.new room.old room.new report.old report.new result }
{
    if report.size != ENCODED_SIZE {
        return WRONG_SIZE;
    }
    let Some(encoder) = &mut place.encoder else {
        *report = NOTHING;
        return NO_IMAGE;
    };
    let ended = encoder.row(octets, room);
    *report = row_report(&encoder.progress(), &ended);
    row_answer(&ended)
}

/// Ends the image, puts the packets that are left at the start of the room, and opens the next image.
pub(crate) fn end(
    place: &mut Strip122Encoder,
    image: u16,
    room: &mut [u8],
    report: &mut Strip122Encoded,
) -> u32
    requires ready { IsReady place.old }
    ensures { EndsInto image place.old place.new room.old room.new report.old report.new result }
{
    if report.size != ENCODED_SIZE {
        return WRONG_SIZE;
    }
    let Some(encoder) = &mut place.encoder else {
        *report = NOTHING;
        return NO_IMAGE;
    };
    let before = encoder.progress();
    let ended = encoder.end(image, room);
    *report = end_report(&before, &ended);
    end_answer(&ended)
}

/// Frees what an encoder owns.
pub(crate) fn free(place: &mut Strip122Encoder)
    ensures { Closes place.new }
{
    put(place, None);
}

fn put(place: &mut Strip122Encoder, encoder: Option<Encoder>)
    ensures { place.new.encoder ≡ encoder }
{
    place.encoder = encoder;
}
