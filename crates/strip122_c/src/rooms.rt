// How much room the packets of a setting need, for C.
ghost use Rattle.std.specs.Prelude.{◌≡◌, ◌==◌, if◌then◌else◌};
ghost use Rattle.base_122.specs.Ranges.{rows_range};
ghost use Rattle.encoder_rows.specs.Room.{row_room, end_room};
ghost use Rattle.strip122_c.specs.Rooms.{FindsUsable, RoomIs, bound};
ghost use Rattle.strip122_c.specs.Settings.{setting_in};

use crate::setting::{Strip122Setting, read_setting};
use base_122::{FieldRange, Setting};

/// Returns the number of octets that is enough for the packets that any row gives, or 0 if the setting is refused.
pub(crate) fn row_room(setting: &Strip122Setting) -> u64
    ensures { RoomIs row_room (setting_in setting.now) result }
{
    match find_usable(setting) {
        Some(setting) => encoder_rows::row_room(&setting),
        None => 0,
    }
}

/// Returns the number of octets that is enough for the packets that any end gives, or 0 if the setting is refused.
pub(crate) fn end_room(setting: &Strip122Setting) -> u64
    ensures { RoomIs end_room (setting_in setting.now) result }
{
    match find_usable(setting) {
        Some(setting) => encoder_rows::end_room(&setting),
        None => 0,
    }
}

/// Returns the number of octets that is enough for all packets of an image, or 0 if the setting is refused.
pub(crate) fn bound(setting: &Strip122Setting) -> u64
    ensures { RoomIs bound (setting_in setting.now) result }
{
    match find_usable(setting) {
        Some(setting) => encoder_rows::image_room(&setting, most_rows(&setting)),
        None => 0,
    }
}

// Returns the rows of a setting, or the most that an image has if they are open.
fn most_rows(setting: &Setting) -> u32
    ensures { result ≡ (if setting.now.rows == 0 then rows_range.most else setting.now.rows) }
{
    if setting.rows == 0 {
        FieldRange::ROWS.most as u32
    } else {
        setting.rows
    }
}

// Returns the setting if its fields are in range.
fn find_usable(setting: &Strip122Setting) -> Option<Setting>
    ensures { FindsUsable (setting_in setting.now) result }
{
    let Ok(setting) = read_setting(setting) else {
        return None;
    };
    match setting.check() {
        Ok(()) => Some(setting),
        Err(_) => None,
    }
}
