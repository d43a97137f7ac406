// How much room the packets of a call need.
ghost use Rattle.std.specs.Prelude.{◌≡◌, ◌≤◌, ◌<◌, ◌^◌};
ghost use Rattle.base_122.specs.Ranges.{IsInRange, IsWithin, rows_range};
ghost use Rattle.encoder_rows.specs.Room.{text_room, segment_room, reached, row_need, end_need, row_room, end_room, image_room};

use base_122::{FieldRange, Setting};

// Returns the octets that a coded segment has at most.
fn text_room(setting: &Setting) -> u64
    requires in_range { IsInRange setting.now }
    ensures value { result ≡ text_room setting.now }
    ensures few { result < 2 ^ 32 }
{
    if setting.limit != 0 {
        return u64::from(setting.limit);
    }
    if setting.total != 0 {
        return setting.total.min(FieldRange::LIMIT.most);
    }
    let gaggles = (u64::from(setting.segment) + 15) / 16;
    24 + 18_343 * gaggles
}

// Returns the octets that the packets of a coded segment have at most.
fn segment_room(setting: &Setting) -> u64
    requires in_range { IsInRange setting.now }
    ensures value { result ≡ segment_room setting.now }
    ensures few { result < 2 ^ 33 }
{
    let text = text_room(setting);
    let part = u64::from(setting.packet) - 24;
    text + 30 * ((text + part - 1) / part)
}

// Returns the number of segments that the first rows reach.
fn reached(setting: &Setting, rows: u32) -> u64
    requires in_range { IsInRange setting.now }
    ensures value { result ≡ reached setting.now rows }
    ensures few { result < 2 ^ 48 }
{
    let columns = u64::from(setting.width.div_ceil(8));
    columns * u64::from(rows.saturating_sub(21) / 8) / u64::from(setting.segment)
}

/// Returns the number of octets that is enough for the packets that the next row gives after this number of rows. It is 0 for most rows:
/// only each eighth settles segments, from row 29 on.
pub(crate) fn row_need(setting: &Setting, rows: u32) -> u64
    requires in_range { IsInRange setting.now }
    requires rows { rows < 262144 }
    ensures { result ≡ row_need setting.now rows }
{
    let segments = reached(setting, rows + 1) - reached(setting, rows);
    segments * segment_room(setting)
}

/// Returns the number of octets that is enough for the packets that the end gives after this number of rows.
pub(crate) fn end_need(setting: &Setting, rows: u32) -> u64
    requires in_range { IsInRange setting.now }
    requires rows { IsWithin rows_range rows }
    ensures { result ≡ end_need setting.now rows }
{
    let segments = u64::from(setting.geometry_for(rows).segments()) - reached(setting, rows);
    segments * segment_room(setting)
}

/// Returns the number of octets that is enough for the packets that any row of an image gives. With a limit, a row that ends this number of
/// segments with full texts gives exactly so many; without one it is a bound on what any blocks take.
pub fn row_room(setting: &Setting) -> u64
    requires in_range { IsInRange setting.now }
    ensures value { result ≡ row_room setting.now }
    ensures few { result < 2 ^ 48 }
{
    let columns = u64::from(setting.width.div_ceil(8));
    columns.div_ceil(u64::from(setting.segment)) * segment_room(setting)
}

/// Returns the number of octets that is enough for the packets that any end of an image gives, and for those of any row.
pub fn end_room(setting: &Setting) -> u64
    requires in_range { IsInRange setting.now }
    ensures value { result ≡ end_room setting.now }
    ensures few { result < 2 ^ 54 }
{
    let columns = u64::from(setting.width.div_ceil(8));
    ((4 * columns).div_ceil(u64::from(setting.segment)) + 1) * segment_room(setting)
}

/// Returns the number of octets that is enough for all packets of an image with this number of rows (`outputs_fit`).
pub fn image_room(setting: &Setting, rows: u32) -> u64
    requires in_range { IsInRange setting.now }
    requires rows { IsWithin rows_range rows }
    ensures { result ≡ image_room setting.now rows }
{
    u64::from(setting.geometry_for(rows).segments()) * segment_room(setting)
}
