// Ranges of damaged rows for C.
ghost use Rattle.std.specs.Prelude.{◌≡◌, ◌≤◌, length, IfOk, slice_set, nat_lt, if◌then◌else◌};
ghost use Rattle.strip122_c.specs.Ranges.{range_of, ranges_of, ranges_in, put_over};

use crate::decode::{DecodeRefusal, Made};
use damage_rows::{Damage, RowRange};

/// The rows from `first` to `last`, both included.
#[repr(C)]
#[derive(Clone, Copy, Debug, PartialEq, Eq)]
pub struct Strip122Range {
    pub first: u32,
    pub last: u32,
}

const _: () = prove!(size_of::<Strip122Range>() == 8);

/// Puts the ranges of a picture's damaged rows into the places, at most one into each, and returns the number of its ranges.
pub(crate) fn put_damage(ended: &Result<Made, DecodeRefusal>, places: &mut [Strip122Range]) -> u64
    requires { IfOk ended.now (λ made. made.done.damage.rows ≤ 262144) }
    ensures places { places.new ≡ put_over (ranges_of ended.now) places.old }
    ensures count { result ≡ length (ranges_of ended.now) }
{
    match ended {
        Ok(made) => put_ranges(&made.done.damage, places),
        Err(_) => 0,
    }
}

// Puts all ranges of damaged rows, one after another.
fn put_ranges(damage: &Damage, places: &mut [Strip122Range]) -> u64
    requires { damage.now.rows ≤ 262144 }
    ensures places { places.new ≡ put_over (ranges_in damage.now) places.old }
    ensures count { result ≡ length (ranges_in damage.now) }
{
    let mut count = 0;
    let mut from = 0;
    while let Some(range) = damage.next_range(from) {
        put_range(places, count, range);
        count += 1;
        from = range.last + 1;
    }
    count as u64
}

// Puts a range into the place of an index, if there is one.
fn put_range(places: &mut [Strip122Range], index: usize, range: RowRange)
    ensures { places.new ≡ (if nat_lt index (length places.old) then slice_set places.old index (range_of range) else places.old) }
{
    if index < places.len() {
        places[index] = Strip122Range {
            first: range.first,
            last: range.last,
        };
    }
}
