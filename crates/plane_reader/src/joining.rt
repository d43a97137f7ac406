// Turns the masks of a segment into the numbers that they represent.

ghost use Rattle.std.specs.Prelude.{◌≡◌, ◌≤◌, ◌<◌, ◌*◌, ◌%◌, ℕ, length, pos};
ghost use lib.ListN.{get_or};
ghost use Rattle.wave_defs.specs.Held.{block_at};
ghost use Rattle.block_masks.specs.Slices.{numbers_in, IsColumn};
ghost use Rattle.plane_reader.specs.Joined.{AreBelow};

use crate::number_lanes::join_block;
use crate::slicing::NUMBERS;
use block_masks::Column;

// Turns the masks of a group into numbers, of which only the first planes have bits. `room` is for a copy of the masks.
fn join_group(part: &mut [i32], planes: u8, room: &mut [i32])
    requires few { planes ≤ 27 }
    requires below { AreBelow planes part.old }
    requires whole { length part.old % 64 ≡ 0 }
    requires room { length part.old ≤ length room.old }
    ensures { part.new ≡ numbers_in part.old }
{
    let cells = &mut room[..part.len()];
    cells.copy_from_slice(part);
    for r in 0..part.len() / 64 {
        let column = Column::of(cells, r);
        join_block(cells, column, planes, &mut part[64 * r..64 * r + 64]);
    }
}

// Turns masks into the 64 numbers of each block that they represent, in their place. Only the first planes have bits. It has a stack frame of
// its own, which is there only while groups are joined.
#[inline(never)]
pub(crate) fn join_numbers(cells: &mut [i32], planes: u8)
    requires few { planes ≤ 27 }
    requires below { AreBelow planes cells.old }
    requires whole { length cells.old % 64 ≡ 0 }
    ensures { cells.new ≡ numbers_in cells.old }
{
    let mut room = [0; NUMBERS];
    let len = cells.len();
    for g in 0..len.div_ceil(NUMBERS) {
        let start = NUMBERS * g;
        join_group(
            &mut cells[start..len.min(start + NUMBERS)],
            planes,
            &mut room,
        );
    }
}
