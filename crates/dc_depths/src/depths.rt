// The writer of the block depths.
ghost use Rattle.std.specs.Prelude.{◌≡◌, ◌≤◌, ◌<◌, ◌^◌, map};
ghost use Rattle.item_defs.specs.Items.{raw, text};
ghost use Rattle.bit_pipe.specs.SinkState.{IsReady, Writes};
ghost use Rattle.number_defs.specs.Depths.{depth_bits, depth_items, depth_choices};
ghost use Rattle.gaggle_codes.specs.Options.{choice_of};
ghost use Rattle.dc_depths.specs.Marks.{depths_of, AreDepths};

use base_122::Select;
use bit_pipe::{BitOut, OctetOut, PutFault};
use gaggle_codes::{NumberRange, put_values};

// Returns the number of bits of each depth, if the greatest is at least 2.
pub(crate) fn depth_bits_of(depth_ac: u8) -> u8
    requires low { 2 ≤ depth_ac }
    requires high { depth_ac ≤ 27 }
    ensures is { result ≡ depth_bits depth_ac }
    ensures low { 2 ≤ result }
    ensures high { result ≤ 5 }
    ensures holds { depth_ac < 2 ^ result }
{
    match depth_ac {
        0..=3 => 2,
        4..=7 => 3,
        8..=15 => 4,
        _ => 5,
    }
}

// Puts depths of 0 or 1, one bit each.
fn put_raw<O: OctetOut>(out: &mut BitOut<O>, marks: &[i32]) -> Result<(), PutFault>
    requires open { IsReady O.sink out.old }
    requires depths { AreDepths 1 marks.now }
    ensures { Writes O.sink result out.old out.new (text (map raw (depths_of marks.now))) }
{
    for mark in marks {
        out.put(*mark == 1)?;
    }
    Ok(())
}

/// Puts the block depths, one for each number of `marks`, none of which is above `depth_ac` (docs/formats.md,
/// "DC part and block depths").
pub fn put_depths<O: OctetOut>(
    out: &mut BitOut<O>,
    marks: &[i32],
    depth_ac: u8,
    select: Select,
) -> Result<(), PutFault>
    requires open { IsReady O.sink out.old }
    requires ac { depth_ac ≤ 27 }
    requires depths { AreDepths depth_ac marks.now }
    ensures { Writes O.sink result out.old out.new
        (text (depth_items depth_ac (depths_of marks.now) (depth_choices (choice_of select) depth_ac (depths_of marks.now)))) }
{
    match depth_ac {
        0 => Ok(()),
        1 => put_raw(out, marks),
        _ => {
            let range = NumberRange {
                signed: false,
                bits: depth_bits_of(depth_ac),
            };
            put_values(out, marks, 1, 0, range, select)
        }
    }
}
