// The reader of the planes of a segment, from the top down.

ghost use Rattle.std.specs.Prelude.{◌≡◌, ◌≤◌, ◌<◌, ◌+◌, ◌*◌, ◌%◌, ℕ, length, true, false, Ok};
ghost use Rattle.bit_pipe.specs.declared.fault.Part.TheVariants.{Whole};
ghost use Rattle.bit_pipe.specs.SourceState.{source_state, IsIn};
ghost use Rattle.block_masks.specs.Slices.{numbers_in};
ghost use Rattle.bit_pipe.specs.ScriptSources.{ReadsAs, by_part};
ghost use Rattle.plane_defs.specs.Marks.{depths_of};
ghost use Rattle.plane_defs.specs.Lows.{Given, planes_given};
ghost use Rattle.plane_defs.specs.Restored.{numbers_for};
ghost use Rattle.item_defs.specs.Scripts.{around};
ghost use Rattle.plane_reader.specs.Above.{AreReady, AwaitDcs, HasNoAcs};
ghost use Rattle.plane_reader.specs.Joined.{AreBelow};
ghost use Rattle.plane_reader.specs.Planes.{stages_of};
ghost use Rattle.plane_reader.specs.Restoring.{AwaitLows, HaveLows, IsReached, TakesPlanes};
ghost use Rattle.wave_defs.specs.Held.{blocks_in};

use crate::gaggles::Terms;
use crate::joining::join_numbers;
use crate::places::PlaceTables;
use crate::plane::take_plane;
use crate::restoring::{restore_dcs, restore_masks};
use crate::slicing::slice_numbers;
use base_122::Weights;
use bit_pipe::{BitIn, OctetIn, Part, TextFault};
use block_masks::{CodedPlane, PlanePlan};

/// The planes of a segment that are sent (docs/formats.md, "Stops, cut and fill").
#[derive(Clone, Copy, Debug, PartialEq, Eq)]
pub struct SentPlanes {
    /// The shifts of the subbands.
    pub weights: Weights,
    /// The number of low bits of the DC numbers that the DC part left out.
    pub q: u8,
    /// The number of planes, at most 27: they are those below the plane of this number.
    pub below: u8,
    /// The lowest plane that is sent. None is sent if it is not one of the planes.
    pub stop: u8,
    /// The last stage of the lowest plane that is sent, 0 to 4. The others are sent up to stage 4.
    pub last: u8,
    /// Whether the numbers are restored (docs/formats.md, "Restored numbers").
    pub restore: bool,
}

// The last stage of a plane.
const LAST: u8 = 4;

// Returns the last stage of a plane that is sent.
fn last_of(sent: &SentPlanes, plane: u8) -> u8
    requires above { sent.now.stop ≤ plane }
    requires last { sent.now.last ≤ 4 }
    ensures stages { result + 1 ≡ stages_of sent.now plane }
    ensures few { result ≤ 4 }
{
    if plane > sent.stop { LAST } else { sent.last }
}

// Returns the plan of a plane.
fn plan_of(sent: &SentPlanes, plane: u8) -> PlanePlan
    ensures plane { result.plane ≡ plane }
    ensures q { result.q ≡ sent.now.q }
    ensures weights { result.weights ≡ sent.now.weights }
{
    PlanePlan {
        plane,
        q: sent.q,
        weights: sent.weights,
        last: LAST,
    }
}

// Returns a plane as it is for all blocks.
fn plane_of(sent: &SentPlanes, plane: u8) -> CodedPlane
    requires { plane < 27 }
    ensures plane { result.plane ≡ plane }
    ensures q { result.q ≡ sent.now.q }
    ensures weights { result.weights ≡ sent.now.weights }
{
    CodedPlane::new(&plan_of(sent, plane))
}

// How far planes were read: whether the text has all of them, and the last plane that was begun.
#[derive(Clone, Copy)]
struct Taken {
    read: Result<Part, TextFault>,
    plane: u8,
}

// Returns whether a text has all items of a plane.
#[inline]
fn is_whole(read: Result<Part, TextFault>) -> bool
    ensures whole { result ≡ true → read ≡ Ok Whole }
    ensures part { result ≡ false → read ≡ Ok Whole → ⊥ }
{
    matches!(read, Ok(Part::Whole))
}

// Reads the planes that are sent, of which there is one, into masks in the place of the numbers.
fn take_sent<I: OctetIn>(
    input: &mut BitIn<I>,
    sent: &SentPlanes,
    tables: &PlaceTables,
    cells: &mut [i32],
    marks: &mut [i32],
) -> Taken
    requires open { IsIn (source_state input.old) }
    requires below { sent.now.below ≤ 27 }
    requires some { sent.now.stop < sent.now.below }
    requires last { sent.now.last ≤ 4 }
    requires whole { length cells.old ≡ 64 * length marks.old }
    requires ready { AreReady sent.now.below cells.old }
    requires acs { HasNoAcs (numbers_in cells.old) }
    requires dcs { AwaitDcs sent.now.below sent.now.q (blocks_in (numbers_in cells.old)) }
    requires empty { AreBelow sent.now.below cells.old }
    ensures planes { (g : Given) → g.numbers ≡ blocks_in (numbers_in cells.old) → AwaitLows sent.now g →
        TakesPlanes I.source sent.now.weights.shifts sent.now.q result.plane (planes_given tables.now.words.book sent.now.weights.shifts sent.now.q
        (depths_of marks.old) (stages_of sent.now) sent.now.below g) result.read cells.new (source_state input.old) (source_state input.new) }
    ensures reached { (r : ℕ) → 64 * r < length cells.new → IsReached sent.now.q result.plane r cells.new }
    ensures plane { result.plane < sent.now.below }
    ensures empty { AreBelow sent.now.below cells.new }
    ensures depths { depths_of marks.new ≡ depths_of marks.old }
    ensures size { length cells.new ≡ length cells.old }
    ensures is_in { IsIn (source_state input.new) }
{
    for n in 0..sent.below - sent.stop {
        let plane = sent.below - 1 - n;
        let plan = plane_of(sent, plane);
        let terms = Terms {
            plan: &plan,
            tables,
        };
        let read = take_plane(input, &terms, last_of(sent, plane), cells, marks);
        if !is_whole(read) {
            return Taken { read, plane };
        }
    }
    Taken {
        read: Ok(Part::Whole),
        plane: sent.stop,
    }
}

// Restores the numbers of blocks of which no plane was read, if that is asked for.
fn restore_unread(blocks: &mut [i32], sent: &SentPlanes)
    requires whole { length blocks.old % 64 ≡ 0 }
    requires below { sent.now.below ≤ 27 }
    requires dcs { AwaitDcs sent.now.below sent.now.q (blocks_in blocks.old) }
    ensures numbers { (g : Given) → g.numbers ≡ blocks_in blocks.old → AwaitLows sent.now g →
        numbers_for sent.now.restore sent.now.weights.shifts g ≡ blocks_in blocks.new }
    ensures size { length blocks.new ≡ length blocks.old }
{
    if sent.restore {
        restore_dcs(blocks, &plan_of(sent, sent.below), sent.q.min(sent.below));
    }
}

// Restores the numbers that the masks represent after this plane, the last that was begun, if that is asked for.
fn restore_read(cells: &mut [i32], sent: &SentPlanes, plane: u8)
    requires whole { length cells.old % 64 ≡ 0 }
    requires low { plane < 27 }
    requires reached { (r : ℕ) → 64 * r < length cells.old → IsReached sent.now.q plane r cells.old }
    ensures numbers { (g : Given) → HaveLows sent.now.weights.shifts sent.now.q plane cells.old g →
        numbers_for sent.now.restore sent.now.weights.shifts g ≡ blocks_in (numbers_in cells.new) }
    ensures below { (planes : ℕ) → plane < planes → AreBelow planes cells.old → AreBelow planes cells.new }
    ensures size { length cells.new ≡ length cells.old }
{
    if sent.restore {
        restore_masks(cells, plan_of(sent, plane));
    }
}

/// Reads the planes of a segment from the top down (docs/formats.md, "Bit planes" and "Stops, cut and fill"). Returns `Whole` if the text
/// has all items, and `Ended` if the input or the bound ends before.
///
/// `blocks` has 64 numbers for each block: the AC numbers are 0, and a DC has no bit below the planes or below the q low bits that the DC
/// part left out, whichever is less. The bits and signs that were read are put into them, whatever the call returns, and then the numbers
/// are restored if `sent.restore` is set. Meanwhile masks are in the place of the numbers, so the call takes no memory.
///
/// `marks` has one number for each block, its state, whose lowest five bits are the block's depth. The other bits are free, and the call
/// overwrites them.
///
/// # Errors
///
/// `BadOption` at the first identifier that has no option, `FalseFlag` at the first word that leaves a set without a
/// significant member, and the faults of the input. The numbers also have what was read before.
pub fn take_planes<I: OctetIn>(
    input: &mut BitIn<I>,
    sent: &SentPlanes,
    tables: &PlaceTables,
    blocks: &mut [i32],
    marks: &mut [i32],
) -> Result<Part, TextFault>
    requires open { IsIn (source_state input.old) }
    requires below { sent.now.below ≤ 27 }
    requires last { sent.now.last ≤ 4 }
    requires whole { length blocks.old ≡ 64 * length marks.old }
    requires acs { HasNoAcs blocks.old }
    requires dcs { AwaitDcs sent.now.below sent.now.q (blocks_in blocks.old) }
    ensures planes { (stages : ℕ → ℕ) → ((plane : ℕ) → stages plane ≡ stages_of sent.now plane) →
        (g : Given) → g.numbers ≡ blocks_in blocks.old → AwaitLows sent.now g →
        ReadsAs I.source (around (numbers_for sent.now.restore sent.now.weights.shifts) (planes_given tables.now.words.book sent.now.weights.shifts sent.now.q
        (depths_of marks.old) stages sent.now.below g)) (by_part result (blocks_in blocks.new) (blocks_in blocks.new)) (source_state input.old)
        (source_state input.new) }
    ensures depths { depths_of marks.new ≡ depths_of marks.old }
    ensures size { length blocks.new ≡ length blocks.old }
    ensures is_in { IsIn (source_state input.new) }
{
    if sent.stop >= sent.below {
        restore_unread(blocks, sent);
        return Ok(Part::Whole);
    }
    slice_numbers(blocks);
    let taken = take_sent(input, sent, tables, blocks, marks);
    restore_read(blocks, sent, taken.plane);
    join_numbers(blocks, sent.below);
    taken.read
}
