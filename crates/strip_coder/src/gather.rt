// Gathers the blocks of a block row into segments, which are written as they become full.
ghost use Rattle.std.specs.Prelude.{◌≡◌, ◌<◌, ◌≤◌, ◌+◌, ◌*◌, ℕ, All, length, true};
ghost use Rattle.strip_coder.specs.Plans.{IsPlan, job_of, whole};
ghost use Rattle.base_122.specs.Sizes.{block_count};
ghost use Rattle.base_122.specs.Weights.{IsShift};
ghost use Rattle.block_families.specs.Places.{gathered};
ghost use Rattle.wave_strip.specs.Strip.{columns_of, is_current, number_in};
ghost use Rattle.stream_defs.specs.Output.{segments_of};
ghost use Rattle.strip_coder.specs.Works.{HasGathered};
ghost use Rattle.strip_coder.specs.Steps.{PutsBlocks, Gathers, GathersSome, HasRoom};

use crate::form::SegmentOut;
use crate::plan::Plan;
use crate::work::Work;
use base_122::Weights;
use block_families::gather_run;
use port_122::{Failed, Port};
use segment_code::SegmentBlocks;
use wave_strip::StripWave;

// The greatest number of blocks that are gathered together: their numbers are in the nearest cache until they are masks.
const RUN: u32 = 16;

// The numbers of these blocks.
const RUN_NUMBERS: usize = 1024;

// Adds some blocks of the block row that is in the strip, from this column on, to the blocks of a segment (docs/formats.md, "Blocks").
fn gather_blocks(
    strip: &StripWave,
    weights: &Weights,
    column: u32,
    count: u32,
    blocks: &mut SegmentBlocks,
)
    requires valid { is_current strip.now ≡ true }
    requires columns { column + count ≤ columns_of strip.now }
    requires few { count ≤ 16 }
    requires weights { All IsShift weights.now.shifts }
    requires room { length blocks.old.numbers + 64 * count ≤ 64 * blocks.old.most }
    ensures puts { (place : ℕ) → length blocks.old.numbers ≡ 64 * place →
        PutsBlocks place count blocks.old.numbers blocks.new.numbers (λ k. gathered (number_in strip.now) weights.now.shifts (column + k)) }
    ensures most { blocks.new.most ≡ blocks.old.most }
{
    let mut room = [0; RUN_NUMBERS];
    let numbers = &mut room[..64 * count as usize];
    gather_run(strip, column, weights, numbers);
    for k in 0..count as usize {
        blocks.push(&numbers[64 * k..64 * k + 64]);
    }
}

// Gathers the next blocks of the block row in the strip, from this column on, and writes the present segment if they make it full. Returns
// how many they are: at least one and at most `most`.
fn gather_next<S: SegmentOut, X: Port>(
    port: &mut X,
    plan: &Plan,
    work: &mut Work,
    column: u32,
    most: u32,
) -> Result<u32, Failed>
    requires in_range { IsPlan (job_of S.form plan.now) }
    requires gathered { HasGathered (job_of S.form plan.now) work.old }
    requires more { work.old.at.index < segments_of (whole (job_of S.form plan.now)) }
    requires valid { is_current work.old.strip ≡ true }
    requires some { 1 ≤ most }
    requires columns { column + most ≤ block_count plan.now.setting.width }
    ensures { GathersSome result (job_of S.form plan.now) (λ k. gathered (number_in work.old.strip) plan.now.setting.weights.shifts (column + k)) most
        (X.outside port.old) (X.outside port.new) work.old work.new }
{
    let size = plan
        .setting
        .geometry_for(plan.rows)
        .blocks_of(work.at.index);
    let count = most.min(size - work.at.filled).min(RUN);
    gather_blocks(
        &work.strip,
        &plan.setting.weights,
        column,
        count,
        &mut work.blocks,
    );
    work.at.filled += count;
    if work.at.filled < size {
        return Ok(count);
    }
    S::write_present(port, plan, work)?;
    Ok(count)
}

/// Gathers the block row in the strip, some blocks at a time, and writes each segment that becomes full.
pub fn gather_row<S: SegmentOut, X: Port>(
    port: &mut X,
    plan: &Plan,
    work: &mut Work,
) -> Result<(), Failed>
    requires in_range { IsPlan (job_of S.form plan.now) }
    requires gathered { HasGathered (job_of S.form plan.now) work.old }
    requires room { HasRoom (job_of S.form plan.now) (block_count plan.now.setting.width) work.old }
    requires valid { is_current work.old.strip ≡ true }
    ensures { Gathers result (job_of S.form plan.now) (gathered (number_in work.old.strip) plan.now.setting.weights.shifts) (block_count plan.now.setting.width)
        (X.outside port.old) (X.outside port.new) work.old work.new }
{
    let columns = plan.setting.geometry_for(plan.rows).padded_width() / 8;
    let mut column = 0;
    while column < columns {
        column += gather_next::<S, X>(port, plan, work, column, columns - column)?;
    }
    Ok(())
}
