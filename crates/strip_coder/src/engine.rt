// Encodes an image row by row.
ghost use Rattle.std.specs.Prelude.{◌≡◌, ◌<◌, ◌-◌, ◌*◌, MatchResult};
ghost use Rattle.base_122.specs.Ranges.{IsInRange};
ghost use Rattle.base_122.specs.Setting.{IsHeight};
ghost use Rattle.strip_coder.specs.Plans.{IsPlan, job_of, packed, plan_of, whole, tallest};
ghost use Rattle.base_122.specs.Sizes.{padded_size};
ghost use Rattle.wave_strip.specs.Strip.{rows_of};
ghost use Rattle.strip_coder.specs.Works.{IsFresh, IsMadeFor, IsRunning, HasTaken, RepresentsNone};
ghost use Rattle.strip_coder.specs.Steps.{IsRowSmall, IsRowInRange, Pushes, PushesOn, IsEnding, Finishes, AllOut, HasNotFinished, TakesRow, BreaksAt};
ghost use Rattle.strip_coder.specs.Steps.{HasEnded, HasNotPushedOn, EndsImage, EndBreaks};
ghost use Rattle.stream_defs.specs.Output.{segments_of};

use crate::encode::EncodeDone;
use crate::form::{AsPackets, SegmentOut};
use crate::gather::gather_row;
use crate::plan::Plan;
use crate::work::{ImageAt, Work};
use base_122::Setting;
use port_122::{Failed, Port};
use raster_rows::pad_row;
use space_packets::Packetiser;

/// Puts a work that was made for an equal setting at the start of an image (docs/architecture.md, "The encoder").
pub fn start_image(setting: &Setting, work: &mut Work)
    requires in_range { IsInRange setting.now }
    requires made { IsMadeFor setting.now work.old }
    ensures made { IsMadeFor setting.now work.new }
    ensures start { RepresentsNone setting.now work.new }
    ensures fresh { IsFresh setting.now work.new }
{
    work.strip.reset();
    work.packets.reset();
    work.blocks.clear();
    work.at = ImageAt {
        rows: 0,
        filled: 0,
        index: 0,
        used: 0,
    };
}

/// Pushes the row into the strip, gathers the block row that it completes, and writes each segment that becomes full. The row was padded.
pub fn push<S: SegmentOut, X: Port>(
    port: &mut X,
    plan: &Plan,
    work: &mut Work,
) -> Result<(), Failed>
    requires in_range { IsPlan (job_of S.form plan.now) }
    requires running { IsRunning (job_of S.form plan.now) work.old }
    requires few { rows_of work.old.strip < padded_size plan.now.rows }
    requires small { IsRowSmall (job_of S.form plan.now) work.old }
    ensures { Pushes result (job_of S.form plan.now) (X.outside port.old) (X.outside port.new) work.old work.new }
{
    let came = work.strip.push_row(&work.row);
    if came.is_none() {
        return Ok(());
    }
    gather_row::<S, X>(port, plan, work)
}

// Pushes the last row once more for each row that pads the image.
fn push_tail<S: SegmentOut, X: Port>(
    port: &mut X,
    plan: &Plan,
    work: &mut Work,
) -> Result<(), Failed>
    requires in_range { IsPlan (job_of S.form plan.now) }
    requires running { IsRunning (job_of S.form plan.now) work.old }
    requires rows { rows_of work.old.strip ≡ plan.now.rows }
    requires small { IsRowSmall (job_of S.form plan.now) work.old }
    ensures { PushesOn result (job_of S.form plan.now) (padded_size plan.now.rows - plan.now.rows) (X.outside port.old) (X.outside port.new) work.old work.new }
{
    let more = plan.setting.geometry_for(plan.rows).padded_rows() - plan.rows;
    for _ in 0..more {
        push::<S, X>(port, plan, work)?;
    }
    Ok(())
}

// Gathers the next of the block rows that are left at the end. Returns whether there was one.
fn finish_one<S: SegmentOut, X: Port>(
    port: &mut X,
    plan: &Plan,
    work: &mut Work,
) -> Result<bool, Failed>
    requires in_range { IsPlan (job_of S.form plan.now) }
    requires ending { IsEnding (job_of S.form plan.now) work.old }
    ensures { Finishes result (job_of S.form plan.now) (X.outside port.old) (X.outside port.new) work.old work.new }
{
    let came = work.strip.finish_row();
    if came.is_none() {
        return Ok(false);
    }
    gather_row::<S, X>(port, plan, work)?;
    Ok(true)
}

// Gathers all block rows that are left at the end.
fn finish<S: SegmentOut, X: Port>(port: &mut X, plan: &Plan, work: &mut Work) -> Result<(), Failed>
    requires in_range { IsPlan (job_of S.form plan.now) }
    requires ending { IsEnding (job_of S.form plan.now) work.old }
    ensures { MatchResult result
        (λ _. AllOut (job_of S.form plan.now) (X.outside port.old) (X.outside port.new) work.old work.new)
        (λ _. HasNotFinished (job_of S.form plan.now) (X.outside port.old) (X.outside port.new) work.old work.new) }
{
    while finish_one::<S, X>(port, plan, work)? {}
    Ok(())
}

/// Writes the segments that are left of an image of which all rows were pushed. The last of them is still there, padded.
pub fn write_rest<S: SegmentOut, X: Port>(
    port: &mut X,
    plan: &Plan,
    work: &mut Work,
) -> Result<(), Failed>
    requires in_range { IsPlan (job_of S.form plan.now) }
    requires running { IsRunning (job_of S.form plan.now) work.old }
    requires rows { rows_of work.old.strip ≡ plan.now.rows }
    requires small { IsRowSmall (job_of S.form plan.now) work.old }
    ensures { MatchResult result
        (λ _. HasEnded (job_of S.form plan.now) (X.outside port.old) (X.outside port.new) work.old work.new)
        (λ _. HasNotPushedOn (job_of S.form plan.now) (X.outside port.old) (X.outside port.new) work.old work.new) }
{
    let Ok(()) = push_tail::<S, X>(port, plan, work) else {
        return Err(Failed);
    };
    let Ok(()) = finish::<S, X>(port, plan, work) else {
        return Err(Failed);
    };
    Ok(())
}

/// Takes the row in the first `width` places of `row`, and writes the packets of the segments that it settles. Fewer rows were taken
/// than the image may have: the rows of the setting or, if it leaves them open, 262,144. The values are in range. After `Failed` only
/// `start_image` may follow.
pub fn row_in<X: Port>(port: &mut X, setting: &Setting, work: &mut Work) -> Result<(), Failed>
    requires in_range { IsInRange setting.now }
    requires taken { HasTaken (plan_of setting.now (tallest setting.now)) work.old.at.rows work.old }
    requires few { work.old.at.rows < tallest setting.now }
    requires values { IsRowInRange setting.now work.old.row.items }
    ensures { MatchResult result
        (λ _. TakesRow setting.now work.old.at.rows (X.outside port.old) (X.outside port.new) work.old work.new)
        (λ _. BreaksAt setting.now work.old.at.rows (X.outside port.old) (X.outside port.new) work.old work.new) }
{
    let plan = Plan::tallest(setting);
    pad_row(setting.width, &mut work.row);
    let Ok(()) = push::<AsPackets, X>(port, &plan, work) else {
        return Err(Failed);
    };
    work.at.rows += 1;
    Ok(())
}

/// Writes the rest of the packets of an image of which all rows were taken. The first `width` places of `row` are still the last of these.
/// Their number is that of the setting or, if it leaves their number open, 17 to 262,144. After either result only `start_image` may
/// follow.
pub fn image_end<X: Port>(
    port: &mut X,
    setting: &Setting,
    work: &mut Work,
) -> Result<EncodeDone, Failed>
    requires in_range { IsInRange setting.now }
    requires height { IsHeight setting.now work.old.at.rows }
    requires taken { HasTaken (plan_of setting.now (tallest setting.now)) work.old.at.rows work.old }
    requires values { IsRowInRange setting.now work.old.row.items }
    ensures { MatchResult result
        (λ done. EndsImage setting.now work.old.at.rows (X.outside port.old) (X.outside port.new) work.old work.new done)
        (λ _. EndBreaks setting.now work.old.at.rows (X.outside port.old) (X.outside port.new) work.old work.new) }
{
    let plan = Plan::new(setting, work.at.rows);
    pad_row(setting.width, &mut work.row);
    let Ok(()) = write_rest::<AsPackets, X>(port, &plan, work) else {
        return Err(Failed);
    };
    Ok(done_so_far(&plan, &work.packets))
}

/// Returns what a packetiser has done that wrote all segments.
pub fn done_so_far(plan: &Plan, packets: &Packetiser) -> EncodeDone
    requires { IsPlan (packed plan.now) }
    ensures { result ≡ record { segments = segments_of (whole (packed plan.now)); packets = packets.now.packets; octets = packets.now.octets } }
{
    EncodeDone {
        segments: plan.setting.geometry_for(plan.rows).segments(),
        packets: packets.packets(),
        octets: packets.octets(),
    }
}
