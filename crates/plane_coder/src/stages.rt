// The stages of a plane, gaggle by gaggle.

ghost use Rattle.std.specs.Prelude.{◌≡◌, ◌+◌, ◌*◌, ◌<◌, ◌≤◌, List, OnOk, length};
ghost use Rattle.item_defs.specs.Items.{text};
ghost use Rattle.bit_pipe.specs.SinkState.{sink_state, IsReady, Writes};
ghost use Rattle.plane_defs.specs.Planes.{of_block, of_gaggle, stage_items};
ghost use Rattle.plane_defs.specs.Entries.{stage_number};
ghost use Rattle.plane_defs.specs.declared.entries.Entry.{Entry};
ghost use Rattle.plane_defs.specs.declared.stages.Stage.{Stage};
ghost use Rattle.plane_defs.specs.Marks.{depths_of};
ghost use Rattle.block_masks.specs.Gaggles.{AllAgree, AreOptions, AreKnown, SameMarks, options_at};
ghost use Rattle.plane_coder.specs.Collected.{HasNoWords, HasWords};
ghost use Rattle.plane_coder.specs.Kept.{free_at, Keeps, AreKept};
ghost use Rattle.plane_coder.specs.Spells.{Spells, PutsStage};
ghost use Rattle.plane_coder.specs.Views.{plane_in};

use crate::collect::{GaggleWords, collect_gaggle};
use crate::kept::{kept_stage, put_kept};
use crate::option_codes::{OptionCodes, put_codes};
use crate::pending::PendingBits;
use crate::put::{is_quiet, put_block_stage, put_words};
use crate::tables::{CodeTables, NOTHING};
use crate::view::View;
use bit_pipe::{BitOut, OctetOut, PutFault};
use block_masks::{Gaggle, depth_of, load, store};

// Puts the stage of this number of block r.
#[inline(always)]
fn put_block_at<O: OctetOut, const STAGE: u8>(
    out: &mut BitOut<O>,
    pending: &mut PendingBits,
    view: &View,
    marks: &[i32],
    r: usize,
) -> Result<(), PutFault>
    requires stage { HasNoWords STAGE }
    requires open { IsReady O.sink out.old }
    requires silent { pending.old.count ≡ 0 }
    requires whole { length view.now.segment.now.numbers ≡ 64 * length marks.now }
    requires block { 64 * r < length view.now.segment.now.numbers }
    ensures spells { Spells O.sink view.now.tables.now.book pending.old.gaggle pending.new.gaggle result (sink_state O.sink out.old) (sink_state O.sink out.new)
        (of_block (plane_in view.now (depths_of marks.now)) (stage_number STAGE) r) }
    ensures silent { pending.new.count ≡ 0 }
{
    put_block_stage::<O, STAGE>(out, pending, view, depth_of(marks[r]), r)
}

// Puts the stage of this number of the blocks of gaggle g: a stage without words.
#[inline(always)]
fn put_blocks<O: OctetOut, const STAGE: u8>(
    out: &mut BitOut<O>,
    pending: &mut PendingBits,
    view: &View,
    marks: &[i32],
    g: usize,
) -> Result<(), PutFault>
    requires stage { HasNoWords STAGE }
    requires open { IsReady O.sink out.old }
    requires silent { pending.old.count ≡ 0 }
    requires whole { length view.now.segment.now.numbers ≡ 64 * length marks.now }
    requires within { 16 * g < length marks.now }
    ensures { Spells O.sink view.now.tables.now.book pending.old.gaggle pending.new.gaggle result (sink_state O.sink out.old) (sink_state O.sink out.new)
        (of_gaggle (plane_in view.now (depths_of marks.now)) (stage_number STAGE) g) }
{
    for place in 0..(marks.len() - 16 * g).min(16) {
        put_block_at::<O, STAGE>(out, pending, view, marks, 16 * g + place)?;
    }
    Ok(())
}

// Puts the words of a gaggle in the stage of this number.
#[inline(always)]
fn put_stage_words<O: OctetOut, const STAGE: u8>(
    out: &mut BitOut<O>,
    pending: &mut PendingBits,
    tables: &CodeTables,
    words: &GaggleWords,
) -> Result<(), PutFault>
    requires first { 0 < STAGE }
    requires last { STAGE < 4 }
    requires open { IsReady O.sink out.old }
    requires silent { pending.old.count ≡ 0 }
    ensures { (sent : Stage → List Entry) → HasWords STAGE sent words.now →
        Spells O.sink tables.now.book pending.old.gaggle pending.new.gaggle result (sink_state O.sink out.old) (sink_state O.sink out.new)
        (sent (stage_number STAGE)) }
{
    let mut codes = [NOTHING; 80];
    put_codes(&mut codes, tables, pending.gaggle.options);
    let option_codes = OptionCodes::new(tables, pending.gaggle.options, &codes);
    match STAGE {
        1 => put_words(out, pending, &option_codes, &words.parents),
        2 => put_words(out, pending, &option_codes, &words.children),
        _ => put_words(out, pending, &option_codes, &words.grandchildren),
    }
}

// Puts the words of gaggle g in the stage of this number, which are found again: its masks have no room for their bits.
#[inline(never)]
fn put_again<O: OctetOut, const STAGE: u8>(
    out: &mut BitOut<O>,
    pending: &mut PendingBits,
    view: &View,
    marks: &[i32],
    words: &mut GaggleWords,
    g: usize,
) -> Result<(), PutFault>
    requires first { 0 < STAGE }
    requires last { STAGE < 4 }
    requires open { IsReady O.sink out.old }
    requires silent { pending.old.count ≡ 0 }
    requires whole { length view.now.segment.now.numbers ≡ 64 * length marks.now }
    requires within { 16 * g < length marks.now }
    ensures { Spells O.sink view.now.tables.now.book pending.old.gaggle pending.new.gaggle result (sink_state O.sink out.old) (sink_state O.sink out.new)
        (of_gaggle (plane_in view.now (depths_of marks.now)) (stage_number STAGE) g) }
{
    collect_gaggle::<STAGE>(words, view, marks, g);
    put_stage_words::<O, STAGE>(out, pending, view.tables, words)
}

// Puts the stage of this number of gaggle g.
#[inline(always)]
fn put_gaggle<O: OctetOut, const STAGE: u8>(
    out: &mut BitOut<O>,
    pending: &mut PendingBits,
    view: &View,
    marks: &[i32],
    words: &mut GaggleWords,
    g: usize,
) -> Result<(), PutFault>
    requires stage { STAGE < 5 }
    requires open { IsReady O.sink out.old }
    requires silent { pending.old.count ≡ 0 }
    requires whole { length view.now.segment.now.numbers ≡ 64 * length marks.now }
    requires within { 16 * g < length marks.now }
    requires kept { 32 * g + 32 ≤ length view.now.kept.now → Keeps view.now.tables.now.book pending.old.gaggle.options
        (plane_in view.now (depths_of marks.now)) g (free_at view.now.kept.now g) }
    ensures { PutsStage O.sink view.now.tables.now.book (plane_in view.now (depths_of marks.now)) STAGE g pending.old.gaggle pending.new.gaggle result
        (sink_state O.sink out.old) (sink_state O.sink out.new) }
{
    if STAGE == 0 || STAGE == 4 {
        return put_blocks::<O, STAGE>(out, pending, view, marks, g);
    }
    let Some(kept) = kept_stage::<STAGE>(view.kept, g) else {
        return put_again::<O, STAGE>(out, pending, view, marks, words, g);
    };
    let options = pending.gaggle.options;
    let sent = kept.sent;
    *pending = PendingBits::new(Gaggle { options, sent });
    put_kept(out, kept)
}

// Puts the stage of this number of all blocks, gaggle by gaggle.
#[inline(always)]
fn put_gaggles<O: OctetOut, const STAGE: u8>(
    out: &mut BitOut<O>,
    view: &View,
    marks: &mut [i32],
    words: &mut GaggleWords,
) -> Result<(), PutFault>
    requires open { IsReady O.sink out.old }
    requires stage { STAGE < 5 }
    requires whole { length view.now.segment.now.numbers ≡ 64 * length marks.old }
    requires known { AreKnown marks.old }
    requires bits { AreKept view.now.tables.now.book (options_at marks.old) (plane_in view.now (depths_of marks.old)) view.now.kept.now }
    requires agree { AllAgree (plane_in view.now (depths_of marks.old)) STAGE marks.old }
    ensures puts { Writes O.sink result out.old out.new
        (text (stage_items view.now.tables.now.book (options_at marks.old) (plane_in view.now (depths_of marks.old)) STAGE)) }
    ensures is_open { OnOk result (IsReady O.sink out.new) }
    ensures agree { OnOk result (AllAgree (plane_in view.now (depths_of marks.old)) (STAGE + 1) marks.new) }
    ensures kept { SameMarks marks.old marks.new }
{
    if is_quiet(view.plan, STAGE) {
        return Ok(());
    }
    for g in 0..marks.len().div_ceil(16) {
        let mut pending = PendingBits::new(load(marks, g));
        put_gaggle::<O, STAGE>(out, &mut pending, view, marks, words, g)?;
        store(marks, g, pending.gaggle);
    }
    Ok(())
}

// Puts a stage of all blocks, with the options and flags that the states keep. Each stage has a loop of its own, which is compiled for
// this stage alone: no block tests the stage again.
pub(crate) fn put_stage<O: OctetOut>(
    out: &mut BitOut<O>,
    number: u8,
    view: &View,
    marks: &mut [i32],
    words: &mut GaggleWords,
) -> Result<(), PutFault>
    requires open { IsReady O.sink out.old }
    requires number { number < 5 }
    requires whole { length view.now.segment.now.numbers ≡ 64 * length marks.old }
    requires known { AreKnown marks.old }
    requires bits { AreKept view.now.tables.now.book (options_at marks.old) (plane_in view.now (depths_of marks.old)) view.now.kept.now }
    requires agree { AllAgree (plane_in view.now (depths_of marks.old)) number marks.old }
    ensures puts { Writes O.sink result out.old out.new
        (text (stage_items view.now.tables.now.book (options_at marks.old) (plane_in view.now (depths_of marks.old)) number)) }
    ensures is_open { OnOk result (IsReady O.sink out.new) }
    ensures agree { OnOk result (AllAgree (plane_in view.now (depths_of marks.old)) (number + 1) marks.new) }
    ensures kept { SameMarks marks.old marks.new }
{
    match number {
        0 => put_gaggles::<O, 0>(out, view, marks, words),
        1 => put_gaggles::<O, 1>(out, view, marks, words),
        2 => put_gaggles::<O, 2>(out, view, marks, words),
        3 => put_gaggles::<O, 3>(out, view, marks, words),
        _ => put_gaggles::<O, 4>(out, view, marks, words),
    }
}
