// The options of all gaggles, by the words of stages 1 to 3.

ghost use Rattle.std.specs.Prelude.{◌≡◌, ◌+◌, ◌-◌, ◌*◌, ◌<◌, ◌≤◌, ◌%◌, ◌^◌, ◌++◌, List, [], ◌∷◌, length, slice_index_or, vec_len};
ghost use Rattle.block_masks.specs.SegmentNumbers.{AreAbove};
ghost use Rattle.plane_defs.specs.Planes.{Plane, of_gaggle, before_stage, chosen};
ghost use Rattle.plane_defs.specs.Marks.{depths_of};
ghost use Rattle.block_masks.specs.Gaggles.{Agrees, AreOptions};
ghost use Rattle.plane_coder.specs.Costs.{AreCosts, cheapest_for};
ghost use Rattle.base_122.specs.declared.book.Book.{Book as BookValue};
ghost use Rattle.plane_defs.specs.declared.entries.Entry.{Entry};
ghost use Rattle.plane_coder.specs.Listed.{listed};
ghost use Rattle.plane_coder.specs.Collected.{HasWords};
ghost use Rattle.plane_coder.specs.Kept.{free_at, KeepsOthers, Keeps, AreKept};
ghost use Rattle.plane_coder.specs.Chosen.{Chooses};
ghost use Rattle.plane_coder.specs.Views.{plane_in, plane_at};

use crate::collect::{ALL, GaggleWords, collect_gaggle};
use crate::costs::{Costs, least};
use crate::kept::{FREE, keep};
use crate::option_codes::{OptionCodes, put_codes};
use crate::room::GaggleRoom;
use crate::tables::{CodeTables, NOTHING};
use crate::view::View;
use block_masks::{CodedPlane, Gaggle, SegmentMasks, store};

// Returns the bits that the words of a gaggle take.
#[inline(always)]
fn costs_of(words: &GaggleWords, tables: &CodeTables) -> Costs
    ensures { AreCosts tables.now.book result (listed words.now.parents ++ (listed words.now.children ++ listed words.now.grandchildren)) }
{
    let mut costs = Costs::new();
    costs.add_words(tables, &words.parents);
    costs.add_words(tables, &words.children);
    costs.add_words(tables, &words.grandchildren);
    costs
}

// Returns the options under which the words take the fewest bits.
#[inline(always)]
fn best_options(costs: Costs) -> [u8; 3]
    ensures best { (book : BookValue) (entries : List Entry) → AreCosts book costs entries → result ≡ cheapest_for book entries }
    ensures known { AreOptions result }
{
    [
        least(costs.short, 0, 2),
        least(costs.short, 2, 3),
        least(costs.long, 0, 4),
    ]
}

// Finds the words of gaggle g, and returns its options.
fn choose_options(words: &mut GaggleWords, view: &View, marks: &[i32], g: usize) -> [u8; 3]
    requires whole { length view.now.segment.now.numbers ≡ 64 * length marks.now }
    requires within { 16 * g < length marks.now }
    ensures chosen { result ≡ chosen view.now.tables.now.book (plane_in view.now (depths_of marks.now)) g }
    ensures known { AreOptions result }
    ensures words { HasWords 0 (λ stage. of_gaggle (plane_in view.now (depths_of marks.now)) stage g) words.new }
{
    collect_gaggle::<ALL>(words, view, marks, g);
    best_options(costs_of(words, view.tables))
}

// Keeps the bits of the words of gaggle g, if it has masks for them.
fn keep_gaggle(kept: &mut [u64], tables: &CodeTables, gaggle: Gaggle, words: &GaggleWords, g: usize)
    requires known { AreOptions gaggle.options }
    ensures keeps { (p : Plane) → 32 * g + 32 ≤ length kept.old → Agrees gaggle.sent (before_stage p 1 g) →
        HasWords 0 (λ stage. of_gaggle p stage g) words.now →
        Keeps tables.now.book gaggle.options p g (free_at kept.new g) }
    ensures others { KeepsOthers g kept.old kept.new }
{
    if kept.len() / FREE <= g {
        return;
    }
    let mut codes = [NOTHING; 80];
    put_codes(&mut codes, tables, gaggle.options);
    let option_codes = OptionCodes::new(tables, gaggle.options, &codes);
    keep(
        &mut kept[FREE * g..FREE * g + FREE],
        &option_codes,
        gaggle,
        words,
    );
}

// Stores the options of each gaggle in the states, with no word sent yet, and keeps the bits of its words.
pub(crate) fn choose_all(
    segment: &SegmentMasks,
    marks: &mut [i32],
    room: &mut GaggleRoom,
    plan: &CodedPlane,
    tables: &CodeTables,
)
    requires whole { length segment.now.numbers ≡ 64 * length marks.old }
    requires above { AreAbove (plan.now.plane + 1) segment.now }
    ensures chosen { Chooses tables.now.book (plane_at segment.now.numbers (depths_of marks.old) plan.now) marks.old marks.new }
    ensures kept { AreKept tables.now.book (chosen tables.now.book (plane_at segment.now.numbers (depths_of marks.old) plan.now))
        (plane_at segment.now.numbers (depths_of marks.old) plan.now) room.new.kept.items }
    ensures room { vec_len room.new.kept ≡ vec_len room.old.kept }
{
    let view = View {
        segment,
        plan,
        tables,
        kept: &[],
    };
    for g in 0..marks.len().div_ceil(16) {
        let options = choose_options(&mut room.words, &view, marks, g);
        let sent = [false; 3];
        let gaggle = Gaggle { options, sent };
        keep_gaggle(&mut room.kept, tables, gaggle, &room.words, g);
        store(marks, g, gaggle);
    }
}
