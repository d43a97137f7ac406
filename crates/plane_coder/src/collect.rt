// The words of a gaggle in stages 1 to 3.

ghost use Rattle.std.specs.Prelude.{◌≡◌, ◌+◌, ◌*◌, ◌≤◌, ◌<◌, [], cond, length};
ghost use Rattle.plane_defs.specs.declared.sets.Set.TheVariants.{Grandchildren};
ghost use Rattle.plane_defs.specs.Sets.{significant, set_significant};
ghost use Rattle.plane_defs.specs.Entries.{parents, children, children_types, quads, quads_types, all_quads, grandchildren, block_entries};
ghost use Rattle.plane_defs.specs.Planes.{of_block, of_gaggle};
ghost use Rattle.plane_defs.specs.Marks.{depths_of};
ghost use Rattle.block_masks.specs.SetMasks.{AreSets};
ghost use Rattle.plane_coder.specs.Listed.{Lists};
ghost use Rattle.plane_coder.specs.Collected.{Collects, HasWords, AreFew, wants};
ghost use Rattle.plane_coder.specs.Views.{plane_in};
ghost use Rattle.plane_coder.specs.Viewed.{block_in};

use crate::plane_masks::PlaneMasks;
use crate::view::View;
use crate::words::Words;
use block_masks::{Sets, depth_of, has};

// The words of all three stages are wanted.
pub(crate) const ALL: u8 = 0;

// The words of a gaggle, stage by stage.
#[derive(Clone, Copy)]
pub(crate) struct GaggleWords {
    pub parents: Words<16>,
    pub children: Words<80>,
    pub grandchildren: Words<256>,
}

// Returns whether the words of the stage of this number are wanted.
#[inline(always)]
fn is_wanted<const WANTED: u8>(number: u8) -> bool
    ensures { result ≡ wants WANTED number }
{
    WANTED == ALL || WANTED == number
}

#[inline(always)]
fn add_parents(words: &mut Words<16>, plane_masks: &PlaneMasks, is_wanted: bool)
    requires { words.old.count + 1 ≤ 16 }
    ensures { Lists words.old words.new (cond is_wanted (parents (block_in plane_masks.now) plane_masks.now.plan.now.weights.shifts
        plane_masks.now.plan.now.plane) []) 1 }
{
    if !is_wanted {
        return;
    }
    words.push(plane_masks.types(1, 3));
}

#[inline(always)]
fn add_children_types(words: &mut Words<80>, plane_masks: &PlaneMasks, sets: Sets)
    requires sets { AreSets (significant (block_in plane_masks.now) plane_masks.now.plan.now.plane) sets }
    requires room { words.old.count + 3 ≤ 80 }
    ensures { Lists words.old words.new (children_types (block_in plane_masks.now) plane_masks.now.plan.now.weights.shifts plane_masks.now.plan.now.plane) 3 }
{
    let types = plane_masks.types_of_children(sets);
    for i in 0..3u8 {
        words.push(types.four(i));
    }
}

#[inline(always)]
fn add_children(words: &mut Words<80>, plane_masks: &PlaneMasks, sets: Sets, is_wanted: bool)
    requires sets { AreSets (significant (block_in plane_masks.now) plane_masks.now.plan.now.plane) sets }
    requires room { words.old.count + 5 ≤ 80 }
    ensures { Lists words.old words.new (cond is_wanted (children (block_in plane_masks.now) plane_masks.now.plan.now.weights.shifts
        plane_masks.now.plan.now.plane) []) 5 }
{
    if !is_wanted {
        return;
    }
    words.push_raws(plane_masks.flag_of_all());
    words.push_word(plane_masks.flags_of_families());
    add_children_types(words, plane_masks, sets);
}

#[inline(always)]
fn add_quads_types(words: &mut Words<256>, plane_masks: &PlaneMasks, i: u8)
    requires family { i < 3 }
    requires room { words.old.count + 4 ≤ 256 }
    ensures { Lists words.old words.new (quads_types (block_in plane_masks.now) plane_masks.now.plan.now.weights.shifts plane_masks.now.plan.now.plane i) 4 }
{
    let types = plane_masks.types_of_quads(i);
    for j in 0..4u8 {
        words.push(types.four(j));
    }
}

#[inline(always)]
fn add_quads(words: &mut Words<256>, plane_masks: &PlaneMasks, is_said: bool, i: u8)
    requires family { i < 3 }
    requires enclosing { is_said ≡ set_significant (block_in plane_masks.now) plane_masks.now.plan.now.plane (Grandchildren i) }
    requires room { words.old.count + 5 ≤ 256 }
    ensures { Lists words.old words.new (cond is_said (quads (block_in plane_masks.now) plane_masks.now.plan.now.weights.shifts
        plane_masks.now.plan.now.plane i) []) 5 }
{
    if !is_said {
        return;
    }
    words.push_word(plane_masks.flags_of_quads(i));
    add_quads_types(words, plane_masks, i);
}

#[inline(always)]
fn add_all_quads(words: &mut Words<256>, plane_masks: &PlaneMasks, sets: Sets)
    requires sets { AreSets (significant (block_in plane_masks.now) plane_masks.now.plan.now.plane) sets }
    requires room { words.old.count + 15 ≤ 256 }
    ensures { Lists words.old words.new (all_quads (block_in plane_masks.now) plane_masks.now.plan.now.weights.shifts plane_masks.now.plan.now.plane) 15 }
{
    for i in 0..3u8 {
        add_quads(words, plane_masks, has(sets.grandchildren, i), i);
    }
}

#[inline(always)]
fn add_grandchildren(words: &mut Words<256>, plane_masks: &PlaneMasks, sets: Sets, is_wanted: bool)
    requires sets { AreSets (significant (block_in plane_masks.now) plane_masks.now.plan.now.plane) sets }
    requires room { words.old.count + 16 ≤ 256 }
    ensures { Lists words.old words.new (cond is_wanted (grandchildren (block_in plane_masks.now) plane_masks.now.plan.now.weights.shifts
        plane_masks.now.plan.now.plane) []) 16 }
{
    if !is_wanted {
        return;
    }
    words.push_word(plane_masks.flags_of_grandchildren());
    add_all_quads(words, plane_masks, sets);
}

impl GaggleWords {
    pub fn new() -> GaggleWords {
        GaggleWords {
            parents: Words::new(),
            children: Words::new(),
            grandchildren: Words::new(),
        }
    }

    // Adds the words of a block that is deep enough to have a bit of the plane.
    #[inline(always)]
    fn add_block<const WANTED: u8>(&mut self, plane_masks: &PlaneMasks, depth: u8)
        requires few { AreFew self.old 15 }
        requires deep { plane_masks.now.plan.now.plane < depth }
        ensures { Collects WANTED self.old self.new (λ stage. block_entries stage (block_in plane_masks.now) depth plane_masks.now.plan.now.weights.shifts
            plane_masks.now.plan.now.plane plane_masks.now.plan.now.q) }
    {
        let sets = plane_masks.sets();
        add_parents(&mut self.parents, plane_masks, is_wanted::<WANTED>(1));
        add_children(
            &mut self.children,
            plane_masks,
            sets,
            is_wanted::<WANTED>(2),
        );
        add_grandchildren(
            &mut self.grandchildren,
            plane_masks,
            sets,
            is_wanted::<WANTED>(3),
        );
    }
}

// Adds the words of block r.
#[inline(always)]
fn collect_block<const WANTED: u8>(words: &mut GaggleWords, view: &View, marks: &[i32], r: usize)
    requires whole { length view.now.segment.now.numbers ≡ 64 * length marks.now }
    requires block { 64 * r < length view.now.segment.now.numbers }
    requires few { AreFew words.old 15 }
    ensures { Collects WANTED words.old words.new (λ stage. of_block (plane_in view.now (depths_of marks.now)) stage r) }
{
    let depth = depth_of(marks[r]);
    if depth <= view.plan.plane {
        return;
    }
    words.add_block::<WANTED>(&view.plane_masks(r), depth);
}

// Finds the words of gaggle g in all three stages, or in the one of which `WANTED` is the number: the compiler knows it, so a loop
// has nothing of the other stages. All callers share its code, so the loop has that of a block inline.
#[inline(never)]
pub(crate) fn collect_gaggle<const WANTED: u8>(
    words: &mut GaggleWords,
    view: &View,
    marks: &[i32],
    g: usize,
)
    requires whole { length view.now.segment.now.numbers ≡ 64 * length marks.now }
    requires within { 16 * g < length marks.now }
    ensures { HasWords WANTED (λ stage. of_gaggle (plane_in view.now (depths_of marks.now)) stage g) words.new }
{
    words.parents.clear();
    words.children.clear();
    words.grandchildren.clear();
    for place in 0..(marks.len() - 16 * g).min(16) {
        collect_block::<WANTED>(words, view, marks, 16 * g + place);
    }
}
