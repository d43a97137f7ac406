// The masks of a block in a plane, and what they send.

ghost use Rattle.std.specs.Prelude.{◌≡◌, ◌<◌, ◌≤◌, ◌+◌, ◌-◌, ◌*◌, ◌/◌, ◌&&◌, ℕ, Bool, true, pos, [], ◌∷◌, length, map, slice_index_or};
ghost use Rattle.item_defs.specs.Bits.{bit};
ghost use Rattle.plane_defs.specs.declared.sets.Set.TheVariants.{Descendants, Family, Grandchildren, Quad};
ghost use Rattle.plane_defs.specs.declared.entries.Entry.TheVariants.{Bit as BitEntry};
ghost use Rattle.plane_defs.specs.Spans.{span};
ghost use Rattle.plane_defs.specs.Sets.{magnitude, significant, set_significant, type_due, refined as is_refined};
ghost use Rattle.plane_defs.specs.Entries.{negative as is_negative, word, typed, flags};
ghost use Rattle.wave_defs.specs.Held.{block_at};
ghost use Rattle.block_masks.specs.Masks.{Shows};

use crate::fours::{Fours, filled, four_sets};
use crate::masks::Masks;
use block_masks::{
    CodedPlane, PairedFours, SegmentMasks, Sets, both, either, except, masked, one, part, pick,
};

// The word of the types of some positions in the low octet, and the signs after it in the high one, each as it is picked.
#[derive(Clone, Copy)]
pub(crate) struct Typed {
    pub pair: u16,
}

impl Typed {
    ghost use Rattle.plane_coder.specs.Picked.{word_in, signs_in};

    #[inline(always)]
    pub fn new(word: u8, signs: u8) -> Typed
        ensures word { word_in result ≡ word }
        ensures signs { signs_in result ≡ signs }
    {
        Typed {
            pair: u16::from(word) + 256 * u16::from(signs),
        }
    }

    #[inline(always)]
    pub fn word(&self) -> u8
        ensures { result ≡ word_in self.now }
    {
        (self.pair % 256) as u8
    }

    #[inline(always)]
    pub fn signs(&self) -> u8
        ensures { result ≡ signs_in self.now }
    {
        (self.pair / 256) as u8
    }
}

// Of the numbers of block r: those that are significant in the plane, those that were above it, those whose types are due, those
// that have the plane's bit, and those that are negative.
#[derive(Clone, Copy)]
pub(crate) struct PlaneMasks<'a> {
    pub segment: &'a SegmentMasks,
    pub r: usize,
    pub plan: &'a CodedPlane,
    reached: u64,
    above: u64,
    due: u64,
    bits: u64,
    negative: u64,
    ghost reached_shown: { Shows reached (significant (block_at segment.now.numbers r) plan.now.plane) 0 64 },
    ghost above_shown: { Shows above (significant (block_at segment.now.numbers r) (plan.now.plane + 1)) 0 64 },
    ghost due_shown: { Shows due (type_due (block_at segment.now.numbers r) plan.now.weights.shifts plan.now.plane) 0 64 },
    ghost bits_shown: { Shows bits (λ p. bit (magnitude (block_at segment.now.numbers r) p) plan.now.plane) 0 64 },
    ghost negative_shown: { Shows negative (λ p. is_negative (slice_index_or (block_at segment.now.numbers r) p (pos 0))) 0 64 },
}

impl<'a> PlaneMasks<'a> {
    ghost use Rattle.block_masks.specs.SetMasks.{AreSets, AreQuads};
    ghost use Rattle.plane_coder.specs.Fours.{AreFours};
    ghost use Rattle.plane_coder.specs.Viewed.{IsView, block_in};
    ghost use Rattle.plane_coder.specs.Refining.{refining};
    ghost use Rattle.plane_coder.specs.Refined.{IsRefined};
    ghost use Rattle.plane_coder.specs.Picked.{IsPacked, ArePacked, word_of, raws_of, entries_of};

    #[inline(always)]
    pub fn new(
        segment: &'a SegmentMasks,
        r: usize,
        plan: &'a CodedPlane,
        masks: Masks,
    ) -> PlaneMasks<'a>
        requires view { IsView (block_at segment.now.numbers r) plan.now.plane masks }
        ensures block { block_in result ≡ block_at segment.now.numbers r }
        ensures plan { result.plan.now ≡ plan.now }
    {
        PlaneMasks {
            segment,
            r,
            plan,
            reached: either(masks.above, masks.bits),
            above: masks.above,
            due: except(masks.above, plan.coded),
            bits: masks.bits,
            negative: masks.negative,
        }
    }

    // Returns the types of up to four positions, and their signs.
    #[inline(always)]
    pub fn types(&self, at: u8, count: u8) -> Typed
        requires few { count ≤ 4 }
        requires within { at + count ≤ 64 }
        requires at { at < 64 }
        ensures typed { entries_of result ≡ typed (block_in self.now) self.now.plan.now.weights.shifts self.now.plan.now.plane (span at count) }
        ensures packed { ArePacked result }
    {
        let new = both(self.due, self.reached);
        let word = pick(part(self.due, at, count), part(self.reached, at, count));
        let signs = pick(part(new, at, count), part(self.negative, at, count));
        Typed::new(word, signs)
    }

    // Returns the types of those of some positions that a mask has.
    #[inline(always)]
    fn types_in(&self, at: u8, count: u8, among: u64) -> Fours
        requires few { count ≤ 16 }
        requires within { at + count ≤ 64 }
        requires at { at < 64 }
        ensures { (g : ℕ → Bool) → Shows among g at count →
            AreFours (λ p. type_due (block_in self.now) self.now.plan.now.weights.shifts self.now.plan.now.plane p && g p)
            (significant (block_in self.now) self.now.plan.now.plane) (λ p. is_negative (slice_index_or (block_in self.now) p (pos 0))) at count result }
    {
        let due = both(part(self.due, at, count), among);
        let ones = both(due, part(self.reached, at, count));
        let minus = both(ones, part(self.negative, at, count));
        let plain = except(minus, due);
        Fours {
            pairs: PairedFours::of(plain, ones),
        }
    }

    // Returns the types of the children of significant families.
    #[inline(always)]
    pub fn types_of_children(&self, sets: Sets) -> Fours
        requires { AreSets (significant (block_in self.now) self.now.plan.now.plane) sets }
        ensures { AreFours (λ p. type_due (block_in self.now) self.now.plan.now.weights.shifts self.now.plan.now.plane p && set_significant
            (block_in self.now) self.now.plan.now.plane (Family ((p - 4) / 4))) (significant (block_in self.now) self.now.plan.now.plane)
            (λ p. is_negative (slice_index_or (block_in self.now) p (pos 0))) 4 12 result }
    {
        self.types_in(4, 12, filled(sets.families))
    }

    // Returns the types of the significant sets of four grandchildren in family i.
    #[inline(always)]
    pub fn types_of_quads(&self, i: u8) -> Fours
        requires { i < 3 }
        ensures { AreFours (λ p. type_due (block_in self.now) self.now.plan.now.weights.shifts self.now.plan.now.plane p && set_significant
            (block_in self.now) self.now.plan.now.plane (Quad i ((p - (16 + 16 * i)) / 4))) (significant (block_in self.now) self.now.plan.now.plane)
            (λ p. is_negative (slice_index_or (block_in self.now) p (pos 0))) (16 + 16 * i) 16 result }
    {
        self.types_in(16 + 16 * i, 16, filled(self.quads(i)))
    }

    // Returns the sets that are significant in the plane.
    #[inline(always)]
    pub fn sets(&self) -> Sets
        ensures { AreSets (significant (block_in self.now) self.now.plan.now.plane) result }
    {
        Sets::of(self.reached)
    }

    // Returns the flag of all descendants, if it is due.
    #[inline(always)]
    pub fn flag_of_all(&self) -> u8
        ensures flag { raws_of result ≡ map BitEntry (flags (block_in self.now) self.now.plan.now.weights.shifts self.now.plan.now.plane (Descendants ∷ [])) }
        ensures packed { IsPacked result }
    {
        let new = except(
            one(Sets::of(self.above).descendants),
            one(self.plan.live.descendants),
        );
        pick(new, one(self.sets().descendants))
    }

    // Returns the flags of the families.
    #[inline(always)]
    pub fn flags_of_families(&self) -> u8
        ensures flags { word_of result ≡ word (flags (block_in self.now) self.now.plan.now.weights.shifts self.now.plan.now.plane
            (Family 0 ∷ Family 1 ∷ Family 2 ∷ [])) }
        ensures packed { IsPacked result }
    {
        let sets = self.sets();
        let new = except(Sets::of(self.above).families, self.plan.live.families);
        pick(masked(new, sets.descendants), sets.families)
    }

    // Returns the flags of the families' grandchildren.
    #[inline(always)]
    pub fn flags_of_grandchildren(&self) -> u8
        ensures flags { word_of result ≡ word (flags (block_in self.now) self.now.plan.now.weights.shifts self.now.plan.now.plane
            (Grandchildren 0 ∷ Grandchildren 1 ∷ Grandchildren 2 ∷ [])) }
        ensures packed { IsPacked result }
    {
        let sets = self.sets();
        let new = except(
            Sets::of(self.above).grandchildren,
            self.plan.live.grandchildren,
        );
        pick(both(new, sets.families), sets.grandchildren)
    }

    // Returns the sets of four grandchildren in family i that are significant in the plane.
    #[inline(always)]
    pub fn quads(&self, i: u8) -> u64
        requires { i < 3 }
        ensures { AreQuads (significant (block_in self.now) self.now.plan.now.plane) i result }
    {
        four_sets(self.reached, 16 + 16 * i)
    }

    // Returns the flags of the four sets of grandchildren in a family whose grandchildren are significant.
    #[inline(always)]
    pub fn flags_of_quads(&self, i: u8) -> u8
        requires family { i < 3 }
        requires enclosing { set_significant (block_in self.now) self.now.plan.now.plane (Grandchildren i) ≡ true }
        ensures flags { word_of result ≡ word (flags (block_in self.now) self.now.plan.now.weights.shifts self.now.plan.now.plane
            (Quad i 0 ∷ Quad i 1 ∷ Quad i 2 ∷ Quad i 3 ∷ [])) }
        ensures packed { IsPacked result }
    {
        let before = four_sets(self.above, 16 + 16 * i);
        let new = except(before, self.plan.live_quads[i as usize]);
        pick(new, self.quads(i))
    }

    // Returns the positions whose bits refine a number.
    #[inline(always)]
    pub fn refined(&self) -> u64
        ensures { Shows result (is_refined (block_in self.now) self.now.plan.now.weights.shifts self.now.plan.now.plane) 0 64 }
    {
        both(self.above, self.plan.coded)
    }

    // Returns these positions beside their bits.
    #[inline(always)]
    pub fn refined_fours(&self) -> PairedFours
        ensures { IsRefined self.now result }
    {
        PairedFours::of(self.refined(), self.bits)
    }

    // Returns the bits of four of these positions, from 4k on.
    #[inline(always)]
    pub fn refinement_four(&self, fours: &PairedFours, k: u8) -> u8
        requires within { k < 16 }
        requires fours { IsRefined self.now fours.now }
        ensures bits { raws_of result ≡ refining (block_in self.now) self.now.plan.now.weights.shifts self.now.plan.now.plane (4 * k) 4 }
        ensures packed { IsPacked result }
    {
        fours.pick(k)
    }

    // Returns their bits, of which up to four are picked.
    #[inline(always)]
    pub fn refinement(&self, refined: u64, at: u8, count: u8) -> u8
        requires few { count ≤ 4 }
        requires within { at + count ≤ 64 }
        requires at { at < 64 }
        requires refined { Shows refined (is_refined (block_in self.now) self.now.plan.now.weights.shifts self.now.plan.now.plane) 0 64 }
        ensures bits { raws_of result ≡ refining (block_in self.now) self.now.plan.now.weights.shifts self.now.plan.now.plane at count }
        ensures packed { IsPacked result }
    {
        pick(part(refined, at, count), part(self.bits, at, count))
    }
}
