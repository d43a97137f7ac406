// The bits that the words of a gaggle send in stages 1 to 3, in 32 masks.

ghost use Rattle.std.specs.Prelude.{◌≡◌, ◌+◌, ◌-◌, ◌*◌, ◌/◌, ◌%◌, ◌<◌, ◌≤◌, ◌^◌, ℕ, List, OnOk, MatchOption, length, set, slice_index_or};
ghost use Rattle.bit_pipe.specs.SinkState.{sink_state, IsReady, IsOpen, Writes};
ghost use Rattle.plane_defs.specs.Planes.{Plane, of_gaggle, before_stage};
ghost use Rattle.block_masks.specs.Gaggles.{Agrees, AreOptions};
ghost use Rattle.plane_coder.specs.Collected.{HasWords};
ghost use Rattle.plane_coder.specs.Listed.{listed};
ghost use Rattle.plane_coder.specs.Kept.{width_in, bits_between, octet_in, flags_in, HasOctets, Keeps, IsNotKept, IsStageOf};
ghost use Rattle.plane_coder.specs.Left.{KeepsBits, KeepsNext};
ghost use Rattle.base_122.specs.declared.book.Book.{Book as BookValue};

use crate::collect::GaggleWords;
use crate::option_codes::OptionCodes;
use crate::pending::PendingBits;
use crate::words::Words;
use bit_pipe::{BitOut, OctetOut, PutFault};
use block_masks::{Gaggle, has, three};

// The number of masks that a gaggle has for the bits of its words.
pub(crate) const FREE: usize = 32;

// Puts the bits that wait into the next mask of a gaggle, with a 1 before them. Returns how many masks then have bits.
#[inline(always)]
fn keep_bits(free: &mut [u64], used: usize, pending: &mut PendingBits) -> usize
    requires whole { length free.old ≡ 32 }
    requires used { used ≤ 33 }
    ensures keeps { KeepsNext used result free.old free.new pending.old }
    ensures whole { length free.new ≡ 32 }
    ensures silent { pending.new.count ≡ 0 }
    ensures gaggle { pending.new.gaggle ≡ pending.old.gaggle }
{
    let mask = pending.seal();
    if used < FREE {
        free[used] = mask;
    }
    (used + 1).min(FREE + 1)
}

// Puts the bits of the words of a list into the next masks of a gaggle, of which `used` have bits: one more than there are if some bits
// had no room. Returns how many then have bits. Most words come after the identifiers of all lengths: they have a loop that tests for none.
#[inline(always)]
fn keep_words<const MOST: usize>(
    free: &mut [u64],
    used: usize,
    pending: &mut PendingBits,
    option_codes: &OptionCodes,
    words: &Words<MOST>,
) -> usize
    requires whole { length free.old ≡ 32 }
    requires used { used ≤ 33 }
    requires same { option_codes.now.options ≡ pending.old.gaggle.options }
    requires silent { pending.old.count ≡ 0 }
    ensures keeps { KeepsBits option_codes.now.tables.now.book pending.old.gaggle used result free.new pending.new (listed words.now) }
    ensures before { (k : ℕ) → k < used → slice_index_or free.new k 0 ≡ slice_index_or free.old k 0 }
    ensures order { used ≤ result }
    ensures few { result ≤ 33 }
    ensures whole { length free.new ≡ 32 }
    ensures silent { pending.new.count ≡ 0 }
{
    let mut end = used;
    let mut first = words.count();
    for i in 0..words.count() {
        if pending.are_open() {
            first = i;
            break;
        }
        if !pending.has_room() {
            end = keep_bits(free, end, pending);
        }
        pending.typed(option_codes, words.at(i));
    }
    for j in first..words.count() {
        if !pending.has_room() {
            end = keep_bits(free, end, pending);
        }
        pending.typed_open(option_codes, words.at(j));
    }
    keep_bits(free, end, pending)
}

// Returns the flags of the words that were sent, as an octet.
#[inline(always)]
fn octet_of(sent: [bool; 3]) -> u64
    ensures flags { flags_in result ≡ sent }
    ensures small { result < 8 }
{
    three(sent[0], sent[1], sent[2])
}

// Returns the first mask: where the masks of each stage end, and the flags after it.
#[inline(always)]
fn head_of(ends: [usize; 3], flags: [u64; 3]) -> u64
    requires ends { (n : ℕ) → slice_index_or ends n 0 ≤ 33 }
    requires flags { (n : ℕ) → slice_index_or flags n 0 < 8 }
    ensures { (masks : List ℕ) → slice_index_or masks 0 0 ≡ result → HasOctets masks ends flags }
{
    let places = 1
        + 0x100 * ends[0] as u64
        + 0x1_0000 * ends[1] as u64
        + 0x100_0000 * ends[2] as u64;
    let words = flags[0] + 0x100 * flags[1] + 0x1_0000 * flags[2];
    places + 0x1_0000_0000 * words
}

// Puts the bits that the words of a gaggle send into its masks. A stage for which there is no room is missing.
pub(crate) fn keep(
    free: &mut [u64],
    option_codes: &OptionCodes,
    gaggle: Gaggle,
    words: &GaggleWords,
)
    requires whole { length free.old ≡ 32 }
    requires same { option_codes.now.options ≡ gaggle.options }
    ensures keeps { (p : Plane) (g : ℕ) → Agrees gaggle.sent (before_stage p 1 g) → HasWords 0 (λ stage. of_gaggle p stage g) words.now →
        Keeps option_codes.now.tables.now.book gaggle.options p g free.new }
    ensures whole { length free.new ≡ 32 }
{
    let mut pending = PendingBits::new(gaggle);
    let second = keep_words(free, 1, &mut pending, option_codes, &words.parents);
    let after_parents = pending.gaggle.sent;
    let third = keep_words(free, second, &mut pending, option_codes, &words.children);
    let after_children = pending.gaggle.sent;
    let end = keep_words(
        free,
        third,
        &mut pending,
        option_codes,
        &words.grandchildren,
    );
    let after_all = pending.gaggle.sent;
    let flags = [
        octet_of(after_parents),
        octet_of(after_children),
        octet_of(after_all),
    ];
    free[0] = head_of([second, third, end], flags);
}

// Where the bits of a stage of a gaggle are: in its masks from one up to another one. `sent` says which words were sent so far.
#[derive(Clone, Copy)]
pub(crate) struct KeptStage<'a> {
    free: &'a [u64],
    from: usize,
    to: usize,
    pub sent: [bool; 3],
}

// Returns octet n of a mask.
#[inline(always)]
fn octet_at(mask: u64, n: u8) -> u64
    requires { n < 8 }
    ensures { result ≡ mask / 2 ^ (8 * n) % 2 ^ 8 }
{
    (mask >> (8 * n)) % 0x100
}

// Returns where the bits of the stage of this number of gaggle g are, exactly if they are kept.
#[inline(always)]
pub(crate) fn kept_stage<const STAGE: u8>(kept: &[u64], g: usize) -> Option<KeptStage<'_>>
    requires first { 0 < STAGE }
    requires last { STAGE < 4 }
    ensures { MatchOption result (IsNotKept kept.now STAGE g) (IsStageOf kept.now STAGE g) }
{
    if kept.len() / FREE <= g {
        return None;
    }
    let free = &kept[FREE * g..FREE * g + FREE];
    let head = free[0];
    let to = octet_at(head, STAGE) as usize;
    if to > FREE {
        return None;
    }
    let flags = octet_at(head, 3 + STAGE);
    Some(KeptStage {
        free,
        from: octet_at(head, STAGE - 1) as usize,
        to,
        sent: [has(flags, 0), has(flags, 1), has(flags, 2)],
    })
}

// Returns how many bits a mask has below its highest 1.
#[inline(always)]
fn width_of(mask: u64) -> u8
    ensures width { result ≡ width_in mask }
    ensures few { result < 64 }
{
    63u8.saturating_sub(mask.leading_zeros() as u8)
}

// Puts the bits of a stage that are kept.
#[inline(always)]
pub(crate) fn put_kept<O: OctetOut>(
    out: &mut BitOut<O>,
    kept: KeptStage<'_>,
) -> Result<(), PutFault>
    requires open { IsReady O.sink out.old }
    requires whole { length kept.free.now ≡ 32 }
    requires room { kept.to ≤ 32 }
    ensures { Writes O.sink result out.old out.new (bits_between kept.entry.free.now kept.entry.from kept.entry.to) }
{
    for m in kept.from..kept.to {
        let mask = kept.free[m];
        out.put_long(mask, width_of(mask))?;
    }
    Ok(())
}
