// Bit planes of one block, put and taken.
ghost use Rattle.std.specs.Prelude.{◌≡◌, ◌≢◌, ◌<◌, ◌≤◌, ◌%◌, ◌^◌, ℕ, pos, ◌∷◌, true, length, min, replicate, slice_index_or, unsigned_abs};
ghost use Rattle.bit_pipe.specs.declared.fault.PutFault.TheVariants.{WriteFault};
ghost use Rattle.bit_pipe.specs.Slices.{slice_sink};
ghost use Rattle.bit_pipe.specs.SinkState.{sink_state, IsOpen};
ghost use Rattle.block_masks.specs.SegmentNumbers.{AreAbove};

use crate::bit_words::{Aligned, aligned_in};
use crate::block_words::blocks_in;
use crate::case::{Case, Refusal};
use crate::shown::{Blocks, Hex};
use base_122::Weights;
use bit_pipe::{BitIn, BitOut, Part, PutFault, SliceIn, SliceOut, TextFault};
use plane_coder::{CodeTables, GaggleRoom, PlanePlan, PlaneSource, SegmentMasks, put_plane};
use plane_reader::{PlaceTables, SentPlanes, take_planes};
use word_codes::profile_book;

// Which planes of a block are read, and what is known of it before: its depth and its DC.
#[derive(Clone, Copy)]
struct Known {
    sent: SentPlanes,
    depth: u8,
    dc: i32,
    ghost below: { sent.below ≤ 27 },
    ghost last: { sent.last ≤ 4 },
    ghost none: { unsigned_abs dc % 2 ^ min sent.below sent.q ≡ 0 },
}

// Returns whether a DC has no bit below a plane.
fn has_none_below(dc: i32, plane: u8) -> bool
    requires { plane < 32 }
    ensures { result ≡ true → unsigned_abs dc % 2 ^ plane ≡ 0 }
{
    dc.unsigned_abs() % (1 << plane) == 0
}

fn known_of(case: &Case) -> Result<Known, Refusal> {
    let below = case.named("below", 0, 27)? as u8;
    let q = case.named("q", 0, 28)? as u8;
    let dc = case.signed_named("dc", 1 << 27)?;
    if !has_none_below(dc, below.min(q)) {
        return Err(Refusal::Words);
    }
    let finest = u8::from(case.has("coarse"));
    let mut shifts = [0; 10];
    shifts[0] = finest;
    shifts[1] = finest;
    shifts[2] = finest;
    Ok(Known {
        sent: SentPlanes {
            weights: Weights { shifts },
            q,
            below,
            stop: case.named("stop", 0, 27)? as u8,
            last: case.named("last", 0, 4)? as u8,
            restore: false,
        },
        depth: case.named("depth", 0, 27)? as u8,
        dc,
    })
}

// Reads the planes of a block that has only its DC.
#[tactic(auto, using(bit_pipe::proofs::Taking::in_after_item))]
fn take_after(
    text: &Aligned,
    known: &Known,
    tables: &PlaceTables,
    block: &mut [i32],
) -> Result<Part, TextFault>
    requires { block.old ≡ known.now.dc ∷ replicate 63 (pos 0) }
    ensures { length block.new ≡ length block.old }
{
    let mut source = SliceIn::new(text.octets.as_slice());
    let mut input = BitIn::new(&mut source, 0, 0);
    input.take_bits(text.lead)?;
    let mut marks = [i32::from(known.depth)];
    take_planes(&mut input, &known.sent, tables, block, &mut marks)
}

// Puts the DC into a block of zeros.
fn put_first(block: &mut [i32], dc: i32)
    requires { block.old ≡ replicate 64 (pos 0) }
    ensures { block.new ≡ dc ∷ replicate 63 (pos 0) }
{
    block[0] = dc;
}

// Returns the answer of the reader, and the numbers of the block.
fn take_block(
    text: &Aligned,
    known: &Known,
    tables: &PlaceTables,
) -> (Result<Part, TextFault>, [i32; 64]) {
    let mut block = [0; 64];
    put_first(&mut block, known.dc);
    let taken = take_after(text, known, tables, &mut block);
    (taken, block)
}

// The bits of the planes of a block of this depth from `below` - 1 down, the last of them up to a stage, after a DC part that gave `dc`
// and left out `q` low bits. The weights are 1, or 2 for the three finest bands if these are `coarse`. The answer is the same with tables
// of all masks and with those of the words alone.
pub(crate) fn take(case: &Case) -> Result<String, Refusal> {
    let text = aligned_in(case.alloc, case.data)?;
    let known = known_of(case)?;
    let book = profile_book();
    let tables = PlaceTables::new(case.alloc, &book)?;
    let words = PlaceTables::of_words(&book);
    let (taken, block) = take_block(&text, &known, &tables);
    let (slowly, other) = take_block(&text, &known, &words);
    if taken != slowly || block != other {
        return Err(Refusal::Words);
    }
    let shown = Blocks(&block);
    Ok(format!(in case.alloc; "{taken:?}{shown}")?)
}

// What is put before plane 0 of a block, and how it is put: the limit in octets, bits of what is before the planes, the block's depth,
// the plane below which the DC has bits, and the weights.
#[derive(Clone, Copy)]
struct Wish {
    limit: u64,
    before: u32,
    before_len: u8,
    depth: u8,
    q: u8,
    weights: Weights,
    ghost limited: { limit ≤ 64 },
    ghost short: { before_len ≤ 32 },
}

impl Wish {
    fn plan(&self, plane: u8) -> PlanePlan
        ensures { result ≡ record { plane = plane; q = self.now.q; weights = self.now.weights; last = 4 } }
    {
        PlanePlan {
            plane,
            q: self.q,
            weights: self.weights,
            last: 4,
        }
    }
}

// Ends the text of planes that are whole, or that stop at the limit.
#[tactic(auto, using(bit_pipe::proofs::Putting::open_after, bit_pipe::proofs::Putting::open_later))]
fn end_planes(out: BitOut<SliceOut>, put: Result<(), PutFault>) -> Result<u64, PutFault>
    requires { put ≢ Err WriteFault → IsOpen (sink_state slice_sink out) }
{
    if let Err(PutFault::WriteFault) = put {
        return Err(PutFault::WriteFault);
    }
    Ok(out.end(1, false)?)
}

// Puts plane 0 of a block.
#[tactic(auto, using(bit_pipe::proofs::Putting::open_after, bit_pipe::proofs::Putting::open_later))]
fn put_one(
    into: &mut [u8],
    masks: &mut SegmentMasks,
    room: &mut GaggleRoom,
    wish: &Wish,
) -> Result<u64, PutFault>
    requires whole { length masks.old.numbers ≡ 64 }
    requires above { AreAbove 1 masks.old }
{
    let tables = CodeTables::new(&profile_book());
    let mut marks = [i32::from(wish.depth)];
    let mut sink = SliceOut::new(into);
    let mut out = BitOut::new(&mut sink, wish.limit, 0);
    out.put_bits(wish.before, wish.before_len)?;
    let source = PlaneSource {
        plan: &wish.plan(0),
        tables: &tables,
    };
    let put = put_plane(&mut out, masks, &mut marks, room, &source);
    end_planes(out, put)
}

// Puts planes 1 and 0 of a block.
#[tactic(auto, using(bit_pipe::proofs::Putting::open_after, bit_pipe::proofs::Putting::open_later))]
fn put_two(
    into: &mut [u8],
    masks: &mut SegmentMasks,
    room: &mut GaggleRoom,
    wish: &Wish,
) -> Result<u64, PutFault>
    requires whole { length masks.old.numbers ≡ 64 }
    requires above { AreAbove 2 masks.old }
{
    let tables = CodeTables::new(&profile_book());
    let mut marks = [i32::from(wish.depth)];
    let mut sink = SliceOut::new(into);
    let mut out = BitOut::new(&mut sink, wish.limit, 0);
    out.put_bits(wish.before, wish.before_len)?;
    let higher = PlaneSource {
        plan: &wish.plan(1),
        tables: &tables,
    };
    put_plane(&mut out, masks, &mut marks, room, &higher)?;
    let lower = PlaneSource {
        plan: &wish.plan(0),
        tables: &tables,
    };
    let put = put_plane(&mut out, masks, &mut marks, room, &lower);
    end_planes(out, put)
}

// Returns whether numbers have at most four bits.
fn are_small(numbers: &[i32]) -> bool
    ensures { result ≡ true → (k : ℕ) → unsigned_abs (slice_index_or numbers.now k (pos 0)) < 16 }
{
    numbers.iter().all(|number| number.unsigned_abs() < 16)
}

fn wish_of(case: &Case) -> Result<Wish, Refusal> {
    let before = case.words_after("before").first().copied().unwrap_or("");
    if before.len() > 32 {
        return Err(Refusal::Words);
    }
    Ok(Wish {
        limit: case.named("limit", 0, 64)?,
        before: u32::from_str_radix(before, 2).unwrap_or(0),
        before_len: before.len() as u8,
        depth: case.named("depth", 0, 4)? as u8,
        q: case.named("q", 0, 28)? as u8,
        weights: if case.has("usual") {
            Weights::usual()
        } else {
            Weights { shifts: [0; 10] }
        },
    })
}

// The numbers of a block, of at most four bits: its planes from `planes` - 1 on.
pub(crate) fn put(case: &Case) -> Result<String, Refusal> {
    let wish = wish_of(case)?;
    let planes = case.named("planes", 1, 2)? as u8;
    let blocks = blocks_in(case.alloc, case.data)?;
    if blocks.len() != 64 || !are_small(blocks.as_slice()) {
        return Err(Refusal::Words);
    }
    let mut masks = SegmentMasks::new(case.alloc, 1)?;
    let mut room = GaggleRoom::new(case.alloc, 1)?;
    masks.push(blocks.as_slice(), 4);
    masks.begin(planes);
    let mut octets = [0; 5];
    let put = if planes == 2 {
        put_two(&mut octets, &mut masks, &mut room, &wish)
    } else {
        put_one(&mut octets, &mut masks, &mut room, &wish)
    };
    let shown = Hex(&octets);
    Ok(format!(in case.alloc; "{put:?} {shown}")?)
}
