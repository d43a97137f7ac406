// Numbers by differences, the DC part and the block depths.
ghost use Rattle.std.specs.Prelude.{◌≡◌, ◌<◌, ◌≤◌, ◌^◌, ◌↔◌, ℕ, length, slice_index, IsTrue, IfOk};

use crate::bit_words::{Aligned, aligned_in};
use crate::case::{Case, Refusal};
use crate::shown::Hex;
use base_122::Select;
use bit_pipe::{BitIn, BitOut, OctetOut, Part, PutFault, SliceIn, SliceOut, TextFault};
use dc_depths::{DcPlan, put_dc, put_depths, take_dc, take_depths};
use gaggle_codes::{NumberRange, choose, put_values, take_values};

fn range_of(case: &Case) -> Result<NumberRange, Refusal>
    ensures low { IfOk result (λ range. 2 ≤ range.bits) }
    ensures high { IfOk result (λ range. range.bits ≤ 10) }
{
    Ok(NumberRange {
        signed: case.has("signed"),
        bits: case.named("bits", 2, 10)? as u8,
    })
}

// Reads numbers into cells.
#[tactic(auto, using(bit_pipe::proofs::Taking::in_after_item))]
fn take_cells(
    text: &Aligned,
    range: NumberRange,
    cells: &mut [i32],
) -> Result<(Part, u32), TextFault>
    requires low { 2 ≤ range.bits }
    requires high { range.bits ≤ 10 }
    requires few { length cells.old ≤ 16 }
{
    let mut source = SliceIn::new(text.octets.as_slice());
    let mut input = BitIn::new(&mut source, 0, 0);
    input.take_bits(text.lead)?;
    take_values(&mut input, cells, 1, 0, range)
}

// Numbers of `bits` bits, into cells that were 9.
pub(crate) fn take_numbers(case: &Case) -> Result<String, Refusal> {
    let range = range_of(case)?;
    let count = case.named("count", 1, 16)? as usize;
    let text = aligned_in(case.alloc, case.data)?;
    let mut cells = [9; 16];
    let taken = take_cells(&text, range, &mut cells[..count]);
    let shown = &cells[..count];
    Ok(format!(in case.alloc; "{taken:?} {shown:?}")?)
}

#[tactic(auto, using(bit_pipe::proofs::Taking::in_after_item))]
fn take_marks(text: &Aligned, depth_ac: u8, marks: &mut [i32]) -> Result<Part, TextFault>
    requires most { depth_ac ≤ 27 }
    requires few { length marks.old ≤ 16 }
{
    let mut source = SliceIn::new(text.octets.as_slice());
    let mut input = BitIn::new(&mut source, 0, 0);
    input.take_bits(text.lead)?;
    take_depths(&mut input, marks, depth_ac)
}

// Block depths of at most `most`, into marks that were 9.
pub(crate) fn take_block_depths(case: &Case) -> Result<String, Refusal> {
    let most = case.named("most", 0, 27)? as u8;
    let count = case.named("count", 1, 16)? as usize;
    let text = aligned_in(case.alloc, case.data)?;
    let mut marks = [9; 16];
    let taken = take_marks(&text, most, &mut marks[..count]);
    let shown = &marks[..count];
    Ok(format!(in case.alloc; "{taken:?} {shown:?}")?)
}

fn plan_of(case: &Case) -> Result<DcPlan, Refusal>
    ensures dc { IfOk result (λ plan. plan.depth_dc ≤ 28) }
    ensures shift { IfOk result (λ plan. plan.shift ≤ 3) }
{
    Ok(DcPlan {
        depth_dc: case.named("dc", 1, 28)? as u8,
        depth_ac: case.named("ac", 0, 27)? as u8,
        shift: case.named("shift", 0, 3)? as u8,
    })
}

pub(crate) fn dc_bits(case: &Case) -> Result<String, Refusal> {
    let plan = plan_of(case)?;
    let (q, bits) = (plan.q(), plan.bits());
    Ok(format!(in case.alloc; "{bits} bits above plane {q}")?)
}

// Reads the DCs of blocks into the first numbers of these.
#[tactic(auto, using(bit_pipe::proofs::Taking::in_after_item))]
fn take_first(text: &Aligned, plan: &DcPlan, blocks: &mut [i32]) -> Result<Part, TextFault>
    requires dc { plan.now.depth_dc ≤ 28 }
    requires shift { plan.now.shift ≤ 3 }
    requires few { length blocks.old ≤ 1024 }
{
    let mut source = SliceIn::new(text.octets.as_slice());
    let mut input = BitIn::new(&mut source, 0, 0);
    input.take_bits(text.lead)?;
    take_dc(&mut input, blocks, plan)
}

// The DCs of blocks whose numbers were 9.
pub(crate) fn take_dcs(case: &Case) -> Result<String, Refusal> {
    let plan = plan_of(case)?;
    let count = case.named("count", 1, 16)? as usize;
    let text = aligned_in(case.alloc, case.data)?;
    let mut blocks = [9; 1024];
    let taken = take_first(&text, &plan, &mut blocks[..64 * count]);
    let mut dcs = [0; 16];
    for block in 0..count {
        dcs[block] = blocks[64 * block];
    }
    let shown = &dcs[..count];
    Ok(format!(in case.alloc; "{taken:?} {shown:?}")?)
}

fn select_of(case: &Case) -> Select {
    if case.has("heuristic") {
        Select::Heuristic
    } else {
        Select::Optimal
    }
}

fn fit(values: &[u16], bits: u8) -> bool
    requires { bits < 16 }
    ensures { IsTrue result ↔ ((i : ℕ) → i < length values.now → slice_index values.now i < 2 ^ bits) }
{
    values.iter().all(|value| *value < 1 << bits)
}

// The options of mapped values of `bits` bits.
pub(crate) fn options(case: &Case) -> Result<String, Refusal> {
    let bits = case.named("bits", 2, 10)? as u8;
    let mut values = [0; 16];
    let count = case.data.len();
    if count > 16 {
        return Err(Refusal::Words);
    }
    for place in 0..count {
        values[place] = case.number_at(place, 0, 1023)? as u16;
    }
    let values = &values[..count];
    if !fit(values, bits) {
        return Err(Refusal::Words);
    }
    let heuristic = choose(values, bits, Select::Heuristic);
    let optimal = choose(values, bits, Select::Optimal);
    Ok(format!(in case.alloc; "heuristic {heuristic}, optimal {optimal}")?)
}

// Returns whether the data are these numbers.
fn is_data(case: &Case, numbers: &[i32]) -> bool {
    if case.data.len() != numbers.len() {
        return false;
    }
    for place in 0..numbers.len() {
        match case.signed_at(place, 1 << 27) {
            Ok(number) if number == numbers[place] => {}
            _ => return false,
        }
    }
    true
}

const FOUR: [i32; 4] = [0, 1, 1, -2];

const RANGE: NumberRange = NumberRange {
    signed: true,
    bits: 4,
};

// Puts the four numbers without a limit.
#[tactic(auto, using(bit_pipe::proofs::Putting::open_after))]
fn put_four<O: OctetOut>(out: &mut O, select: Select) -> Result<u64, PutFault>
    requires { (O.sink.counts out.old).given ≡ 0 }
{
    let mut bits = BitOut::new(out, 0, 0);
    put_values(&mut bits, &FOUR, 1, 0, RANGE, select)?;
    Ok(bits.end(1, false)?)
}

// Puts the bits of them that one octet takes.
#[tactic(auto, using(bit_pipe::proofs::Putting::open_later))]
fn put_prefix<O: OctetOut>(out: &mut O, select: Select) -> Result<u64, PutFault>
    requires { (O.sink.counts out.old).given ≡ 0 }
{
    let mut bits = BitOut::new(out, 1, 0);
    if let Err(PutFault::Stopped) = put_values(&mut bits, &FOUR, 1, 0, RANGE, select) {
        return Ok(bits.end(1, false)?);
    }
    Err(PutFault::WriteFault)
}

// The numbers 0, 1, 1 and -2, of four bits, whole or up to a limit of one octet.
pub(crate) fn put_numbers(case: &Case) -> Result<String, Refusal> {
    if !is_data(case, &FOUR) {
        return Err(Refusal::Words);
    }
    let select = select_of(case);
    let mut octets = [0; 2];
    let put = if case.has("limit") {
        put_prefix(&mut SliceOut::new(&mut octets), select)
    } else {
        put_four(&mut SliceOut::new(&mut octets), select)
    };
    let shown = Hex(&octets);
    Ok(format!(in case.alloc; "{put:?} {shown}")?)
}

const MARKS: [i32; 4] = [0, 2, 3, 1];

#[tactic(auto, using(bit_pipe::proofs::Putting::open_after))]
fn put_marks<O: OctetOut>(out: &mut O) -> Result<u64, PutFault>
    requires { (O.sink.counts out.old).given ≡ 0 }
{
    let mut bits = BitOut::new(out, 0, 0);
    put_depths(&mut bits, &MARKS, 3, Select::Optimal)?;
    Ok(bits.end(1, false)?)
}

// The block depths 0, 2, 3 and 1, of at most 3.
pub(crate) fn put_block_depths(case: &Case) -> Result<String, Refusal> {
    if !is_data(case, &MARKS) {
        return Err(Refusal::Words);
    }
    let mut octets = [0; 2];
    let put = put_marks(&mut SliceOut::new(&mut octets));
    let shown = Hex(&octets);
    Ok(format!(in case.alloc; "{put:?} {shown}")?)
}

// Puts nine DCs of 1,600, of depth 12 with a weight of 8.
#[tactic(auto, using(bit_pipe::proofs::Putting::open_after))]
fn put_nine<O: OctetOut>(out: &mut O, select: Select) -> Result<u64, PutFault>
    requires { (O.sink.counts out.old).given ≡ 0 }
{
    let dcs = [1600; 9];
    let plan = DcPlan {
        depth_dc: 12,
        depth_ac: 0,
        shift: 3,
    };
    let mut bits = BitOut::new(out, 0, 0);
    put_dc(&mut bits, &dcs, &plan, select)?;
    Ok(bits.end(1, false)?)
}

// Nine DCs of 1,600.
pub(crate) fn put_dcs(case: &Case) -> Result<String, Refusal> {
    if !is_data(case, &[1600; 9]) {
        return Err(Refusal::Words);
    }
    let mut octets = [0; 3];
    let put = put_nine(&mut SliceOut::new(&mut octets), select_of(case));
    let shown = Hex(&octets);
    Ok(format!(in case.alloc; "{put:?} {shown}")?)
}
