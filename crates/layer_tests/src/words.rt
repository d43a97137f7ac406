// Code options and the code words of words.
ghost use Rattle.std.specs.Prelude.{◌≡◌, ◌<◌, ◌≤◌, ◌^◌, IfOk};

use crate::bit_words::{Aligned, aligned_in};
use crate::case::{Case, Refusal};
use crate::shown::Hex;
use bit_pipe::{BitIn, BitOut, PutFault, SliceIn, SliceOut, TextFault};
use word_codes::{best_option, profile_book, put_option, put_word, take_option, take_word};

// The option for the words of a length, by how often each of the first four symbols is there.
pub(crate) fn best(case: &Case) -> Result<String, Refusal> {
    let length = case.named("length", 2, 4)? as u8;
    let mut counts = [0; 16];
    counts[0] = case.number_at(0, 0, 1000)? as u32;
    counts[1] = case.number_at(1, 0, 1000)? as u32;
    counts[2] = case.number_at(2, 0, 1000)? as u32;
    counts[3] = case.number_at(3, 0, 1000)? as u32;
    let option = best_option(&profile_book(), &counts, length);
    Ok(format!(in case.alloc; "option {option}")?)
}

// A word of four bits, its option, and the option whose identifier is before it.
#[derive(Clone, Copy)]
struct Coded {
    identified: u8,
    option: u8,
    word: u8,
    ghost known: { identified < 4 },
    ghost coded: { option < 4 },
    ghost fits: { word < 16 },
}

#[tactic(auto, using(bit_pipe::proofs::Putting::open_after))]
fn put_coded(into: &mut [u8], coded: Coded) -> Result<u64, PutFault> {
    let mut sink = SliceOut::new(into);
    let mut out = BitOut::new(&mut sink, 0, 0);
    put_option(&mut out, 4, coded.identified)?;
    put_word(&mut out, &profile_book(), coded.option, coded.word, 4)?;
    Ok(out.end(1, false)?)
}

pub(crate) fn put(case: &Case) -> Result<String, Refusal> {
    let coded = Coded {
        identified: case.named("identifier", 0, 3)? as u8,
        option: case.named("option", 0, 3)? as u8,
        word: case.named("word", 0, 15)? as u8,
    };
    let mut octets = [0; 4];
    let put = put_coded(&mut octets, coded);
    let shown = Hex(&octets);
    Ok(format!(in case.alloc; "{put:?} {shown}")?)
}

#[tactic(auto, using(bit_pipe::proofs::Taking::in_after_item))]
fn option_in(text: &Aligned, length: u8) -> Result<Option<u8>, TextFault>
    requires short { 2 ≤ length }
    requires long { length ≤ 4 }
{
    let mut source = SliceIn::new(text.octets.as_slice());
    let mut input = BitIn::new(&mut source, 0, 0);
    input.take_bits(text.lead)?;
    take_option(&mut input, length)
}

pub(crate) fn take_identifier(case: &Case) -> Result<String, Refusal> {
    let length = case.named("length", 2, 4)? as u8;
    let text = aligned_in(case.alloc, case.data)?;
    let taken = option_in(&text, length);
    Ok(format!(in case.alloc; "{taken:?}")?)
}

#[tactic(auto, using(bit_pipe::proofs::Taking::in_after_item))]
fn word_in(text: &Aligned, option: u8, length: u8) -> Result<Option<u8>, TextFault>
    requires short { 2 ≤ length }
    requires long { length ≤ 4 }
    requires known { option < length }
{
    let mut source = SliceIn::new(text.octets.as_slice());
    let mut input = BitIn::new(&mut source, 0, 0);
    input.take_bits(text.lead)?;
    take_word(&mut input, &profile_book(), option, length)
}

pub(crate) fn take(case: &Case) -> Result<String, Refusal> {
    let length = case.named("length", 2, 4)?;
    let option = case.named("option", 0, length - 1)?;
    let text = aligned_in(case.alloc, case.data)?;
    let taken = word_in(&text, option as u8, length as u8);
    Ok(format!(in case.alloc; "{taken:?}")?)
}
