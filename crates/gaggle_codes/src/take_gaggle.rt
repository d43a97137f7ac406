// The reader of the numbers of one gaggle.
ghost use Rattle.std.specs.Prelude.{◌≡◌, ◌<◌, ◌≤◌, ◌+◌, ◌*◌, ◌^◌, ◌-◌, ◌++◌, ◌∷◌, min, suc, ℕ, List, Bool, true, [], length, slice_index, IfOk, IfSome};
ghost use Rattle.bit_pipe.specs.SourceState.{source_state, IsIn};
ghost use Rattle.number_defs.specs.Gaggles.{is_option};
ghost use Rattle.bit_pipe.specs.ScriptSources.{ReadsAs, by_item};
ghost use Rattle.number_defs.specs.NumberScript.{option_script, lead_script, differences_script, gaggle_script, last_of};
ghost use Rattle.gaggle_codes.specs.Given.{heights_in, last_in, by_given, Adds, IsFirst, AreWithin, IsBound, kind_of};

use crate::gaggle_heights::{GAGGLE, GaggleHeights};
use crate::mapped_values::{take_unary_parts, take_whole, uncoded_of};
use crate::range::BoundedRange;
use crate::values::option_bits;
use bit_pipe::{BitIn, OctetIn, Part, TextFault};

// Returns whether an identifier has an option: all ones, or a k in range.
fn names_option(bits: u8, option: u8) -> bool
    requires { 2 ≤ bits }
    ensures { result ≡ is_option bits option }
{
    option == uncoded_of(bits) || option <= bits - 2
}

// Takes the option of a gaggle.
fn take_identifier<I: OctetIn>(input: &mut BitIn<I>, bits: u8) -> Result<Option<u8>, TextFault>
    requires open { IsIn (source_state input.old) }
    requires low { 2 ≤ bits }
    requires high { bits ≤ 10 }
    ensures known { IfOk result (λ option. IfSome option (λ n. is_option bits n ≡ true)) }
    ensures read { (given : List ℕ) → ReadsAs I.source (option_script given bits) (by_item result given) (source_state input.old) (source_state input.new) }
{
    let Some(number) = input.take_bits(option_bits(bits))? else {
        return Ok(None);
    };
    let option = number as u8;
    if !names_option(bits, option) {
        return Err(TextFault::BadOption);
    }
    Ok(Some(option))
}

// Takes the reference, the first number of all.
fn take_reference<I: OctetIn>(
    input: &mut BitIn<I>,
    bounded: BoundedRange,
    numbers: &mut GaggleHeights,
) -> Result<Part, TextFault>
    requires open { IsIn (source_state input.old) }
    requires low { 2 ≤ bounded.range.bits }
    requires high { bounded.range.bits ≤ 10 }
    requires none { heights_in numbers.old ≡ [] }
    ensures adds { IsFirst result numbers.new }
    ensures within { AreWithin bounded.range.bits bounded.most (heights_in numbers.new) }
    ensures read { (too_great : ℕ → Bool) → IsBound bounded.most bounded.range.bits too_great →
        ReadsAs I.source (lead_script (kind_of bounded.range too_great) 0 [])
        (by_given result (heights_in numbers.new)) (source_state input.old) (source_state input.new) }
{
    let Some(number) = input.take_bits(bounded.range.bits)? else {
        return Ok(Part::Ended);
    };
    let height = (number as u16 + bounded.range.negatives()) % (1 << bounded.range.bits);
    if height > bounded.most {
        return Err(TextFault::BadDepth);
    }
    numbers.push(height);
    Ok(Part::Whole)
}

// Takes `count` numbers by an option.
fn take_differences<I: OctetIn>(
    input: &mut BitIn<I>,
    bounded: BoundedRange,
    option: u8,
    count: usize,
    numbers: &mut GaggleHeights,
) -> Result<Part, TextFault>
    requires open { IsIn (source_state input.old) }
    requires bits { bounded.range.bits ≤ 10 }
    requires option { is_option bounded.range.bits option ≡ true }
    requires before { last_in numbers.old < 2 ^ bounded.range.bits }
    requires room { length (heights_in numbers.old) + count ≤ 16 }
    ensures read { (too_great : ℕ → Bool) (prior : List ℕ) → IsBound bounded.most bounded.range.bits too_great →
        last_of (prior ++ heights_in numbers.old) ≡ last_in numbers.old →
        ReadsAs I.source (differences_script (kind_of bounded.range too_great) option count (prior ++ heights_in numbers.old))
        (by_given result (prior ++ heights_in numbers.new)) (source_state input.old) (source_state input.new) }
    ensures adds { Adds result count (heights_in numbers.old) (heights_in numbers.new) }
    ensures within { AreWithin bounded.range.bits bounded.most (heights_in numbers.old) → AreWithin bounded.range.bits bounded.most (heights_in numbers.new) }
{
    let mut room = [0; GAGGLE];
    let zeros = &mut room[..count];
    if option == 0 || option == uncoded_of(bounded.range.bits) {
        return take_whole(input, bounded, option, zeros, numbers);
    }
    let Part::Whole = take_unary_parts(input, bounded.range.bits, option, zeros)? else {
        return Ok(Part::Ended);
    };
    take_whole(input, bounded, option, zeros, numbers)
}

// Takes the numbers of the first gaggle.
pub(crate) fn take_first<I: OctetIn>(
    input: &mut BitIn<I>,
    bounded: BoundedRange,
    size: usize,
    numbers: &mut GaggleHeights,
) -> Result<Part, TextFault>
    requires open { IsIn (source_state input.old) }
    requires low { 2 ≤ bounded.range.bits }
    requires high { bounded.range.bits ≤ 10 }
    requires some { 1 ≤ size }
    requires room { size ≤ 16 }
    requires none { heights_in numbers.old ≡ [] }
    ensures read { (too_great : ℕ → Bool) (all : ℕ) → IsBound bounded.most bounded.range.bits too_great → min all 16 ≡ size →
        ReadsAs I.source (gaggle_script (kind_of bounded.range too_great) all 0 []) (by_given result (heights_in numbers.new)) (source_state input.old)
        (source_state input.new) }
    ensures adds { Adds result size [] (heights_in numbers.new) }
    ensures within { AreWithin bounded.range.bits bounded.most (heights_in numbers.new) }
{
    let Some(option) = take_identifier(input, bounded.range.bits)? else {
        return Ok(Part::Ended);
    };
    let Part::Whole = take_reference(input, bounded, numbers)? else {
        return Ok(Part::Ended);
    };
    take_differences(input, bounded, option, size - 1, numbers)
}

// Takes the numbers of a further gaggle.
pub(crate) fn take_next<I: OctetIn>(
    input: &mut BitIn<I>,
    bounded: BoundedRange,
    size: usize,
    numbers: &mut GaggleHeights,
) -> Result<Part, TextFault>
    requires open { IsIn (source_state input.old) }
    requires low { 2 ≤ bounded.range.bits }
    requires high { bounded.range.bits ≤ 10 }
    requires before { last_in numbers.old < 2 ^ bounded.range.bits }
    requires room { size ≤ 16 }
    requires none { heights_in numbers.old ≡ [] }
    ensures read { (too_great : ℕ → Bool) (all g : ℕ) (prior : List ℕ) → IsBound bounded.most bounded.range.bits too_great →
        min all (16 * suc g + 16) - 16 * suc g ≡ size → last_of prior ≡ last_in numbers.old →
        ReadsAs I.source (gaggle_script (kind_of bounded.range too_great) all (suc g) prior)
        (by_given result (prior ++ heights_in numbers.new)) (source_state input.old) (source_state input.new) }
    ensures adds { Adds result size [] (heights_in numbers.new) }
    ensures within { AreWithin bounded.range.bits bounded.most (heights_in numbers.new) }
{
    let Some(option) = take_identifier(input, bounded.range.bits)? else {
        return Ok(Part::Ended);
    };
    take_differences(input, bounded, option, size, numbers)
}

// Takes the numbers of a gaggle, after the one before it.
pub(crate) fn take_gaggle<I: OctetIn>(
    input: &mut BitIn<I>,
    bounded: BoundedRange,
    gaggle: usize,
    size: usize,
    numbers: &mut GaggleHeights,
) -> Result<Part, TextFault>
    requires open { IsIn (source_state input.old) }
    requires low { 2 ≤ bounded.range.bits }
    requires high { bounded.range.bits ≤ 10 }
    requires before { last_in numbers.old < 2 ^ bounded.range.bits }
    requires some { 1 ≤ size }
    requires room { size ≤ 16 }
    requires none { heights_in numbers.old ≡ [] }
    ensures read { (too_great : ℕ → Bool) (all : ℕ) (prior : List ℕ) → IsBound bounded.most bounded.range.bits too_great →
        min all (16 * gaggle + 16) - 16 * gaggle ≡ size → length prior ≡ 16 * gaggle → (0 < gaggle → last_of prior ≡ last_in numbers.old) →
        ReadsAs I.source (gaggle_script (kind_of bounded.range too_great) all gaggle prior)
        (by_given result (prior ++ heights_in numbers.new)) (source_state input.old) (source_state input.new) }
    ensures adds { Adds result size [] (heights_in numbers.new) }
    ensures most { length (heights_in numbers.new) ≤ size }
    ensures within { AreWithin bounded.range.bits bounded.most (heights_in numbers.new) }
{
    if gaggle == 0 {
        return take_first(input, bounded, size, numbers);
    }
    take_next(input, bounded, size, numbers)
}
