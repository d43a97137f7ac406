// Reads mapped values and the numbers of a gaggle from bits.
ghost use Rattle.std.specs.Prelude.{◌≡◌, ◌<◌, ◌≤◌, ◌+◌, ◌-◌, ◌*◌, ◌^◌, ◌++◌, ◌∷◌, ◌==◌, ◌||◌, [], ℕ, List, Bool, true, length, slice_index, MatchResult};
ghost use Rattle.std.specs.Prelude.{IfOk, IfSome};
ghost use Rattle.bit_pipe.specs.SourceState.{source_state, IsIn};
ghost use Rattle.bit_pipe.specs.declared.fault.TextFault.TheVariants.{BadDepth};
ghost use Rattle.number_defs.specs.Mapping.{unmapped};
ghost use Rattle.number_defs.specs.Gaggles.{uncoded, is_option};
ghost use Rattle.item_defs.specs.Scripts.{in_turn};
ghost use Rattle.bit_pipe.specs.ScriptSources.{ReadsAs, by_item, by_part};
ghost use Rattle.number_defs.specs.NumberScript.{zeros_form, zeros_script, value_form, number_script, last_of};
ghost use Rattle.gaggle_codes.specs.Given.{heights_in, last_in, by_given, Adds, AreWithin, IsBound, kind_of};
ghost use Rattle.gaggle_codes.specs.Items.{EndsForm, free_kind};

use crate::gaggle_heights::GaggleHeights;
use crate::range::BoundedRange;
use crate::unmapping::unmapped_of;
use crate::values::option_bits;
use bit_pipe::{BitIn, OctetIn, Part, TextFault};

// Returns the identifier of uncoded values: all ones.
pub(crate) fn uncoded_of(bits: u8) -> u8
    ensures is { result ≡ uncoded bits }
{
    (1 << option_bits(bits)) - 1
}

// Takes a unary part, and returns the number of its zeros.
fn take_unary<I: OctetIn>(input: &mut BitIn<I>, bits: u8, k: u8) -> Result<Option<u16>, TextFault>
    requires open { IsIn (source_state input.old) }
    requires bits { bits ≤ 10 }
    ensures few { IfOk result (λ zeros. IfSome zeros (λ n. n < 2 ^ (bits - k))) }
    ensures read { EndsForm I.source (zeros_form bits k) (λ n. n) (by_item result tt) (source_state input.old) (source_state input.new) }
{
    let limit = 1 << bits.saturating_sub(k);
    let Some(zeros) = input.take_zeros(limit)? else {
        return Ok(None);
    };
    if zeros == limit {
        return Err(TextFault::BadDelta);
    }
    Ok(Some(zeros))
}

// Takes the item that makes a mapped value whole, after this number of zeros, and returns the value.
fn take_value<I: OctetIn>(
    input: &mut BitIn<I>,
    bits: u8,
    option: u8,
    zeros: u16,
) -> Result<Option<u16>, TextFault>
    requires open { IsIn (source_state input.old) }
    requires bits { bits ≤ 10 }
    requires option { is_option bits option ≡ true }
    requires zeros { zeros < 2 ^ (bits - option) }
    requires plain { ((option == 0) || (option == uncoded bits)) ≡ true → zeros ≡ 0 }
    ensures few { IfOk result (λ value. IfSome value (λ n. n < 2 ^ bits)) }
    ensures read { EndsForm I.source (value_form (free_kind bits) option 0 zeros) (λ n. zeros * 2 ^ option + n)
        (by_item result tt) (source_state input.old) (source_state input.new) }
{
    if option == uncoded_of(bits) {
        let Some(value) = input.take_bits(bits)? else {
            return Ok(None);
        };
        return Ok(Some(value as u16));
    }
    if option == 0 {
        return take_unary(input, bits, option);
    }
    let Some(rest) = input.take_bits(option)? else {
        return Ok(None);
    };
    Ok(Some((zeros << option) + rest as u16))
}

// Adds the number of a mapped value, unless it is too great.
fn follow(numbers: &mut GaggleHeights, bounded: BoundedRange, value: u16) -> Result<(), TextFault>
    requires room { length (heights_in numbers.old) < 16 }
    requires bits { bounded.range.bits ≤ 10 }
    requires before { last_in numbers.old < 2 ^ bounded.range.bits }
    requires value { value < 2 ^ bounded.range.bits }
    ensures is { MatchResult result (λ _. last_in numbers.new ≡ unmapped bounded.range.bits (last_in numbers.old) value) (λ fault. fault ≡ BadDepth) }
    ensures few { unmapped bounded.range.bits (last_in numbers.old) value < 2 ^ bounded.range.bits }
    ensures bound { MatchResult result (λ _. last_in numbers.new ≤ bounded.most)
        (λ fault. bounded.most < unmapped bounded.range.bits (last_in numbers.old) value) }
    ensures numbers { MatchResult result (λ _. heights_in numbers.new ≡ heights_in numbers.old ++ last_in numbers.new ∷ [])
        (λ fault. heights_in numbers.new ≡ heights_in numbers.old) }
{
    let height = unmapped_of(bounded.range.bits, numbers.last(), value);
    if height > bounded.most {
        return Err(TextFault::BadDepth);
    }
    numbers.push(height);
    Ok(())
}

// Takes all unary parts of a gaggle, and returns the numbers of their zeros.
pub(crate) fn take_unary_parts<I: OctetIn>(
    input: &mut BitIn<I>,
    bits: u8,
    k: u8,
    zeros: &mut [u16],
) -> Result<Part, TextFault>
    requires open { IsIn (source_state input.old) }
    requires bits { bits ≤ 10 }
    requires none { (j : ℕ) → slice_index zeros.old j ≡ 0 }
    ensures few { (j : ℕ) → slice_index zeros.new j < 2 ^ (bits - k) }
    ensures read { (given : List ℕ) → ReadsAs I.source (zeros_script given bits k (length zeros.old) [])
        (by_part result zeros.new given) (source_state input.old) (source_state input.new) }
{
    for place in 0..zeros.len() {
        let Some(count) = take_unary(input, bits, k)? else {
            return Ok(Part::Ended);
        };
        zeros[place] = count;
    }
    Ok(Part::Whole)
}

// Takes the items that make mapped values whole, one after another, and adds their numbers.
pub(crate) fn take_whole<I: OctetIn>(
    input: &mut BitIn<I>,
    bounded: BoundedRange,
    option: u8,
    zeros: &[u16],
    numbers: &mut GaggleHeights,
) -> Result<Part, TextFault>
    requires open { IsIn (source_state input.old) }
    requires bits { bounded.range.bits ≤ 10 }
    requires option { is_option bounded.range.bits option ≡ true }
    requires before { last_in numbers.old < 2 ^ bounded.range.bits }
    requires zeros { (j : ℕ) → slice_index zeros.now j < 2 ^ (bounded.range.bits - option) }
    requires plain { ((option == 0) || (option == uncoded bounded.range.bits)) ≡ true → (j : ℕ) → slice_index zeros.now j ≡ 0 }
    requires room { length (heights_in numbers.old) + length zeros.now ≤ 16 }
    ensures read { (too_great : ℕ → Bool) (prior : List ℕ) → IsBound bounded.most bounded.range.bits too_great →
        last_of (prior ++ heights_in numbers.old) ≡ last_in numbers.old →
        ReadsAs I.source (in_turn (λ j. number_script (kind_of bounded.range too_great) option (slice_index zeros.now j)) 0 (length zeros.now)
        (prior ++ heights_in numbers.old)) (by_given result (prior ++ heights_in numbers.new)) (source_state input.old) (source_state input.new) }
    ensures adds { Adds result (length zeros.now) (heights_in numbers.old) (heights_in numbers.new) }
    ensures within { AreWithin bounded.range.bits bounded.most (heights_in numbers.old) → AreWithin bounded.range.bits bounded.most (heights_in numbers.new) }
{
    for zeros in zeros {
        let Some(value) = take_value(input, bounded.range.bits, option, *zeros)? else {
            return Ok(Part::Ended);
        };
        follow(numbers, bounded, value)?;
    }
    Ok(Part::Whole)
}
