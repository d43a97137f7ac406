// The reader of a word of a block's stage, one item after another.

ghost use Rattle.std.specs.Prelude.{◌≡◌, ◌≤◌, ◌<◌, ◌-◌, ◌^◌, ℕ, Bool, count_ones};
ghost use Rattle.item_defs.specs.Items.{raw};
ghost use Rattle.bit_pipe.specs.SourceState.{source_state, IsIn};
ghost use Rattle.bit_pipe.specs.Answers.{IsBelow, TakesOne};
ghost use Rattle.block_masks.specs.Gaggles.{AreOptions};
ghost use Rattle.block_masks.specs.Masks.{Shows};
ghost use Rattle.plane_defs.specs.Spans.{span};
ghost use Rattle.plane_defs.specs.States.{State};
ghost use Rattle.plane_reader.specs.Takes.{AreIn, Opens, TakesWord, TakesPlaces, TakesFlag, OnSome};

use bit_pipe::{BitIn, OctetIn, TextFault};
use block_masks::{Gaggle, spread};
use word_codes::{WordTables, take_option, take_word_by};

// Returns how many of four places are in a mask.
#[inline(always)]
pub(crate) fn count_of(places: u64) -> u8
    requires { places < 16 }
    ensures { result ≡ count_ones places }
{
    places.count_ones() as u8
}

// Returns a word of one bit.
#[inline(always)]
fn take_raw<I: OctetIn>(input: &mut BitIn<I>) -> Result<Option<u8>, TextFault>
    requires open { IsIn (source_state input.old) }
    ensures { TakesOne I.source (IsBelow 2) raw result (source_state input.old) (source_state input.new) }
{
    let Some(bit) = input.take_bits(1)? else {
        return Ok(None);
    };
    Ok(Some(bit as u8))
}

// Reads the identifier of a length's option, if none was read yet.
#[inline(always)]
fn open<I: OctetIn>(
    input: &mut BitIn<I>,
    gaggle: &mut Gaggle,
    length: u8,
) -> Result<Option<u8>, TextFault>
    requires open { IsIn (source_state input.old) }
    requires short { 2 ≤ length }
    requires long { length ≤ 4 }
    requires known { AreOptions gaggle.old.options }
    ensures option { (s : State) → AreIn gaggle.old s.options → Opens I.source length s result gaggle.new (source_state input.old) (source_state input.new) }
    ensures fits { OnSome result (λ option. option < length) }
    ensures options { AreOptions gaggle.new.options }
    ensures is_in { OnSome result (λ x. IsIn (source_state input.new)) }
{
    let place = length as usize - 2;
    if gaggle.sent[place] {
        return Ok(Some(gaggle.options[place]));
    }
    let Some(option) = take_option(input, length)? else {
        return Ok(None);
    };
    gaggle.options[place] = option;
    gaggle.sent[place] = true;
    Ok(Some(option))
}

// Reads a word of at most four bits. An empty one has no bits, one of one bit is raw, and the identifier of its option
// precedes the first longer one of its length.
#[inline(always)]
pub(crate) fn take_any<I: OctetIn>(
    input: &mut BitIn<I>,
    tables: &WordTables,
    gaggle: &mut Gaggle,
    count: u8,
) -> Result<Option<u8>, TextFault>
    requires open { IsIn (source_state input.old) }
    requires few { count ≤ 4 }
    requires known { AreOptions gaggle.old.options }
    ensures word { (s : State) → AreIn gaggle.old s.options → TakesWord I.source tables.now.book count s result gaggle.new (source_state input.old)
        (source_state input.new) }
    ensures fits { OnSome result (λ value. value < 2 ^ count) }
    ensures options { AreOptions gaggle.new.options }
    ensures is_in { OnSome result (λ x. IsIn (source_state input.new)) }
{
    if count == 0 {
        return Ok(Some(0));
    }
    if count == 1 {
        return take_raw(input);
    }
    let Some(option) = open(input, gaggle, count)? else {
        return Ok(None);
    };
    take_word_by(input, tables, option, count)
}

// Reads a raw bit.
pub(crate) fn take_flag<I: OctetIn>(input: &mut BitIn<I>) -> Result<Option<bool>, TextFault>
    requires open { IsIn (source_state input.old) }
    ensures flag { TakesFlag I.source result (source_state input.old) (source_state input.new) }
    ensures is_in { IsIn (source_state input.new) }
{
    Ok(input.take()?)
}

// Reads the word of at most four due places, and returns the places whose bit is 1.
pub(crate) fn take_due<I: OctetIn>(
    input: &mut BitIn<I>,
    tables: &WordTables,
    gaggle: &mut Gaggle,
    due: u64,
) -> Result<Option<u64>, TextFault>
    requires open { IsIn (source_state input.old) }
    requires due { due < 16 }
    requires known { AreOptions gaggle.old.options }
    ensures places { (s : State) (g : ℕ → Bool) (start count : ℕ) → AreIn gaggle.old s.options → count ≤ 4 → Shows due g start count →
        TakesPlaces I.source tables.now.book due g start count s result gaggle.new (source_state input.old) (source_state input.new) }
    ensures small { (count : ℕ) → count ≤ 4 → due < 2 ^ count → OnSome result (λ places. places < 2 ^ count) }
    ensures options { AreOptions gaggle.new.options }
    ensures is_in { IsIn (source_state input.new) }
{
    let Some(word) = take_any(input, tables, gaggle, count_of(due))? else {
        return Ok(None);
    };
    Ok(Some(spread(due, word)))
}
