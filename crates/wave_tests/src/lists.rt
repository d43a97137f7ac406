// Lists of one length, one list after the other.
ghost use Rattle.std.specs.Prelude.{◌≡◌, ◌≤◌, IfSome, length};
ghost use Rattle.std.specs.Bool.{OnTrue};
ghost use Rattle.wave_defs.specs.Within.{AllWithin};
ghost use Rattle.wave_defs.specs.Held.{signal};

use crate::case::{Case, Refusal};
use std::alloc::Global;

// Adds the numbers of a word, which has commas between them.
fn push_numbers(list: &mut Vec<i32>, word: &str) -> Result<(), Refusal> {
    for part in word.split(',') {
        let Ok(number) = part.parse::<i32>() else {
            return Err(Refusal::Words);
        };
        let Ok(()) = list.push(number) else {
            return Err(Refusal::Memory);
        };
    }
    Ok(())
}

// Returns the numbers of a word.
pub(crate) fn list_in(alloc: Global, word: &str) -> Result<Vec<i32>, Refusal> {
    let mut list = Vec::new(alloc);
    push_numbers(&mut list, word)?;
    Ok(list)
}

// Returns the lists of the data.
pub(crate) fn lists_in(case: &Case) -> Result<Vec<i32>, Refusal> {
    let mut lists = Vec::new(case.alloc);
    for word in case.data.split_whitespace() {
        push_numbers(&mut lists, word)?;
    }
    Ok(lists)
}

// Adds the numbers of 64 bits of a word.
fn push_wide(list: &mut Vec<i64>, word: &str) -> Result<(), Refusal> {
    for part in word.split(',') {
        let Ok(number) = part.parse::<i64>() else {
            return Err(Refusal::Words);
        };
        let Ok(()) = list.push(number) else {
            return Err(Refusal::Memory);
        };
    }
    Ok(())
}

// Returns the lists of the data, of 64 bits.
pub(crate) fn wide_lists_in(case: &Case) -> Result<Vec<i64>, Refusal> {
    let mut lists = Vec::new(case.alloc);
    for word in case.data.split_whitespace() {
        push_wide(&mut lists, word)?;
    }
    Ok(lists)
}

// Returns the length of each of the lists of the data, which are together so long.
pub(crate) fn length_in(case: &Case, numbers: usize) -> usize {
    numbers / case.len().max(1)
}

// Returns whether magnitudes are at most this.
pub(crate) fn are_within(numbers: &[i32], most: u32) -> bool
    ensures { OnTrue result (AllWithin most (length numbers.now) (signal numbers.now)) }
{
    for place in 0..numbers.len() {
        if numbers[place].unsigned_abs() > most {
            return false;
        }
    }
    true
}

pub(crate) fn are_wide_within(numbers: &[i64], most: u64) -> bool
    ensures { OnTrue result (AllWithin most (length numbers.now) (signal numbers.now)) }
{
    for place in 0..numbers.len() {
        if numbers[place].unsigned_abs() > most {
            return false;
        }
    }
    true
}

// Returns one of the lists of this length, if its magnitudes are at most this.
pub(crate) fn part(lists: &[i32], place: usize, count: usize, most: u32) -> Option<&[i32]>
    ensures len { IfSome result (λ part. length part.now ≡ count) }
    ensures small { IfSome result (λ part. AllWithin most count (signal part.now)) }
{
    let first = place.checked_mul(count)?;
    let end = first.checked_add(count)?;
    let part = lists.get(first..end)?;
    if are_within(part, most) {
        return Some(part);
    }
    None
}

pub(crate) fn wide_part(lists: &[i64], place: usize, count: usize, most: u64) -> Option<&[i64]>
    ensures len { IfSome result (λ part. length part.now ≡ count) }
    ensures small { IfSome result (λ part. AllWithin most count (signal part.now)) }
{
    let first = place.checked_mul(count)?;
    let end = first.checked_add(count)?;
    let part = lists.get(first..end)?;
    if are_wide_within(part, most) {
        return Some(part);
    }
    None
}
