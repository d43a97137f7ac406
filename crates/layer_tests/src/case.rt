// A case: its subject with named numbers, and its data.
ghost use Rattle.std.specs.Prelude.{◌≤◌, IfOk, unsigned_abs};

use std::alloc::{AllocError, Global};

// Why a case has no answer: its words are not those of its subject, or memory is missing.
#[derive(Clone, Copy, Debug)]
pub(crate) enum Refusal {
    Words,
    Memory,
}

impl From<AllocError> for Refusal {
    fn from(_fault: AllocError) -> Refusal {
        Refusal::Memory
    }
}

// Adds a value.
pub(crate) fn push<T: Drop>(values: &mut Vec<T>, value: T) -> Result<(), AllocError> {
    values.push(value)?;
    Ok(())
}

// The words of a case: those before the colon, of which the first is the subject, and those after it.
#[derive(Clone, Copy)]
pub(crate) struct Case<'a> {
    pub alloc: Global,
    pub words: &'a [&'a str],
    pub data: &'a [&'a str],
}

impl<'a> Case<'a> {
    pub fn subject(&self) -> &'a str {
        self.words.first().copied().unwrap_or("")
    }

    // Returns whether a word is among those before the colon.
    pub fn has(&self, word: &str) -> bool {
        for other in self.words.iter() {
            if *other == word {
                return true;
            }
        }
        false
    }

    // Returns the number that follows a name, if it is in this range.
    pub fn named(&self, name: &str, least: u64, most: u64) -> Result<u64, Refusal>
        ensures low { IfOk result (λ n. least ≤ n) }
        ensures high { IfOk result (λ n. n ≤ most) }
    {
        for place in 1..self.words.len() {
            if self.words[place - 1] == name {
                return number(self.words[place], least, most);
            }
        }
        Err(Refusal::Words)
    }

    // Returns the words that follow one before the colon, none if it isn't there.
    pub fn words_after(&self, word: &str) -> &'a [&'a str] {
        for place in 0..self.words.len() {
            if self.words[place] == word {
                return &self.words[place + 1..];
            }
        }
        &[]
    }

    // Returns the signed number that follows a name, if its magnitude is in range.
    pub fn signed_named(&self, name: &str, most: u32) -> Result<i32, Refusal>
        ensures { IfOk result (λ n. unsigned_abs n ≤ most) }
    {
        match self.words_after(name).first() {
            Some(word) => signed(word, most),
            None => Err(Refusal::Words),
        }
    }

    // Returns the number at a place of the data, if it is in this range.
    pub fn number_at(&self, place: usize, least: u64, most: u64) -> Result<u64, Refusal>
        ensures low { IfOk result (λ n. least ≤ n) }
        ensures high { IfOk result (λ n. n ≤ most) }
    {
        match self.data.get(place) {
            Some(word) => number(word, least, most),
            None => Err(Refusal::Words),
        }
    }

    // Returns the signed number at a place of the data, if its magnitude is in range.
    pub fn signed_at(&self, place: usize, most: u32) -> Result<i32, Refusal>
        ensures { IfOk result (λ n. unsigned_abs n ≤ most) }
    {
        match self.data.get(place) {
            Some(word) => signed(word, most),
            None => Err(Refusal::Words),
        }
    }
}

// Returns the number that a word is, if it is in this range.
pub(crate) fn number(word: &str, least: u64, most: u64) -> Result<u64, Refusal>
    ensures low { IfOk result (λ n. least ≤ n) }
    ensures high { IfOk result (λ n. n ≤ most) }
{
    match word.parse::<u64>() {
        Ok(number) if least <= number && number <= most => Ok(number),
        _ => Err(Refusal::Words),
    }
}

// Returns the signed number that a word is, if its magnitude is in range.
pub(crate) fn signed(word: &str, most: u32) -> Result<i32, Refusal>
    ensures { IfOk result (λ n. unsigned_abs n ≤ most) }
{
    match word.parse::<i32>() {
        Ok(number) if number.unsigned_abs() <= most => Ok(number),
        _ => Err(Refusal::Words),
    }
}
