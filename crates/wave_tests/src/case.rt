// A case: its subject with named numbers, and its data.
use std::alloc::{AllocError, Global};

// Why a case has no answer: its words are not those of its subject, or memory is missing.
#[derive(Clone, Copy, Debug)]
pub(crate) enum Refusal {
    Words,
    Memory,
}

impl From<AllocError> for Refusal {
    fn from(_fault: AllocError) -> Refusal {
        Refusal::Memory
    }
}

// The words before the colon of a case, of which the first is the subject, and those after it.
#[derive(Clone, Copy)]
pub(crate) struct Case<'a> {
    pub alloc: Global,
    pub words: &'a str,
    pub data: &'a str,
}

impl<'a> Case<'a> {
    pub fn subject(&self) -> &'a str {
        self.words.split_whitespace().next().unwrap_or("")
    }

    // Returns whether a word is among those before the colon.
    pub fn has(&self, word: &str) -> bool {
        for other in self.words.split_whitespace() {
            if other == word {
                return true;
            }
        }
        false
    }

    // Returns the word that follows a name before the colon, and an empty one if there is none.
    fn after(&self, name: &str) -> &'a str {
        let mut is_after = false;
        for word in self.words.split_whitespace() {
            if is_after {
                return word;
            }
            is_after = word == name;
        }
        ""
    }

    // Returns the number that follows a name, and the greatest one if there is none.
    pub fn named(&self, name: &str) -> u32 {
        number(self.after(name))
    }

    // Returns the number that follows a name, if there is one.
    pub fn optional(&self, name: &str) -> Option<u32> {
        self.after(name).parse::<u32>().ok()
    }

    // Returns the signed number that follows a name, and the least one if there is none.
    pub fn signed_after(&self, name: &str) -> i32 {
        signed(self.after(name))
    }

    // Returns a word of the data, and an empty one if there is none.
    pub fn datum(&self, place: usize) -> &'a str {
        self.data.split_whitespace().nth(place).unwrap_or("")
    }

    // Returns how many words the data have.
    pub fn len(&self) -> usize {
        self.data.split_whitespace().count()
    }
}

// Returns the number that a word is, and the greatest one if it is none.
pub(crate) fn number(word: &str) -> u32 {
    word.parse::<u32>().unwrap_or(u32::MAX)
}

// Returns the signed number that a word is, and the least one if it is none.
pub(crate) fn signed(word: &str) -> i32 {
    word.parse::<i32>().unwrap_or(i32::MIN)
}
