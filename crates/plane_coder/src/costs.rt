// The bits that the words of a gaggle take under each option of their lengths.

ghost use Rattle.std.specs.Prelude.{◌≡◌, ◌+◌, ◌*◌, ◌/◌, ◌%◌, ◌^◌, ◌≤◌, ◌<◌, ℕ, [], ◌∷◌};

use crate::tables::CodeTables;
use crate::words::Words;

// Sums of bits, in fields of 12 bits. `short` has those of words of two bits under both options, and then those of words of three bits
// under all three. `long` has those of words of four bits under all four.
#[derive(Clone, Copy)]
pub(crate) struct Costs {
    pub short: u64,
    pub long: u64,
}

impl Costs {
    ghost use Rattle.plane_coder.specs.Costs.{Adds, IsRoomy};
    ghost use Rattle.plane_coder.specs.Picked.{IsPacked, word_of};
    ghost use Rattle.plane_coder.specs.Listed.{listed};

    #[inline(always)]
    pub fn new() -> Costs
        ensures short { result.short ≡ 0 }
        ensures long { result.long ≡ 0 }
    {
        Costs { short: 0, long: 0 }
    }

    #[inline(always)]
    fn add(&mut self, tables: &CodeTables, word: u8)
        requires packed { IsPacked word }
        requires room { IsRoomy self.old (2 ^ 62) }
        ensures { Adds tables.now.book self.old self.new (word_of word ∷ []) 1 }
    {
        self.short += tables.short_costs[word as usize];
        self.long += tables.long_costs[word as usize];
    }

    // Adds the bits of the words of a list.
    #[inline(always)]
    pub fn add_words<const MOST: usize>(&mut self, tables: &CodeTables, words: &Words<MOST>)
        requires few { words.now.count ≤ 2 ^ 8 }
        requires room { IsRoomy self.old (2 ^ 61) }
        ensures { Adds tables.now.book self.old self.new (listed words.now) words.now.count }
    {
        for i in 0..words.count() {
            self.add(tables, words.at(i).word());
        }
    }
}

// Returns the bits in the field of a place.
#[inline(always)]
fn field_of(sums: u64, place: u8) -> u64
    requires { place < 5 }
    ensures { result ≡ sums / 2 ^ (12 * place) % 2 ^ 12 }
{
    (sums >> (12 * place)) % 0x1000
}

// Returns which of the fields from a place on has the fewest bits, on a tie the first of them.
#[inline(always)]
pub(crate) fn least(sums: u64, from: u8, count: u8) -> u8
    requires some { 0 < count }
    requires within { from + count ≤ 5 }
    ensures known { result < count }
    ensures fewest { (other : ℕ) → other < count → sums / 2 ^ (12 * (from + result)) % 2 ^ 12 ≤ sums / 2 ^ (12 * (from + other)) % 2 ^ 12 }
    ensures least { (other : ℕ) → other < result → sums / 2 ^ (12 * (from + result)) % 2 ^ 12 < sums / 2 ^ (12 * (from + other)) % 2 ^ 12 }
{
    let mut best = 0;
    let mut fewest = field_of(sums, from);
    for option in 1..count {
        let bits = field_of(sums, from + option);
        if bits < fewest {
            best = option;
            fewest = bits;
        }
    }
    best
}
