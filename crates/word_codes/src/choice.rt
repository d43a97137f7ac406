// The choice of an option by the bits that it takes.

ghost use Rattle.std.specs.Prelude.{◌≡◌, ◌+◌, ◌-◌, ◌≤◌, ◌<◌, ◌^◌, sum};
ghost use Rattle.plane_defs.specs.Codes.{table_place};
ghost use Rattle.plane_defs.specs.Choice.{code_length, cost, cheapest};

use base_122::Book;

// Returns the index of the table of a coded option.
pub(crate) fn table_at(length: u8, option: u8) -> usize
    requires short { 2 ≤ length }
    requires long { length ≤ 4 }
    requires coded { option + 1 < length }
    ensures value { result ≡ table_place length option }
    ensures within { result < 6 }
{
    match length {
        2 => 0,
        3 => 1 + option as usize,
        _ => 3 + option as usize,
    }
}

fn length_of(book: &Book, length: u8, option: u8, symbol: u8) -> u8
    requires short { 2 ≤ length }
    requires long { length ≤ 4 }
    requires known { option < length }
    requires fits { symbol < 2 ^ length }
    ensures { result ≡ code_length book.now length option symbol }
{
    if option + 1 == length {
        return length;
    }
    book.codes[table_at(length, option)][symbol as usize].len
}

#[tactic(auto, using(crate::proofs::Costs::costs), unfolding(plane_defs::specs::Choice::cost))]
fn cost_of(book: &Book, counts: &[u32; 16], length: u8, option: u8) -> u32
    requires short { 2 ≤ length }
    requires long { length ≤ 4 }
    requires known { option < length }
    requires few { sum counts.now < 2 ^ 20 }
    ensures { result ≡ cost book.now length counts.now option }
{
    let mut total = 0;
    for symbol in 0..1usize << length {
        let bits = length_of(book, length, option, symbol as u8);
        total += counts[symbol] * u32::from(bits);
    }
    total
}

/// Returns the option under which words with these counts of each symbol take the fewest bits; on a tie the
/// least option, so uncoded is last (docs/formats.md, "Words and codes").
///
/// `length` is the words' length, 2 to 4; the counts sum to less than 2^20.
pub fn best_option(book: &Book, counts: &[u32; 16], length: u8) -> u8
    requires short { 2 ≤ length }
    requires long { length ≤ 4 }
    requires few { sum counts.now < 2 ^ 20 }
    ensures cheapest { result ≡ cheapest book.now length counts.now }
    ensures known { result < length }
{
    let mut best = 0;
    let mut fewest = cost_of(book, counts, length, 0);
    for option in 1..length {
        let bits = cost_of(book, counts, length, option);
        if bits < fewest {
            best = option;
            fewest = bits;
        }
    }
    best
}
