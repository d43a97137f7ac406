// The option of a gaggle.
ghost use Rattle.std.specs.Prelude.{◌≡◌, ◌<◌, ◌≤◌, ◌+◌, ◌/◌, ◌^◌, ◌⊎◌, ℕ, length, sum, sum_by, slice_index};
ghost use Rattle.number_defs.specs.Choice.{by_total, heuristic, optimal};
ghost use Rattle.gaggle_codes.specs.Options.{choice_of, name_of};

use base_122::Select;

// The number of the option that codes values as they are.
pub(crate) const UNCODED: u8 = 15;

/// Chooses how a gaggle's mapped values are coded, and returns k, or 15 for uncoded (docs/formats.md,
/// "Numbers by differences"). There are at most 16 values, each of `bits` bits, 2 to 10.
pub fn choose(values: &[u16], bits: u8, select: Select) -> u8
    requires low { 2 ≤ bits }
    requires high { bits ≤ 10 }
    requires count { length values.now ≤ 16 }
    requires values { (i : ℕ) → i < length values.now → slice_index values.now i < 2 ^ bits }
    ensures { result ≡ name_of bits (choice_of select bits values.now) }
{
    match select {
        Select::Heuristic => heuristic_of(values, bits),
        Select::Optimal => optimal_of(values, bits),
    }
}

fn heuristic_of(values: &[u16], bits: u8) -> u8
    requires low { 2 ≤ bits }
    requires high { bits ≤ 10 }
    requires count { length values.now ≤ 16 }
    requires values { (i : ℕ) → i < length values.now → slice_index values.now i < 2 ^ bits }
    ensures { result ≡ name_of bits (heuristic bits values.now) }
{
    option_by_total(values.len() as u32, total_of(values), bits)
}

fn total_of(values: &[u16]) -> u32
    requires count { length values.now ≤ 16 }
    ensures { result ≡ sum values.now }
{
    values.iter().map(|value| *value as u32).sum()
}

fn option_by_total(count: u32, total: u32, bits: u8) -> u8
    requires low { 2 ≤ bits }
    requires high { bits ≤ 10 }
    requires count { count ≤ 16 }
    requires total { total ≤ 2 ^ 14 }
    ensures { result ≡ name_of bits (by_total bits count total) }
{
    if 64 * total >= 23 * count * (1 << bits) {
        return UNCODED;
    }
    if 207 * count > 128 * total {
        return 0;
    }
    let mut k = bits - 2;
    while k > 0 && count * (1 << (k + 7)) > 128 * total + 49 * count {
        k -= 1;
    }
    k
}

// Returns the option of the fewest bits: uncoded on a tie, otherwise the least k.
fn optimal_of(values: &[u16], bits: u8) -> u8
    requires low { 2 ≤ bits }
    requires high { bits ≤ 10 }
    requires count { length values.now ≤ 16 }
    requires values { (i : ℕ) → i < length values.now → slice_index values.now i < 2 ^ bits }
    ensures { result ≡ name_of bits (optimal bits values.now) }
{
    let mut best = UNCODED;
    let mut fewest = values.len() as u32 * bits as u32;
    for k in 0..bits - 1 {
        let needed = split_bits(values, k);
        if needed < fewest {
            best = k;
            fewest = needed;
        }
    }
    best
}

// Returns the number of bits of values that are split at k.
fn split_bits(values: &[u16], k: u8) -> u32
    requires count { length values.now ≤ 16 }
    requires k { k ≤ 10 }
    ensures { result ≡ sum_by (λ v. (v / 2 ^ k + 1) + k) values.now }
{
    values
        .iter()
        .map(|value| (*value >> k) as u32 + 1 + k as u32)
        .sum()
}
