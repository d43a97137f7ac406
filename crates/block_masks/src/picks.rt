// The bits of four positions that are due, as a word and back.

ghost use Rattle.std.specs.Prelude.{◌≡◌, ◌<◌, ◌≤◌, ◌-◌, ◌/◌, ◌%◌, ◌^◌, ℕ, Bool, map, filter, count_ones};
ghost use Rattle.plane_defs.specs.Spans.{span};
ghost use Rattle.block_masks.specs.Masks.{Shows};
ghost use Rattle.block_masks.specs.Picks.{packed, AreSpread};

// The entry for sixteen times a mask of what is due, plus a mask of bits: sixteen times the number of bits that are
// due, plus the number that they make, the first position highest.
const PICKS: [u8; 256] = [
    0, 0, 0, 0, 0, 0, 0, 0, 0, 0, 0, 0, 0, 0, 0, 0, 16, 17, 16, 17, 16, 17, 16, 17, 16, 17, 16, 17,
    16, 17, 16, 17, 16, 16, 17, 17, 16, 16, 17, 17, 16, 16, 17, 17, 16, 16, 17, 17, 32, 34, 33, 35,
    32, 34, 33, 35, 32, 34, 33, 35, 32, 34, 33, 35, 16, 16, 16, 16, 17, 17, 17, 17, 16, 16, 16, 16,
    17, 17, 17, 17, 32, 34, 32, 34, 33, 35, 33, 35, 32, 34, 32, 34, 33, 35, 33, 35, 32, 32, 34, 34,
    33, 33, 35, 35, 32, 32, 34, 34, 33, 33, 35, 35, 48, 52, 50, 54, 49, 53, 51, 55, 48, 52, 50, 54,
    49, 53, 51, 55, 16, 16, 16, 16, 16, 16, 16, 16, 17, 17, 17, 17, 17, 17, 17, 17, 32, 34, 32, 34,
    32, 34, 32, 34, 33, 35, 33, 35, 33, 35, 33, 35, 32, 32, 34, 34, 32, 32, 34, 34, 33, 33, 35, 35,
    33, 33, 35, 35, 48, 52, 50, 54, 48, 52, 50, 54, 49, 53, 51, 55, 49, 53, 51, 55, 32, 32, 32, 32,
    34, 34, 34, 34, 33, 33, 33, 33, 35, 35, 35, 35, 48, 52, 48, 52, 50, 54, 50, 54, 49, 53, 49, 53,
    51, 55, 51, 55, 48, 48, 52, 52, 50, 50, 54, 54, 49, 49, 53, 53, 51, 51, 55, 55, 64, 72, 68, 76,
    66, 74, 70, 78, 65, 73, 69, 77, 67, 75, 71, 79,
];

/// Returns the bits at the due ones of up to four positions, in order: sixteen times their number, plus the
/// number that they make with the first of them highest.
#[inline(always)]
pub fn pick(due: u64, bits: u64) -> u8
    requires due { due < 16 }
    requires bits { bits < 16 }
    ensures picked { (f g : ℕ → Bool) (start count : ℕ) → count ≤ 4 → Shows due g start count → Shows bits f start count →
        result ≡ packed (map f (filter g (span start count))) }
    ensures within { result < 80 }
    ensures fits { result % 16 < 2 ^ (result / 16) }
{
    PICKS[(16 * due + bits) as usize]
}

// Returns the bits at the due ones of four positions, as `pick` does: the high digits of an octet are what is due, and the low ones the bits.
#[inline(always)]
pub(crate) fn pick_octet(octet: u64) -> u8
    requires octet { octet < 256 }
    ensures picked { (f g : ℕ → Bool) (start : ℕ) → Shows (octet / 16) g start 4 → Shows (octet % 16) f start 4 →
        result ≡ packed (map f (filter g (span start 4))) }
    ensures within { result < 80 }
    ensures fits { result % 16 < 2 ^ (result / 16) }
{
    PICKS[octet as usize]
}

// The entry for each mask of what is due, and each number that the bits of the due positions make, the first highest: the
// positions whose bit is 1. The entry of a number of more bits is 0.
const SPREADS: [[u8; 16]; 16] = [
    [0, 0, 0, 0, 0, 0, 0, 0, 0, 0, 0, 0, 0, 0, 0, 0],
    [0, 1, 0, 0, 0, 0, 0, 0, 0, 0, 0, 0, 0, 0, 0, 0],
    [0, 2, 0, 0, 0, 0, 0, 0, 0, 0, 0, 0, 0, 0, 0, 0],
    [0, 2, 1, 3, 0, 0, 0, 0, 0, 0, 0, 0, 0, 0, 0, 0],
    [0, 4, 0, 0, 0, 0, 0, 0, 0, 0, 0, 0, 0, 0, 0, 0],
    [0, 4, 1, 5, 0, 0, 0, 0, 0, 0, 0, 0, 0, 0, 0, 0],
    [0, 4, 2, 6, 0, 0, 0, 0, 0, 0, 0, 0, 0, 0, 0, 0],
    [0, 4, 2, 6, 1, 5, 3, 7, 0, 0, 0, 0, 0, 0, 0, 0],
    [0, 8, 0, 0, 0, 0, 0, 0, 0, 0, 0, 0, 0, 0, 0, 0],
    [0, 8, 1, 9, 0, 0, 0, 0, 0, 0, 0, 0, 0, 0, 0, 0],
    [0, 8, 2, 10, 0, 0, 0, 0, 0, 0, 0, 0, 0, 0, 0, 0],
    [0, 8, 2, 10, 1, 9, 3, 11, 0, 0, 0, 0, 0, 0, 0, 0],
    [0, 8, 4, 12, 0, 0, 0, 0, 0, 0, 0, 0, 0, 0, 0, 0],
    [0, 8, 4, 12, 1, 9, 5, 13, 0, 0, 0, 0, 0, 0, 0, 0],
    [0, 8, 4, 12, 2, 10, 6, 14, 0, 0, 0, 0, 0, 0, 0, 0],
    [0, 8, 4, 12, 2, 10, 6, 14, 1, 9, 5, 13, 3, 11, 7, 15],
];

/// Returns the positions of a word: those among up to four due ones whose bit is 1, if the word's highest bit is for
/// the first of them.
#[inline(always)]
pub fn spread(due: u64, word: u8) -> u64
    requires due { due < 16 }
    requires word { word < 16 }
    ensures { AreSpread due word result }
{
    u64::from(SPREADS[due as usize][word as usize])
}

// The entry for each mask of what is due, and each four bits: the positions whose bit is 1, if the first of these bits are for them.
const FIRST_SPREADS: [[u8; 16]; 16] = [
    [0, 0, 0, 0, 0, 0, 0, 0, 0, 0, 0, 0, 0, 0, 0, 0],
    [0, 0, 0, 0, 0, 0, 0, 0, 1, 1, 1, 1, 1, 1, 1, 1],
    [0, 0, 0, 0, 0, 0, 0, 0, 2, 2, 2, 2, 2, 2, 2, 2],
    [0, 0, 0, 0, 2, 2, 2, 2, 1, 1, 1, 1, 3, 3, 3, 3],
    [0, 0, 0, 0, 0, 0, 0, 0, 4, 4, 4, 4, 4, 4, 4, 4],
    [0, 0, 0, 0, 4, 4, 4, 4, 1, 1, 1, 1, 5, 5, 5, 5],
    [0, 0, 0, 0, 4, 4, 4, 4, 2, 2, 2, 2, 6, 6, 6, 6],
    [0, 0, 4, 4, 2, 2, 6, 6, 1, 1, 5, 5, 3, 3, 7, 7],
    [0, 0, 0, 0, 0, 0, 0, 0, 8, 8, 8, 8, 8, 8, 8, 8],
    [0, 0, 0, 0, 8, 8, 8, 8, 1, 1, 1, 1, 9, 9, 9, 9],
    [0, 0, 0, 0, 8, 8, 8, 8, 2, 2, 2, 2, 10, 10, 10, 10],
    [0, 0, 8, 8, 2, 2, 10, 10, 1, 1, 9, 9, 3, 3, 11, 11],
    [0, 0, 0, 0, 8, 8, 8, 8, 4, 4, 4, 4, 12, 12, 12, 12],
    [0, 0, 8, 8, 4, 4, 12, 12, 1, 1, 9, 9, 5, 5, 13, 13],
    [0, 0, 8, 8, 4, 4, 12, 12, 2, 2, 10, 10, 6, 6, 14, 14],
    [0, 8, 4, 12, 2, 10, 6, 14, 1, 9, 5, 13, 3, 11, 7, 15],
];

/// Returns the positions of a word that is first in four bits: those among up to four due ones whose bit is 1, if the highest of
/// the four bits is for the first of them.
#[inline(always)]
pub fn spread_first(due: u64, bits: u8) -> u64
    requires due { due < 16 }
    requires bits { bits < 16 }
    ensures { AreSpread due (bits / 2 ^ (4 - count_ones due)) result }
{
    u64::from(FIRST_SPREADS[due as usize][bits as usize])
}
