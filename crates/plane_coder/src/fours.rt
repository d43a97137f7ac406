// The types of positions and their signs, four positions at a time.

ghost use Rattle.std.specs.Prelude.{◌≡◌, ◌<◌, ◌≤◌, ◌+◌, ◌-◌, ◌*◌, ◌/◌, ◌^◌, ℕ, Bool};
ghost use Rattle.std.specs.List.{list_any};
ghost use Rattle.plane_defs.specs.Spans.{span};
ghost use Rattle.block_masks.specs.Masks.{Shows};
ghost use Rattle.plane_coder.specs.Picked.{ArePacked};
ghost use Rattle.plane_coder.specs.Fours.{AreFours, ArePicked};

use crate::plane_masks::Typed;
use block_masks::{PairedFours, joined, part};

// The entry for an octet of four positions of both masks of `Fours`: the word of the types that are due, and the signs after it. Of its four
// digits the first two are those of the signs and the last two those of the word: how many bits, and the number that they make.
const TYPED: [u16; 256] = [
    0x0000, 0x1111, 0x1111, 0x2323, 0x1111, 0x2323, 0x2323, 0x3737, 0x1111, 0x2323, 0x2323, 0x3737,
    0x2323, 0x3737, 0x3737, 0x4f4f, 0x0010, 0x1011, 0x1121, 0x2123, 0x1121, 0x2123, 0x2333, 0x3337,
    0x1121, 0x2123, 0x2333, 0x3337, 0x2333, 0x3337, 0x3747, 0x474f, 0x0010, 0x1122, 0x1011, 0x2223,
    0x1121, 0x2335, 0x2123, 0x3537, 0x1121, 0x2335, 0x2123, 0x3537, 0x2333, 0x374b, 0x3337, 0x4b4f,
    0x0020, 0x1022, 0x1021, 0x2023, 0x1131, 0x2135, 0x2133, 0x3137, 0x1131, 0x2135, 0x2133, 0x3137,
    0x2343, 0x334b, 0x3347, 0x434f, 0x0010, 0x1122, 0x1122, 0x2336, 0x1011, 0x2223, 0x2223, 0x3637,
    0x1121, 0x2335, 0x2335, 0x374d, 0x2123, 0x3537, 0x3537, 0x4d4f, 0x0020, 0x1022, 0x1132, 0x2136,
    0x1021, 0x2023, 0x2233, 0x3237, 0x1131, 0x2135, 0x2345, 0x334d, 0x2133, 0x3137, 0x3547, 0x454f,
    0x0020, 0x1134, 0x1022, 0x2236, 0x1021, 0x2235, 0x2023, 0x3437, 0x1131, 0x2349, 0x2135, 0x354d,
    0x2133, 0x354b, 0x3137, 0x494f, 0x0030, 0x1034, 0x1032, 0x2036, 0x1031, 0x2035, 0x2033, 0x3037,
    0x1141, 0x2149, 0x2145, 0x314d, 0x2143, 0x314b, 0x3147, 0x414f, 0x0010, 0x1122, 0x1122, 0x2336,
    0x1122, 0x2336, 0x2336, 0x374e, 0x1011, 0x2223, 0x2223, 0x3637, 0x2223, 0x3637, 0x3637, 0x4e4f,
    0x0020, 0x1022, 0x1132, 0x2136, 0x1132, 0x2136, 0x2346, 0x334e, 0x1021, 0x2023, 0x2233, 0x3237,
    0x2233, 0x3237, 0x3647, 0x464f, 0x0020, 0x1134, 0x1022, 0x2236, 0x1132, 0x234a, 0x2136, 0x354e,
    0x1021, 0x2235, 0x2023, 0x3437, 0x2233, 0x364b, 0x3237, 0x4a4f, 0x0030, 0x1034, 0x1032, 0x2036,
    0x1142, 0x214a, 0x2146, 0x314e, 0x1031, 0x2035, 0x2033, 0x3037, 0x2243, 0x324b, 0x3247, 0x424f,
    0x0020, 0x1134, 0x1134, 0x234c, 0x1022, 0x2236, 0x2236, 0x364e, 0x1021, 0x2235, 0x2235, 0x364d,
    0x2023, 0x3437, 0x3437, 0x4c4f, 0x0030, 0x1034, 0x1144, 0x214c, 0x1032, 0x2036, 0x2246, 0x324e,
    0x1031, 0x2035, 0x2245, 0x324d, 0x2033, 0x3037, 0x3447, 0x444f, 0x0030, 0x1148, 0x1034, 0x224c,
    0x1032, 0x224a, 0x2036, 0x344e, 0x1031, 0x2249, 0x2035, 0x344d, 0x2033, 0x344b, 0x3037, 0x484f,
    0x0040, 0x1048, 0x1044, 0x204c, 0x1042, 0x204a, 0x2046, 0x304e, 0x1041, 0x2049, 0x2045, 0x304d,
    0x2043, 0x304b, 0x3047, 0x404f,
];

// The entry for each mask of up to four sets: the positions of these sets, four of each.
const FILLED: [u16; 16] = [
    0, 15, 240, 255, 3840, 3855, 4080, 4095, 61440, 61455, 61680, 61695, 65280, 65295, 65520, 65535,
];

// Returns the positions of the sets of a mask, if each set has four positions.
#[inline(always)]
pub(crate) fn filled(sets: u64) -> u64
    requires { sets < 16 }
    ensures { (f : ℕ → Bool) (count : ℕ) → count ≤ 4 → Shows sets f 0 count → (start : ℕ) → Shows result (λ p. f ((p - start) / 4)) start (4 * count) }
{
    u64::from(FILLED[sets as usize])
}

// The entry for each mask of two sets of four positions: the sets that have a position.
const SOME: [u8; 256] = [
    0, 1, 1, 1, 1, 1, 1, 1, 1, 1, 1, 1, 1, 1, 1, 1, 2, 3, 3, 3, 3, 3, 3, 3, 3, 3, 3, 3, 3, 3, 3, 3,
    2, 3, 3, 3, 3, 3, 3, 3, 3, 3, 3, 3, 3, 3, 3, 3, 2, 3, 3, 3, 3, 3, 3, 3, 3, 3, 3, 3, 3, 3, 3, 3,
    2, 3, 3, 3, 3, 3, 3, 3, 3, 3, 3, 3, 3, 3, 3, 3, 2, 3, 3, 3, 3, 3, 3, 3, 3, 3, 3, 3, 3, 3, 3, 3,
    2, 3, 3, 3, 3, 3, 3, 3, 3, 3, 3, 3, 3, 3, 3, 3, 2, 3, 3, 3, 3, 3, 3, 3, 3, 3, 3, 3, 3, 3, 3, 3,
    2, 3, 3, 3, 3, 3, 3, 3, 3, 3, 3, 3, 3, 3, 3, 3, 2, 3, 3, 3, 3, 3, 3, 3, 3, 3, 3, 3, 3, 3, 3, 3,
    2, 3, 3, 3, 3, 3, 3, 3, 3, 3, 3, 3, 3, 3, 3, 3, 2, 3, 3, 3, 3, 3, 3, 3, 3, 3, 3, 3, 3, 3, 3, 3,
    2, 3, 3, 3, 3, 3, 3, 3, 3, 3, 3, 3, 3, 3, 3, 3, 2, 3, 3, 3, 3, 3, 3, 3, 3, 3, 3, 3, 3, 3, 3, 3,
    2, 3, 3, 3, 3, 3, 3, 3, 3, 3, 3, 3, 3, 3, 3, 3, 2, 3, 3, 3, 3, 3, 3, 3, 3, 3, 3, 3, 3, 3, 3, 3,
];

// Returns which of the two sets of four positions from `at` on have a position in a mask of all positions.
#[inline(always)]
fn two_sets(mask: u64, at: u8) -> u64
    requires within { at + 8 ≤ 64 }
    ensures if_known { (f : ℕ → Bool) → Shows mask f 0 64 → Shows result (λ j. list_any f (span (at + 4 * j) 4)) 0 2 }
    ensures within { result < 4 }
{
    u64::from(SOME[part(mask, at, 8) as usize])
}

// Returns which of the four sets of four positions from `at` on have a position in a mask of all positions.
#[inline(always)]
pub(crate) fn four_sets(mask: u64, at: u8) -> u64
    requires { at + 16 ≤ 64 }
    ensures { (f : ℕ → Bool) → Shows mask f 0 64 → Shows result (λ j. list_any f (span (at + 4 * j) 4)) 0 4 }
{
    joined(two_sets(mask, at), two_sets(mask, at + 8), 2)
}

// Two masks of up to sixteen positions, paired. The second has the types that are due and 1. The first has all that are due, except
// those of negative numbers that are 1.
#[derive(Clone, Copy)]
pub(crate) struct Fours {
    pub pairs: PairedFours,
}

impl Fours {
    // Returns the word of the types of four positions from 4k on, and their signs. If no type is due there, both have no bit.
    #[inline(always)]
    pub fn four(&self, k: u8) -> Typed
        requires { k < 4 }
        ensures picked { (d f n : ℕ → Bool) (start count : ℕ) → AreFours d f n start count self.now → 4 * k + 4 ≤ count →
            ArePicked d f n (start + 4 * k) result }
        ensures packed { ArePacked result }
    {
        Typed {
            pair: TYPED[self.pairs.octet(k) as usize],
        }
    }
}
