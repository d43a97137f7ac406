// Masks made of masks.

ghost use Rattle.std.specs.Prelude.{◌≡◌, ◌<◌, ◌≤◌, ◌+◌, ◌-◌, ◌^◌, ℕ, Bool, not, ◌&&◌, ◌||◌};
ghost use Rattle.std.specs.List.{list_any};
ghost use Rattle.plane_defs.specs.Spans.{span};
ghost use Rattle.block_masks.specs.Masks.{Shows};

/// Returns the positions that are in both masks.
#[inline(always)]
pub fn both(a: u64, b: u64) -> u64
    ensures within { result ≤ a }
    ensures if_known { (f g : ℕ → Bool) (start count : ℕ) → Shows a f start count → Shows b g start count → Shows result (λ p. f p && g p) start count }
{
    a & b
}

/// Returns the positions that are in the second mask and not in the first.
#[inline(always)]
pub fn except(a: u64, b: u64) -> u64
    ensures within { (count : ℕ) → b < 2 ^ count → result < 2 ^ count }
    ensures if_known { (f g : ℕ → Bool) (start count : ℕ) → Shows a f start count → Shows b g start count → Shows result (λ p. not (f p) && g p) start count }
{
    b ^ (a & b)
}

/// Returns the positions that are in either mask.
#[inline(always)]
pub fn either(a: u64, b: u64) -> u64
    ensures { (f g : ℕ → Bool) (start count : ℕ) → Shows a f start count → Shows b g start count → Shows result (λ p. f p || g p) start count }
{
    a | b
}

/// Returns `count` positions of a mask, from a place on.
#[inline(always)]
pub fn part(mask: u64, at: u8, count: u8) -> u64
    requires at { at < 64 }
    requires count { count < 64 }
    ensures if_known { (f : ℕ → Bool) (start whole : ℕ) → Shows mask f start whole → at + count ≤ whole → Shows result f (start + at) count }
    ensures within { result < 2 ^ count }
{
    (mask >> at) & ((1 << count) - 1)
}

/// Returns the positions of two masks, one after the other: the first has `at` of them.
#[inline(always)]
pub fn joined(low: u64, high: u64, at: u8) -> u64
    requires at { at < 64 }
    requires low { low < 2 ^ at }
    requires high { high < 2 ^ (64 - at) }
    ensures within { (count : ℕ) → high < 2 ^ count → result < 2 ^ (at + count) }
    ensures if_known { (f : ℕ → Bool) (start count : ℕ) → Shows low f start at → Shows high f (start + at) count → Shows result f start (at + count) }
{
    (high << at) | low
}

/// Returns whether the k-th position is in a mask.
#[inline(always)]
pub fn has(mask: u64, k: u8) -> bool
    requires { k < 64 }
    ensures { (f : ℕ → Bool) (start count : ℕ) → Shows mask f start count → k < count → result ≡ f (start + k) }
{
    (mask >> k) & 1 == 1
}

/// Returns the mask if this holds, and otherwise an empty one.
#[inline(always)]
pub fn masked(mask: u64, holds: bool) -> u64
    ensures within { result ≤ mask }
    ensures if_known { (f : ℕ → Bool) (start count : ℕ) → Shows mask f start count → Shows result (λ p. f p && holds) start count }
{
    if holds { mask } else { 0 }
}

/// Returns a mask of one position.
#[inline(always)]
pub fn one(holds: bool) -> u64
    ensures within { result < 2 }
    ensures if_known { (start : ℕ) → Shows result (λ p. holds) start 1 }
{
    u64::from(holds)
}

/// Returns whether some position is in a mask.
#[inline(always)]
pub fn is_any(mask: u64) -> bool
    ensures { (f : ℕ → Bool) (start count : ℕ) → Shows mask f start count → result ≡ list_any f (span start count) }
{
    mask != 0
}

/// Returns a mask of three positions.
#[inline(always)]
pub fn three(a: bool, b: bool, c: bool) -> u64
    ensures if_known { (f : ℕ → Bool) → f 0 ≡ a → f 1 ≡ b → f 2 ≡ c → Shows result f 0 3 }
    ensures within { result < 8 }
{
    u64::from(a) + 2 * u64::from(b) + 4 * u64::from(c)
}

/// Returns a mask of four positions.
#[inline(always)]
pub fn four(a: bool, b: bool, c: bool, d: bool) -> u64
    ensures if_known { (f : ℕ → Bool) → f 0 ≡ a → f 1 ≡ b → f 2 ≡ c → f 3 ≡ d → Shows result f 0 4 }
    ensures within { result < 16 }
{
    u64::from(a) + 2 * u64::from(b) + 4 * u64::from(c) + 8 * u64::from(d)
}
