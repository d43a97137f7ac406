// The positions of a mask, one after another.

ghost use Rattle.std.specs.Prelude.{◌≡◌, ◌<◌, ℕ, true, false};
ghost use Rattle.item_defs.specs.Bits.{bit as bit_in};

/// Returns the first position of a mask that is not empty.
#[inline(always)]
pub fn first_in(mask: u64) -> u8
    requires some { 0 < mask }
    ensures within { result < 64 }
    ensures here { bit_in mask result ≡ true }
    ensures none_before { (k : ℕ) → k < result → bit_in mask k ≡ false }
{
    mask.trailing_zeros() as u8
}

/// Returns the positions of a mask except this one.
#[inline(always)]
pub fn without(mask: u64, position: u8) -> u64
    requires position { position < 64 }
    ensures gone { bit_in result position ≡ false }
    ensures others { (k : ℕ) → k < 64 → (k ≡ position → ⊥) → bit_in result k ≡ bit_in mask k }
    ensures fewer { bit_in mask position ≡ true → result < mask }
{
    mask & !(1 << position)
}
