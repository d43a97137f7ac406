// Octets as a word.
ghost use Rattle.std.specs.Prelude.{◌≡◌, ◌≤◌, ◌+◌, ◌++◌, ℕ, take};
ghost use Rattle.item_defs.specs.Bits.{bits_of, bits_of_octets, AreOctets};

// Returns the word of an octet and the first seven of the eight that follow, the first highest.
#[inline(always)]
pub fn word_of(octet: u8, next: &[u8; 8]) -> u64
    ensures octets { AreOctets next.now }
    ensures bits { (left : ℕ) → left ≤ 8 → bits_of (left + 56) result ≡ bits_of left octet ++ bits_of_octets (take 7 next.now) }
{
    (u64::from(octet) << 56) | (u64::from_be_bytes(*next) >> 8)
}
