// The bound of a text.
ghost use Rattle.std.specs.Prelude.{◌≡◌, ◌≤◌, ◌<◌, ◌*◌, ◌^◌};
ghost use Rattle.item_defs.specs.Padding.{padded_length};
ghost use Rattle.bit_pipe.specs.Bounds.{bound_of};

// Returns the bound in octets: a limit of 0 is 2^32.
pub fn octets_within(limit: u64) -> u64
    ensures { result ≡ bound_of limit }
{
    if limit == 0 { 1 << 32 } else { limit }
}

// Returns how many octets a text of this number of bits has, padded to words and filled to the bound.
pub fn padded_octets(used: u64, bound: u64, word: u8, fill: bool) -> u64
    requires word { 0 < word }
    requires four { word ≤ 4 }
    requires bound { bound ≤ 2 ^ 32 }
    requires within { padded_length word bound fill used ≤ 8 * bound }
    ensures { 8 * result ≡ padded_length word bound fill used }
{
    if fill {
        return bound;
    }
    used.div_ceil(8 * u64::from(word)) * u64::from(word)
}
