// The first bits of an octet.
ghost use Rattle.std.specs.Prelude.{◌≡◌, ◌<◌, ◌≤◌, ◌-◌, ◌^◌, ◌++◌, min};
ghost use Rattle.item_defs.specs.Bits.{bits_of};

// This number of bits, and the number that they make.
#[derive(Clone, Copy)]
pub struct Piece {
    pub value: u8,
    pub count: u8,
}

impl Piece {
    // Returns the first bits of the lowest `left` bits of an octet.
    pub fn first(octet: u8, left: u8, count: u8) -> Piece
        requires left { left ≤ 8 }
        requires count { count ≤ left }
        ensures count { result.count ≡ count }
        ensures fits { result.value < 2 ^ count }
        ensures bits { bits_of left octet ≡ bits_of count result.value ++ bits_of (left - count) octet }
    {
        let bits = u16::from(octet) >> (left - count);
        let value = (bits & ((1 << count) - 1)) as u8;
        Piece { value, count }
    }
}

// Returns how many bits are taken at once: at most those that are asked for, that are left and that have room.
pub fn width_of(most: u8, left: u8, room: u64) -> u8
    ensures { result ≡ min (min most left) room }
{
    u64::from(most.min(left)).min(room) as u8
}
