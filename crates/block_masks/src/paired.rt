// Two masks of all positions as octets of four positions of each, of which a table picks.

ghost use Rattle.std.specs.Prelude.{◌≡◌, ◌<◌, ◌+◌, ◌*◌, ◌/◌, ◌%◌, ◌^◌, ℕ, Bool, map, filter};
ghost use Rattle.plane_defs.specs.Spans.{span};
ghost use Rattle.block_masks.specs.Masks.{Shows};
ghost use Rattle.block_masks.specs.Picks.{packed};
ghost use Rattle.block_masks.specs.Paired.{ArePaired, AreOctets};

use crate::picks::pick_octet;

// The first four positions of each eight.
const FIRST_FOURS: u64 = 0x0f0f_0f0f_0f0f_0f0f;

// Returns octets: each has the first four of eight positions of both masks, those of the first mask as its high digits.
#[inline(always)]
fn octets_of(high: u64, low: u64) -> u64
    ensures { AreOctets high low result }
{
    16 * (high & FIRST_FOURS) + (low & FIRST_FOURS)
}

/// What is due of all positions, and bits of them, four positions of both in an octet each.
#[derive(Clone, Copy)]
pub struct PairedFours {
    even: u64,
    odd: u64,
}

impl PairedFours {
    /// Returns the octets of two masks.
    #[inline(always)]
    pub fn of(due: u64, bits: u64) -> PairedFours
        ensures { ArePaired due bits result }
    {
        PairedFours {
            even: octets_of(due, bits),
            odd: octets_of(due >> 4, bits >> 4),
        }
    }

    /// Returns the octet of four positions from 4k on: what is due is sixteen times as much in it.
    #[inline(always)]
    pub fn octet(&self, k: u8) -> u64
        requires { k < 16 }
        ensures value { (due bits : ℕ) → ArePaired due bits self.now → result ≡ 16 * (due / 2 ^ (4 * k) % 2 ^ 4) + bits / 2 ^ (4 * k) % 2 ^ 4 }
        ensures within { result < 256 }
    {
        let octets = if k % 2 == 0 { self.even } else { self.odd };
        (octets >> (8 * (k / 2))) % 0x100
    }

    /// Returns the bits at the due ones of four positions from 4k on, as `pick` does.
    #[inline(always)]
    pub fn pick(&self, k: u8) -> u8
        requires { k < 16 }
        ensures picked { (due bits : ℕ) (f g : ℕ → Bool) → ArePaired due bits self.now → Shows due g 0 64 → Shows bits f 0 64 →
            result ≡ packed (map f (filter g (span (4 * k) 4))) }
        ensures within { result < 80 }
        ensures fits { result % 16 < 2 ^ (result / 16) }
    {
        pick_octet(self.octet(k))
    }
}
