//! Where the numbers of the next block row are put.

use crate::strip::StripInverse;
use block_families::{BandSink, Place};

impl BandSink for StripInverse {
    ghost use Rattle.std.specs.Prelude.{nat_lt};
    ghost use Rattle.inverse_strip.specs.Strip.{columns_of, height_of, taken_of, numbers_of, Keeps, Keeps-itself, Keeps-on};

    ghost columns = { columns_of };

    ghost valid = { λ s. nat_lt (taken_of s) (height_of s) };

    ghost number = { numbers_of };

    ghost keeps = { Keeps };

    ghost keeps_itself = { Keeps-itself };

    ghost keeps_on = { Keeps-on };

    #[inline(always)]
    fn set(&mut self, place: Place, value: i64) {
        self.put(place, value);
    }

    #[inline(always)]
    fn set_square(&mut self, place: Place, values: [i64; 4]) {
        self.put_square(place, values);
    }
}
