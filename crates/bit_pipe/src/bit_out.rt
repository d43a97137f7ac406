// Bits that are written into octets.
ghost use Rattle.std.specs.Prelude.{◌≡◌, ◌<◌, ◌≤◌, ◌+◌, ◌-◌, ◌*◌, ◌/◌, ◌%◌, ◌^◌, [], ◌∷◌, ◌++◌, false};

use crate::bound::{octets_within, padded_octets};
use crate::fault::{Failed, PutFault};
use crate::octets::{put_pending, put_zero_octets};
use crate::sink::OctetOut;

/// A writer of bits into a sink, up to a bound (docs/formats.md, "Stops, cut and fill").
///
/// A call that puts bits returns `WriteFault` only if the sink failed, and otherwise `Stopped` exactly if the
/// bits do not all fit below the bound; those that fit were put then. The same holds of all calls that write
/// with it.
#[derive(Drop)]
pub struct BitOut<'a, O> {
    out: &'a mut O,
    pending: u64,
    filled: u8,
    bound: u64,
    room: u64,
    ghost fits: { pending < 2 ^ filled },
    ghost within: { filled < 64 },
}

impl<'a, O: OctetOut> BitOut<'a, O> {
    ghost use Rattle.item_defs.specs.Bits.{bits_of, copies};
    ghost use Rattle.item_defs.specs.Padding.{padded_length};
    ghost use Rattle.bit_pipe.specs.SinkState.{sink_state, IsOpen, Puts, Begins, Closes};
    ghost use Rattle.bit_pipe.specs.Bounds.{bound_of};

    /// Returns a writer of the bits from here on. The bound is `limit` octets, or 2^32 octets if `limit` is 0.
    /// `before` octets of it were given already.
    pub fn new(out: &'a mut O, limit: u64, before: u64) -> BitOut<'a, O>
        requires limit { limit ≤ 2 ^ 32 }
        requires before { before ≡ (O.sink.counts out.old).given }
        requires bound { before ≤ bound_of limit }
        ensures same { result.out.ghost_name ≡ out.entry.ghost_name }
        ensures begins { Begins O.sink out.old (bound_of limit) (sink_state O.sink result) }
        ensures is_open { IsOpen (sink_state O.sink result) }
    {
        let bound = octets_within(limit);
        BitOut {
            out,
            pending: 0,
            filled: 0,
            bound,
            room: 8 * (bound - before),
        }
    }

    /// Puts one bit.
    pub fn put(&mut self, bit: bool) -> Result<(), PutFault>
        requires { IsOpen (sink_state O.sink self.old) }
        ensures { Puts O.sink result (sink_state O.sink self.old) (sink_state O.sink self.new) (bit ∷ []) }
    {
        if self.room == 0 {
            return Err(PutFault::Stopped);
        }
        self.put_fitting(u64::from(bit), 1)
    }

    /// Puts the lowest bits of a number, highest first.
    pub fn put_bits(&mut self, value: u32, count: u8) -> Result<(), PutFault>
        requires count { count ≤ 32 }
        requires bound { IsOpen (sink_state O.sink self.old) }
        ensures { Puts O.sink result (sink_state O.sink self.old) (sink_state O.sink self.new) (bits_of count value) }
    {
        self.put_long(u64::from(value), count)
    }

    /// Puts the lowest bits of a long number, highest first.
    pub fn put_long(&mut self, value: u64, count: u8) -> Result<(), PutFault>
        requires count { count < 64 }
        requires bound { IsOpen (sink_state O.sink self.old) }
        ensures { Puts O.sink result (sink_state O.sink self.old) (sink_state O.sink self.new) (bits_of count value) }
    {
        if u64::from(count) <= self.room {
            return self.put_fitting(value, count);
        }
        let fitting = self.room as u8;
        self.put_fitting(value >> (count - fitting), fitting)?;
        Err(PutFault::Stopped)
    }

    // Puts bits for which there is room. They wait until they fill a word of eight octets.
    #[inline(always)]
    fn put_fitting(&mut self, value: u64, count: u8) -> Result<(), PutFault>
        requires count { count < 64 }
        requires room { count ≤ self.old.room }
        requires bound { IsOpen (sink_state O.sink self.old) }
        ensures { Puts O.sink result (sink_state O.sink self.old) (sink_state O.sink self.new) (bits_of count value) }
    {
        let filled = self.filled + count;
        if filled >= 64 {
            return self.put_word(value, count);
        }
        let low = value & ((1 << count) - 1);
        self.pending = (self.pending << count) | low;
        self.filled = filled;
        self.room -= u64::from(count);
        Ok(())
    }

    // Puts bits that fill a word with those that wait, and gives the word to the sink. Most calls fill none.
    #[cold]
    #[inline(never)]
    fn put_word(&mut self, value: u64, count: u8) -> Result<(), PutFault>
        requires count { count < 64 }
        requires room { count ≤ self.old.room }
        requires full { 64 ≤ self.old.filled + count }
        requires bound { IsOpen (sink_state O.sink self.old) }
        ensures { Puts O.sink result (sink_state O.sink self.old) (sink_state O.sink self.new) (bits_of count value) }
    {
        let low = value & ((1 << count) - 1);
        let rest = self.filled + count - 64;
        let word = (self.pending << (count - rest)) | (low >> rest);
        self.out.put_word(word)?;
        self.pending = low & ((1 << rest) - 1);
        self.filled = rest;
        self.room -= u64::from(count);
        Ok(())
    }

    /// Puts a number of zeros.
    pub fn put_zeros(&mut self, count: u16) -> Result<(), PutFault>
        requires { IsOpen (sink_state O.sink self.old) }
        ensures { Puts O.sink result (sink_state O.sink self.old) (sink_state O.sink self.new) (copies count false) }
    {
        let mut left = count;
        while left > 32 {
            self.put_bits(0, 32)?;
            left -= 32;
        }
        self.put_bits(0, left as u8)
    }

    /// Pads the text with zeros to a multiple of `word` octets, then fills it to the limit if `fill` is set.
    /// Returns its length in octets (docs/formats.md, "Stops, cut and fill").
    pub fn end(self, word: u8, fill: bool) -> Result<u64, Failed>
        requires word { 0 < word }
        requires four { word ≤ 4 }
        requires bound { IsOpen (sink_state O.sink self) }
        requires padded { padded_length word self.bound fill (sink_state O.sink self).used ≤ 8 * self.bound }
        ensures { Closes O.sink result word fill (sink_state O.sink self.entry) self.exit.0.now }
    {
        let used = 8 * self.bound - self.room;
        let length = padded_octets(used, self.bound, word, fill);
        let pending = self.pending;
        let filled = self.filled;
        put_pending(self.out, pending, filled)?;
        put_zero_octets(self.out, length - used.div_ceil(8))?;
        Ok(length)
    }
}
