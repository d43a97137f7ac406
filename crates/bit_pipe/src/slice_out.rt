// A slice that octets fill.
ghost use Rattle.std.specs.Prelude.{◌≡◌, ◌≤◌, ◌<◌, ◌+◌, ◌^◌, length, MatchResult};

use crate::fault::Failed;
use crate::sink::OctetOut;

/// A sink into a slice. A call fails exactly if the slice is full.
#[derive(Drop)]
pub struct SliceOut<'a> {
    into: &'a mut [u8],
    len: usize,
    faults: u64,
    ghost within: { len ≤ length into.now },
}

impl<'a> SliceOut<'a> {
    ghost use Rattle.item_defs.specs.Bits.{bits_of};
    ghost use Rattle.bit_pipe.specs.Sinks.{GaveOctet, BrokeOctet, PutsOctets};
    ghost use Rattle.bit_pipe.specs.Slices.{filling, slice_sink};

    /// Returns a sink into the slice, to which no octet was given yet.
    pub fn new(into: &'a mut [u8]) -> SliceOut<'a>
        ensures same { result.into.ghost_name ≡ into.entry.ghost_name }
        ensures empty { filling result ≡ record { name = into.entry.ghost_name; slice = into.old; len = 0; faults = 0 } }
    {
        SliceOut {
            into,
            len: 0,
            faults: 0,
        }
    }

    // Takes the next octet if there is room.
    fn take(&mut self, octet: u8) -> Result<(), Failed>
        ensures { MatchResult result
            (λ _. GaveOctet slice_sink self.old self.new octet)
            (λ _. BrokeOctet slice_sink self.old self.new octet) }
    {
        if self.len == self.into.len() {
            self.faults = self.faults.saturating_add(1);
            return Err(Failed);
        }
        self.into[self.len] = octet;
        self.len += 1;
        Ok(())
    }

    // Takes the octets of a word as long as there is room.
    fn take_each(&mut self, word: u64) -> Result<(), Failed>
        ensures { PutsOctets slice_sink result self.old self.new (bits_of 64 word) }
    {
        let mut left: u8 = 64;
        while left > 0 {
            left -= 8;
            self.take(((word >> left) & 0xff) as u8)?;
        }
        Ok(())
    }

    /// Returns how many octets it holds.
    pub fn len(&self) -> usize
        ensures { result ≡ (filling self.now).len }
    {
        self.len
    }
}

impl<'a> OctetOut for SliceOut<'a> {
    ghost use Rattle.bit_pipe.specs.Slices.{slice_sink};

    ghost sink = { slice_sink };

    fn put(&mut self, octet: u8) -> Result<(), Failed> {
        self.take(octet)
    }

    #[inline]
    fn put_word(&mut self, word: u64) -> Result<(), Failed> {
        if self.into.len() - self.len < 8 {
            return self.take_each(word);
        }
        self.into[self.len..self.len + 8].copy_from_slice(&word.to_be_bytes());
        self.len += 8;
        Ok(())
    }
}
