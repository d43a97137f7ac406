// Where octets are written.
ghost use Rattle.std.specs.Prelude.{◌<◌, ◌≤◌, ◌+◌, ◌^◌, MatchResult};
ghost use Rattle.item_defs.specs.Bits.{bits_of};
ghost use Rattle.bit_pipe.specs.Sinks.{SinkOf, GaveOctet, BrokeOctet, PutsOctets};

use crate::fault::Failed;

/// A place where octets are written, one by one.
pub trait OctetOut {
    /// What is known of the octets so far.
    ghost sink: { SinkOf Self };

    /// Gives one octet.
    fn put(&mut self, octet: u8) -> Result<(), Failed>
        requires { (sink.counts self.old).given < 2 ^ 32 }
        ensures { MatchResult result
            (λ _. GaveOctet sink self.old self.new octet)
            (λ _. BrokeOctet sink self.old self.new octet) };

    /// Gives the eight octets of a word, highest first, up to one that is not taken.
    fn put_word(&mut self, word: u64) -> Result<(), Failed>
        requires { (sink.counts self.old).given + 8 ≤ 2 ^ 32 }
        ensures { PutsOctets sink result self.old self.new (bits_of 64 word) }
    {
        let mut left: u8 = 64;
        while left > 0 {
            left -= 8;
            self.put(((word >> left) & 0xff) as u8)?;
        }
        Ok(())
    }
}
