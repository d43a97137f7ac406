// Where octets are read from.
ghost use Rattle.std.specs.Prelude.{◌≡◌, ◌≤◌, length};
ghost use Rattle.bit_pipe.specs.Sources.{SourceOf, GivesOctet, Consumes};

use crate::fault::InFault;

/// A place that octets are read from, one by one.
pub trait OctetIn {
    /// What is known of the octets that are left.
    ghost source: { SourceOf Self };

    /// Takes the next octet, or returns none at the end.
    fn take(&mut self) -> Result<Option<u8>, InFault>
        ensures { GivesOctet source result self.old self.new };

    /// Returns the next octets, those that are in memory. It may be empty while more octets follow.
    fn buffer(&self) -> &[u8]
        ensures { result.now ≡ source.buffer self.now };

    /// Takes `count` of the octets in memory at once.
    fn consume(&mut self, count: usize)
        requires { count ≤ length (source.buffer self.old) }
        ensures { Consumes source count self.old self.new };
}
