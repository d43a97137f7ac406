// A slice that octets are read from.
ghost use Rattle.std.specs.Prelude.{◌≡◌, ◌≤◌, length};

use crate::fault::InFault;
use crate::source::OctetIn;

/// A source of the octets of a slice. No call fails.
#[derive(Drop)]
pub struct SliceIn<'a> {
    octets: &'a [u8],
    next: usize,
    ghost within: { next ≤ length octets.now },
}

impl<'a> SliceIn<'a> {
    ghost use Rattle.bit_pipe.specs.Streams.{octets_left};

    /// Returns a source of all octets of the slice, in order.
    pub fn new(octets: &'a [u8]) -> SliceIn<'a>
        ensures { octets_left result ≡ octets.now }
    {
        SliceIn { octets, next: 0 }
    }
}

impl<'a> OctetIn for SliceIn<'a> {
    ghost use Rattle.bit_pipe.specs.Streams.{slice_source};

    ghost source = { slice_source };

    fn take(&mut self) -> Result<Option<u8>, InFault> {
        if self.next == self.octets.len() {
            return Ok(None);
        }
        let octet = self.octets[self.next];
        self.next += 1;
        Ok(Some(octet))
    }

    #[inline(always)]
    fn buffer(&self) -> &[u8] {
        &self.octets[self.next..]
    }

    #[inline(always)]
    fn consume(&mut self, count: usize) {
        self.next += count;
    }
}
