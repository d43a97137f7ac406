// The octets of a port, at most a given number of them.
ghost use Rattle.std.specs.Prelude.{◌≡◌, ◌≤◌, ◌<◌, true, length, MatchResult};
ghost use Rattle.port_122.specs.Outside.{ReadFailed};
ghost use Rattle.bare_stream.specs.Pieces.{ReadsPiece};

use bit_pipe::{InFault, OctetIn};
use port_122::{Failed, Port};

// The number of octets that are read together.
const PIECE: usize = 1024;

/// A port as the source of the octets of a bare stream. It takes at most the number of octets that it was made with, in pieces, and reads
/// on only if each octet that it has taken was given and another one is asked for. Once a read failed, it reads no more.
#[derive(Drop)]
pub struct PortIn<'a, X> {
    pub(crate) port: &'a mut X,
    // The number of octets that may still be taken from the port.
    pub(crate) left: u64,
    piece: [u8; PIECE],
    next: usize,
    end: usize,
    // Whether a read failed.
    pub(crate) failed: bool,
    ghost order: { next ≤ end },
    ghost within: { end ≤ length piece },
    ghost size: { length piece ≡ 1024 },
    ghost over: { failed ≡ true → next ≡ end },
}

// Reads octets into the first places of a piece, at most `most`; their number is 0 only at the end.
fn read_piece<X: Port>(port: &mut X, piece: &mut [u8], most: usize) -> Result<usize, Failed>
    requires some { 0 < most }
    requires room { most ≤ length piece.old }
    ensures reads { MatchResult result (ReadsPiece (X.outside port.old) (X.outside port.new) most piece.new)
        (λ _. ReadFailed (X.outside port.old) (X.outside port.new)) }
    ensures size { length piece.new ≡ length piece.old }
{
    port.read(&mut piece[..most])
}

impl<'a, X: Port> PortIn<'a, X> {
    ghost use Rattle.std.specs.Prelude.{[], Ok, true, false};
    ghost use Rattle.bare_stream.specs.Input.{waiting, FillsPiece, GivesFirst};
    ghost use Rattle.bare_stream.specs.Inputs.{IsReady};

    /// Returns the octets of a port, of which at most `octets` are taken.
    pub fn new(port: &'a mut X, octets: u64) -> PortIn<'a, X>
        ensures same { result.port.ghost_name ≡ port.entry.ghost_name }
        ensures port { result.port.now ≡ port.old }
        ensures none { waiting result ≡ [] }
        ensures left { result.left ≡ octets }
        ensures whole { result.failed ≡ false }
    {
        PortIn {
            port,
            left: octets,
            piece: [0; PIECE],
            next: 0,
            end: 0,
            failed: false,
        }
    }

    // Reads the next piece, of which all octets were given. Returns false at the end.
    fn fill(&mut self) -> Result<bool, InFault>
        requires none { self.old.next ≡ self.old.end }
        ensures fills { FillsPiece X.outside result self.old self.new }
    {
        if self.left == 0 {
            return Err(InFault::LongInput);
        }
        if self.failed {
            return Err(InFault::ReadFault);
        }
        let most = self.left.min(PIECE as u64) as usize;
        self.next = 0;
        self.end = 0;
        let Ok(count) = read_piece(self.port, &mut self.piece[..], most) else {
            self.failed = true;
            return Err(InFault::ReadFault);
        };
        self.end = count;
        self.left -= count as u64;
        Ok(0 < count)
    }

    // Reads the next piece if no octet waits. Returns whether one waits then.
    fn make_ready(&mut self) -> Result<bool, InFault>
        ensures ready { IsReady X.outside result self.old self.new }
        ensures waits { result ≡ Ok true → self.new.next < self.new.end }
    {
        if self.next < self.end {
            return Ok(true);
        }
        self.fill()
    }

    // Gives the first octet that waits.
    fn give(&mut self) -> u8
        requires { self.old.next < self.old.end }
        ensures { GivesFirst result self.old self.new }
    {
        let octet = self.piece[self.next];
        self.next += 1;
        octet
    }
}

impl<'a, X: Port> OctetIn for PortIn<'a, X> {
    ghost use Rattle.bare_stream.specs.Inputs.{source_of};

    ghost source = { source_of X.outside };

    fn take(&mut self) -> Result<Option<u8>, InFault> {
        if !self.make_ready()? {
            return Ok(None);
        }
        Ok(Some(self.give()))
    }

    #[inline(always)]
    fn buffer(&self) -> &[u8] {
        &self.piece[self.next..self.end]
    }

    #[inline(always)]
    fn consume(&mut self, count: usize) {
        self.next += count;
    }
}
