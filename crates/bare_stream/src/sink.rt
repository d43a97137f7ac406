// Writes the octets of a text to a port.
ghost use Rattle.std.specs.Prelude.{◌≡◌, []};
ghost use Rattle.bare_stream.specs.Sink.{waiting, Flushes};

use arrayvec::ArrayVec;
use bit_pipe::OctetOut;
use port_122::{Failed, Port, write_all};

// The number of octets of a piece, which are written together.
const PIECE: usize = 1024;

/// A port as the sink of the octets of a text. They are written in pieces, and `flush` writes the last of them.
#[derive(Drop)]
pub struct TextSink<'a, X> {
    pub(crate) port: &'a mut X,
    pub(crate) piece: ArrayVec<u8, PIECE>,
    pub(crate) given: u64,
}

impl<'a, X: Port> TextSink<'a, X> {
    /// Returns the sink of a port, to which no octet was given yet.
    pub fn new(port: &'a mut X) -> TextSink<'a, X>
        ensures same { result.port.ghost_name ≡ port.entry.ghost_name }
        ensures port { result.port.now ≡ port.old }
        ensures none { waiting result ≡ [] }
        ensures given { result.given ≡ 0 }
    {
        TextSink {
            port,
            piece: ArrayVec::new(),
            given: 0,
        }
    }

    /// Writes the octets that wait. After `Failed`, a prefix of them is written.
    pub fn flush(&mut self) -> Result<(), Failed>
        ensures { Flushes X.outside result self.old self.new }
    {
        let Ok(()) = write_all(self.port, self.piece.as_slice()) else {
            return Err(Failed);
        };
        self.piece.clear();
        Ok(())
    }
}

impl<'a, X: Port> OctetOut for TextSink<'a, X> {
    ghost use Rattle.bare_stream.specs.TextSinks.{text_sink};

    ghost sink = { text_sink X.outside };

    fn put(&mut self, octet: u8) -> Result<(), bit_pipe::Failed> {
        if self.piece.is_full() {
            let Ok(()) = self.flush() else {
                return Err(bit_pipe::Failed);
            };
        }
        self.piece.push(octet);
        self.given += 1;
        Ok(())
    }
}
