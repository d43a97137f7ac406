// A reader and a writer whose answers a contract can name.
ghost use Rattle.std.specs.Prelude.{ℕ, List, Option, Result, ⊤};
ghost use Rattle.std.specs.Io.{ReadsAtMost, WritesAtMost};
ghost use Rattle.std.specs.Io.KnownBytes.{ReadConsumes, WriteAppends};
ghost use Rattle.std.specs.declared.io.Error.{Error};

use std::io::{self, Read, Write};

/// A reader, as `Read` is one, of which a contract can say what a call returned. Each `Read` is one.
pub trait Reader {
    /// The octets that are still to be read, where they are known.
    ghost remaining: { Self → Option (List ℕ) };

    /// A call on this reader may return this answer, and leave the reader like this.
    ghost answers: { Self → Result ℕ Error → Self → Type 0 };

    /// Makes one call of the reader, which reads some octets into the start of a piece and returns their number.
    fn read_once(&mut self, into: &mut [u8]) -> io::Result<usize>
        ensures bound { ReadsAtMost result into.new }
        ensures octets { ReadConsumes (remaining self.old) (remaining self.new) result into.new }
        ensures answer { answers self.old result self.new };
}

/// A writer, as `Write` is one, of which a contract can say what a call returned. Each `Write` is one.
pub trait Writer {
    /// The octets that it holds, where they are known.
    ghost contents: { Self → Option (List ℕ) };

    /// A call on this writer may return this answer, and leave the writer like this.
    ghost answers: { Self → Result ℕ Error → Self → Type 0 };

    /// Makes one call of the writer, which writes the first of some octets and returns their number.
    fn write_once(&mut self, octets: &[u8]) -> io::Result<usize>
        ensures bound { WritesAtMost result octets.now }
        ensures octets { WriteAppends (contents self.old) (contents self.new) result octets.now }
        ensures answer { answers self.old result self.new };
}

// No contract can say what a file or a pipe answers.
impl<I: Read> Reader for I {
    ghost remaining = { I.Read.remaining };

    ghost answers = { λ _ _ _. ⊤ };

    fn read_once(&mut self, into: &mut [u8]) -> io::Result<usize> {
        self.read(into)
    }
}

impl<O: Write> Writer for O {
    ghost contents = { O.Write.contents };

    ghost answers = { λ _ _ _. ⊤ };

    fn write_once(&mut self, octets: &[u8]) -> io::Result<usize> {
        self.write(octets)
    }
}
