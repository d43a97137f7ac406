// Calls of a reader and a writer, each made again if it was interrupted.
ghost use Rattle.std.specs.Io.{ReadsAtMost, WritesAtMost};
ghost use Rattle.std.specs.Io.KnownBytes.{ReadConsumes, WriteAppends};
ghost use Rattle.port_122.specs.Answers.{EndsWith};

use crate::answers::{Reader, Writer};
use std::io::{Error, ErrorKind, Result};

// Reads some octets, as `read` does. An interrupted call took nothing and is made again, at most 2^64 - 1 times.
pub(crate) fn read_some<I: Reader>(input: &mut I, into: &mut [u8]) -> Result<usize>
    ensures bound { ReadsAtMost result into.new }
    ensures octets { ReadConsumes (I.remaining input.old) (I.remaining input.new) result into.new }
    ensures answer { EndsWith I.answers input.old result input.new }
{
    let mut interrupted: u64 = 0;
    'tries: while interrupted < u64::MAX {
        match input.read_once(into) {
            Ok(count) => return Ok(count),
            Err(e) if e.kind() == ErrorKind::Interrupted => interrupted += 1,
            Err(e) => return Err(e),
        }
    }
    Err(Error::from(ErrorKind::Other))
}

// Writes the first of some octets, as `write` does. An interrupted call wrote nothing and is made again, at most
// 2^64 - 1 times.
pub(crate) fn write_some<O: Writer>(output: &mut O, octets: &[u8]) -> Result<usize>
    ensures bound { WritesAtMost result octets.now }
    ensures octets { WriteAppends (O.contents output.old) (O.contents output.new) result octets.now }
    ensures answer { EndsWith O.answers output.old result output.new }
{
    let mut interrupted: u64 = 0;
    'tries: while interrupted < u64::MAX {
        match output.write_once(octets) {
            Ok(count) => return Ok(count),
            Err(e) if e.kind() == ErrorKind::Interrupted => interrupted += 1,
            Err(e) => return Err(e),
        }
    }
    Err(Error::from(ErrorKind::Other))
}
