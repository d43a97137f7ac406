// What the program can ask of the outside.
ghost use Rattle.std.specs.Prelude.{MatchResult};
ghost use Rattle.port_122.specs.Outside.{Outside, Read, ReadFailed, Written, WriteFailed, Noted, NoteFailed};

/// The fault of a call of a port that failed. The port counts it.
#[derive(Clone, Copy, Debug, PartialEq, Eq)]
pub struct Failed;

/// One reader and two writers, as standard input, output and error (docs/architecture.md, "The outside").
///
/// A port may report which octets are still to be read, and which it has taken, given and noted. It always
/// has three counts of faults. None of them falls, and none is raised past 2^64 - 1.
pub trait Port {
    /// What is known of the outside: the octets that a port reports, and the faults so far.
    ghost outside: { Self → Outside };

    /// Reads some octets into the start of a piece, and returns their number. It is 0 only at the end of the
    /// input, or if the piece is empty. After `Failed` nothing is taken and `read_faults` rose.
    fn read(&mut self, into: &mut [u8]) -> Result<usize, Failed>
        ensures { MatchResult result
            (λ n. Read (outside self.old) (outside self.new) into.new n)
            (λ _. ReadFailed (outside self.old) (outside self.new)) };

    /// Gives the first octets of a piece, and returns their number: at least one of a piece that is not
    /// empty. After `Failed` nothing is given and `write_faults` rose.
    fn write(&mut self, bytes: &[u8]) -> Result<usize, Failed>
        ensures { MatchResult result
            (λ n. Written (outside self.old) (outside self.new) bytes.now n)
            (λ _. WriteFailed (outside self.old) (outside self.new)) };

    /// Notes the first octets of a piece, and returns their number: at least one of a piece that is not
    /// empty. After `Failed` nothing is noted and `note_faults` rose.
    fn note(&mut self, bytes: &[u8]) -> Result<usize, Failed>
        ensures { MatchResult result
            (λ n. Noted (outside self.old) (outside self.new) bytes.now n)
            (λ _. NoteFailed (outside self.old) (outside self.new)) };
}
