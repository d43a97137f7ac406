// The real outside: the trusted edge of the program.
ghost use Rattle.std.specs.Prelude.{◌≡◌, ℕ, length, Result, MatchResult};
ghost use Rattle.std.specs.Io.KnownBytes.{ReadConsumes, WriteAppends, Keeps};
ghost use Rattle.port_122.specs.Outside.{Outside, Read, ReadFailed, Written, WriteFailed, Noted, NoteFailed};
ghost use Rattle.port_122.specs.Faults.{HasFaults, faults_after};
ghost use Rattle.port_122.specs.Standard.{outside_of};
ghost use Rattle.port_122.specs.Answers.{EndsWith, IsRead, IsWritten};
ghost use Rattle.std.specs.declared.io.Error.{Error};

use crate::answers::{Reader, Writer};
use crate::port::{Failed, Port};
use crate::retries::{read_some, write_some};

/// A port over a reader and two writers, which counts their faults (docs/architecture.md, "The outside").
///
/// It reports no octets: nothing is claimed of what a file, a pipe or a terminal holds. A call that was interrupted
/// (`ErrorKind::Interrupted`) moved nothing and is made again. Any other error is a fault, also `WouldBlock`, and so
/// is a write or a note that takes nothing of a piece that is not empty.
#[derive(Drop)]
pub struct StdPort<I: Reader, O: Writer, N: Writer> {
    input: I,
    output: O,
    notes: N,
    read_faults: u64,
    write_faults: u64,
    note_faults: u64,
}

impl<I: Reader, O: Writer, N: Writer> StdPort<I, O, N> {
    /// Returns a port over these, without a fault so far.
    pub fn new(input: I, output: O, notes: N) -> StdPort<I, O, N>
        ensures input { result.input ≡ input }
        ensures output { result.output ≡ output }
        ensures notes { result.notes ≡ notes }
        ensures faults { HasFaults (outside_of result) 0 0 0 }
    {
        StdPort {
            input,
            output,
            notes,
            read_faults: 0,
            write_faults: 0,
            note_faults: 0,
        }
    }
}

impl<I: Reader, O: Writer, N: Writer> Port for StdPort<I, O, N> {
    ghost outside = { outside_of };

    fn read(&mut self, into: &mut [u8]) -> Result<usize, Failed>
        ensures octets { MatchResult result
            (λ n. Read (outside_of self.old) (outside_of self.new) into.new n)
            (λ _. ReadFailed (outside_of self.old) (outside_of self.new)) }
        ensures faults { HasFaults (outside_of self.new) (faults_after result self.old.read_faults) self.old.write_faults self.old.note_faults }
        ensures answer { (answer : Result ℕ Error) × EndsWith I.answers self.old.input answer self.new.input × IsRead answer result }
        ensures reads { ReadConsumes (I.remaining self.old.input) (I.remaining self.new.input) result into.new }
        ensures output { self.new.output ≡ self.old.output }
        ensures notes { self.new.notes ≡ self.old.notes }
    {
        match read_some(&mut self.input, into) {
            Ok(count) => Ok(count),
            Err(_) => {
                self.read_faults = self.read_faults.saturating_add(1);
                Err(Failed)
            }
        }
    }

    fn write(&mut self, bytes: &[u8]) -> Result<usize, Failed>
        ensures octets { MatchResult result
            (λ n. Written (outside_of self.old) (outside_of self.new) bytes.now n)
            (λ _. WriteFailed (outside_of self.old) (outside_of self.new)) }
        ensures faults { HasFaults (outside_of self.new) self.old.read_faults (faults_after result self.old.write_faults) self.old.note_faults }
        ensures answer { (answer : Result ℕ Error) × EndsWith O.answers self.old.output answer self.new.output × IsWritten (length bytes.now) answer result }
        ensures writes { WriteAppends (O.contents self.old.output) (O.contents self.new.output) result bytes.now }
        ensures input { self.new.input ≡ self.old.input }
        ensures notes { self.new.notes ≡ self.old.notes }
    {
        match write_some(&mut self.output, bytes) {
            Ok(count) if count > 0 || bytes.is_empty() => Ok(count),
            _ => {
                self.write_faults = self.write_faults.saturating_add(1);
                Err(Failed)
            }
        }
    }

    fn note(&mut self, bytes: &[u8]) -> Result<usize, Failed>
        ensures octets { MatchResult result
            (λ n. Noted (outside_of self.old) (outside_of self.new) bytes.now n)
            (λ _. NoteFailed (outside_of self.old) (outside_of self.new)) }
        ensures faults { HasFaults (outside_of self.new) self.old.read_faults self.old.write_faults (faults_after result self.old.note_faults) }
        ensures answer { (answer : Result ℕ Error) × EndsWith N.answers self.old.notes answer self.new.notes × IsWritten (length bytes.now) answer result }
        ensures writes { WriteAppends (N.contents self.old.notes) (N.contents self.new.notes) result bytes.now }
        ensures input { self.new.input ≡ self.old.input }
        ensures output { self.new.output ≡ self.old.output }
    {
        match write_some(&mut self.notes, bytes) {
            Ok(count) if count > 0 || bytes.is_empty() => Ok(count),
            _ => {
                self.note_faults = self.note_faults.saturating_add(1);
                Err(Failed)
            }
        }
    }
}
