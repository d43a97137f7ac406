// A port over memory, of which chosen calls fail.
ghost use Rattle.std.specs.Prelude.{◌≡◌, ◌⊎◌, ◌<◌, ◌≤◌, ◌-◌, ◌^◌, ◌↔◌, length, min, IsTrue, MatchResult, IfOk, Some, Contains};
ghost use Rattle.port_122.specs.Outside.{Outside, Read, ReadFailed, Written, WriteFailed, Noted, NoteFailed};
ghost use Rattle.port_122.specs.Faults.{HasFaults, faults_after};

use crate::port::{Failed, Port};
use std::alloc::{AllocError, Global};

/// A port that reads from memory, and keeps and reports all that it is given (docs/architecture.md, "The outside").
///
/// Its calls of all three kinds are numbered together from 0, and those fail whose numbers were given to `new`.
/// The number stops at 2^64 - 1, and a call of that number fails. No call moves more than one piece. A call that
/// finds no memory fails too, and `starved` reports this from then on.
#[derive(Drop)]
pub struct MemoryPort {
    input: Vec<u8>,
    at: usize,
    given: Vec<u8>,
    noted: Vec<u8>,
    asked: Vec<(u64, u64)>,
    fail: Vec<u64>,
    piece: usize,
    calls: u64,
    starved: bool,
    read_faults: u64,
    write_faults: u64,
    note_faults: u64,
    ghost within: { at ≤ length input.items },
    ghost moves: { 0 < piece },
}

impl MemoryPort {
    ghost use Rattle.port_122.specs.Memory.{outside_of, octets_taken, IsFresh};

    /// Returns a port with this input. Its calls of the numbers in `fail` fail, and each moves at most `piece` octets.
    pub fn new(
        alloc: Global,
        input: Vec<u8>,
        fail: Vec<u64>,
        piece: usize,
    ) -> Result<MemoryPort, AllocError>
        requires { 0 < piece }
        ensures { IfOk result (λ port. IsFresh port input.items fail.items piece) }
    {
        Ok(MemoryPort {
            input,
            at: 0,
            given: Vec::new(alloc),
            noted: Vec::new(alloc),
            asked: Vec::new(alloc),
            fail,
            piece,
            calls: 0,
            starved: false,
            read_faults: 0,
            write_faults: 0,
            note_faults: 0,
        })
    }

    /// Returns whether a call has failed for lack of memory.
    pub fn starved(&self) -> bool
        ensures { result ≡ self.now.starved }
    {
        self.starved
    }

    /// Returns the octets that were written.
    pub fn given(&self) -> &[u8]
        ensures { (outside_of self.now).given ≡ Some result.now }
    {
        &self.given
    }

    /// Returns the octets that were noted.
    pub fn noted(&self) -> &[u8]
        ensures { (outside_of self.now).noted ≡ Some result.now }
    {
        &self.noted
    }

    /// Returns, for each read call that returned `Ok`, the numbers of octets taken and given as it began.
    pub fn asked(&self) -> &[(u64, u64)]
        ensures { (outside_of self.now).asked ≡ Some result.now }
    {
        &self.asked
    }

    /// Returns the number of octets that were read.
    pub fn taken(&self) -> u64
        ensures { result ≡ length (octets_taken self.now) }
    {
        self.at as u64
    }
}

// Returns whether a call of this number fails.
fn fails(numbers: &[u64], number: u64) -> bool
    ensures { IsTrue result ↔ (Contains numbers.now number ⊎ (number ≡ 2 ^ 64 - 1)) }
{
    number == u64::MAX || numbers.contains(&number)
}

impl Port for MemoryPort {
    ghost use Rattle.port_122.specs.Memory.{outside_of, octets_left, Call};

    ghost outside = { outside_of };

    fn read(&mut self, into: &mut [u8]) -> Result<usize, Failed>
        ensures octets { MatchResult result
            (λ n. Read (outside_of self.old) (outside_of self.new) into.new n)
            (λ _. ReadFailed (outside_of self.old) (outside_of self.new)) }
        ensures call { Call self.old self.new (min (length into.new) (length (octets_left self.old))) result }
        ensures faults { HasFaults (outside_of self.new) (faults_after result self.old.read_faults) self.old.write_faults self.old.note_faults }
    {
        let number = self.calls;
        self.calls = number.saturating_add(1);
        if fails(&self.fail, number) {
            self.read_faults = self.read_faults.saturating_add(1);
            return Err(Failed);
        }
        if self
            .asked
            .push((self.at as u64, self.given.len() as u64))
            .is_err()
        {
            self.starved = true;
            self.read_faults = self.read_faults.saturating_add(1);
            return Err(Failed);
        }
        let count = self.piece.min(into.len()).min(self.input.len() - self.at);
        into[..count].copy_from_slice(&self.input[self.at..self.at + count]);
        self.at += count;
        Ok(count)
    }

    fn write(&mut self, bytes: &[u8]) -> Result<usize, Failed>
        ensures octets { MatchResult result
            (λ n. Written (outside_of self.old) (outside_of self.new) bytes.now n)
            (λ _. WriteFailed (outside_of self.old) (outside_of self.new)) }
        ensures call { Call self.old self.new (length bytes.now) result }
        ensures faults { HasFaults (outside_of self.new) self.old.read_faults (faults_after result self.old.write_faults) self.old.note_faults }
    {
        let number = self.calls;
        self.calls = number.saturating_add(1);
        if fails(&self.fail, number) {
            self.write_faults = self.write_faults.saturating_add(1);
            return Err(Failed);
        }
        let count = self.piece.min(bytes.len());
        if self.given.extend_from_slice(&bytes[..count]).is_err() {
            self.starved = true;
            self.write_faults = self.write_faults.saturating_add(1);
            return Err(Failed);
        }
        Ok(count)
    }

    fn note(&mut self, bytes: &[u8]) -> Result<usize, Failed>
        ensures octets { MatchResult result
            (λ n. Noted (outside_of self.old) (outside_of self.new) bytes.now n)
            (λ _. NoteFailed (outside_of self.old) (outside_of self.new)) }
        ensures call { Call self.old self.new (length bytes.now) result }
        ensures faults { HasFaults (outside_of self.new) self.old.read_faults self.old.write_faults (faults_after result self.old.note_faults) }
    {
        let number = self.calls;
        self.calls = number.saturating_add(1);
        if fails(&self.fail, number) {
            self.note_faults = self.note_faults.saturating_add(1);
            return Err(Failed);
        }
        let count = self.piece.min(bytes.len());
        if self.noted.extend_from_slice(&bytes[..count]).is_err() {
            self.starved = true;
            self.note_faults = self.note_faults.saturating_add(1);
            return Err(Failed);
        }
        Ok(count)
    }
}
