// A port over memory that never fails.
ghost use Rattle.std.specs.Prelude.{◌≡◌, ◌≤◌, ◌+◌, ◌++◌, ◌-◌, [], length, min, vec_capacity, IfOk, Ok, Some, None, MatchResult, unwrap_or, nat_le};
ghost use Rattle.std.specs.Prelude.{if◌then◌else◌};
ghost use Rattle.port_122.specs.Outside.{Outside, Read, ReadFailed, Written, WriteFailed, Noted, NoteFailed};

use crate::port::{Failed, Port};
use std::alloc::{AllocError, Global};

/// A port that reads from memory and never fails (docs/architecture.md, "The outside").
///
/// It keeps and reports the octets that it is given while they fit its room, and also those that it notes. From the
/// first octets that do not fit it keeps and reports none of that kind. It does not report its read calls.
#[derive(Drop)]
pub struct SteadyPort {
    input: Vec<u8>,
    at: usize,
    room: usize,
    given: Vec<u8>,
    given_full: bool,
    noted: Vec<u8>,
    noted_full: bool,
    ghost within: { at ≤ length input.items },
    ghost given_room: { room ≤ vec_capacity given },
    ghost noted_room: { room ≤ vec_capacity noted },
}

impl SteadyPort {
    ghost use Rattle.port_122.specs.Steady.{outside_of};

    /// Returns a port with this input, and with room for `room` octets that are given and `room` octets that are noted.
    pub fn new(alloc: Global, input: Vec<u8>, room: usize) -> Result<SteadyPort, AllocError>
        ensures outside { IfOk result (λ port. outside_of port ≡ record {
          rest = Some input.items;
          taken = Some [];
          given = Some [];
          noted = Some [];
          asked = None;
          read_faults = 0;
          write_faults = 0;
          note_faults = 0;
        }) }
        ensures room { IfOk result (λ port. port.room ≡ room) }
    {
        Ok(SteadyPort {
            input,
            at: 0,
            room,
            given: Vec::with_capacity(alloc, room)?,
            given_full: false,
            noted: Vec::with_capacity(alloc, room)?,
            noted_full: false,
        })
    }

    /// Returns the octets given, while they fit the room, and none afterwards.
    pub fn given(&self) -> &[u8]
        ensures { result.now ≡ unwrap_or (outside_of self.now).given [] }
    {
        if self.given_full { &[] } else { &self.given }
    }

    /// Returns the octets noted, while they fit the room, and none afterwards.
    pub fn noted(&self) -> &[u8]
        ensures { result.now ≡ unwrap_or (outside_of self.now).noted [] }
    {
        if self.noted_full { &[] } else { &self.noted }
    }
}

// Keeps the octets if they fit the room, and returns whether they did.
fn keep(kept: &mut Vec<u8>, room: usize, bytes: &[u8]) -> bool
    requires { room ≤ vec_capacity kept.old }
    ensures fits { result ≡ nat_le (length kept.old.items + length bytes.now) room }
    ensures items { kept.new.items ≡ (if result then kept.old.items ++ bytes.now else kept.old.items) }
    ensures capacity { room ≤ vec_capacity kept.new }
{
    kept.len() <= room && bytes.len() <= room - kept.len() && kept.extend_from_slice(bytes).is_ok()
}

impl Port for SteadyPort {
    ghost use Rattle.port_122.specs.Steady.{outside_of, octets_left, known_after};

    ghost outside = { outside_of };

    fn read(&mut self, into: &mut [u8]) -> Result<usize, Failed>
        ensures octets { MatchResult result
            (λ n. Read (outside_of self.old) (outside_of self.new) into.new n)
            (λ _. ReadFailed (outside_of self.old) (outside_of self.new)) }
        ensures moves { result ≡ Ok (min (length into.new) (length (octets_left self.old))) }
        ensures given { (outside_of self.new).given ≡ (outside_of self.old).given }
        ensures noted { (outside_of self.new).noted ≡ (outside_of self.old).noted }
        ensures room { self.new.room ≡ self.old.room }
    {
        let count = into.len().min(self.input.len() - self.at);
        into[..count].copy_from_slice(&self.input[self.at..self.at + count]);
        self.at += count;
        Ok(count)
    }

    fn write(&mut self, bytes: &[u8]) -> Result<usize, Failed>
        ensures octets { MatchResult result
            (λ n. Written (outside_of self.old) (outside_of self.new) bytes.now n)
            (λ _. WriteFailed (outside_of self.old) (outside_of self.new)) }
        ensures moves { result ≡ Ok (length bytes.now) }
        ensures given { (outside_of self.new).given ≡ known_after self.old.room (outside_of self.old).given bytes.now }
        ensures noted { (outside_of self.new).noted ≡ (outside_of self.old).noted }
        ensures room { self.new.room ≡ self.old.room }
    {
        if !self.given_full && !keep(&mut self.given, self.room, bytes) {
            self.given_full = true;
        }
        Ok(bytes.len())
    }

    fn note(&mut self, bytes: &[u8]) -> Result<usize, Failed>
        ensures octets { MatchResult result
            (λ n. Noted (outside_of self.old) (outside_of self.new) bytes.now n)
            (λ _. NoteFailed (outside_of self.old) (outside_of self.new)) }
        ensures moves { result ≡ Ok (length bytes.now) }
        ensures noted { (outside_of self.new).noted ≡ known_after self.old.room (outside_of self.old).noted bytes.now }
        ensures given { (outside_of self.new).given ≡ (outside_of self.old).given }
        ensures room { self.new.room ≡ self.old.room }
    {
        if !self.noted_full && !keep(&mut self.noted, self.room, bytes) {
            self.noted_full = true;
        }
        Ok(bytes.len())
    }
}
