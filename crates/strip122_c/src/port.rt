// A port over a slice that never fails.
ghost use Rattle.std.specs.Prelude.{◌≡◌, ◌≤◌, ◌+◌, ◌++◌, ◌-◌, [], length, min, vec_capacity, IfOk, IfSome, Ok, Some, None, MatchOption, MatchResult, nat_le};
ghost use Rattle.std.specs.Prelude.{if◌then◌else◌};
ghost use Rattle.std.specs.Option.{ForSome};
ghost use Rattle.port_122.specs.Outside.{Outside, Read, ReadFailed, Written, WriteFailed, Noted, NoteFailed};

use port_122::{Failed, Port};
use std::alloc::{AllocError, Global};

/// A port that reads from a slice and never fails (docs/architecture.md, "The outside").
///
/// It keeps and reports the octets that it is given while they fit its room, and none from the first octets that don't. It reports neither
/// notes nor read calls.
#[derive(Drop)]
pub struct LentPort<'a> {
    input: &'a [u8],
    at: usize,
    // the octets that it keeps at most; with none it takes memory for all
    room: Option<usize>,
    given: Vec<u8>,
    full: bool,
    ghost within: { at ≤ length input.now },
    ghost given_room: { ForSome room (λ octets. octets ≤ vec_capacity given) },
}

impl<'a> LentPort<'a> {
    ghost use Rattle.strip122_c.specs.Lent.{outside_of, IsEmpty};

    /// Returns a port at the start of this input, with room for this number of octets, which is taken at once, or without a number with
    /// room that grows.
    pub fn new(
        alloc: Global,
        input: &'a [u8],
        room: Option<usize>,
    ) -> Result<LentPort<'a>, AllocError>
        ensures outside { IfOk result (λ port. outside_of port ≡ record {
          rest = Some input.now;
          taken = Some [];
          given = Some [];
          noted = None;
          asked = None;
          read_faults = 0;
          write_faults = 0;
          note_faults = 0;
        }) }
        ensures empty { IfOk result (IsEmpty room) }
    {
        Ok(LentPort {
            input,
            at: 0,
            room,
            given: make_room(alloc, room)?,
            full: false,
        })
    }

    /// Returns the octets that it was given, if all of them were kept: if it has a room, exactly if they fit it, and otherwise if there
    /// was memory for them.
    pub fn given(&self) -> Option<&[u8]>
        ensures { MatchOption result ((outside_of self.now).given ≡ None) (λ octets. (outside_of self.now).given ≡ Some octets.now) }
    {
        if self.full { None } else { Some(&self.given) }
    }
}

// Returns an empty list with room for this number of octets, if there is a number.
fn make_room(alloc: Global, room: Option<usize>) -> Result<Vec<u8>, AllocError>
    ensures none { IfOk result (λ made. made.items ≡ []) }
    ensures room { IfOk result (λ made. IfSome room (λ octets. octets ≤ vec_capacity made)) }
{
    match room {
        Some(octets) => Ok(Vec::with_capacity(alloc, octets)?),
        None => Ok(Vec::new(alloc)),
    }
}

// Keeps the octets if they fit the room, if there is one, and if there is memory. Returns whether it did.
fn keep(kept: &mut Vec<u8>, room: Option<usize>, bytes: &[u8]) -> bool
    requires { IfSome room (λ octets. octets ≤ vec_capacity kept.old) }
    ensures fits { IfSome room (λ octets. result ≡ nat_le (length kept.old.items + length bytes.now) octets) }
    ensures items { kept.new.items ≡ (if result then kept.old.items ++ bytes.now else kept.old.items) }
    ensures capacity { IfSome room (λ octets. octets ≤ vec_capacity kept.new) }
{
    match room {
        Some(room) => keep_within(kept, room, bytes),
        None => kept.extend_from_slice(bytes).is_ok(),
    }
}

// Keeps the octets if they fit the room, and returns whether they did.
fn keep_within(kept: &mut Vec<u8>, room: usize, bytes: &[u8]) -> bool
    requires { room ≤ vec_capacity kept.old }
    ensures fits { result ≡ nat_le (length kept.old.items + length bytes.now) room }
    ensures items { kept.new.items ≡ (if result then kept.old.items ++ bytes.now else kept.old.items) }
    ensures capacity { room ≤ vec_capacity kept.new }
{
    kept.len() <= room && bytes.len() <= room - kept.len() && kept.extend_from_slice(bytes).is_ok()
}

impl<'a> Port for LentPort<'a> {
    ghost use Rattle.strip122_c.specs.Lent.{outside_of, KeepsWhatFits};

    ghost outside = { outside_of };

    fn read(&mut self, into: &mut [u8]) -> Result<usize, Failed>
        ensures octets { MatchResult result
            (λ n. Read (outside_of self.old) (outside_of self.new) into.new n)
            (λ _. ReadFailed (outside_of self.old) (outside_of self.new)) }
    {
        let count = into.len().min(self.input.len() - self.at);
        into[..count].copy_from_slice(&self.input[self.at..self.at + count]);
        self.at += count;
        Ok(count)
    }

    fn write(&mut self, bytes: &[u8]) -> Result<usize, Failed>
        ensures octets { MatchResult result
            (λ n. Written (outside_of self.old) (outside_of self.new) bytes.now n)
            (λ _. WriteFailed (outside_of self.old) (outside_of self.new)) }
        ensures kept { KeepsWhatFits self.old self.new bytes.now }
    {
        if !self.full && !keep(&mut self.given, self.room, bytes) {
            self.full = true;
        }
        Ok(bytes.len())
    }

    fn note(&mut self, bytes: &[u8]) -> Result<usize, Failed>
        ensures octets { MatchResult result
            (λ n. Noted (outside_of self.old) (outside_of self.new) bytes.now n)
            (λ _. NoteFailed (outside_of self.old) (outside_of self.new)) }
    {
        Ok(bytes.len())
    }
}
