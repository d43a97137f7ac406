// The two ports of an encoder: one reads octets in memory, the other keeps the packets of a call.
ghost use Rattle.std.specs.Prelude.{◌≡◌, ◌<◌, ◌≤◌, ◌-◌, ◌++◌, [], length, take, drop, min, vec_capacity, Some, None, IfOk, MatchResult};
ghost use Rattle.port_122.specs.Outside.{Outside, Read, ReadFailed, Written, WriteFailed, Noted, NoteFailed};

use port_122::{Failed, Port};
use std::alloc::{AllocError, Global};

/// A port that reads octets in memory. It keeps nothing that it is given.
#[derive(Drop)]
pub struct OctetsIn<'a> {
    octets: &'a [u8],
    at: usize,
    ghost within: { at ≤ length octets.now },
}

impl<'a> OctetsIn<'a> {
    ghost use Rattle.encoder_rows.specs.Ports.{octets_outside};

    /// Returns a port at the start of these octets.
    pub fn new(octets: &'a [u8]) -> OctetsIn<'a>
        ensures { octets_outside result ≡ record {
          rest = Some octets.now;
          taken = Some [];
          given = None;
          noted = None;
          asked = None;
          read_faults = 0;
          write_faults = 0;
          note_faults = 0;
        } }
    {
        OctetsIn { octets, at: 0 }
    }
}

impl<'a> Port for OctetsIn<'a> {
    ghost use Rattle.encoder_rows.specs.Ports.{octets_outside};

    ghost outside = { octets_outside };

    fn read(&mut self, into: &mut [u8]) -> Result<usize, Failed>
        ensures octets { MatchResult result
            (λ n. Read (octets_outside self.old) (octets_outside self.new) into.new n)
            (λ _. ReadFailed (octets_outside self.old) (octets_outside self.new)) }
    {
        let count = into.len().min(self.octets.len() - self.at);
        into[..count].copy_from_slice(&self.octets[self.at..self.at + count]);
        self.at += count;
        Ok(count)
    }

    fn write(&mut self, bytes: &[u8]) -> Result<usize, Failed>
        ensures octets { MatchResult result
            (λ n. Written (octets_outside self.old) (octets_outside self.new) bytes.now n)
            (λ _. WriteFailed (octets_outside self.old) (octets_outside self.new)) }
    {
        Ok(bytes.len())
    }

    fn note(&mut self, bytes: &[u8]) -> Result<usize, Failed>
        ensures octets { MatchResult result
            (λ n. Noted (octets_outside self.old) (octets_outside self.new) bytes.now n)
            (λ _. NoteFailed (octets_outside self.old) (octets_outside self.new)) }
    {
        Ok(bytes.len())
    }
}

/// A port that keeps the packets that it is given, in memory of a fixed size. A write fails only if the memory is full, so none fails of
/// packets that are fewer octets than the memory has.
#[derive(Drop)]
pub struct PacketRoom {
    kept: Vec<u8>,
    size: usize,
    faults: u64,
    ghost within: { length kept.items ≤ size },
    ghost room: { size ≤ vec_capacity kept },
    ghost full: { 0 < faults → length kept.items ≡ size },
}

impl PacketRoom {
    ghost use Rattle.encoder_rows.specs.Ports.{packets_outside, room_outside};

    /// Takes memory for this number of octets. It fails only if there is too little memory.
    pub fn new(alloc: Global, size: usize) -> Result<PacketRoom, AllocError>
        ensures { IfOk result (λ room. packets_outside room ≡ room_outside size [] 0) }
    {
        Ok(PacketRoom {
            kept: Vec::with_capacity(alloc, size)?,
            size,
            faults: 0,
        })
    }

    /// Forgets the packets.
    pub fn clear(&mut self)
        ensures { packets_outside self.new ≡ room_outside self.old.size [] 0 }
    {
        self.kept.clear();
        self.faults = 0;
    }

    /// Puts the packets that it keeps at the start of a room that has place for them, and returns the number of their octets.
    pub fn put(&self, room: &mut [u8]) -> usize
        requires { length self.now.kept.items ≤ length room.old }
        ensures count { result ≡ length self.now.kept.items }
        ensures room { room.new ≡ self.now.kept.items ++ drop result room.old }
    {
        let count = self.kept.len();
        room[..count].copy_from_slice(&self.kept);
        count
    }
}

// Keeps the first octets that fit, and returns their number.
fn keep(kept: &mut Vec<u8>, size: usize, bytes: &[u8]) -> usize
    requires within { length kept.old.items ≤ size }
    requires room { size ≤ vec_capacity kept.old }
    ensures count { result ≡ min (length bytes.now) (size - length kept.old.items) }
    ensures items { kept.new.items ≡ kept.old.items ++ take result bytes.now }
    ensures room { size ≤ vec_capacity kept.new }
{
    let count = bytes.len().min(size - kept.len());
    let Ok(()) = kept.extend_from_slice(&bytes[..count]) else {
        unreachable!()
    };
    count
}

impl Port for PacketRoom {
    ghost use Rattle.encoder_rows.specs.Ports.{packets_outside};

    ghost outside = { packets_outside };

    fn read(&mut self, into: &mut [u8]) -> Result<usize, Failed>
        ensures octets { MatchResult result
            (λ n. Read (packets_outside self.old) (packets_outside self.new) into.new n)
            (λ _. ReadFailed (packets_outside self.old) (packets_outside self.new)) }
    {
        Ok(0)
    }

    fn write(&mut self, bytes: &[u8]) -> Result<usize, Failed>
        ensures octets { MatchResult result
            (λ n. Written (packets_outside self.old) (packets_outside self.new) bytes.now n)
            (λ _. WriteFailed (packets_outside self.old) (packets_outside self.new)) }
    {
        if bytes.is_empty() {
            return Ok(0);
        }
        if self.kept.len() == self.size {
            self.faults = self.faults.saturating_add(1);
            return Err(Failed);
        }
        Ok(keep(&mut self.kept, self.size, bytes))
    }

    fn note(&mut self, bytes: &[u8]) -> Result<usize, Failed>
        ensures octets { MatchResult result
            (λ n. Noted (packets_outside self.old) (packets_outside self.new) bytes.now n)
            (λ _. NoteFailed (packets_outside self.old) (packets_outside self.new)) }
    {
        Ok(bytes.len())
    }
}
