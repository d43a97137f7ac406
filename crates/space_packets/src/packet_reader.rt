// Reads a stream of octets as packets.
ghost use Rattle.std.specs.Prelude.{◌≡◌, ◌≤◌, ◌<◌, ◌+◌, ◌-◌, ◌^◌, [], length, take, drop, true, false, Some, None, IfOk};
ghost use Rattle.std.specs.Bool.{OnFalse};

use crate::header::HEADER;
use crate::reading::{begins_packet, has_bad_version, mine_in, missing, reported_length, skip_of};
use bit_pipe::InFault;
use packet_defs::{Framing, PacketRead};
use port_122::{Failed, Port};
use std::alloc::{AllocError, Global};
use std::marker::Model;

// The octets of the longest packet.
const LONGEST: usize = 65_542;

// The octets of the buffer: what waits can always be copied to its start, or has room after it.
const ROOM: usize = 2 * LONGEST;

// The most octets that a read asks for.
const PIECE: usize = 4_096;

/// Reads a stream of octets as packets (docs/formats.md, "Packets").
///
/// It takes at most the number of octets that it was made with, and reads on only if the octets that it has taken don't decide
/// what is next.
#[derive(Drop)]
pub struct PacketReader {
    buffer: Vec<u8>,
    start: usize,
    end: usize,
    text_start: usize,
    text_end: usize,
    cap: u64,
    taken: u64,
    ended: bool,
}

impl Model for PacketReader {
    ghost use Rattle.space_packets.specs.Intake.{Intake};

    ghost Value = { Intake };

    ghost use Rattle.space_packets.specs.Held.{intake, IsHeld};

    ghost view = { intake };

    ghost invariant = { IsHeld };
}

impl PacketReader {
    ghost use Rattle.space_packets.specs.Intake.{unread, is_decided, verdict, answered, fed};
    ghost use Rattle.space_packets.specs.PacketReads.{ReadsPacket, FillsUp, FeedsOnce};
    ghost use Rattle.packet_defs.specs.Reading.{packet_read};
    ghost use Rattle.packet_defs.specs.Streams.{begins_packet, first_packet};

    /// Returns a reader that takes at most `octets` octets. It takes the memory of two packets of the greatest
    /// length, and no call takes more.
    pub fn new(alloc: Global, octets: u64) -> Result<PacketReader, AllocError>
        ensures { IfOk result (λ made. made ≡ unread octets) }
    {
        let mut buffer = Vec::with_capacity(alloc, ROOM)?;
        buffer.resize(ROOM, 0)?;
        Ok(PacketReader {
            buffer,
            start: 0,
            end: 0,
            text_start: 0,
            text_end: 0,
            cap: octets,
            taken: 0,
            ended: false,
        })
    }

    /// Returns the octets after the ancillary data of the packet that was returned last, if it was `Mine`, and otherwise none.
    pub fn text(&self) -> &[u8]
        ensures { result.now ≡ self.now.text }
    {
        &self.buffer[self.text_start..self.text_end]
    }

    /// Returns the next packet, read for an APID, or the end, or why there is no packet (docs/formats.md, "Packets").
    ///
    /// After `Ended`, a fault of the framing and `LongInput` each further call returns the same and reads nothing. `LongInput`
    /// is returned exactly if the cap's number of octets was taken and they, without an end, decide nothing. After `ReadFault` the
    /// next call reads again. `Broken` is never returned.
    pub fn next<X: Port>(&mut self, port: &mut X, apid: u16) -> Result<PacketRead, InFault>
        ensures { ReadsPacket apid (X.outside port.old) (X.outside port.new) self.old self.new result }
    {
        let Ok(()) = self.fill(port) else {
            return Err(InFault::ReadFault);
        };
        self.answer(apid)
    }

    /// Reads on until the octets that were taken, the end or the cap decide what is next, and nothing if they do already. The
    /// text of the last packet is dropped.
    pub fn fill<X: Port>(&mut self, port: &mut X) -> Result<(), Failed>
        ensures { FillsUp result (X.outside port.old) (X.outside port.new) self.old self.new }
    {
        self.forget_text();
        while !self.is_decided() {
            let Ok(()) = self.feed(port) else {
                return Err(Failed);
            };
        }
        Ok(())
    }

    /// Returns the octets of the next packet, which the octets that were taken hold.
    pub fn octets(&self) -> &[u8]
        requires { begins_packet self.now.pending ≡ true }
        ensures { result.now ≡ first_packet self.now.pending }
    {
        let pending = self.pending();
        &pending[..reported_length(pending)]
    }

    /// Returns whether the octets that were taken hold the whole next packet. Then `next` returns it and reads nothing.
    pub fn has_packet(&self) -> bool
        ensures { result ≡ begins_packet self.now.pending }
    {
        begins_packet(self.pending())
    }

    // Drops the text of the last packet.
    fn forget_text(&mut self)
        ensures valid { self.new ≡ fed self.old [] false }
        ensures capped { self.old.taken ≤ self.old.cap }
    {
        self.text_start = 0;
        self.text_end = 0;
    }

    // Returns the octets that are in no packet that was returned.
    fn pending(&self) -> &[u8]
        ensures waiting { result.now ≡ self.now.pending }
        ensures counted { length result.now ≤ self.now.taken }
    {
        &self.buffer[self.start..self.end]
    }

    // Returns whether the octets that wait, the end or the cap decide what is next. If they don't, the octets are fewer than
    // those of the longest packet.
    #[tactic(auto, unfolding(crate::specs::Intake::is_decided))]
    fn is_decided(&self) -> bool
        ensures value { result ≡ is_decided self.now }
        ensures short { OnFalse result (length self.now.pending < 65542) }
        ensures going { OnFalse result ((self.now.taken < self.now.cap) × (self.now.ended ≡ false)) }
    {
        let pending = self.pending();
        if has_bad_version(pending) {
            return true;
        }
        if begins_packet(pending) {
            return true;
        }
        if self.ended {
            return true;
        }
        self.taken == self.cap
    }

    // Reads one piece to the place after the octets that wait.
    fn feed<X: Port>(&mut self, port: &mut X) -> Result<(), Failed>
        requires short { length self.old.pending < 65542 }
        requires below { self.old.taken < self.old.cap }
        ensures { FeedsOnce result (X.outside port.old) (X.outside port.new) self.old self.new }
    {
        self.text_start = 0;
        self.text_end = 0;
        let held = self.end - self.start;
        self.start = make_room(&mut self.buffer, self.start, held);
        self.end = self.start + held;
        let room = (self.buffer.len() - self.end).min(PIECE);
        let most = (self.cap - self.taken).min(room as u64) as usize;
        let Ok(count) = port.read(&mut self.buffer[self.end..self.end + most]) else {
            return Err(Failed);
        };
        self.end += count;
        self.taken += count as u64;
        if count == 0 {
            self.ended = true;
        }
        Ok(())
    }

    /// Returns what the octets that wait, the end or the cap have decided, read for an APID as `next` does. It reads nothing.
    #[tactic(auto, unfolding(crate::specs::Intake::is_decided, crate::specs::Intake::verdict, crate::specs::Intake::answered))]
    pub fn answer(&mut self, apid: u16) -> Result<PacketRead, InFault>
        requires decided { is_decided self.old ≡ true }
        requires no_text { self.old.text ≡ [] }
        ensures answer { verdict apid self.old ≡ Some result }
        ensures valid { self.new ≡ answered apid self.old }
    {
        let pending = self.pending();
        if has_bad_version(pending) {
            return Ok(PacketRead::Fault(Framing::BadVersion {
                octet: self.taken - pending.len() as u64,
            }));
        }
        if begins_packet(pending) {
            return Ok(self.take_packet(apid));
        }
        if !self.ended {
            return Err(InFault::LongInput);
        }
        if pending.is_empty() {
            return Ok(PacketRead::Ended);
        }
        Ok(PacketRead::Fault(Framing::CutPacket {
            missing: missing(pending),
        }))
    }

    // Passes the whole packet with which the octets that wait begin.
    fn take_packet(&mut self, apid: u16) -> PacketRead
        requires whole { begins_packet self.old.pending ≡ true }
        requires no_text { self.old.text ≡ [] }
        ensures read { result ≡ packet_read apid (first_packet self.old.pending) }
        ensures valid { self.new ≡ answered apid self.old }
    {
        let length = reported_length(self.pending());
        let packet = &self.pending()[..length];
        if let Some(skip) = skip_of(packet, apid) {
            self.start += length;
            return PacketRead::Skipped(skip);
        }
        let read = mine_in(packet);
        self.text_start = self.start + HEADER;
        self.text_end = self.start + length;
        self.start += length;
        read
    }
}

// Moves the octets that wait from a place on to the buffer's start, if the two don't overlap, and returns the place where they begin then.
fn make_room(buffer: &mut [u8], start: usize, held: usize) -> usize
    requires within { start + held ≤ length buffer.old }
    ensures same { take held (drop result buffer.new) ≡ take held (drop start buffer.old) }
    ensures near { result ≤ held }
    ensures before { result ≤ start }
{
    if held > start {
        return start;
    }
    copy_to_start(buffer, start, held);
    0
}

// Copies octets from a place on to the start, if the two don't overlap.
fn copy_to_start(buffer: &mut [u8], start: usize, count: usize)
    requires apart { count ≤ start }
    requires within { start + count ≤ length buffer.old }
    ensures { take count buffer.new ≡ take count (drop start buffer.old) }
{
    let (prefix, back) = buffer.split_at_mut(start);
    prefix[..count].copy_from_slice(&back[..count]);
}
