// Writes texts as packets.
ghost use Rattle.std.specs.Prelude.{◌≡◌, ◌≤◌, ◌<◌, ◌+◌, ◌*◌, ◌^◌, ◌++◌, ◌∷◌, [], ℕ, length, drop, true, false, IfOk, MatchResult, vec_capacity, if◌then◌else◌};
ghost use Rattle.std.specs.Bool.{OnTrue, OnFalse};
ghost use Rattle.std.specs.Int.{w64, to_be_bytes};
ghost use Rattle.packet_defs.specs.Packets.{part_size};
ghost use Rattle.port_122.specs.Outside.{WritesAll};
ghost use Rattle.space_packets.specs.Parts.{packet_of, text_at};

use crate::header::{HEADER, PRIMARY, write_header};
use crate::sink::PacketSink;
use crate::stage::{PacketiserState, Text};
use packet_defs::Ancillary;
use port_122::{Failed, Port, write_all};
use std::alloc::{AllocError, Global};
use std::marker::Model;

/// Cuts texts into packets and writes them to a port (docs/formats.md, "Packets").
///
/// It holds one packet, which is written only when a further octet of its text arrives, or at the text's end. Each packet is
/// one `write_all`, which is tested and not proved. Packets are numbered from 0 with each `reset`, their parts from 0 with each text.
/// After a call that returned `Failed` only `reset` may follow.
#[derive(Drop)]
pub struct Packetiser {
    buffer: Vec<u8>,
    packet: usize,
    stage: PacketiserState,
    texts: u32,
    packets: u64,
    octets: u64,
}

impl Model for Packetiser {
    ghost use Rattle.space_packets.specs.Progress.{Progress};

    ghost Value = { Progress };

    ghost use Rattle.space_packets.specs.Inside.{progress, IsSound};

    ghost view = { progress };

    ghost invariant = { IsSound };
}

impl Packetiser {
    ghost use Rattle.space_packets.specs.Progress.{Progress, IsOpen, fresh, begun, given_octets, last_packet};
    ghost use Rattle.space_packets.specs.Stages.{IsBegun};
    ghost use Rattle.space_packets.specs.Writes.{PutsOctet, WritesPacket};
    ghost use Rattle.space_packets.specs.declared.stage.Text.{Text};
    ghost use Rattle.space_packets.specs.declared.stage.PacketiserState.TheVariants.{Idle, Begun};

    /// Returns a packetiser whose packets have at most this number of octets in their packet data fields: 64 to 65,536
    /// (docs/formats.md, "Packets"). It takes the memory of one packet, and no call takes more.
    pub fn new(alloc: Global, packet: u32) -> Result<Packetiser, AllocError>
        requires least { 64 ≤ packet }
        requires most { packet ≤ 65536 }
        ensures { IfOk result (λ made. made ≡ fresh packet) }
    {
        let packet = packet as usize;
        let mut buffer = Vec::with_capacity(alloc, PRIMARY + packet)?;
        buffer.resize(HEADER, 0)?;
        Ok(Packetiser {
            buffer,
            packet,
            stage: PacketiserState::Idle,
            texts: 0,
            packets: 0,
            octets: 0,
        })
    }

    /// Begins anew: the next packet is number 0, nothing was written, and no text is begun (docs/formats.md, "Packets").
    pub fn reset(&mut self)
        ensures { self.new ≡ fresh self.old.packet }
    {
        self.buffer.truncate(HEADER);
        self.stage = PacketiserState::Idle;
        self.texts = 0;
        self.packets = 0;
        self.octets = 0;
    }

    /// Returns the number of whole packets written since the last reset.
    pub fn packets(&self) -> u64
        ensures { result ≡ self.now.packets }
    {
        self.packets
    }

    /// Returns the number of octets of the whole packets written since the last reset.
    pub fn octets(&self) -> u64
        ensures { result ≡ self.now.octets }
    {
        self.octets
    }

    /// Begins a text, whose packets have this APID, at most 2,046, and these ancillary data, with part 0. No text is begun, and fewer than
    /// 2^28 were since the last reset (docs/formats.md, "Packets").
    pub fn begin(&mut self, apid: u16, ancillary: Ancillary)
        requires apid { apid ≤ 2046 }
        requires idle { self.old.stage ≡ Idle }
        requires part { ancillary.part ≡ 0 }
        requires texts { self.old.texts < 2 ^ 28 }
        ensures begun { self.new ≡ begun self.old (record { apid = apid; ancillary = ancillary }) }
        ensures is_open { IsOpen (record { apid = apid; ancillary = ancillary }) self.new }
    {
        self.stage = PacketiserState::Begun(Text { apid, ancillary });
        self.texts += 1;
    }

    /// Returns the sink of the begun text's octets (docs/formats.md, "Packets").
    pub fn sink<'a, X: Port>(&'a mut self, port: &'a mut X) -> PacketSink<'a, X>
        requires { IsBegun self.old.stage }
        ensures packets { result.packets.ghost_name ≡ self.entry.ghost_name }
        ensures port { result.port.ghost_name ≡ port.entry.ghost_name }
        ensures same_packets { result.packets.now ≡ self.old }
        ensures same_port { result.port.now ≡ port.old }
    {
        PacketSink {
            packets: self,
            port,
        }
    }

    /// Ends the begun text, which isn't empty, with its last packet (docs/formats.md, "Packets"). After `Failed` a prefix of
    /// that packet is written, and the port's `write_faults` rose.
    pub fn close<X: Port>(&mut self, port: &mut X) -> Result<(), Failed>
        requires begun { IsBegun self.old.stage }
        requires some { 0 < length self.old.pending }
        ensures { (t : Text) → self.old.stage ≡ Begun t →
            WritesPacket result (X.outside port.old) (X.outside port.new) self.old self.new
            Idle (last_packet t self.old) }
    {
        let text = self.text();
        self.write_part(port, text, true)
    }

    /// Takes one octet of the begun text. A full part is written before it. After `Failed` a prefix of its packet is written.
    pub(crate) fn put<X: Port>(&mut self, port: &mut X, octet: u8) -> Result<(), Failed>
        requires { given_octets self.old < 2 ^ 32 }
        ensures { PutsOctet result (X.outside port.old) (X.outside port.new) self.old self.new octet }
    {
        if self.has_room() {
            self.add(octet);
            return Ok(());
        }
        let text = self.text();
        let Ok(()) = self.write_part(port, text, false) else {
            return Err(Failed);
        };
        self.add(octet);
        Ok(())
    }

    // Returns the begun text.
    fn text(&self) -> Text
        requires { IsBegun self.now.stage }
        ensures begun { self.now.stage ≡ Begun result }
        ensures is_open { IsOpen result self.now }
    {
        match self.stage {
            PacketiserState::Begun(text) => text,
            PacketiserState::Idle | PacketiserState::Broken => unreachable!(),
        }
    }

    // Returns whether the part has room for a further octet.
    fn has_room(&self) -> bool
        ensures room { OnTrue result (length self.now.pending < part_size self.now.packet) }
        ensures full { OnFalse result (length self.now.pending ≡ part_size self.now.packet) }
        ensures is_open { (t : Text) → self.now.stage ≡ Begun t → IsOpen t self.now }
    {
        self.buffer.len() < PRIMARY + self.packet
    }

    // Takes one octet that the part has room for.
    fn add(&mut self, octet: u8)
        requires room { length self.old.pending < part_size self.old.packet }
        requires fits { given_octets self.old < 2 ^ 32 }
        ensures { self.new ≡ record self.old { pending = self.old.pending ++ octet ∷ [] } }
    {
        self.buffer.push_reserved(octet);
    }

    // Returns whether the part has room for the eight octets of a word.
    pub(crate) fn has_room_for_word(&self) -> bool
        ensures { OnTrue result (length self.now.pending + 8 ≤ part_size self.now.packet) }
    {
        self.buffer.len() + 8 <= PRIMARY + self.packet
    }

    // Takes the eight octets of a word, highest first, that the part has room for.
    pub(crate) fn add_word(&mut self, word: u64)
        requires room { length self.old.pending + 8 ≤ part_size self.old.packet }
        requires fits { given_octets self.old + 8 ≤ 2 ^ 32 }
        ensures { self.new ≡ record self.old { pending = self.old.pending ++ to_be_bytes w64 word } }
    {
        self.buffer.extend_from_slice(&word.to_be_bytes()).unwrap();
    }

    // Writes the octets that wait as one packet of this text, which a full part or the last one needs.
    fn write_part<X: Port>(&mut self, port: &mut X, text: Text, last: bool) -> Result<(), Failed>
        requires begun { self.old.stage ≡ Begun text }
        requires full { OnFalse last (length self.old.pending ≡ part_size self.old.packet) }
        ensures { WritesPacket result (X.outside port.old) (X.outside port.new) self.old self.new
            (if last then Idle else Begun (text_at text 1))
            (packet_of text self.old.packets last self.old.pending) }
    {
        let sent = send(port, &mut self.buffer, &text, self.packets, last);
        let octets = self.buffer.len() as u64;
        self.buffer.truncate(HEADER);
        let Ok(()) = sent else {
            self.stage = PacketiserState::Broken;
            return Err(Failed);
        };
        self.packets += 1;
        self.octets += octets;
        self.stage = text.after_part(last);
        Ok(())
    }
}

// Writes the octets after the room for a header as one packet.
fn send<X: Port>(
    port: &mut X,
    buffer: &mut Vec<u8>,
    text: &Text,
    number: u64,
    last: bool,
) -> Result<(), Failed>
    requires apid { text.now.apid < 2 ^ 11 }
    requires header { 30 ≤ length buffer.old.items }
    requires fits { length buffer.old.items ≤ 2 ^ 16 + 6 }
    ensures out { WritesAll result (X.outside port.old) (X.outside port.new)
        (packet_of text.now number last (drop 30 buffer.old.items)) }
    ensures packet { buffer.new.items ≡ packet_of text.now number last (drop 30 buffer.old.items) }
    ensures same_length { length buffer.new.items ≡ length buffer.old.items }
    ensures capacity { vec_capacity buffer.new ≡ vec_capacity buffer.old }
{
    write_header(buffer, text, number, last);
    write_all(port, buffer)
}
