// Reads the packets of a stream, one after another, and returns their fates.
ghost use Rattle.std.specs.Prelude.{◌≡◌, ◌≤◌, ◌<◌, ◌+◌, ◌-◌, length, drop, Some, None, IfOk, IfSome, [], MatchBool};
ghost use Rattle.packet_assembly.specs.Notes.{head_octets, start_of};

use crate::classification::{classify, past_kept};
use crate::note::{PacketNote, Passed, SegmentStart};
use crate::text::SegmentText;
use base_122::Geometry;
use bit_pipe::InFault;
use packet_defs::{Ancillary, Framing, PacketHead, PacketRead, Skip};
use port_122::Port;
use segment_defs::SegmentHead;
use space_packets::PacketReader;
use std::alloc::{AllocError, Global};
use std::marker::Model;
use stream_defs::{Fate, FateState};

// Octets of a data field before its text.
const ANCILLARY: u32 = 24;

/// Reads a stream as the packets of an image's segments (docs/formats.md, "Fates").
///
/// It takes at most the number of octets that it was made with, and reads on only if the octets that it has taken don't decide
/// what is next.
#[derive(Drop)]
pub struct Assembly {
    reader: PacketReader,
    apid: u16,
    state: FateState,
    packets: u64,
    // the place in the text of the reader's last packet of the first octet that wasn't given yet
    next: usize,
    held: Option<SegmentStart>,
    framing: Option<Framing>,
}

impl Model for Assembly {
    ghost use Rattle.packet_assembly.specs.Assembling.{Assembling};

    ghost Value = { Assembling };

    ghost use Rattle.packet_assembly.specs.Held.{assembling, IsAssembled};

    ghost view = { assembling };

    ghost invariant = { IsAssembled };
}

impl Assembly {
    ghost use Rattle.packet_assembly.specs.Assembling.{unread_assembly};
    ghost use Rattle.packet_assembly.specs.Held.{IsValidAtFault, known_mine, after_mine, known_other, after_other};
    ghost use Rattle.packet_assembly.specs.Notes.{PassesNext, ReadsNote};
    ghost use Rattle.packet_defs.specs.Streams.{begins_packet};
    ghost use Rattle.packet_assembly.specs.Assembling.{is_closed};
    ghost use Rattle.packet_assembly.specs.Segments.{FindsSegment};
    ghost use Rattle.packet_assembly.specs.TextSource.{text_ready};
    ghost use Rattle.packet_assembly.specs.Texts.{TakesOctet, FillsText};
    ghost use Rattle.base_122.specs.Ranges.{IsGeometryInRange};

    /// Returns an assembly for the packets with an APID, of at most `octets` octets. It takes the memory of a `PacketReader`, and
    /// no call takes more.
    pub fn new(alloc: Global, apid: u16, octets: u64) -> Result<Assembly, AllocError>
        ensures { IfOk result (λ made. made ≡ unread_assembly apid octets) }
    {
        let reader = PacketReader::new(alloc, octets)?;
        Ok(Assembly {
            reader,
            apid,
            state: FateState {
                geometry: None,
                reported_last: false,
                last: None,
            },
            packets: 0,
            next: 0,
            held: None,
            framing: None,
        })
    }

    /// Returns the geometry of the image, from its first kept packet on. Each of its fields is in range; its rows are 0 while the
    /// height isn't reported.
    pub fn geometry(&self) -> Option<Geometry>
        ensures current { result ≡ self.now.state.geometry }
        ensures in_range { IfSome result IsGeometryInRange }
    {
        self.state.geometry
    }

    /// Returns why the stream can't be read on, if that was found: the reader is at that octet.
    pub fn framing(&self) -> Option<Framing>
        ensures found { result ≡ self.now.framing }
        ensures met { IfSome result (IsValidAtFault self.now.apid self.now.intake) }
    {
        self.framing
    }

    /// Returns the start of the segment whose first packet ended the text before it, until `next_segment` returns it.
    pub fn held(&self) -> Option<SegmentStart>
        ensures { result ≡ self.now.held }
    {
        self.held
    }

    /// Returns whether the octets that were taken hold the whole next packet. Then `next_packet` returns its fate and reads
    /// nothing.
    pub fn has_packet(&self) -> bool
        ensures { result ≡ begins_packet self.now.intake.pending }
    {
        self.reader.has_packet()
    }

    /// Returns the next packet's fate, or `None` at the end and at what can't be read on.
    pub fn next_packet<X: Port>(&mut self, port: &mut X) -> Result<Option<PacketNote>, InFault>
        ensures { ReadsNote (X.outside port.old) (X.outside port.new) self.old self.new result }
    {
        let Some(passed) = self.pass(port)? else {
            return Ok(None);
        };
        Ok(Some(passed.note))
    }

    /// Returns the start of the next segment, past what is left of an earlier one, or `None` at the end and at what can't be read
    /// on. A segment whose first packet ended the text before isn't lost.
    pub fn next_segment<X: Port>(&mut self, port: &mut X) -> Result<Option<SegmentStart>, InFault>
        ensures { FindsSegment (X.outside port.old) (X.outside port.new) self.old self.new result }
    {
        if let Some(start) = self.held {
            self.held = None;
            return Ok(Some(start));
        }
        self.find_segment(port)
    }

    /// Returns the text of the segment that was returned last.
    pub fn text<'a, X: Port>(&'a mut self, port: &'a mut X) -> SegmentText<'a, X>
        ensures assembly { result.assembly.ghost_name ≡ self.entry.ghost_name }
        ensures port { result.port.ghost_name ≡ port.entry.ghost_name }
        ensures now { result.assembly.now ≡ self.old }
        ensures port_now { result.port.now ≡ port.old }
    {
        SegmentText {
            assembly: self,
            port,
        }
    }

    /// Takes the next octet of the segment's text. Returns `None` at its end.
    pub fn take_octet<X: Port>(&mut self, port: &mut X) -> Result<Option<u8>, InFault>
        ensures { TakesOctet (X.outside port.old) (X.outside port.new) self.old self.new result }
    {
        match self.fill_text(port) {
            Ok(true) => {}
            Ok(false) => return Ok(None),
            Err(fault) => return Err(fault),
        }
        let octet = self.reader.text()[self.next];
        self.next += 1;
        Ok(Some(octet))
    }

    /// Returns the octets of the segment's text that were read and not given yet.
    #[inline(always)]
    pub fn ready(&self) -> &[u8]
        ensures { result.now ≡ text_ready self.now }
    {
        if self.held.is_some() {
            return &[];
        }
        &self.reader.text()[self.next..]
    }

    /// Passes `count` of these octets.
    #[inline(always)]
    pub fn pass_ready(&mut self, count: usize)
        requires { count ≤ length (text_ready self.old) }
        ensures { self.new ≡ record self.old { text = drop count self.old.text } }
    {
        let octets = self.reader.text().len();
        let left = octets - self.next - count;
        self.next = octets - left;
    }

    // Passes packets until one begins a segment.
    fn find_segment<X: Port>(&mut self, port: &mut X) -> Result<Option<SegmentStart>, InFault>
        requires unheld { self.old.held ≡ None }
        ensures { FindsSegment (X.outside port.old) (X.outside port.new) self.old self.new result }
    {
        loop {
            let passed = match self.pass(port) {
                Ok(Some(passed)) => passed,
                Ok(None) => return Ok(None),
                Err(fault) => return Err(fault),
            };
            if let Some(start) = passed.start {
                return Ok(Some(start));
            }
        }
    }

    // Passes packets until octets of the segment's text wait; returns false if the text is over.
    fn fill_text<X: Port>(&mut self, port: &mut X) -> Result<bool, InFault>
        ensures { FillsText (X.outside port.old) (X.outside port.new) self.old self.new result }
    {
        if self.held.is_some() {
            return Err(InFault::Broken);
        }
        while self.is_used_up() {
            if self.is_closed() {
                return Ok(false);
            }
            let passed = match self.pass(port) {
                Ok(Some(passed)) => passed,
                Ok(None) => return Err(InFault::Broken),
                Err(fault) => return Err(fault),
            };
            if let Some(start) = passed.start {
                self.held = Some(start);
                return Err(InFault::Broken);
            }
        }
        Ok(true)
    }

    // Returns whether no octet of the text waits.
    fn is_used_up(&self) -> bool
        ensures { MatchBool result (self.now.text ≡ []) (0 < length self.now.text) }
    {
        self.next == self.reader.text().len()
    }

    // Returns whether the last part closed its segment's text.
    fn is_closed(&self) -> bool
        ensures { result ≡ is_closed self.now.state.last }
    {
        match self.state.last {
            None => false,
            Some(last) => last.closed,
        }
    }

    // Passes the next packet. Returns `None` if there is none.
    fn pass<X: Port>(&mut self, port: &mut X) -> Result<Option<Passed>, InFault>
        ensures { PassesNext (X.outside port.old) (X.outside port.new) self.old self.new result }
    {
        self.next = 0;
        let read = match self.reader.next(port, self.apid) {
            Ok(read) => read,
            Err(fault) => return Err(fault),
        };
        match read {
            PacketRead::Mine { head, ancillary } => Ok(Some(self.pass_image_packet(
                &head, &ancillary,
            ))),
            PacketRead::Skipped(skip) => Ok(Some(self.pass_other(skip))),
            PacketRead::Ended => {
                self.framing = None;
                Ok(None)
            }
            PacketRead::Fault(fault) => {
                self.framing = Some(fault);
                Ok(None)
            }
        }
    }

    // Passes a packet of the image that was read.
    fn pass_image_packet(&mut self, head: &PacketHead, ancillary: &Ancillary) -> Passed
        requires counted { self.old.packets + length self.old.intake.pending < self.old.intake.taken }
        requires field { 24 ≤ head.now.length }
        requires image { ancillary.now.image ≤ 65535 }
        ensures if_known { result ≡ known_mine self.old head.now ancillary.now }
        ensures valid { self.new ≡ after_mine self.old head.now ancillary.now }
    {
        let text = self.reader.text();
        let octets = text.len();
        let classified = classify(&self.state, head.flags, ancillary, text);
        let number = self.packets;
        self.packets += 1;
        match classified {
            Ok(found) => {
                self.state = past_kept(&self.state, head.flags, ancillary, found);
                self.next = head_octets(found);
                Passed {
                    note: note_known(number, Fate::Kept, head, ancillary),
                    start: start_of(ancillary, found),
                }
            }
            Err(fate) => {
                self.next = octets;
                Passed {
                    note: note_known(number, fate, head, ancillary),
                    start: None,
                }
            }
        }
    }

    // Passes another packet that was read.
    fn pass_other(&mut self, skip: Skip) -> Passed
        requires counted { self.old.packets + length self.old.intake.pending < self.old.intake.taken }
        ensures if_known { result ≡ known_other self.old skip }
        ensures valid { self.new ≡ after_other self.old }
    {
        let number = self.packets;
        self.packets += 1;
        self.next = self.reader.text().len();
        Passed {
            note: PacketNote {
                number,
                fate: Fate::Skipped(skip),
                index: 0,
                part: 0,
                octets: 0,
            },
            start: None,
        }
    }
}

// Returns the report of a packet of the image.
fn note_known(number: u64, fate: Fate, head: &PacketHead, ancillary: &Ancillary) -> PacketNote
    requires { 24 ≤ head.now.length }
    ensures { result ≡ record { number = number; fate = fate; index = ancillary.now.index; part = ancillary.now.part; octets = head.now.length - 24 } }
{
    PacketNote {
        number,
        fate,
        index: ancillary.index,
        part: ancillary.part,
        octets: head.length - ANCILLARY,
    }
}

// Returns the number of octets of a header that was found.
fn head_octets(found: Option<SegmentHead>) -> usize
    ensures { result ≡ head_octets found }
{
    match found {
        None => 0,
        Some(head) => usize::from(head.octets()),
    }
}

// Returns the segment that begins with a packet with these ancillary data, if there is a header in it.
fn start_of(ancillary: &Ancillary, found: Option<SegmentHead>) -> Option<SegmentStart>
    ensures { result ≡ start_of ancillary.now found }
{
    match found {
        None => None,
        Some(head) => Some(SegmentStart {
            ancillary: *ancillary,
            head,
        }),
    }
}
