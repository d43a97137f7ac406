// Texts as packets, octet by octet.
ghost use Rattle.std.specs.Prelude.{◌≡◌, ◌<◌, ◌≤◌, ◌+◌, ◌^◌, length, MatchResult};
ghost use Rattle.space_packets.specs.Writes.{TextOut, TextCut};
ghost use Rattle.space_packets.specs.declared.stage.PacketiserState.TheVariants.{Idle};

use crate::examples::FIRST_SEGMENT;
use bit_pipe::OctetOut;
use port_122::{Failed, MemoryPort, Port};
use space_packets::Packetiser;
use std::test::Fail;

// Writes one text for APID 100.
pub fn write_text<X: Port>(
    packets: &mut Packetiser,
    port: &mut X,
    text: &[u8],
) -> Result<(), Failed>
    requires packet { 64 ≤ packets.old.packet }
    requires idle { packets.old.stage ≡ Idle }
    requires texts { packets.old.texts < 2 ^ 28 }
    requires some { 0 < length text.now }
    requires fits { length text.now < 2 ^ 32 }
    ensures { MatchResult result
        (λ _. TextOut (record { apid = 100; ancillary = FIRST_SEGMENT })
        (X.outside port.old) (X.outside port.new) packets.old packets.new text.now)
        (λ _. TextCut (record { apid = 100; ancillary = FIRST_SEGMENT })
        (X.outside port.old) (X.outside port.new) packets.old packets.new text.now) }
{
    packets.begin(100, FIRST_SEGMENT);
    let mut sink = packets.sink(port);
    for octet in text {
        let Ok(()) = sink.put(*octet) else {
            return Err(Failed);
        };
    }
    packets.close(port)
}

// Returns the first six octets of a packet, and its part's number.
fn head_and_part(octets: &[u8], at: usize) -> ([u8; 6], u8)
    requires { at + 30 ≤ length octets.now }
{
    let head = &octets[at..];
    (
        [head[0], head[1], head[2], head[3], head[4], head[5]],
        head[29],
    )
}

#[test]
fn each_packet_is_one_write(rt: HostRuntime) -> Result<(), Fail> {
    // The packets have 70, 70 and 50 octets; each is given with the call that fails.
    for (call, given) in [(0, 0), (1, 70), (2, 140), (3, 190)] {
        let fail = [call].to_vec(rt.alloc())?;
        let mut port = MemoryPort::new(rt.alloc(), Vec::new(rt.alloc()), fail, 4096)?;
        let mut packets = Packetiser::new(rt.alloc(), 64)?;
        let written = write_text(&mut packets, &mut port, &[1; 100]);
        assert_eq!(rt; written.is_ok(), call == 3);
        assert_eq!(rt; port.given().len(), given);
    }
    Ok(())
}

#[test]
fn after_a_failed_write_only_reset_goes_on(rt: HostRuntime) -> Result<(), Fail> {
    let fail = [0].to_vec(rt.alloc())?;
    let mut port = MemoryPort::new(rt.alloc(), Vec::new(rt.alloc()), fail, 4096)?;
    let mut packets = Packetiser::new(rt.alloc(), 64)?;
    assert_eq!(rt; write_text(&mut packets, &mut port, &[1; 41]), Err(Failed));
    assert!(rt; port.given().is_empty());
    packets.reset();
    assert_eq!(rt; write_text(&mut packets, &mut port, &[1; 40]), Ok(()));
    assert_eq!(rt; port.given().len(), 70);
    assert_eq!(rt;
        head_and_part(port.given(), 0),
        ([0x08, 0x64, 0xc0, 0, 0, 0x3f], 0)
    );
    Ok(())
}
