// Streams read packet by packet.
use crate::examples::{BLACK, FIRST_SEGMENT, Stream, port_of, whole};
use bit_pipe::InFault;
use port_122::MemoryPort;
use space_packets::{Framing, PacketHead, PacketRead, PacketReader};
use std::process::Abort;
use std::test::Fail;

// What the black image's packet reports.
const MINE: PacketRead = PacketRead::Mine {
    head: PacketHead {
        apid: 100,
        flags: 3,
        count: 0,
        length: 46,
    },
    ancillary: FIRST_SEGMENT,
};

// The packets that are requested, each with its APID, and the expected results.
type Answers<'a> = &'a [(u16, Result<PacketRead, InFault>)];

// Returns whether this is the text after such a result: that of the black image's packet, or none.
fn is_text_of(answer: Result<PacketRead, InFault>, text: &[u8]) -> bool {
    match answer {
        Ok(PacketRead::Mine { .. }) => text == &BLACK[30..],
        _ => text.is_empty(),
    }
}

// Requests packets, and compares the results, and the text after each.
fn compare(
    rt: &impl Abort,
    reader: &mut PacketReader,
    port: &mut MemoryPort,
    piece: usize,
    answers: Answers,
) {
    for (apid, answer) in answers {
        assert_eq!(rt; reader.next(port, *apid), *answer, "pieces of {piece}");
        assert!(rt; is_text_of(*answer, reader.text()), "after {answer:?}");
    }
}

// Expects that the result that ends the reading is returned again, and nothing is read for it. If it is the cap, the cap's octets are
// taken.
fn ends(
    rt: &impl Abort,
    reader: &mut PacketReader,
    port: &mut MemoryPort,
    cap: u64,
    end: Result<PacketRead, InFault>,
) {
    assert_eq!(rt; reader.next(port, 100), end, "cap {cap}");
    let calls = port.asked().len();
    assert_eq!(rt; reader.next(port, 100), end);
    assert_eq!(rt; port.asked().len(), calls);
    assert!(rt;
        end != Err(InFault::LongInput) || port.taken() == cap,
        "cap {cap}"
    );
}

// Reads a stream up to the result that ends the reading.
fn expect(
    rt: &(impl Abort + AllocGlobal),
    stream: Stream,
    answers: Answers,
    end: Result<PacketRead, InFault>,
) -> Result<(), Fail> {
    assert!(rt; stream.piece > 0);
    let mut port = port_of(rt.alloc(), stream.parts, stream.fail, stream.piece)?;
    let mut reader = PacketReader::new(rt.alloc(), stream.cap)?;
    compare(rt, &mut reader, &mut port, stream.piece, answers);
    ends(rt, &mut reader, &mut port, stream.cap, end);
    Ok(())
}

#[test]
fn framing_faults_end_the_reading(rt: HostRuntime) -> Result<(), Fail> {
    let answers = [(100, Ok(MINE))];
    let black = whole(&[&BLACK], 9, 53);
    expect(&rt, black, &answers, Ok(PacketRead::Ended))?;
    let cases: [(&[u8], Framing); 5] = [
        (&[0xff], Framing::BadVersion { octet: 52 }),
        (&[0x20, 0, 0], Framing::BadVersion { octet: 52 }),
        (&[0x08], Framing::CutPacket { missing: 5 }),
        (
            &[0x08, 0x64, 0xc0, 0, 0, 0x2d],
            Framing::CutPacket { missing: 46 },
        ),
        (&BLACK[..51], Framing::CutPacket { missing: 1 }),
    ];
    for (second, fault) in cases {
        let end = Ok(PacketRead::Fault(fault));
        expect(&rt, whole(&[&BLACK, second], 9, 1000), &answers, end)?;
    }
    Ok(())
}

#[test]
fn cap_is_long_input_but_for_a_bad_version(rt: HostRuntime) -> Result<(), Fail> {
    let long = Err(InFault::LongInput);
    for cap in [1, 30, 51] {
        expect(&rt, whole(&[&BLACK], 20, cap), &[], long)?;
    }
    let answers = [(100, Ok(MINE))];
    expect(&rt, whole(&[&BLACK], 20, 52), &answers, long)?;
    let fault = Ok(PacketRead::Fault(Framing::BadVersion { octet: 52 }));
    expect(
        &rt,
        whole(&[&BLACK, &[0xff, 0, 0]], 20, 53),
        &answers,
        fault,
    )
}

#[test]
fn failed_read_is_tried_again(rt: HostRuntime) -> Result<(), Fail> {
    let fault = Err(InFault::ReadFault);
    let answers = [(100, fault), (100, fault), (100, Ok(MINE))];
    let end = Ok(PacketRead::Ended);
    let stream = Stream {
        parts: &[&BLACK],
        fail: &[0, 2],
        piece: 30,
        cap: 1000,
    };
    expect(&rt, stream, &answers, end)
}
