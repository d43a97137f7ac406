// Texts of segments, octet by octet.
use crate::examples::{FIRST, Stream, changed, port_of, second, whole};
use bit_pipe::{InFault, OctetIn};
use packet_assembly::{Assembly, Framing, SegmentStart};
use port_122::MemoryPort;
use std::process::Abort;
use std::test::Fail;

// What is requested, and the expected result.
#[derive(Clone, Copy, Debug, PartialEq, Eq)]
enum Step {
    // The next segment, by its index.
    Segment(Result<Option<u32>, InFault>),
    // The next octet of its text.
    Octet(Result<Option<u8>, InFault>),
    // The number of octets that were read so far.
    Taken(u64),
    // The reason why the stream can't be read on.
    Framing(Option<Framing>),
}

const FIRST_FOUND: Step = Step::Segment(Ok(Some(0)));

const SECOND_FOUND: Step = Step::Segment(Ok(Some(1)));

const NONE_FOUND: Step = Step::Segment(Ok(None));

const BROKEN: Step = Step::Octet(Err(InFault::Broken));

// Returns the index of the segment that was found.
fn index_of(found: Result<Option<SegmentStart>, InFault>) -> Result<Option<u32>, InFault> {
    match found {
        Ok(Some(start)) => Ok(Some(start.ancillary.index)),
        Ok(None) => Ok(None),
        Err(fault) => Err(fault),
    }
}

// Requests what a step does, and returns the step with the result.
fn asked(assembly: &mut Assembly, port: &mut MemoryPort, step: Step) -> Step {
    match step {
        Step::Segment(_) => Step::Segment(index_of(assembly.next_segment(port))),
        Step::Octet(_) => Step::Octet(assembly.text(port).take()),
        Step::Taken(_) => Step::Taken(port.taken()),
        Step::Framing(_) => Step::Framing(assembly.framing()),
    }
}

// Takes these steps over a stream.
fn expect(rt: &(impl Abort + AllocGlobal), stream: Stream, steps: &[Step]) -> Result<(), Fail> {
    assert!(rt; stream.piece > 0);
    let cap = stream.cap;
    let mut port = port_of(rt.alloc(), stream.parts, stream.fail, stream.piece)?;
    let mut packets = Assembly::new(rt.alloc(), 100, cap)?;
    for (number, step) in steps.iter().enumerate() {
        let answered = asked(&mut packets, &mut port, *step);
        assert_eq!(rt; answered, *step, "step {number} with a cap of {cap}");
    }
    Ok(())
}

#[test]
fn a_text_arrives_octet_by_octet(rt: HostRuntime) -> Result<(), Fail> {
    let steps = [
        FIRST_FOUND,
        Step::Octet(Ok(Some(0x5a))),
        Step::Octet(Ok(Some(0xa5))),
        Step::Octet(Ok(None)),
        Step::Octet(Ok(None)),
        Step::Taken(56),
        SECOND_FOUND,
        Step::Octet(Ok(Some(0x77))),
        NONE_FOUND,
    ];
    expect(&rt, whole(&[&FIRST, &second()], 7, 1000), &steps)
}

#[test]
fn another_segment_breaks_a_text(rt: HostRuntime) -> Result<(), Fail> {
    let mut broken = FIRST;
    broken[2] = 0x40;
    let steps = [
        FIRST_FOUND,
        Step::Octet(Ok(Some(0x5a))),
        Step::Octet(Ok(Some(0xa5))),
        BROKEN,
        BROKEN,
        SECOND_FOUND,
        Step::Octet(Ok(Some(0x77))),
    ];
    expect(&rt, whole(&[&broken, &second()], 64, 1000), &steps)
}

#[test]
fn a_later_part_goes_on(rt: HostRuntime) -> Result<(), Fail> {
    let mut head = FIRST;
    head[2] = 0x40;
    let mut last = FIRST;
    last[2] = 0x80;
    last[29] = 1;
    // The steps are two octets, and then the 21 of the text of the later part.
    let mut steps = [Step::Octet(Ok(None)); 27];
    steps[0] = FIRST_FOUND;
    steps[1] = Step::Octet(Ok(Some(0x5a)));
    steps[2] = Step::Octet(Ok(Some(0xa5)));
    for i in 0..21 {
        steps[3 + i] = Step::Octet(Ok(Some(FIRST[30 + i])));
    }
    steps[25] = NONE_FOUND;
    steps[26] = Step::Framing(Some(Framing::BadVersion { octet: 154 }));
    let parts: [&[u8]; 4] = [&head, &changed(0, 0x18), &last, &[0xff]];
    expect(&rt, whole(&parts, 64, 1000), &steps)
}

#[test]
fn the_end_and_the_cap_break_a_text(rt: HostRuntime) -> Result<(), Fail> {
    let mut broken = FIRST;
    broken[2] = 0x40;
    for (cap, fault) in [(1000, InFault::Broken), (51, InFault::LongInput)] {
        let steps = [
            FIRST_FOUND,
            Step::Octet(Ok(Some(0x5a))),
            Step::Octet(Ok(Some(0xa5))),
            Step::Octet(Err(fault)),
            Step::Octet(Err(fault)),
        ];
        expect(&rt, whole(&[&broken], 64, cap), &steps)?;
    }
    Ok(())
}

#[test]
fn a_failed_read_is_read_again(rt: HostRuntime) -> Result<(), Fail> {
    let fault = Step::Segment(Err(InFault::ReadFault));
    let octet = Step::Octet(Ok(Some(0x5a)));
    let steps = [fault, FIRST_FOUND, octet, fault, NONE_FOUND];
    let stream = Stream {
        parts: &[&FIRST],
        fail: &[1, 3],
        piece: 40,
        cap: 1000,
    };
    expect(&rt, stream, &steps)
}
