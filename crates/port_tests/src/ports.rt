// The forms of the port at concrete types.
use port_122::{Failed, MemoryPort, Port, StdPort, SteadyPort, note_all, write_all};
use std::io::{Error, ErrorKind, Read, Result as IoResult, Write};
use std::test::Fail;

// Gives an error of this kind at its first call, and then one octet at each call.
#[derive(Drop)]
struct Fitful {
    kind: ErrorKind,
    calls: u8,
}

impl Fitful {
    fn new(kind: ErrorKind) -> Fitful {
        Fitful { kind, calls: 0 }
    }

    fn has_failed(&mut self) -> bool {
        self.calls = self.calls.saturating_add(1);
        self.calls == 1
    }
}

impl Read for Fitful {
    fn read(&mut self, into: &mut [u8]) -> IoResult<usize> {
        if self.has_failed() {
            return Err(Error::from(self.kind));
        }
        match into.first_mut() {
            None => Ok(0),
            Some(octet) => {
                *octet = 97;
                Ok(1)
            }
        }
    }
}

impl Write for Fitful {
    fn write(&mut self, octets: &[u8]) -> IoResult<usize> {
        if self.has_failed() {
            return Err(Error::from(self.kind));
        }
        Ok(octets.len().min(1))
    }

    fn flush(&mut self) -> IoResult<()> {
        Ok(())
    }
}

#[test]
fn memory_port_fails_by_number(rt: HostRuntime) -> Result<(), Fail> {
    let input = [1, 2, 3].to_vec(rt.alloc())?;
    let mut port = MemoryPort::new(rt.alloc(), input, [1].to_vec(rt.alloc())?, 2)?;
    let mut piece = [0; 4];
    assert_eq!(rt; port.read(&mut piece), Ok(2));
    assert_eq!(rt; piece, [1, 2, 0, 0]);
    assert_eq!(rt; write_all(&mut port, &[7, 8, 9]), Err(Failed));
    assert_eq!(rt; write_all(&mut port, &[7, 8, 9]), Ok(()));
    assert_eq!(rt; note_all(&mut port, &[5]), Ok(()));
    assert_eq!(rt; port.read(&mut piece), Ok(1));
    assert_eq!(rt; port.read(&mut piece), Ok(0));
    assert!(rt; !port.starved());
    assert_eq!(rt; port.taken(), 3);
    assert_eq!(rt; port.given(), [7, 8, 9].as_slice());
    assert_eq!(rt; port.noted(), [5].as_slice());
    assert_eq!(rt; port.asked(), [(0, 0), (2, 3), (3, 3)].as_slice());
    Ok(())
}

#[test]
fn steady_port_stops_reporting_past_its_room(rt: HostRuntime) -> Result<(), Fail> {
    let mut port = SteadyPort::new(rt.alloc(), [1, 2].to_vec(rt.alloc())?, 3)?;
    let mut piece = [0; 4];
    assert_eq!(rt; port.read(&mut piece), Ok(2));
    assert_eq!(rt; piece, [1, 2, 0, 0]);
    assert_eq!(rt; write_all(&mut port, &[7, 8, 9]), Ok(()));
    assert_eq!(rt; port.given(), [7, 8, 9].as_slice());
    assert_eq!(rt; write_all(&mut port, &[10]), Ok(()));
    assert_eq!(rt; note_all(&mut port, &[5]), Ok(()));
    assert!(rt; port.given().is_empty());
    assert_eq!(rt; port.noted(), [5].as_slice());
    Ok(())
}

#[test]
fn standard_port_passes_octets_on(rt: HostRuntime) -> Result<(), Fail> {
    let output: Vec<u8> = Vec::new(rt.alloc());
    let notes: Vec<u8> = Vec::new(rt.alloc());
    let mut port = StdPort::new(b"ab".as_slice(), output, notes);
    let mut piece = [0; 4];
    assert_eq!(rt; port.read(&mut piece), Ok(2));
    assert_eq!(rt; piece, [97, 98, 0, 0]);
    assert_eq!(rt; port.read(&mut piece), Ok(0));
    assert_eq!(rt; write_all(&mut port, b"cd"), Ok(()));
    assert_eq!(rt; note_all(&mut port, b"e"), Ok(()));
    Ok(())
}

#[test]
fn standard_port_tries_an_interrupted_call_again(rt: HostRuntime) {
    let fitful = || Fitful::new(ErrorKind::Interrupted);
    let mut port = StdPort::new(fitful(), fitful(), fitful());
    let mut piece = [0; 2];
    assert_eq!(rt; port.read(&mut piece), Ok(1));
    assert_eq!(rt; piece, [97, 0]);
    assert_eq!(rt; port.write(b"cd"), Ok(1));
    assert_eq!(rt; port.note(b"e"), Ok(1));
}

#[test]
fn standard_port_fails_where_a_call_would_block(rt: HostRuntime) {
    let fitful = || Fitful::new(ErrorKind::WouldBlock);
    let mut port = StdPort::new(fitful(), fitful(), fitful());
    assert_eq!(rt; port.read(&mut [0; 2]), Err(Failed));
    assert_eq!(rt; port.write(b"cd"), Err(Failed));
    assert_eq!(rt; port.note(b"e"), Err(Failed));
}
