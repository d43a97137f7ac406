// Runs the command that reads a bare stream.
ghost use Rattle.std.specs.Prelude.{◌≡◌, IsTrue};
ghost use Rattle.plane_defs.specs.Codes.{is_book_sound};
ghost use Rattle.strip122.specs.Notes.{bare_report};
ghost use Rattle.strip122.specs.BareStreams.{DecodesStream};

use crate::notes::note_bare_fault;
use bare_stream::{BareFault, decode_bare};
use base_122::DecodeWish;
use port_122::Port;
use std::alloc::Global;

fn bare_fault_status(fault: BareFault) -> u8
    ensures { result ≡ (bare_report fault).status }
{
    match fault {
        BareFault::LongInput | BareFault::TooManyPixels { .. } | BareFault::Refused { .. } => 3,
        BareFault::ReadFault => 4,
        BareFault::WriteFault => 5,
        BareFault::Memory => 6,
    }
}

/// Runs the command `bare-decode`: it takes a bare stream and gives its picture. Returns the status. If there is too little memory, nothing
/// is given.
pub fn bare_decode<X: Port>(alloc: Global, wish: &DecodeWish, port: &mut X) -> u8
    requires { IsTrue (is_book_sound wish.now.book) }
    ensures { DecodesStream wish.now (X.outside port.old) (X.outside port.new) result }
{
    match decode_bare(alloc, port, wish) {
        Ok(_) => 0,
        Err(fault) => {
            note_bare_fault(port, fault);
            bare_fault_status(fault)
        }
    }
}
