// Runs the commands that read packets.
ghost use Rattle.std.specs.Prelude.{◌≡◌, [], true, IsTrue};
ghost use Rattle.plane_defs.specs.Codes.{is_book_sound};
ghost use Rattle.strip122.specs.Notes.{decoder_report, list_report};
ghost use Rattle.strip122.specs.DamageNotes.{damaged, is_known, ReportsDone};
ghost use Rattle.strip122.specs.Decoding.{Decodes, FindsDamage, FindsRects, LooksAt, reads};
ghost use Rattle.strip122.specs.Listing.{Reads, info_fault_of, informer, lister, picker};

use crate::damage_notes::{note_damage, note_framing};
use crate::notes::{note_decoder_fault, note_list_fault};
use base_122::DecodeWish;
use camera_mux::{InfoFault, InfoWish, list_images, pick_packets};
use command_words::Reading;
use packet_defs::Framing;
use port_122::Port;
use quick_look::{list_rects, look_packets};
use std::alloc::Global;
use strip_decoder::{
    DecodeDone, DecodeFault, ListFault, decode_packets, find_damage, list_packets,
};

fn decoder_fault_status(fault: DecodeFault) -> u8
    ensures { result ≡ (decoder_report fault).status }
{
    match fault {
        DecodeFault::NoSegment | DecodeFault::TooManyPixels { .. } | DecodeFault::LongInput => 3,
        DecodeFault::ReadFault => 4,
        DecodeFault::WriteFault => 5,
        DecodeFault::Memory => 6,
    }
}

fn list_fault_status(fault: ListFault) -> u8
    ensures { result ≡ (list_report fault).status }
{
    match fault {
        ListFault::LongInput => 3,
        ListFault::ReadFault => 4,
        ListFault::WriteFault => 5,
        ListFault::Memory => 6,
    }
}

// Returns 0 if no row is damaged, the height is known and the packets could be read to their end; otherwise it notes what is wrong. The
// damage is that of the rows that were written.
fn report_done<X: Port>(port: &mut X, done: &DecodeDone) -> u8
    requires { done.now.damage.rows ≡ done.now.written }
    ensures { ReportsDone (damaged done.now.damage) (is_known done.now.geometry) done.now.framing (X.outside port.old) (X.outside port.new) result }
{
    let known = done.geometry.rows != 0;
    let _written = done.written;
    if done.damage.next_range(0).is_none() && known && done.framing.is_none() {
        return 0;
    }
    note_damage(port, &done.damage, known, done.framing);
    1
}

// Returns 0 if the packets could be read to their end; otherwise it notes why not.
fn report_framing<X: Port>(port: &mut X, framing: Option<Framing>) -> u8
    ensures { ReportsDone [] true framing (X.outside port.old) (X.outside port.new) result }
{
    if framing.is_none() {
        return 0;
    }
    note_framing(port, framing);
    1
}

// Runs the command `decode`: it takes packets and gives the picture. If there is too little memory, nothing is given.
fn decode<X: Port>(alloc: Global, wish: &DecodeWish, port: &mut X) -> u8
    requires { IsTrue (is_book_sound wish.now.book) }
    ensures { Decodes wish.now (X.outside port.old) (X.outside port.new) result }
{
    match decode_packets(alloc, port, wish) {
        Ok(done) => report_done(port, &done),
        Err(fault) => {
            note_decoder_fault(port, fault);
            decoder_fault_status(fault)
        }
    }
}

// Runs the command `damage`: it takes packets and gives a line for each range of damaged rows. If there is too little memory, nothing is
// given.
fn damage<X: Port>(alloc: Global, wish: &DecodeWish, port: &mut X) -> u8
    requires { IsTrue (is_book_sound wish.now.book) }
    ensures { FindsDamage wish.now (X.outside port.old) (X.outside port.new) result }
{
    match find_damage(alloc, port, wish) {
        Ok(done) => report_done(port, &done),
        Err(fault) => {
            note_decoder_fault(port, fault);
            decoder_fault_status(fault)
        }
    }
}

// Runs the command `look`: it takes packets and gives a small picture with one value for each block. If there is too little memory,
// nothing is given.
fn look<X: Port>(alloc: Global, wish: &DecodeWish, port: &mut X) -> u8
    requires { IsTrue (is_book_sound wish.now.book) }
    ensures { LooksAt wish.now (X.outside port.old) (X.outside port.new) result }
{
    match look_packets(alloc, port, wish) {
        Ok(done) => report_done(port, &done),
        Err(fault) => {
            note_decoder_fault(port, fault);
            decoder_fault_status(fault)
        }
    }
}

// Runs the command `rects`: it takes packets and gives a line for each rectangle of damaged pixels. If there is too little memory, nothing
// is given.
fn rects<X: Port>(alloc: Global, wish: &DecodeWish, port: &mut X) -> u8
    requires { IsTrue (is_book_sound wish.now.book) }
    ensures { FindsRects wish.now (X.outside port.old) (X.outside port.new) result }
{
    match list_rects(alloc, port, wish) {
        Ok(done) => report_done(port, &done),
        Err(fault) => {
            note_decoder_fault(port, fault);
            decoder_fault_status(fault)
        }
    }
}

// Runs the command `list`: it takes packets and gives a line for each. If there is too little memory, nothing is read.
fn list<X: Port>(alloc: Global, wish: &DecodeWish, port: &mut X) -> u8
    ensures { Reads (lister wish.now) (X.outside port.old) (X.outside port.new) result }
{
    match list_packets(alloc, port, wish) {
        Ok(done) => report_framing(port, done.framing),
        Err(fault) => {
            note_list_fault(port, fault);
            list_fault_status(fault)
        }
    }
}

/// Runs the command `pick`: it takes packets and gives those of one APID, or those of one image of it. Returns the status. If there is too
/// little memory, nothing is read.
pub fn pick<X: Port>(alloc: Global, wish: &DecodeWish, image: Option<u16>, port: &mut X) -> u8
    ensures { Reads (picker wish.now image) (X.outside port.old) (X.outside port.new) result }
{
    match pick_packets(alloc, port, wish, image) {
        Ok(done) => report_framing(port, done.framing),
        Err(fault) => {
            note_list_fault(port, fault);
            list_fault_status(fault)
        }
    }
}

/// Runs the command `info`: it takes packets and gives a line for each image of an APID, or of all APIDs. Returns the status. If there is
/// too little memory, nothing is read.
pub fn info<X: Port>(alloc: Global, apid: Option<u16>, octets: u64, port: &mut X) -> u8
    ensures { Reads (informer (record { apid = apid; octets = octets })) (X.outside port.old) (X.outside port.new) result }
{
    match list_images(alloc, port, &InfoWish { apid, octets }) {
        Ok(done) => report_framing(port, done.framing),
        Err(fault) => {
            let known = list_fault_of(fault);
            note_list_fault(port, known);
            list_fault_status(known)
        }
    }
}

// Returns the fault that is noted for a fault of `info`: if there are more images than lines, the input is too long.
fn list_fault_of(fault: InfoFault) -> ListFault
    ensures { result ≡ info_fault_of fault }
{
    match fault {
        InfoFault::ReadFault => ListFault::ReadFault,
        InfoFault::WriteFault => ListFault::WriteFault,
        InfoFault::LongInput | InfoFault::TooManyImages => ListFault::LongInput,
        InfoFault::Memory => ListFault::Memory,
    }
}

/// Runs a command that reads packets, and returns the status.
pub fn read<X: Port>(alloc: Global, reading: Reading, wish: &DecodeWish, port: &mut X) -> u8
    requires { IsTrue (is_book_sound wish.now.book) }
    ensures { (reads reading wish.now).performs (X.outside port.old) (X.outside port.new) result }
{
    match reading {
        Reading::Decode => decode(alloc, wish, port),
        Reading::Damage => damage(alloc, wish, port),
        Reading::Look => look(alloc, wish, port),
        Reading::Rects => rects(alloc, wish, port),
        Reading::List => list(alloc, wish, port),
    }
}
