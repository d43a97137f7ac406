// Defines the entry point of the program.
ghost use Rattle.std.specs.Prelude.{◌≡◌, ◌≤◌, ◌*◌, ◌⊎◌, ◌↔◌, ℕ, length, Bool, IsTrue, List, Option, Some, Result, Ok, Err};
ghost use Rattle.plane_defs.specs.Codes.{is_book_sound};
ghost use Rattle.port_122.specs.Outside.{Rose};
ghost use Rattle.base_122.specs.Ranges.{IsInRange as IsSettingInRange, IsWithin, rows_range};
ghost use Rattle.base_122.specs.declared.setting.Setting.{Setting};
ghost use Rattle.raster_rows.specs.Pixels.{IsDepth};
ghost use Rattle.command_words.specs.declared.command.WordFault.{WordFault};
ghost use Rattle.command_words.specs.declared.command.Command.{Command};
ghost use Rattle.command_words.specs.declared.tables.Reading.{Reading};
ghost use Rattle.command_words.specs.Words.{texts, Says, IsPlaced};
ghost use Rattle.command_words.specs.Commands.{IsInRange};
ghost use Rattle.base_122.specs.declared.wish.DecodeWish.{DecodeWish};
ghost use Rattle.strip122.specs.Pictures.{GaveLook, GavePicture};
ghost use Rattle.strip122.specs.BareStreams.{GaveBare};
ghost use Rattle.strip122.specs.Books.{ByBook};
ghost use Rattle.strip122.specs.Muxing.{camera_settings};
ghost use Rattle.strip122.specs.Picks.{GavePicked};
ghost use Rattle.strip122.specs.Closed.{BareClosed, ClosedBy, MuxClosed};
ghost use Rattle.strip122.specs.Behaviours.{IsSteady};
ghost use Rattle.strip122.specs.Outcomes.{AtStatus, outcomes};
ghost use Rattle.strip122.specs.Run.{Refuses, Makes, Tries, Runs, behaviour};

use crate::bare::bare_decode;
use crate::books::{encode_with_book, read_with_book};
use crate::encoders::{bare_encode, encode, mux};
use crate::make::write_made;
use crate::notes::{note_line, note_refusal};
use crate::packets::{info, pick, read};
use crate::trial::{give_trial, run_trial};
use bare_stream::{bare_round_trip, bare_streams_are_read};
use base_122::Setting;
use camera_mux::picking_keeps;
use command_words::{Command, WordFault, read_words};
use port_122::Port;
use quick_look::{decoding_stays_in_rects, looks_are_of_images};
use raster_rows::MadeImage;
use std::alloc::Global;
use strip_decoder::{decoding_contains, received_is_known, round_trip};

// Refuses the arguments.
fn refuse<X: Port>(words: &[String], fault: WordFault, port: &mut X) -> u8
    requires { IsPlaced (length words.now) fault }
    ensures { Refuses (texts words.now) fault (X.outside port.old) (X.outside port.new) result }
{
    note_refusal(port, words, fault);
    2
}

// Runs the command `make`.
fn make<X: Port>(made: &MadeImage, port: &mut X) -> u8
    requires { IsDepth made.now.depth }
    ensures { Makes made.now (X.outside port.old) (X.outside port.new) result }
{
    match write_made(port, made) {
        Ok(()) => 0,
        Err(_) => {
            note_line(port, "strip122: write fault\n");
            5
        }
    }
}

// Runs the command `trial`. It is done in memory, so nothing is read.
fn trial<X: Port>(alloc: Global, setting: &Setting, seed: u32, port: &mut X) -> u8
    requires range { IsSettingInRange setting.now }
    requires height { IsWithin rows_range setting.now.rows }
    requires book { IsTrue (is_book_sound setting.now.book) }
    requires few { setting.now.width * setting.now.rows ≤ 16777216 }
    ensures { Tries setting.now seed (X.outside port.old) (X.outside port.new) result }
{
    let Ok(done) = run_trial(alloc, setting, seed) else {
        note_line(port, "strip122: no memory\n");
        return 6;
    };
    match give_trial(port, setting, &done) {
        Ok(()) => 0,
        Err(_) => {
            note_line(port, "strip122: write fault\n");
            5
        }
    }
}

// Runs one command.
fn perform<X: Port>(alloc: Global, command: &Command, port: &mut X) -> u8
    requires { IsInRange command.now }
    ensures performs { (behaviour command.now).performs (X.outside port.old) (X.outside port.new) result }
    ensures closed { (setting : Setting) (has_book : Bool) → command.now ≡ Command.Encode setting has_book → result ≡ 0 →
        ClosedBy has_book setting (X.outside port.old) (X.outside port.new) }
    ensures mux_closed { (setting : Setting) (cameras : ℕ) → command.now ≡ Command.Mux setting cameras → result ≡ 0 →
        MuxClosed (camera_settings setting cameras) (X.outside port.old) (X.outside port.new) }
    ensures bare_closed { (setting : Setting) → command.now ≡ Command.BareEncode setting → result ≡ 0 →
        BareClosed setting (X.outside port.old) (X.outside port.new) }
{
    match command {
        Command::Encode(setting, false) => encode(alloc, setting, port),
        Command::Encode(setting, true) => encode_with_book(alloc, setting, port),
        Command::Mux(setting, cameras) => mux(alloc, setting, *cameras, port),
        Command::Read(reading, wish, false) => read(alloc, *reading, wish, port),
        Command::Read(reading, wish, true) => read_with_book(alloc, *reading, wish, port),
        Command::Info(apid, octets) => info(alloc, *apid, *octets, port),
        Command::Pick(wish, image) => pick(alloc, wish, *image, port),
        Command::BareEncode(setting) => bare_encode(alloc, setting, port),
        Command::BareDecode(wish) => bare_decode(alloc, wish, port),
        Command::Make(made) => make(made, port),
        Command::Trial(setting, seed) => trial(alloc, setting, *seed, port),
    }
}

/// Does all that the program does for these arguments, without the program's own name, and returns its status (docs/architecture.md, "Where
/// the meaning of a run is proved"): 0 done, 1 rows of the picture are missing, its height isn't known or its packets can't be read on, 2
/// the arguments are refused, 3 the input is refused, 4 read fault, 5 write fault, 6 no memory. Each status except 0 has its line among the
/// notes, and is decided before it is noted.
pub fn run<X: Port>(alloc: Global, words: &[String], port: &mut X) -> u8
    // The arguments decide what is done, and each status has its cause there.
    ensures runs { (said : Result Command WordFault) × Says (texts words.now) said
        × Runs (texts words.now) said (X.outside port.old) (X.outside port.new) result }

    // What follows for each status: the whole output, a part of it, an input that is refused, or too little memory.
    ensures follows { (command : Command) → Says (texts words.now) (Ok command) →
        AtStatus (outcomes command) (X.outside port.old) (X.outside port.new) result }
    ensures refused { (result ≡ 2) ↔ ((fault : WordFault) × Says (texts words.now) (Err fault)) }
    ensures read_fault { result ≡ 4 → Rose (X.outside port.old).read_faults (X.outside port.new).read_faults }
    ensures write_fault { result ≡ 5 → Rose (X.outside port.old).write_faults (X.outside port.new).write_faults }

    // If the arguments are valid and there is no fault, the command is done for an input that it accepts, wholly or in part, unless memory is
    // missing, and another input is refused.
    ensures complete { (command : Command) (input : List ℕ) → Says (texts words.now) (Ok command) → (X.outside port.old).rest ≡ Some input →
        (behaviour command).accepts input → IsSteady (X.outside port.old) (X.outside port.new) → (result ≡ 0) ⊎ ((result ≡ 1) ⊎ (result ≡ 6)) }
    ensures wrong_input { (command : Command) (input : List ℕ) → Says (texts words.now) (Ok command) → (X.outside port.old).rest ≡ Some input →
        ((behaviour command).accepts input → ⊥) → IsSteady (X.outside port.old) (X.outside port.new) → (result ≡ 3) ⊎ (result ≡ 6) }

    // No pixel of a picture outside the damaged rows, or outside the damaged rectangles, depends on what was lost, packets of other APIDs
    // change nothing, all packets of an image give it whole, and restored numbers change no damage. If the input has a book, the wish has it,
    // and this holds of the rest.
    ensures picture { (wish : DecodeWish) (has_book : Bool) → Says (texts words.now) (Ok (Command.Read Reading.Decode wish has_book)) →
        (result ≡ 0) ⊎ (result ≡ 1) →
        ByBook has_book wish (λ wish old new. GavePicture wish old new result) (X.outside port.old) (X.outside port.new) }

    // A look at all packets of an image has the coefficients of its lowest subband.
    ensures look { (wish : DecodeWish) (has_book : Bool) → Says (texts words.now) (Ok (Command.Read Reading.Look wish has_book)) → (result ≡ 0) ⊎ (result ≡ 1) →
        ByBook has_book wish GaveLook (X.outside port.old) (X.outside port.new) }

    // The packets of an image that are picked are read as those packets of the stream are, and all packets of an APID as the stream is.
    ensures picks { (wish : DecodeWish) (image : Option ℕ) → Says (texts words.now) (Ok (Command.Pick wish image)) → (result ≡ 0) ⊎ (result ≡ 1) →
        GavePicked wish image (X.outside port.old) (X.outside port.new) }

    // What was given for a raster of which nothing is omitted gives the raster back: `decode` of the packets, also of those of several
    // cameras, and `bare-decode` of the bare stream, with the same book and caps that admit the image, end with status 0 and give exactly its
    // octets, unless memory is missing or a call fails.
    ensures closed { (setting : Setting) (has_book : Bool) → Says (texts words.now) (Ok (Command.Encode setting has_book)) → result ≡ 0 →
        ClosedBy has_book setting (X.outside port.old) (X.outside port.new) }
    ensures mux_closed { (setting : Setting) (cameras : ℕ) → Says (texts words.now) (Ok (Command.Mux setting cameras)) → result ≡ 0 →
        MuxClosed (camera_settings setting cameras) (X.outside port.old) (X.outside port.new) }
    ensures bare_closed { (setting : Setting) → Says (texts words.now) (Ok (Command.BareEncode setting)) → result ≡ 0 →
        BareClosed setting (X.outside port.old) (X.outside port.new) }

    // The picture of an image's bare stream is the image.
    ensures bare_picture { (wish : DecodeWish) → Says (texts words.now) (Ok (Command.BareDecode wish)) → result ≡ 0 →
        GaveBare wish (X.outside port.old) (X.outside port.new) }
{
    picking_keeps();
    received_is_known();
    decoding_stays_in_rects();
    looks_are_of_images();
    decoding_contains();
    round_trip();
    bare_streams_are_read();
    bare_round_trip();
    match read_words(words) {
        Ok(command) => perform(alloc, &command, port),
        Err(fault) => refuse(words, fault, port),
    }
}
