//! This crate is the program: it connects standard input, output and error, the arguments of the command line and the status.
//!
//! Layer: the program and the library for C. It uses `base_122`, `port_122`, `raster_rows`, `wave_defs`, `plane_defs`, `segment_defs`,
//! `packet_defs` and 11 more.
#![tactic(auto)]

ghost use Rattle.std.specs.Prelude.{◌≡◌, drop};
ghost use Rattle.std.specs.Process.{exit_status};
ghost use Rattle.std.specs.declared.io.ErrorKind.{ErrorKind};
ghost use Rattle.command_words.specs.declared.answers.Answer.{Answer};
ghost use Rattle.command_words.specs.Words.{texts};
ghost use Rattle.command_words.specs.Answers.{IsKnown, answer_text};
ghost use Rattle.strip122.specs.Answers.{Prints, AnswersItself, Does, words_fault};

mod bare;
mod books;
mod damage_notes;
mod encoders;
mod make;
mod notes;
mod packets;
mod top;
mod trial;

use crate::notes::note_line;
use crate::top::run;
use command_words::{Answer, answer_text, answer_to};
use port_122::{Port, StdPort, write_all};
use std::alloc::Global;
use std::env;
use std::io::ErrorKind;
use std::process::ExitCode;

// The status for arguments that aren't UTF-8, and for those of `help` that it doesn't know.
const REFUSED: u8 = 2;

// The status if standard output fails.
const WRITE_FAULT: u8 = 5;

// The status if there is too little memory for the arguments or for an answer.
const NO_MEMORY: u8 = 6;

// Returns the status if the arguments can't be read.
fn words_status(kind: ErrorKind) -> u8
    ensures { result ≡ words_fault kind }
{
    match kind {
        ErrorKind::OutOfMemory => NO_MEMORY,
        _ => REFUSED,
    }
}

// Prints a text, and returns the status.
fn print<X: Port>(text: &str, port: &mut X) -> u8
    ensures { Prints text.now (X.outside port.old) (X.outside port.new) result }
{
    match write_all(port, text.as_bytes()) {
        Ok(()) => 0,
        Err(_) => WRITE_FAULT,
    }
}

// Gives an answer of the program itself, and returns the status.
fn give_answer<X: Port>(alloc: Global, answer: Answer, port: &mut X) -> u8
    requires { IsKnown answer }
    ensures { AnswersItself answer (X.outside port.old) (X.outside port.new) result }
{
    let Ok(text) = answer_text(alloc, answer) else {
        return NO_MEMORY;
    };
    match answer {
        Answer::NoHelp => {
            note_line(port, text.as_str());
            REFUSED
        }
        _ => print(text.as_str(), port),
    }
}

// Does what the arguments ask for, of which the first is the program's own name, and returns the status.
fn start<X: Port>(alloc: Global, arguments: &[String], port: &mut X) -> ExitCode
    ensures { Does (drop 1 (texts arguments.now)) (X.outside port.old) (X.outside port.new) (exit_status result) }
{
    let [_, words @ ..] = arguments else {
        return ExitCode::from(run(alloc, arguments, port));
    };
    match answer_to(words) {
        Some(answer) => ExitCode::from(give_answer(alloc, answer, port)),
        None => ExitCode::from(run(alloc, words, port)),
    }
}

fn main(rt: HostRuntime) -> ExitCode {
    let arguments = match env::args(&rt) {
        Ok(arguments) => arguments,
        Err(error) => return ExitCode::from(words_status(error.kind())),
    };
    let Ok(arguments) = arguments.collect::<Vec<String>>(rt.alloc()) else {
        return ExitCode::from(NO_MEMORY);
    };
    let mut port = StdPort::new(rt.stdin(), rt.stdout(), rt.stderr());
    start(rt.alloc(), arguments.as_slice(), &mut port)
}
