//! Answers cases on the layers of the coder. A line of standard input has a subject with named numbers, a colon and data; it is written
//! to standard output with the answer after it. A line that is empty or begins with `#` is written as it is.
//!
//! Layer: tests and examples, no part of the program. It uses `base_122`, `port_122`, `number_defs`, `wave_defs`, `plane_defs`,
//! `segment_defs`, `block_masks` and 9 more.
#![tactic(auto)]

mod bit_words;
mod bits;
mod block_words;
mod books;
mod case;
mod flips;
mod heads;
mod numbers;
mod planes;
mod segments;
mod shown;
mod words;

use case::{Case, Refusal};
use std::alloc::Global;
use std::io;
use std::process::ExitCode;

// Returns the answer to a case.
fn answer(case: &Case) -> Result<String, Refusal> {
    match case.subject() {
        "put-bits" => bits::put(case),
        "take-bits" => bits::take(case),
        "check-book" => books::check(case),
        "read-book" => books::read(case),
        "dc-bits" => numbers::dc_bits(case),
        "options" => numbers::options(case),
        "put-numbers" => numbers::put_numbers(case),
        "put-depths" => numbers::put_block_depths(case),
        "put-dcs" => numbers::put_dcs(case),
        "take-numbers" => numbers::take_numbers(case),
        "take-depths" => numbers::take_block_depths(case),
        "take-dcs" => numbers::take_dcs(case),
        "best-option" => words::best(case),
        "put-word" => words::put(case),
        "take-option" => words::take_identifier(case),
        "take-word" => words::take(case),
        "put-planes" => planes::put(case),
        "take-planes" => planes::take(case),
        "head" => heads::head(case),
        "read-segment" => segments::read(case),
        "write-segment" => segments::write(case),
        "flip-bits" => flips::flips(case),
        _ => Err(Refusal::Words),
    }
}

// Returns a line with the answer after it, if it has a case.
fn answered(alloc: Global, line: &str) -> Result<String, Refusal> {
    if line.is_empty() || line.starts_with('#') {
        return Ok(line.to_string(alloc)?);
    }
    let (words, data) = line.split_once(':').unwrap_or((line, ""));
    let words = words.split_whitespace().collect::<Vec<&str>>(alloc)?;
    let data = data.split_whitespace().collect::<Vec<&str>>(alloc)?;
    let case = Case {
        alloc,
        words: words.as_slice(),
        data: data.as_slice(),
    };
    let answer = answer(&case)?;
    Ok(format!(in alloc; "{line} => {answer}")?)
}

fn main(rt: HostRuntime) -> io::Result<ExitCode> {
    for line in rt.lines(rt.alloc()) {
        let line = line?;
        match answered(rt.alloc(), line.as_str()) {
            Ok(text) => println!(rt; "{text}")?,
            Err(refusal) => {
                eprintln!(rt; "{refusal:?}: {line}")?;
                return Ok(ExitCode::FAILURE);
            }
        }
    }
    Ok(ExitCode::SUCCESS)
}
