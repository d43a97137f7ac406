//! Answers cases on the transform: lines and kernels, rings of rows, places of blocks, whole arrays, and images row by row in both
//! directions. A line of standard input has a subject with named numbers, a colon and data; it is written to standard output with
//! the answer after it. A line that is empty or begins with `#` is written as it is.
//!
//! Layer: tests and examples, no part of the program. It uses `base_122`, `raster_rows`, `wave_defs`, `lift_lanes`, `lift_rows`,
//! `block_families`, `line_rings` and 3 more.
#![tactic(auto)]

mod arrays;
mod case;
mod inverses;
mod kernels;
mod lines;
mod lists;
mod pictures;
mod places;
mod rings;
mod shown;
mod strips;

use case::{Case, Refusal};
use std::alloc::Global;
use std::io;
use std::process::ExitCode;

// Returns the answer to a case on images.
fn image_answer(case: &Case) -> Result<String, Refusal> {
    match case.subject() {
        "pixels" => pictures::pixels(case),
        "bands" | "bands-back" => arrays::answer(case),
        "blocks" | "strip" => strips::answer(case),
        "strip-rows" | "strip-back" => inverses::answer(case),
        _ => Err(Refusal::Words),
    }
}

// Returns the answer to a case.
fn answer(case: &Case) -> Result<String, Refusal> {
    let subject = case.subject();
    if subject.starts_with("predict") || subject.starts_with("update") {
        return kernels::answer(case);
    }
    if subject == "split" || subject.starts_with("join") || subject.starts_with("mirrored") {
        return lines::answer(case);
    }
    match subject {
        "rings" => rings::answer(case),
        "place" | "gather" => places::answer(case),
        _ => image_answer(case),
    }
}

// Returns a line with the answer after it, if it has a case.
fn answered(alloc: Global, line: &str) -> Result<String, Refusal> {
    if line.is_empty() || line.starts_with('#') {
        return Ok(line.to_string(alloc)?);
    }
    let (words, data) = line.split_once(':').unwrap_or((line, ""));
    let answer = answer(&Case { alloc, words, data })?;
    Ok(format!(in alloc; "{line} => {answer}")?)
}

fn main(rt: HostRuntime) -> io::Result<ExitCode> {
    for line in rt.lines(rt.alloc()) {
        let line = line?;
        match answered(rt.alloc(), line.as_str()) {
            Ok(text) => println!(rt; "{text}")?,
            Err(refusal) => {
                eprintln!(rt; "{refusal:?}: {line}")?;
                return Ok(ExitCode::FAILURE);
            }
        }
    }
    Ok(ExitCode::SUCCESS)
}
