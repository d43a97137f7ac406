// The answers of the program itself.
ghost use Rattle.std.specs.Prelude.{◌≡◌, ◌<◌, [], IfOk, IfSome, length, map, slice_index_or, string_bytes};
ghost use Rattle.command_words.specs.Words.{texts};
ghost use Rattle.command_words.specs.Help.{command_help};
ghost use Rattle.command_words.specs.Answers.{is_help, is_version, answer_to, help_on, help_on_name, answer_text, IsKnown};

use crate::help::{command_help, key_help, page};
use crate::tables::{COMMANDS, CommandRow, Key, command_place};
use std::alloc::{AllocError, Global};

// The answer to `version`. The file VERSION has the same version.
const VERSION: &str = "strip122 0.2.0, after CCSDS 122.0-B-2; its packets are its own\n";

// The note if there is no help on what is asked.
const NO_HELP: &str =
    "strip122: no help on that; 'strip122 help' lists the commands and the keys\n";

/// An answer of the program itself.
#[derive(Clone, Copy)]
pub enum Answer {
    /// The page of all commands and keys.
    Page,
    /// The help on the command at this place in the table.
    Command { place: usize },
    /// The help on a key.
    Key(Key),
    /// There is no help on what is asked.
    NoHelp,
    Version,
}

/// Returns the answer of the program itself to these arguments, if it has one. It answers `help`, alone or before one command or key, and
/// `version` alone; each may be written in two more ways.
pub fn answer_to(words: &[String]) -> Option<Answer>
    ensures answer { result ≡ answer_to (texts words.now) }
    ensures known { IfSome result IsKnown }
{
    let [first, rest @ ..] = words else {
        return None;
    };
    if is_help(first.as_str()) {
        return Some(help_on(rest));
    }
    if is_version(first.as_str()) && rest.is_empty() {
        return Some(Answer::Version);
    }
    None
}

fn is_help(word: &str) -> bool
    ensures { result ≡ is_help word.now }
{
    word == "help" || word == "--help" || word == "-h"
}

fn is_version(word: &str) -> bool
    ensures { result ≡ is_version word.now }
{
    word == "version" || word == "--version" || word == "-V"
}

// Returns the answer to these arguments after `help`.
fn help_on(words: &[String]) -> Answer
    ensures answer { result ≡ help_on (texts words.now) }
    ensures known { IsKnown result }
{
    match words {
        [] => Answer::Page,
        [name] => help_on_name(name.as_str()),
        _ => Answer::NoHelp,
    }
}

fn help_on_name(name: &str) -> Answer
    ensures answer { result ≡ help_on_name name.now }
    ensures known { IsKnown result }
{
    if let Some(place) = command_place(name) {
        return Answer::Command { place };
    }
    match Key::named(name) {
        Some(key) => Answer::Key(key),
        None => Answer::NoHelp,
    }
}

/// Returns the text of an answer.
pub fn answer_text(alloc: Global, answer: Answer) -> Result<String, AllocError>
    requires { IsKnown answer }
    ensures { IfOk result (λ text. string_bytes text ≡ answer_text answer) }
{
    match answer {
        Answer::Page => page(alloc),
        Answer::Command { place } => command_help_at(alloc, &COMMANDS, place),
        Answer::Key(key) => key_help(alloc, key),
        Answer::NoHelp => String::from_str(alloc, NO_HELP),
        Answer::Version => String::from_str(alloc, VERSION),
    }
}

// Returns the help on the command at this place of the table.
fn command_help_at(alloc: Global, table: &[CommandRow], place: usize) -> Result<String, AllocError>
    requires { place < length table.now }
    ensures { IfOk result (λ text. string_bytes text ≡ slice_index_or (map (λ row. command_help row.0.now row.1 row.2.now row.3.now row.4.now) table.now)
        place []) }
{
    command_help(alloc, &table[place])
}
