// Reads all arguments.
ghost use Rattle.std.specs.Prelude.{◌≡◌, ◌<◌, ◌^◌, Result, IfOk, IfErr, IfSome, length};
ghost use Rattle.command_words.specs.declared.command.Command.{Command};
ghost use Rattle.command_words.specs.declared.command.WordFault.{WordFault};
ghost use Rattle.command_words.specs.Words.{texts, Says, IsPlaced};
ghost use Rattle.command_words.specs.Tables.{given_number, command_of};
ghost use Rattle.command_words.specs.Commands.{made, first_missing, first_refused, field_of, LacksTotal, IsInRange};
ghost use Rattle.command_words.specs.Given.{finds_of};

use crate::command::{Command, WordFault};
use crate::entries::read_entries;
use crate::given::Given;
use crate::tables::{ALL, Key, Task, command_named};
use base_122::Field;

// Returns the first of the command's keys that is required and missing.
fn first_missing(keys: &[Key], given: &Given) -> Option<Key>
    ensures { result ≡ first_missing keys.now (finds_of given.now) }
{
    keys.iter().copied().find(|key| given.lacks(*key))
}

// Returns the first key out of range.
fn first_refused(task: Task, given: &Given) -> Option<Key>
    ensures { result ≡ first_refused task (finds_of given.now) }
{
    ALL.iter()
        .copied()
        .find(|key| !given.is_in_range(task, *key))
}

// Returns the field that is named for a key.
fn field_of(key: Option<Key>) -> Option<Field>
    ensures { result ≡ field_of key }
{
    key?.row().field
}

// Returns the number at a key, if the arguments have it.
fn given_number(given: &Given, key: Key) -> Option<u16>
    requires { IfSome (given_number (finds_of given.now) key) (λ number. number < 2 ^ 16) }
    ensures { result ≡ given_number (finds_of given.now) key }
{
    match given.given_number(key) {
        Some(number) => Some(number as u16),
        None => None,
    }
}

// Returns the command of these values, which are all in range.
fn command_of(task: Task, given: &Given) -> Command
    requires { IsInRange (command_of task (finds_of given.now)) }
    ensures { result ≡ command_of task (finds_of given.now) }
{
    match task {
        Task::Encode => Command::Encode(given.setting(), given.flag(Key::Book)),
        Task::Mux => Command::Mux(given.setting(), given.number(Key::Cameras) as u8),
        Task::Read(reading) => Command::Read(reading, given.wish(), given.flag(Key::Book)),
        Task::Info => Command::Info(given_number(given, Key::Apid), given.cap(Key::Octets)),
        Task::Pick => Command::Pick(given.wish(), given_number(given, Key::Image)),
        Task::BareEncode => Command::BareEncode(given.setting()),
        Task::BareDecode => Command::BareDecode(given.wish()),
        Task::Make => Command::Make(given.made_image()),
        Task::Trial => Command::Trial(given.setting(), given.number(Key::Seed)),
    }
}

// Returns the command of these values, or the first thing that is wrong with them.
fn make_command(task: Task, keys: &[Key], given: &Given) -> Result<Command, WordFault>
    requires { LacksTotal task (finds_of given.now) }
    ensures { result ≡ made task keys.now (finds_of given.now) }
{
    if let Some(field) = field_of(first_missing(keys, given)) {
        return Err(WordFault::MissingKey(field));
    }
    if let Some(field) = field_of(first_refused(task, given)) {
        return Err(WordFault::OutOfRange(field));
    }
    Ok(command_of(task, given))
}

/// Reads the arguments of the command line, without the program's own name (docs/DECISIONS.md, "Words").
///
/// The first argument is the command, and each further one is `key=value`. A key that is missing has its default. If the arguments make no
/// command, the result is the first thing that is wrong with them: the arguments are tested from left to right, then for a required key
/// that is missing, then for the command's first field out of range in the order of `Field`. A command that is returned has its fields in
/// range, and the code book of the profile. The rows of `encode` are 0, for an image whose height is reported last, or 17 to 262,144
/// (docs/formats.md, "Bounds"); `rows=0` is out of range for all other commands.
pub fn read_words(words: &[String]) -> Result<Command, WordFault>
    ensures says { Says (texts words.now) result }
    ensures only { (said : Result Command WordFault) → Says (texts words.now) said → said ≡ result }
    ensures range { IfOk result IsInRange }
    ensures place { IfErr result (IsPlaced (length words.now)) }
{
    let [first, rest @ ..] = words else {
        return Err(WordFault::MissingCommand);
    };
    let Some((task, keys)) = command_named(first.as_str()) else {
        return Err(WordFault::BadWord { place: 0 });
    };
    match read_entries(keys, rest) {
        Ok(given) => make_command(task, keys, &given),
        Err(fault) => Err(fault),
    }
}
