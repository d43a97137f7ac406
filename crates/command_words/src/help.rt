// The texts of help.
ghost use Rattle.std.specs.Prelude.{◌≡◌, ◌+◌, ◌-◌, ◌++◌, All, IfOk, length, map, flat_map, string_bytes};
ghost use Rattle.base_122.specs.Weights.{IsShift};
ghost use Rattle.command_words.specs.Values.{form_of, HasForm, value_text};
ghost use Rattle.command_words.specs.Help.{Appends, numbers_text, form_text, range_text, default_text, key_head, spaces_to, command_line, name_if_own};
ghost use Rattle.command_words.specs.Help.{columns, column_text, column_after, key_line, group_lines, page, takes_all, command_key, command_help, key_help};

use crate::tables::{COMMANDS, CommandRow, Form, GROUPS, Key, KeyRow, Range, Task};
use crate::values::Value;
use base_122::{FieldRange, Select};
use itoa::Buffer;
use std::alloc::{AllocError, Global};

// The text of the page before the commands.
const USAGE: &str = "\
usage: strip122 COMMAND [KEY=VALUE ..]
       strip122 help [COMMAND | KEY]
       strip122 version

";

// The text of the page between the commands and the keys.
const RASTERS: &str = "
A raster has its rows from the top. A pixel has one octet if depth is at most 8,
else two, the higher first. With rows=0, encode takes rows until the input ends.
With book=1, the input begins with a code book of 138 octets. mux takes records:
the number of a camera from 0, one octet, and then that camera's next row. A
trial has at most 2^24 pixels.

Each key is given at most once. Its default is in parentheses, and after it are
the commands that have the key. pick has no default for image, and info none for
apid. 'strip122 help KEY' says what a key is for.

";

// The text of the page after the keys.
const STATUSES: &str = "
status  0 done, 1 rows are damaged, the height is unknown or the packets can't
        be read on, 2 bad words, 3 bad input, 4 read fault, 5 write fault,
        6 no memory
";

// The column at which the commands of a key are listed, and that at which a line ends at the latest.
const COMMANDS_AT: usize = 45;

const LINE_END: usize = 80;

// The column at which the meaning of a command begins.
const MEANING_AT: usize = 13;

/// Returns the page of all commands and keys: for each command its meaning, and for each key its range, its default and the commands that
/// have it.
pub fn page(alloc: Global) -> Result<String, AllocError>
    ensures { IfOk result (λ text. string_bytes text ≡ page) }
{
    let mut text = String::from_str(alloc, USAGE)?;
    push_commands(&mut text, &COMMANDS)?;
    text.push_str(RASTERS)?;
    push_groups(&mut text, &GROUPS)?;
    text.push_str(STATUSES)?;
    Ok(text)
}

/// Returns the help on a command: its meaning, its keys with range, default and meaning, and an example.
#[tactic(auto, unfolding(crate::specs::Help::command_help))]
pub fn command_help(alloc: Global, row: &CommandRow) -> Result<String, AllocError>
    ensures { IfOk result (λ text. string_bytes text ≡ command_help row.now.0.now row.now.1 row.now.2.now row.now.3.now row.now.4.now) }
{
    let mut text = String::new(alloc);
    push_command(&mut text, row)?;
    text.push_str("\n")?;
    push_command_keys(&mut text, row.1, row.2)?;
    text.push_str("\nexample: ")?;
    text.push_str(row.4)?;
    text.push_str("\n")?;
    Ok(text)
}

/// Returns the help on a key: its range, its default, its meaning, and the commands that have it.
pub fn key_help(alloc: Global, key: Key) -> Result<String, AllocError>
    ensures { IfOk result (λ text. string_bytes text ≡ key_help key) }
{
    let mut text = String::new(alloc);
    push_head(&mut text, key, false)?;
    text.push_str("\n    ")?;
    text.push_str(key.meaning())?;
    text.push_str("\ncommands:")?;
    push_names(&mut text, &COMMANDS, key)?;
    text.push_str("\n")?;
    Ok(text)
}

// Appends a line for each command.
fn push_commands(text: &mut String, table: &[CommandRow]) -> Result<(), AllocError>
    ensures { Appends result text.old text.new (flat_map (λ row. command_line row.0.now row.3.now) table.now) }
{
    for row in table {
        push_command(text, row)?;
    }
    Ok(())
}

fn push_command(text: &mut String, row: &CommandRow) -> Result<(), AllocError>
    ensures { Appends result text.old text.new (command_line row.now.0.now row.now.3.now) }
{
    let start = text.len();
    text.push_str(row.0)?;
    push_spaces(text, start, MEANING_AT)?;
    text.push_str(row.3)?;
    text.push_str("\n")
}

// Appends all groups of keys, each after its title.
fn push_groups(text: &mut String, groups: &[(&str, &[Key])]) -> Result<(), AllocError>
    ensures { Appends result text.old text.new (flat_map (λ group. group_lines group.0.now group.1.now) groups.now) }
{
    for (title, keys) in groups {
        push_group(text, title, keys)?;
    }
    Ok(())
}

fn push_group(text: &mut String, title: &str, keys: &[Key]) -> Result<(), AllocError>
    ensures { Appends result text.old text.new (group_lines title.now keys.now) }
{
    text.push_str(title)?;
    for key in keys {
        push_key(text, *key)?;
    }
    Ok(())
}

// Appends a key's line of the page.
fn push_key(text: &mut String, key: Key) -> Result<(), AllocError>
    ensures { Appends result text.old text.new (key_line key) }
{
    let start = text.len();
    text.push_str("  ")?;
    push_head(text, key, false)?;
    push_spaces(text, start, COMMANDS_AT)?;
    let column = text.len().saturating_sub(start);
    push_columns(text, &COMMANDS, key, column)?;
    text.push_str("\n")
}

// Appends the keys of a command, each with its meaning on the next line.
fn push_command_keys(text: &mut String, task: Task, keys: &[Key]) -> Result<(), AllocError>
    ensures { Appends result text.old text.new (flat_map (command_key task) keys.now) }
{
    for key in keys {
        push_command_key(text, task, *key)?;
    }
    Ok(())
}

fn push_command_key(text: &mut String, task: Task, key: Key) -> Result<(), AllocError>
    ensures { Appends result text.old text.new (command_key task key) }
{
    text.push_str("  ")?;
    push_head(text, key, takes_all(task, key))?;
    text.push_str("\n      ")?;
    text.push_str(key.meaning())?;
    text.push_str("\n")
}

// Returns whether a command without this key takes the packets of all its values.
fn takes_all(task: Task, key: Key) -> bool
    ensures { result ≡ takes_all task key }
{
    match (task, key) {
        (Task::Info, Key::Apid) | (Task::Pick, Key::Image) => true,
        _ => false,
    }
}

// Appends the name, the range and the default of a key. If `is_all`, the default is all values.
fn push_head(text: &mut String, key: Key, is_all: bool) -> Result<(), AllocError>
    ensures { Appends result text.old text.new (key_head key is_all) }
{
    text.push_str(key.text())?;
    text.push_str("=")?;
    push_range(text, key.row())?;
    text.push_str(" (")?;
    push_default(text, key.row(), is_all)?;
    text.push_str(")")
}

// Appends the commands that have a key, each after a space.
fn push_names(text: &mut String, table: &[CommandRow], key: Key) -> Result<(), AllocError>
    ensures { Appends result text.old text.new (flat_map (λ row. name_if_own key row.0.now row.2.now) table.now) }
{
    for row in table {
        if key.is_among(row.2) {
            text.push_str(" ")?;
            text.push_str(row.0)?;
        }
    }
    Ok(())
}

// Appends the commands that have a key from a column on, on more lines if there are many.
fn push_columns(
    text: &mut String,
    table: &[CommandRow],
    key: Key,
    column: usize,
) -> Result<(), AllocError>
    ensures { Appends result text.old text.new (columns key column (map (λ row. (row.0.now, row.2.now)) table.now)) }
{
    let mut column = column;
    for row in table {
        if key.is_among(row.2) {
            column = push_column(text, row.0, column)?;
        }
    }
    Ok(())
}

// Appends a name after a space, on a new line if it would pass the end of this one, and returns the column after it.
fn push_column(text: &mut String, name: &str, column: usize) -> Result<usize, AllocError>
    ensures appends { Appends result text.old text.new (column_text column name.now) }
    ensures column { IfOk result (λ after. after ≡ column_after column name.now) }
{
    if name.len() < LINE_END.saturating_sub(column) {
        text.push_str(" ")?;
        text.push_str(name)?;
        return Ok(column + 1 + name.len());
    }
    text.push_str("\n")?;
    let start = text.len();
    push_spaces(text, start, COMMANDS_AT)?;
    text.push_str(" ")?;
    text.push_str(name)?;
    Ok(COMMANDS_AT + 1 + name.len())
}

// Appends spaces up to a column of the line that begins at `start`.
fn push_spaces(text: &mut String, start: usize, column: usize) -> Result<(), AllocError>
    ensures { Appends result text.old text.new (spaces_to (length (string_bytes text.old) - start) column) }
{
    let used = text.len().saturating_sub(start);
    for _space in 0..column.saturating_sub(used) {
        text.push_str(" ")?;
    }
    Ok(())
}

fn push_range(text: &mut String, row: KeyRow) -> Result<(), AllocError>
    ensures { Appends result text.old text.new (range_text row) }
{
    match row.range {
        Range::All => text.push_str(form_text(row.default.form())),
        Range::Number(range) | Range::Cap(range) => push_numbers(text, range),
        Range::Rows(range) => {
            text.push_str("0|")?;
            push_numbers(text, range)?;
            text.push_str(", 0 for encode")
        }
        Range::Limit => {
            text.push_str("0|")?;
            push_numbers(text, FieldRange::LIMIT)?;
            text.push_str(", multiple of word")
        }
        Range::Total => text.push_str("0|36n..2^40, n segments, no limit"),
        Range::Fill => text.push_str("0|1, 1 with a limit or a total"),
        Range::Stop => {
            text.push_str("dc|P.S, P ")?;
            push_numbers(text, FieldRange::PLANE)?;
            text.push_str(", S ")?;
            push_numbers(text, FieldRange::STAGE)
        }
        Range::Weights => text.push_str(form_text(Form::Weights)),
        Range::Cameras => text.push_str("1..16, with APIDs from apid on"),
    }
}

// Returns all values that a form has.
fn form_text(form: Form) -> &'static str
    ensures { result.now ≡ form_text form }
{
    match form {
        Form::Number => "0..4294967295",
        Form::Cap => "0..1099511627776",
        Form::Flag => "0|1",
        Form::Stop => "dc|P.S",
        Form::Weights => "ten digits 0..3",
        Form::Select => "heuristic|optimal",
    }
}

fn push_numbers(text: &mut String, range: FieldRange) -> Result<(), AllocError>
    ensures { Appends result text.old text.new (numbers_text range) }
{
    text.push_str(Buffer::new().format(range.least))?;
    text.push_str("..")?;
    text.push_str(Buffer::new().format(range.most))
}

fn push_default(text: &mut String, row: KeyRow, is_all: bool) -> Result<(), AllocError>
    requires { HasForm (form_of row.default) row.default }
    ensures { Appends result text.old text.new (default_text row is_all) }
{
    if row.required {
        text.push_str("required")
    } else if is_all {
        text.push_str("all")
    } else {
        push_value(text, row.default)
    }
}

// Appends a value as it is written.
fn push_value(text: &mut String, value: Value) -> Result<(), AllocError>
    requires { HasForm (form_of value) value }
    ensures { Appends result text.old text.new (value_text value) }
{
    match value {
        Value::Number(number) => text.push_str(Buffer::new().format(number)),
        Value::Cap(cap) => text.push_str(Buffer::new().format(cap)),
        Value::Flag(flag) => text.push_str(if flag { "1" } else { "0" }),
        Value::StopDc => text.push_str("dc"),
        Value::StopAt { plane, stage } => {
            text.push_str(Buffer::new().format(plane))?;
            text.push_str(".")?;
            text.push_str(Buffer::new().format(stage))
        }
        Value::Weights(weights) => push_digits(text, &weights.shifts),
        Value::Select(Select::Heuristic) => text.push_str("heuristic"),
        Value::Select(Select::Optimal) => text.push_str("optimal"),
    }
}

// Appends a digit for each number.
fn push_digits(text: &mut String, numbers: &[u8]) -> Result<(), AllocError>
    requires { All IsShift numbers.now }
    ensures { Appends result text.old text.new (map (λ number. 48 + number) numbers.now) }
{
    for number in numbers {
        text.push(char::from(b'0' + *number))?;
    }
    Ok(())
}
