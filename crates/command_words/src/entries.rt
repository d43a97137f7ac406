// The arguments after the command.
ghost use Rattle.std.specs.Prelude.{◌≡◌, Ok, Err, MatchResult};
ghost use Rattle.command_words.specs.Words.{texts};
ghost use Rattle.command_words.specs.Entries.{nothing, WordSays, EntriesSay};
ghost use Rattle.command_words.specs.Given.{finds_of};

use crate::command::WordFault;
use crate::given::Given;
use crate::tables::Key;
use crate::values::{Value, read_value};

/// A key with its value.
#[derive(Clone, Copy)]
pub struct Entry {
    pub key: Key,
    pub value: Value,
}

// Returns the entry in the argument at this place.
fn read_entry(keys: &[Key], given: &Given, place: usize, word: &str) -> Result<Entry, WordFault>
    ensures { WordSays keys.now (finds_of given.now) place word.now result }
{
    let Some((key, text)) = word.split_once('=') else {
        return Err(WordFault::BadWord { place });
    };
    let Some(key) = Key::named(key) else {
        return Err(WordFault::BadWord { place });
    };
    if !key.is_among(keys) || given.has(key) {
        return Err(WordFault::BadWord { place });
    }
    let Some(value) = read_value(key.row().default.form(), text) else {
        return Err(WordFault::BadWord { place });
    };
    Ok(Entry { key, value })
}

/// Returns the entries in the arguments after the command, of which the first has place 1.
pub fn read_entries(keys: &[Key], words: &[String]) -> Result<Given, WordFault>
    ensures { MatchResult result
        (λ given. EntriesSay keys.now nothing 1 (texts words.now) (Ok (finds_of given)))
        (λ fault. EntriesSay keys.now nothing 1 (texts words.now) (Err fault)) }
{
    let mut given = Given::new();
    let mut place = 1;
    let mut rest = words;
    while let [word, after @ ..] = rest {
        match read_entry(keys, &given, place, word.as_str()) {
            Ok(entry) => given.put(entry),
            Err(fault) => return Err(fault),
        }
        place += 1;
        rest = after;
    }
    Ok(given)
}
