//! `action WORDS ENVIRONMENT DIRECTORY OUTPUTS PLATFORM SECONDS DIALECT`: the key of a command on the
//! input root whose bytes are `abc`, on a farm of this dialect, `New` or `Old`: the bytes of the Command
//! and of the Action, and the Action's digest.

use crate::arguments::{path, paths, write_digest};
use rx_action::{ActionFault, ActionKey, action_of};
use rx_base::{Items, NoMemory, Text, digest_of};
use rx_rows::{RowFault, Turn};
use rx_world::{Command, Dialect, Pair};
use std::alloc::Global;

/// Makes the key of the command that the next words tell.
pub(crate) fn call(turn: &mut Turn<'_, '_>) {
    let command = command(turn);
    let dialect = dialect(turn);
    write_action(&command, dialect, turn);
}

/// Writes the action of a command on the input root of `abc`.
fn write_action(command: &Command, dialect: Dialect, turn: &mut Turn<'_, '_>) {
    match action_of(turn.alloc(), command, &digest_of(b"abc"), dialect) {
        Ok(key) => write_key(&key, turn),
        Err(ActionFault::NoMemory) => turn.refuse(RowFault::NoMemory),
        Err(fault) => turn.write_value(&fault),
    }
}

/// Writes both messages and the digest.
fn write_key(key: &ActionKey, turn: &mut Turn<'_, '_>) {
    turn.write_text(key.command_blob.as_slice());
    turn.write_text(key.action_blob.as_slice());
    write_digest(&key.digest, turn);
}

/// The command that the next words tell.
fn command(turn: &mut Turn<'_, '_>) -> Command {
    Command {
        words: words(turn),
        environment: pairs(turn),
        working_directory: path(turn),
        outputs: paths(turn),
        platform: pairs(turn),
        timeout_seconds: turn.read_u32(),
    }
}

/// The next word, a dialect. `BadCall` where it is none.
fn dialect(turn: &mut Turn<'_, '_>) -> Dialect {
    match turn.read_word() {
        "New" => Dialect::New,
        "Old" => Dialect::Old,
        _ => {
            turn.refuse(RowFault::BadCall);
            Dialect::New
        }
    }
}

/// The next word, words with a space between each two in one pair of quotes.
fn words(turn: &mut Turn<'_, '_>) -> Items<Text> {
    let alloc = turn.alloc();
    let text = turn.read_string();
    turn.made(words_of(alloc, text.as_str()), Items::new(alloc))
}

fn words_of(alloc: Global, text: &str) -> Result<Items<Text>, NoMemory> {
    let mut words = Items::new(alloc);
    for word in text.split(' ') {
        words.push(Text::copy_of(alloc, word)?)?;
    }
    Ok(words)
}

/// The next word, pairs NAME=VALUE with a space between each two in one pair of quotes.
fn pairs(turn: &mut Turn<'_, '_>) -> Items<Pair> {
    let alloc = turn.alloc();
    let text = turn.read_string();
    turn.made(pairs_of(alloc, text.as_str()), Items::new(alloc))
}

fn pairs_of(alloc: Global, text: &str) -> Result<Items<Pair>, NoMemory> {
    let mut pairs = Items::new(alloc);
    for word in text.split(' ') {
        if let Some((name, value)) = word.split_once('=') {
            pairs.push(pair(alloc, name, value)?)?;
        }
    }
    Ok(pairs)
}

fn pair(alloc: Global, name: &str, value: &str) -> Result<Pair, NoMemory> {
    Ok(Pair {
        name: Text::copy_of(alloc, name)?,
        value: Text::copy_of(alloc, value)?,
    })
}
