//! The words of the program's command line.

ghost use Rattle.std.specs.Prelude.{◌≡◌, ◌<◌, is_some, option_copied};
ghost use Rattle.rx_daemon.specs.Cuts.{begins};
ghost use Rattle.rx_daemon.specs.Words.{at_least_one, is_command, nothing_given, once, options_below, options_in, root_in, sessions_in, with_option, with_word, with_words};

use crate::addresses::{is_address, is_listening_address};
use crate::numbers::{Numbers, with_number};
use std::marker::Model;

/// Where sandboxes are made, unless it is given.
const SCRATCH: &str = "/tmp";

/// How many sessions run at once, unless it is given.
const SESSIONS: u16 = 16;

/// How many local attempts run at once, unless it is given.
const SLOTS: u16 = 4;

/// How long a call on the farm may take in which no command runs, in seconds, unless it is given.
const CALL_TIMEOUT: u16 = 60;

/// How long the farm may be silent while a command runs, in seconds, unless it is given.
const FARM_SILENCE: u16 = 60;

/// The options of `reproxy exec` and of `reproxy serve`.
#[derive(Debug, Drop)]
pub struct Options<'a> {
    /// The directory of the source tree and of the outputs, which begins with a slash.
    pub root: &'a str,
    /// Where the proxy listens, as `unix://PATH` or `127.0.0.1:PORT`: `serve` has one, `exec` has none.
    pub listen: Option<&'a str>,
    /// Where the farm listens, as `HOST:PORT`.
    pub remote: Option<&'a str>,
    /// The farm's instance; empty, unless one is named.
    pub instance: &'a str,
    /// The directory below which sandboxes are made, which begins with a slash.
    pub scratch: &'a str,
    /// How many sessions of `serve` run at once: 1 to 256.
    pub sessions: u16,
    /// How many local attempts of `serve` run at once: 1 to 256.
    pub slots: u16,
    /// How long a call on the farm may take in which no command runs, in seconds: 1 to 3600.
    pub call_timeout: u16,
    /// How long the farm may be silent while a command runs, in seconds: 1 to 3600. Then it is asked whether it still
    /// answers.
    pub farm_silence: u16,
}

impl<'a> Model for Options<'a> {
    ghost use Rattle.std.specs.Prelude.{option_copied};
    ghost use Rattle.rx_daemon.specs.Words.{Options};

    ghost Value = { Options };

    ghost view = { λ o. record {
      root = o.root.now;
      listen = option_copied o.listen;
      remote = option_copied o.remote;
      instance = o.instance.now;
      scratch = o.scratch.now;
      sessions = o.sessions;
      slots = o.slots;
      call_timeout = o.call_timeout;
      farm_silence = o.farm_silence;
    } };
}

/// What the words so far gave.
#[derive(Debug, Drop)]
struct Given<'a> {
    root: Option<&'a str>,
    listen: Option<&'a str>,
    remote: Option<&'a str>,
    instance: Option<&'a str>,
    scratch: Option<&'a str>,
    numbers: Numbers,
    /// The name of an option whose value is the next word.
    waiting: Option<&'a str>,
}

impl<'a> Model for Given<'a> {
    ghost use Rattle.std.specs.Prelude.{option_copied};
    ghost use Rattle.rx_daemon.specs.Words.{Given};

    ghost Value = { Given };

    ghost view = { λ g. record {
      root = option_copied g.root;
      listen = option_copied g.listen;
      remote = option_copied g.remote;
      instance = option_copied g.instance;
      scratch = option_copied g.scratch;
      numbers = g.numbers;
      waiting = option_copied g.waiting;
    } };
}

fn begins(text: &str, front: &[u8]) -> bool
    ensures { result ≡ begins text.now front.now }
{
    text.as_bytes().starts_with(front)
}

/// The value of an option that has none yet, where it fits.
fn once<'a>(given: Option<&'a str>, fits: bool, value: &'a str) -> Option<&'a str>
    ensures { option_copied result ≡ once (option_copied given.entry) fits value.now }
{
    match given {
        None if fits => Some(value),
        _ => None,
    }
}

/// What was given, with one more option.
#[tactic(auto, unfolding(crate::specs::Words::with_option))]
fn with_option<'a>(given: Given<'a>, name: &str, value: &'a str) -> Option<Given<'a>>
    ensures { result ≡ with_option given.entry name.now value.now }
{
    let mut given = given;
    given.waiting = None;
    match name {
        "--root" => given.root = Some(once(given.root, begins(value, b"/"), value)?),
        "--listen" => {
            given.listen = Some(once(given.listen, is_listening_address(value), value)?);
        }
        "--remote" => given.remote = Some(once(given.remote, is_address(value), value)?),
        "--instance" => given.instance = Some(once(given.instance, !value.is_empty(), value)?),
        "--scratch" => given.scratch = Some(once(given.scratch, begins(value, b"/"), value)?),
        _ => given.numbers = with_number(given.numbers, name, value)?,
    }
    Some(given)
}

/// What was given, with one more word.
#[tactic(auto, unfolding(crate::specs::Words::with_word))]
fn with_word<'a>(given: Given<'a>, word: &'a str) -> Option<Given<'a>>
    ensures { result ≡ with_word given.entry word.now }
{
    if let Some(name) = given.waiting {
        if begins(word, b"-") {
            return None;
        }
        return with_option(given, name, word);
    }
    match word.split_once('=') {
        Some((name, value)) => with_option(given, name, value),
        None => Some(Given {
            waiting: Some(word),
            ..given
        }),
    }
}

/// What the words behind the command give.
fn given_in(words: &[String]) -> Option<Given<'_>>
    ensures { result ≡ with_words nothing_given words.now }
{
    let mut given = Given {
        root: None,
        listen: None,
        remote: None,
        instance: None,
        scratch: None,
        numbers: Numbers::none(),
        waiting: None,
    };
    let mut rest = words;
    while let Some((word, others)) = rest.split_first() {
        given = with_word(given, word.as_str())?;
        rest = others;
    }
    Some(given)
}

/// Whether it is the command that goes with such options.
fn is_command(command: &str, listens: bool) -> bool
    ensures { result ≡ is_command command.now listens }
{
    if command == "exec" {
        return !listens;
    }
    command == "serve" && listens
}

/// The options of a root, by what was given.
fn options_below<'a>(root: &'a str, given: Given<'a>) -> Options<'a>
    ensures { result ≡ options_below root.now given.entry }
{
    let numbers = given.numbers;
    Options {
        root,
        listen: given.listen,
        remote: given.remote,
        instance: given.instance.unwrap_or(""),
        scratch: given.scratch.unwrap_or(SCRATCH),
        sessions: numbers.sessions.unwrap_or(SESSIONS),
        slots: numbers.slots.unwrap_or(SLOTS),
        call_timeout: numbers.call_timeout.unwrap_or(CALL_TIMEOUT),
        farm_silence: numbers.farm_silence.unwrap_or(FARM_SILENCE),
    }
}

/// What the words of a command line ask for: `exec` or `serve`, and `--root PATH`, of `serve` alone `--listen ADDRESS`,
/// `[--remote HOST:PORT]`, `[--instance NAME]`, `[--scratch DIR]`, `[--sessions N]`, `[--slots N]`,
/// `[--call-timeout SECONDS]`, `[--farm-silence SECONDS]`: the options in any order, each as two words or as
/// `--name=value`.
#[tactic(auto, unfolding(crate::specs::Words::options_in))]
pub fn options_in(words: &[String]) -> Option<Options<'_>>
    ensures { result ≡ options_in words.now }
{
    let (command, rest) = words.split_first()?;
    let given = given_in(rest)?;
    if !is_command(command.as_str(), given.listen.is_some()) || given.waiting.is_some() {
        return None;
    }
    Some(options_below(given.root?, given))
}

/// The root in the words of a command line.
pub(crate) fn root_in(words: &[String]) -> Option<&str>
    ensures { option_copied result ≡ root_in words.now }
{
    Some(options_in(words)?.root)
}

/// How many sessions, at least one, and how many local attempts the words of a command line let run at once.
pub(crate) fn at_once(words: &[String]) -> (u16, u32)
    ensures sessions { result.0 ≡ sessions_in words.now }
    ensures some { 0 < result.0 }
{
    match options_in(words) {
        Some(options) => (at_least_one(options.sessions), u32::from(options.slots)),
        None => (1, 0),
    }
}

fn at_least_one(n: u16) -> u16
    ensures { result ≡ at_least_one n }
{
    if n == 0 { 1 } else { n }
}
