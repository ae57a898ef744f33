//! The words of the command line: flags, and the command behind them.

ghost use Rattle.std.specs.Prelude.{◌≡◌, Ok};
ghost use Rattle.rx_base.specs.Results.{Gives};
ghost use Rattle.rx_wrap.specs.Words.{alone, command_in, ended, ends_flags, flag_word, nothing_read, undashed, with_setting, with_word, words_in};
ghost use Rattle.rx_wrap.specs.declared.usage_fault.UsageFault.TheVariants.{NoMemory};

use crate::flags::Flag;
use crate::settings::Setting;
use crate::strips::{begins, stripped};
use crate::usage_fault::UsageFault;
use rx_base::Text;
use std::alloc::Global;
use std::marker::Model;

/// What the words of a command line are.
#[derive(Debug, Drop)]
pub struct Words<'a> {
    /// The settings in the order of their words.
    pub settings: Vec<Setting<'a>>,
    /// The program and its arguments; none where no word is left behind the flags.
    pub command: &'a [Text],
}

impl<'a> Model for Words<'a> {
    ghost use Rattle.rx_wrap.specs.Reading.{Words};

    ghost Value = { Words };

    ghost view = { λ w. record { settings = w.settings.items; command = w.command.now } };
}

/// What the words so far gave.
#[derive(Debug, Drop)]
struct Reading<'a> {
    settings: Vec<Setting<'a>>,
    /// A flag whose value is the next word, as a setting that is still empty.
    waiting: Option<Setting<'a>>,
}

impl<'a> Model for Reading<'a> {
    ghost use Rattle.rx_wrap.specs.Reading.{Reading};

    ghost Value = { Reading };

    ghost view = { λ r. record { settings = r.settings.items; waiting = r.waiting } };
}

/// What a word that begins with a dash says.
#[derive(Debug, Drop)]
enum FlagWord<'a> {
    /// A flag with its value.
    Whole(Setting<'a>),
    /// A flag whose value is the next word.
    Waiting(Setting<'a>),
    /// An unknown flag with its value.
    Skipped,
    /// An unknown flag.
    Unknown,
}

/// A word without the one dash or two at its front.
fn undashed(word: &str) -> &str
    ensures { result.now ≡ undashed word.now }
{
    match stripped("--", word) {
        Some(text) => text,
        None => match stripped("-", word) {
            Some(text) => text,
            None => word,
        },
    }
}

/// What a word that begins with a dash says.
#[tactic(auto, unfolding(crate::specs::Words::flag_word))]
fn flag_word(word: &str) -> FlagWord<'_>
    ensures { result ≡ flag_word word.now }
{
    let text = undashed(word);
    match text.split_once('=') {
        Some((name, value)) => match Flag::named(name) {
            Some(flag) => FlagWord::Whole(Setting {
                flag,
                value,
                place: word,
            }),
            None => FlagWord::Skipped,
        },
        None => match Flag::named(text) {
            Some(flag) => alone(flag, word),
            None => FlagWord::Unknown,
        },
    }
}

/// What a flag's name alone says.
fn alone<'a>(flag: Flag, word: &'a str) -> FlagWord<'a>
    ensures { result ≡ alone flag word.now }
{
    if flag.is_switch() {
        FlagWord::Whole(Setting {
            flag,
            value: "true",
            place: word,
        })
    } else {
        FlagWord::Waiting(Setting {
            flag,
            value: "",
            place: word,
        })
    }
}

/// What was read, with one more setting.
fn with_setting<'a>(
    mut settings: Vec<Setting<'a>>,
    setting: Setting<'a>,
) -> Result<Reading<'a>, UsageFault>
    ensures { Gives NoMemory (λ r. r) result
        (Ok (with_setting settings.entry.items setting.entry)) }
{
    settings.push(setting)?;
    Ok(Reading {
        settings,
        waiting: None,
    })
}

/// What was read, with one more word.
#[tactic(auto, unfolding(crate::specs::Words::with_word))]
fn with_word<'a>(
    alloc: Global,
    reading: Reading<'a>,
    word: &'a str,
) -> Result<Reading<'a>, UsageFault>
    ensures { Gives NoMemory (λ r. r) result (with_word reading.entry word.now) }
{
    let Reading { settings, waiting } = reading;
    if let Some(flag) = waiting {
        let whole = Setting {
            value: word,
            ..flag
        };
        return with_setting(settings, whole);
    }
    match flag_word(word) {
        FlagWord::Whole(setting) => with_setting(settings, setting),
        FlagWord::Waiting(setting) => Ok(Reading {
            settings,
            waiting: Some(setting),
        }),
        FlagWord::Skipped => Ok(Reading {
            settings,
            waiting: None,
        }),
        FlagWord::Unknown => Err(UsageFault::Word(Text::copy_of(alloc, word)?)),
    }
}

/// Whether a word ends the flags: it isn't awaited as a value, and is `--` or has no dash.
fn ends_flags(reading: &Reading, word: &str) -> bool
    ensures { result ≡ ends_flags reading.now word.now }
{
    reading.waiting.is_none() && (word == "--" || !begins(word, b"-"))
}

/// The command in the words from the one that ends the flags.
fn command_in(words: &[Text]) -> &[Text]
    ensures { result.now ≡ command_in words.now }
{
    match words.split_first() {
        Some((word, others)) if word.as_str() == "--" => others,
        _ => words,
    }
}

/// The words of a command line, first flags as `-name=value`, `--name=value`, `-name value` or
/// `--name value`, then the command. A switch alone is true. `--`, or the first word without a dash,
/// ends the flags. An unknown flag with `=` is skipped; the fault is the first unknown one without
/// it, or the last word where that is a flag whose value is wanting.
pub fn read_words(alloc: Global, words: &[Text]) -> Result<Words<'_>, UsageFault>
    ensures { Gives NoMemory (λ w. w) result (words_in nothing_read words.now) }
{
    let mut reading = Reading {
        settings: Vec::new(alloc),
        waiting: None,
    };
    let mut rest = words;
    while let Some((word, others)) = rest.split_first() {
        if ends_flags(&reading, word.as_str()) {
            return Ok(Words {
                settings: reading.settings,
                command: command_in(rest),
            });
        }
        reading = with_word(alloc, reading, word.as_str())?;
        rest = others;
    }
    ended(alloc, reading, rest)
}

/// The words where all are flags: none may wait for its value.
fn ended<'a>(
    alloc: Global,
    reading: Reading<'a>,
    command: &'a [Text],
) -> Result<Words<'a>, UsageFault>
    ensures { Gives NoMemory (λ w. w) result (ended reading.entry command.now) }
{
    let Reading { settings, waiting } = reading;
    match waiting {
        Some(flag) => Err(UsageFault::Word(Text::copy_of(alloc, flag.place)?)),
        None => Ok(Words { settings, command }),
    }
}
