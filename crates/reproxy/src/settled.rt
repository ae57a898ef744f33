//! What the machine has a say in: the directory that is served, and how many commands run at once.

use rx_daemon::Options;
use std::alloc::{AllocError, Global};
use std::fs::Files;
use std::io::{Error, ErrorKind};
use std::thread::{Threads, available_parallelism};
use std::{fs, io};

/// How many commands run at once, where nobody tells how many processors there are.
const SLOTS: u16 = 4;

/// How many may be asked for.
const MOST_SLOTS: usize = 256;

/// The path of a directory, as the system resolves it: without links and without a slash at its end. An error where
/// there is no directory.
pub(crate) fn resolved<R: Files + AllocGlobal>(rt: &R, root: &str) -> io::Result<String> {
    if !fs::metadata(rt, root)?.is_dir() {
        return Err(Error::from(ErrorKind::NotADirectory));
    }
    let path = fs::canonicalize(rt, root)?;
    Ok(String::from_str(rt.alloc(), path.as_str())?)
}

/// How many commands are to run at once: as many as the words say, or as there are processors.
pub(crate) fn slots_of(hands: &impl Threads, words: &[String], options: &Options<'_>) -> u16 {
    if words.iter().any(|word| is_slots(word.as_str())) {
        return options.slots;
    }
    match available_parallelism(hands) {
        Ok(count) => u16::try_from(count.get().min(MOST_SLOTS)).unwrap_or(SLOTS),
        Err(_) => SLOTS,
    }
}

/// Whether a word gives the slots. No value of another option begins like this.
fn is_slots(word: &str) -> bool {
    word == "--slots" || word.starts_with("--slots=")
}

/// The words of a command line that asks for the same, but of this root, and with so many slots.
pub(crate) fn settled(
    alloc: Global,
    options: &Options<'_>,
    root: &str,
    slots: u16,
) -> Result<Vec<String>, AllocError> {
    let mut words = Vec::new(alloc);
    let command = if options.listen.is_some() {
        "serve"
    } else {
        "exec"
    };
    words.push(String::from_str(alloc, command)?)?;
    add(alloc, &mut words, "--root", Some(root))?;
    add(alloc, &mut words, "--listen", options.listen)?;
    add(alloc, &mut words, "--remote", options.remote)?;
    let instance = Some(options.instance).filter(|instance| !instance.is_empty());
    add(alloc, &mut words, "--instance", instance)?;
    add(alloc, &mut words, "--scratch", Some(options.scratch))?;
    let sessions = options.sessions;
    words.push(format!(in alloc; "--sessions={sessions}")?)?;
    words.push(format!(in alloc; "--slots={slots}")?)?;
    let call_timeout = options.call_timeout;
    words.push(format!(in alloc; "--call-timeout={call_timeout}")?)?;
    let farm_silence = options.farm_silence;
    words.push(format!(in alloc; "--farm-silence={farm_silence}")?)?;
    Ok(words)
}

/// Adds an option, if it has a value.
fn add(
    alloc: Global,
    words: &mut Vec<String>,
    name: &str,
    value: Option<&str>,
) -> Result<(), AllocError> {
    if let Some(value) = value {
        words.push(format!(in alloc; "{name}={value}")?)?;
    }
    Ok(())
}
