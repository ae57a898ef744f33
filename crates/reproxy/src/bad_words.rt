//! Which word of a command line is wrong, for standard error.

use rx_daemon::options_in;
use std::alloc::{AllocError, Global};

/// The options. The second one is of `serve` alone.
const OPTIONS: [&str; 9] = [
    "--root",
    "--listen",
    "--remote",
    "--instance",
    "--scratch",
    "--sessions",
    "--slots",
    "--call-timeout",
    "--farm-silence",
];

/// What the address of a farm begins with elsewhere.
const SCHEMES: [&str; 4] = ["grpc://", "grpcs://", "http://", "https://"];

/// An option of a command line: `NAME=VALUE`, or a name and its value behind it.
#[derive(Clone, Copy)]
struct Item<'a> {
    name: &'a str,
    value: Option<&'a str>,
    /// Its first word.
    first: &'a str,
    /// Its last word.
    last: &'a str,
    /// The words behind it.
    rest: &'a [String],
}

/// The first option of these words.
fn first_item(words: &[String]) -> Option<Item<'_>> {
    let (word, rest) = words.split_first()?;
    let first = word.as_str();
    if let Some((name, value)) = first.split_once('=') {
        return Some(Item {
            name,
            value: Some(value),
            first,
            last: first,
            rest,
        });
    }
    match rest.split_first() {
        Some((value, rest)) if !value.as_str().starts_with('-') => Some(Item {
            name: first,
            value: Some(value.as_str()),
            first,
            last: value.as_str(),
            rest,
        }),
        _ => Some(Item {
            name: first,
            value: None,
            first,
            last: first,
            rest,
        }),
    }
}

/// Which word of a bad command line is wrong, or which option is missing.
pub(crate) fn bad_word(alloc: Global, words: &[String]) -> Result<String, AllocError> {
    match words.split_first() {
        Some((command, options)) => match command.as_str() {
            "exec" => bad_option(alloc, "exec", options),
            "serve" => bad_option(alloc, "serve", options),
            other => String::from_str(alloc, other),
        },
        None => String::from_str(alloc, "exec or serve is missing"),
    }
}

/// Which word of the options of a command is wrong, or which option is missing.
fn bad_option(alloc: Global, command: &str, options: &[String]) -> Result<String, AllocError> {
    let mut named: Vec<&str> = Vec::new(alloc);
    let mut rest = options;
    for _ in 0..options.len() {
        let Some(item) = first_item(rest) else {
            break;
        };
        if let Some(fault) = fault_of(alloc, command, &named, &item)? {
            return Ok(fault);
        }
        named.push(item.name)?;
        rest = item.rest;
    }
    let missing = if named.contains(&"--root") {
        "--listen"
    } else {
        "--root"
    };
    String::from_str(alloc, missing)
}

/// What is wrong with an option of a command, behind options with these names.
fn fault_of(
    alloc: Global,
    command: &str,
    named: &[&str],
    item: &Item<'_>,
) -> Result<Option<String>, AllocError> {
    let is_known = OPTIONS.contains(&item.name) && (command == "serve" || item.name != "--listen");
    let value = match item.value {
        Some(value) if is_known && !named.contains(&item.name) => value,
        _ => return Ok(Some(String::from_str(alloc, item.first)?)),
    };
    if fits(alloc, item.name, value)? {
        return Ok(None);
    }
    let last = item.last;
    if item.name == "--remote" && SCHEMES.iter().any(|scheme| value.starts_with(*scheme)) {
        return Ok(Some(format!(in alloc; "{last}: --remote takes HOST:PORT without TLS")?));
    }
    Ok(Some(String::from_str(alloc, last)?))
}

/// Whether an option may have this value.
fn fits(alloc: Global, name: &str, value: &str) -> Result<bool, AllocError> {
    let mut words = Vec::new(alloc);
    let command = if name == "--listen" { "serve" } else { "exec" };
    words.push(String::from_str(alloc, command)?)?;
    if name != "--root" {
        words.push(String::from_str(alloc, "--root=/")?)?;
    }
    words.push(format!(in alloc; "{name}={value}")?)?;
    Ok(options_in(&words).is_some())
}
