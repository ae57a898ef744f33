//! What the system tells a program of how it was called.

use rx_base::Text;
use rx_world::Pair;
use std::alloc::{AllocError, AllocFailed};
use std::env::VarError;
use std::io::ErrorKind;
use std::{env, io};
use thiserror::Error;

/// The words behind the program's name, the environment and the working directory.
#[derive(Debug, Drop)]
pub(crate) struct Surroundings {
    pub(crate) words: Vec<Text>,
    pub(crate) environment: Vec<Pair>,
    pub(crate) directory: Text,
}

/// Why these can't be read.
#[derive(Clone, Copy, Debug, PartialEq, Eq, Error)]
pub(crate) enum Unread {
    #[error("a word of the command line isn't UTF-8")]
    Words,
    #[error("a variable of the environment isn't UTF-8")]
    Environment,
    #[error("the working directory can't be read")]
    Directory,
    #[error("out of memory")]
    NoMemory,
}

impl From<AllocError> for Unread {
    fn from(_error: AllocError) -> Unread {
        Unread::NoMemory
    }
}

impl<T: Drop> From<AllocFailed<T>> for Unread {
    fn from(_failed: AllocFailed<T>) -> Unread {
        Unread::NoMemory
    }
}

/// Why a call of the system has nothing: memory, or this.
fn cause_of(error: &io::Error, cause: Unread) -> Unread {
    if error.kind() == ErrorKind::OutOfMemory {
        Unread::NoMemory
    } else {
        cause
    }
}

fn read_words(rt: &HostRuntime) -> Result<Vec<Text>, Unread> {
    let words = match env::args(rt) {
        Ok(words) => words,
        Err(error) => return Err(cause_of(&error, Unread::Words)),
    };
    let mut texts = Vec::new(rt.alloc());
    for word in words.skip(1) {
        texts.push(Text::from_string(word))?;
    }
    Ok(texts)
}

fn read_environment(rt: &HostRuntime) -> Result<Vec<Pair>, Unread> {
    let variables = match env::vars(rt) {
        Ok(variables) => variables,
        Err(VarError::OutOfMemory) => return Err(Unread::NoMemory),
        Err(_) => return Err(Unread::Environment),
    };
    let mut pairs = Vec::new(rt.alloc());
    for (name, value) in variables {
        pairs.push(Pair {
            name: Text::from_string(name),
            value: Text::from_string(value),
        })?;
    }
    Ok(pairs)
}

fn read_directory(rt: &HostRuntime) -> Result<Text, Unread> {
    match env::current_dir(rt) {
        Ok(path) => Ok(Text::from_string(path.into_string())),
        Err(error) => Err(cause_of(&error, Unread::Directory)),
    }
}

/// All of it.
pub(crate) fn read_surroundings(rt: &HostRuntime) -> Result<Surroundings, Unread> {
    Ok(Surroundings {
        words: read_words(rt)?,
        environment: read_environment(rt)?,
        directory: read_directory(rt)?,
    })
}
