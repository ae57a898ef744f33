//! Why a row or a table can't be answered.

use std::alloc::{AllocError, AllocFailed};
use std::io;
use thiserror::Error;

/// What is wrong with a row.
#[derive(Clone, Copy, Debug, PartialEq, Eq, Error)]
pub enum RowFault {
    /// The program has no such call.
    #[error("there is no such call")]
    NoCall,
    /// A word is missing or empty.
    #[error("a word is missing")]
    NoWord,
    /// Words are left behind the last argument.
    #[error("there are too many words")]
    TooManyWords,
    /// A number isn't decimal digits, or is 2^64 or more.
    #[error("a number is not decimal digits")]
    BadNumber,
    /// Bytes aren't pairs of hexadecimal digits, `-`, or either with `*COUNT` behind it.
    #[error("bytes are not hexadecimal digits")]
    BadBytes,
    /// A text has no quote at an end, or an escape that isn't known.
    #[error("a text is not quoted")]
    BadText,
    /// A call can't be made with these arguments, or not now.
    #[error("the call can not be made")]
    BadCall,
    /// Memory ran out.
    #[error("out of memory")]
    NoMemory,
}

impl From<AllocError> for RowFault {
    fn from(_error: AllocError) -> RowFault {
        RowFault::NoMemory
    }
}

impl<T: Drop> From<AllocFailed<T>> for RowFault {
    fn from(_error: AllocFailed<T>) -> RowFault {
        RowFault::NoMemory
    }
}

/// Why a table ended.
#[derive(Debug, Drop, Error)]
pub enum TableFault {
    /// What is wrong with the row at this line, counted from 1.
    #[error("line {line}: {fault}")]
    Row { line: u64, fault: RowFault },
    /// The input can't be read, the output can't be written, or memory ran out outside of a row.
    #[error("{0}")]
    Io(io::Error),
}

impl From<AllocError> for TableFault {
    fn from(error: AllocError) -> TableFault {
        TableFault::Io(io::Error::from(error))
    }
}

impl From<io::Error> for TableFault {
    fn from(error: io::Error) -> TableFault {
        TableFault::Io(error)
    }
}
