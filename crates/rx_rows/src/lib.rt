//! Tables of calls with their answers, as rows of text: for programs whose standard output is such a table.
//!
//! A row is a line `CALL ARGUMENT ..`, with one space between each two words. [`answer_rows`] reads rows, has a program
//! answer each, and writes each row followed by ` => ANSWER`. Empty lines and lines that begin with `#` are written as they
//! are. Which calls there are is the program's concern: it implements [`Calls`].
//!
//! | An argument | is written |
//! |---|---|
//! | number | decimal digits |
//! | bytes | hexadecimal digits, `-` for no bytes; with `*COUNT` behind it so often, as `00*16384` |
//! | text | in double quotes, with the escapes `\n \r \t \\ \" \xHH` |
//! | word | as it is |
//!
//! `repeat COUNT CALL ARGUMENT ..` makes a call so often, and writes the last answer.
#![tactic(auto)]

mod answer;
mod fault;
mod row;
mod table;
mod text;
mod turn;

pub use answer::Answer;
pub use fault::{RowFault, TableFault};
pub use row::Row;
pub use table::{Calls, answer_rows};
pub use turn::Turn;
