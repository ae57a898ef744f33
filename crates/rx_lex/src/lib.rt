//! The include directives of a C or C++ text, by the phases of translation ([lex.phases] of the C++ standard).
#![tactic(auto)]

mod angled;
mod anywhere;
mod class;
mod comment;
mod cut;
mod found;
mod header;
mod letters;
mod line;
mod literal;
mod mark;
mod number;
mod piece;
mod quiet;
mod raw;
mod raw_cut;
mod read;
mod step;
mod words;

pub use found::{Directives, Include, NoMemory};
pub use read::directives;
