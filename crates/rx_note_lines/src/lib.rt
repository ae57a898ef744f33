//! Notes as lines of text and of JSON, and reporters that write them to a sink.
#![tactic(auto)]

mod json_lines;
mod kinds;
mod line_reporters;
mod text_lines;

pub use json_lines::{json_line, json_value};
pub use line_reporters::{JsonReporter, TextReporter};
pub use text_lines::text_line;
