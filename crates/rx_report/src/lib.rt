//! Notes of what sessions do, and who is told of them: reporters, which may refuse a note, and lists of these.
#![tactic(auto)]

mod list_reporter;
mod notes;
mod reporters;

pub use list_reporter::ListReporter;
pub use notes::{Note, What};
pub use reporters::{Reporter, Reporters, tell, tell_all};
