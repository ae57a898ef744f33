//! Notes on their way from sessions to reporters: one sender puts them into a bounded queue, and a thread takes them out and
//! tells the reporters. The queue's rule says that what was taken is what was sent, in its order.
#![tactic(auto)]

mod line;
mod relays;
mod sender;
mod telling;
mod work;

pub use line::{NoteLine, NotePass};
pub use sender::NoteSender;
pub use telling::{Telling, begin, finish};
