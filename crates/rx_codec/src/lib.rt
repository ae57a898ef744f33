//! How a message of the Remote Execution API v2 is read from the fields of its bytes and written as
//! them, whichever message it is. The messages stand in the crates above, but for the Digest, which
//! all of them have.
#![tactic(auto)]

mod checking;
mod chunks;
mod digests;
mod faults;
mod field_list;
mod message;
mod writer;

pub use checking::{check_message, check_text};
pub use chunks::{chunks_of, join, read_fields};
pub use faults::MessageFault;
pub use field_list::FieldList;
pub use message::{Message, Shape};
pub use writer::Writer;
