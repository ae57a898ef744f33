//! The files of the inputs, read again when an attempt needs their bytes. Nothing here opens a file,
//! or knows what the attempt does with it.
#![tactic(auto)]

mod hashed;
mod read_fault;
mod reads;

pub use hashed::HashedContents;
pub use read_fault::ReadFault;
pub use reads::read_again;
