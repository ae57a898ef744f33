//! A client of the proxy: it asks for what its words say, hears what the proxy says, and tells it.
//! Nothing here opens a file or a socket.
#![tactic(auto)]

mod answers;
mod ask_fault;
mod asks;
mod client;
mod conversations;
mod endings;
mod failure_texts;
mod fault_texts;
mod frames;
mod hear_fault;
mod heard;
mod invocation;
mod joins;
mod outside;
mod ran;
mod refusals;
mod replies;
mod runs_here;
mod settles;
mod standard;
mod streams;
mod talk_fault;
mod talks;
mod tells;
mod whys;

pub use answers::{Answer, Wrapped};
pub use client::wrap;
pub use hear_fault::HearFault;
pub use invocation::Invocation;
pub use outside::{Configs, Connect, Machine};
pub use ran::Ran;
pub use replies::read_reply;
pub use standard::Standard;
