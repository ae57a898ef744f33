//! The session protocol: frames in which a client sends a request and the proxy replies. What a
//! request asks for is read here by its bytes and paths alone; nothing here looks at a file.
#![tactic(auto)]

mod bad;
mod call_faults;
mod cancels;
mod end_message;
mod ends;
mod field_rules;
mod fields;
mod frames;
mod headers;
mod in_place;
mod jobs;
mod local_ends;
mod output_rules;
mod packed;
mod pair_message;
mod path_texts;
mod paths_in;
mod payload_replies;
mod payloads;
mod place_faults;
mod raw_request;
mod refusals;
mod remote_ends;
mod replies;
mod reply_fault;
mod reply_frames;
mod reply_message;
mod requests;
mod rules;
mod seen_message;
mod seen_values;
mod streams;
mod varints;
mod version_numbers;
mod version_text;
mod written_requests;

pub use bad::{Bad, BadReason, SessionFault};
pub use cancels::{CANCEL, CancelReason, read_cancel};
pub use frames::{Incoming, MAX_REQUEST_LEN, SHUTDOWN, SHUTDOWN_DONE, read_incoming};
pub use in_place::InPlaceCause;
pub use jobs::{command_for, declared_inputs};
pub use replies::Reply;
pub use reply_fault::ReplyFault;
pub use reply_frames::{MAX_REPLY_LEN, Room, encode};
pub use requests::Request;
pub use streams::write_frame;
