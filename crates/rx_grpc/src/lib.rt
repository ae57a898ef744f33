//! gRPC over HTTP/2: calls over links that are kept, what a call hears of its answer, and a farm's client over such calls. It has
//! no socket: bytes go over links of `rx_world`.
#![tactic(auto)]

mod answer;
mod answers;
mod asks;
mod batches;
mod blob_items;
mod blob_streams;
mod body;
mod call;
mod caller;
mod came;
mod channel;
mod details;
mod end;
mod farm_calls;
mod framing;
mod head;
mod headers;
mod hearings;
mod method;
mod open_call;
mod operations;
mod reader;
mod replies;
mod request;
mod resources;
mod resting;
mod retry_delay;
mod retry_info;
mod stream;
mod stream_hearings;
mod stream_item;
mod streamed_calls;
mod talk;
mod texts;
mod transfer;
mod transfer_fault;
mod transport;
mod turn;
mod uploads;

pub use answer::Answer;
pub use answers::Answers;
pub use body::Body;
pub use caller::GrpcCaller;
pub use channel::Channel;
pub use end::End;
pub use resting::Resting;
pub use stream_item::StreamItem;
pub use transfer_fault::TransferFault;
