//! A call as it stands on its stream: what came of it, and what is left of its answer.

use crate::farm::ToyFarm;
use crate::farm_fault::Broken;
use crate::methods::Method;
use crate::replies::{Reply, reply_to};
use crate::sender::Sender;
use rx_hpack::Header;
use std::alloc::Global;

/// A call on a stream that the client opened.
#[derive(Drop)]
pub(crate) struct OpenCall {
    method: Method,
    body: Vec<u8>,
    /// By how much the stream's window for what is sent has changed since it began.
    pub(crate) change: i64,
    answer: Option<Sending>,
}

/// An answer, and how many bytes of its messages were sent.
#[derive(Drop)]
struct Sending {
    reply: Reply,
    sent: usize,
}

/// The value of the first header of this name.
fn value_of<'a>(headers: &'a [Header], name: &[u8]) -> Option<&'a [u8]> {
    for header in headers {
        if header.name.as_slice() == name {
            return Some(&header.value);
        }
    }
    None
}

impl OpenCall {
    /// The call that these headers begin (PROTOCOL-HTTP2.md of gRPC, "Requests").
    pub(crate) fn new(alloc: Global, headers: &[Header]) -> Result<OpenCall, Broken> {
        let (Some(verb), Some(path)) = (value_of(headers, b":method"), value_of(headers, b":path"))
        else {
            return Err(Broken::BadCall);
        };
        let Some(method) = Method::of_path(path) else {
            return Err(Broken::BadCall);
        };
        if verb != b"POST".as_slice() {
            return Err(Broken::BadCall);
        }
        Ok(OpenCall {
            method,
            body: Vec::new(alloc),
            change: 0,
            answer: None,
        })
    }

    /// More of the call's body.
    pub(crate) fn extend(&mut self, bytes: &[u8]) -> Result<(), Broken> {
        if self.answer.is_some() {
            return Err(Broken::BadCall);
        }
        self.body.extend_from_slice(bytes)?;
        Ok(())
    }

    /// The call is whole: it is made, and its answer begins.
    pub(crate) fn make(
        &mut self,
        alloc: Global,
        farm: &mut ToyFarm,
        stream: u32,
        sender: &mut Sender,
    ) -> Result<(), Broken> {
        let reply = reply_to(alloc, farm, self.method, &self.body)?;
        self.body = Vec::new(alloc);
        self.answer = Some(Sending { reply, sent: 0 });
        sender.begin(stream)
    }

    /// Sends what the windows let of the answer. Whether the call is over.
    pub(crate) fn push(&mut self, stream: u32, sender: &mut Sender) -> Result<bool, Broken> {
        let Some(sending) = &mut self.answer else {
            return Ok(false);
        };
        let size = sending.reply.bytes.len();
        let (_, left) = sending.reply.bytes.split_at(sending.sent.min(size));
        let count = sender.put_data(stream, &mut self.change, left)?;
        sending.sent = sending.sent.saturating_add(count);
        if sending.sent < size {
            return Ok(false);
        }
        sender.end(stream, sending.reply.code)?;
        Ok(true)
    }
}
