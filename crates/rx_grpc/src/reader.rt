//! What a call has heard of its answer, and the step from one event to the next.

ghost use Rattle.std.specs.Prelude.{◌≡◌, ◌≤◌, ◌<◌, [], length, None, Some, OnOk, IfOk, codes};
ghost use Rattle.rx_h2conn.specs.Event.{event_view};
ghost use Rattle.rx_hpack.specs.Header.{views};
ghost use Rattle.rx_grpc.specs.Heard.{bytes_read, closed, details_of, end_by, end_of, headed, listed, more, read, settled, step, trailed};
ghost use Rattle.rx_grpc.specs.Seen.{Becomes, IsReady, heard_of};
ghost use Rattle.rx_grpc.specs.Texts.{status_text_of, value_of};

use crate::end::End;
use crate::framing::{PREFIX_SIZE, Sign, next_message};
use crate::head::Head;
use crate::texts::{head_of, is_interim, reset_status, status_number, value_of};
use rx_base::{Bytes, NoMemory};
use rx_h2conn::ConnEvent;
use rx_hpack::Header;
use std::alloc::Global;
use std::collections::VecDeque;

/// What was heard, with the bytes that are lacking to the next sign of a message.
#[derive(Drop)]
pub struct Reader {
    pub alloc: Global,
    pub head: Head,
    /// The bytes since the last whole message.
    pub rest: Vec<u8>,
    pub messages: VecDeque<Bytes>,
    pub end: Option<End>,
    /// `grpc-message` of the list that ended the answer, as it was sent.
    pub status_text: Vec<u8>,
    /// `grpc-status-details-bin` of that list, as it was sent, where the status isn't 0.
    pub details: Option<Bytes>,
    /// How many bytes at least the next message lacks.
    pub lacking: usize,
}

/// What ends an answer whose stream ended without a status of the call.
fn end_by(head: Head) -> End
    ensures { result ≡ end_by head }
{
    match head {
        Head::Waiting => End::Status(2),
        Head::Success => End::NoStatus,
        Head::Failure(code) => End::Status(code),
    }
}

/// What ends an answer by its last header list.
fn end_of(list: &[Header], head: Head) -> End
    ensures { result ≡ end_of (value_of (codes "grpc-status") (views list.now)) head }
{
    match value_of(b"grpc-status", list) {
        Some(text) => End::Status(status_number(text)),
        None => end_by(head),
    }
}

/// A copy of `grpc-message`, or of no bytes where there is none.
fn status_text(alloc: Global, list: &[Header]) -> Result<Vec<u8>, NoMemory>
    ensures { IfOk result (λ text. text.items ≡ status_text_of (views list.now)) }
{
    match value_of(b"grpc-message", list) {
        Some(text) => Vec::from_slice(alloc, text),
        None => Ok(Vec::new(alloc)),
    }
}

/// A copy of `grpc-status-details-bin`, where there is one and the status isn't 0.
fn details_of(alloc: Global, end: End, list: &[Header]) -> Result<Option<Bytes>, NoMemory>
    ensures { IfOk result (λ details. details ≡ details_of end (views list.now)) }
{
    match end {
        End::Status(0) => Ok(None),
        End::Status(_) => match value_of(b"grpc-status-details-bin", list) {
            Some(details) => Ok(Some(Bytes::copy_of(alloc, details)?)),
            None => Ok(None),
        },
        End::Compressed => Ok(None),
        End::TooLarge => Ok(None),
        End::NoStatus => Ok(None),
    }
}

impl Reader {
    /// Takes at most as many bytes as are lacking.
    #[tactic(auto, unfolding(crate::specs::Heard::settled, crate::specs::Framing::next_message))]
    fn take_front(&mut self, front: &[u8]) -> Result<(), NoMemory>
        requires none { self.old.end ≡ None }
        ensures took { Becomes result self.new (settled (more (heard_of self.old) front.now)) }
        ensures ready { OnOk result (IsReady (heard_of self.new) self.new.lacking) }
    {
        self.rest.extend_from_slice(front)?;
        match next_message(&self.rest) {
            Sign::Lacks(lacking) => {
                self.lacking = lacking;
                Ok(())
            }
            Sign::Whole => {
                let (_prefix, body) = self.rest.split_at(PREFIX_SIZE);
                let message = Bytes::copy_of(self.alloc, body)?;
                self.messages.push_back(message)?;
                self.rest.clear();
                self.lacking = 1;
                Ok(())
            }
            Sign::Compressed => {
                self.rest.clear();
                self.end = Some(End::Compressed);
                Ok(())
            }
            Sign::TooLarge => {
                self.rest.clear();
                self.end = Some(End::TooLarge);
                Ok(())
            }
        }
    }

    /// Takes the bytes of an answer whose HTTP status is 200.
    fn take_piece(&mut self, piece: &[u8]) -> Result<(), NoMemory>
        requires ready { IsReady (heard_of self.old) self.old.lacking }
        ensures read { Becomes result self.new (read (heard_of self.old) piece.now) }
        ensures ready { OnOk result (IsReady (heard_of self.new) self.new.lacking) }
    {
        let mut left = piece;
        while !left.is_empty() {
            if self.end.is_some() {
                return Ok(());
            }
            let count = self.lacking.min(left.len());
            let (front, back) = left.split_at(count);
            self.take_front(front)?;
            left = back;
        }
        Ok(())
    }

    /// Takes bytes of the stream.
    fn take_bytes(&mut self, bytes: &[u8]) -> Result<(), NoMemory>
        requires ready { IsReady (heard_of self.old) self.old.lacking }
        ensures read { Becomes result self.new (bytes_read (heard_of self.old) bytes.now) }
        ensures ready { OnOk result (IsReady (heard_of self.new) self.new.lacking) }
    {
        match self.head {
            Head::Success => self.take_piece(bytes),
            Head::Waiting => Ok(()),
            Head::Failure(_) => Ok(()),
        }
    }

    /// The stream ended without a status of the call.
    fn close(&mut self)
        ensures is { heard_of self.new ≡ closed (heard_of self.old) }
        ensures lacking { self.new.lacking ≡ self.old.lacking }
    {
        if self.end.is_some() {
            return;
        }
        self.end = Some(end_by(self.head));
    }

    /// What is known of the HTTP status, with this list.
    fn headed(&self, list: &[Header]) -> Head
        ensures { result ≡ headed self.now.head (views list.now) }
    {
        match self.head {
            Head::Waiting => head_of(list),
            Head::Success => Head::Success,
            Head::Failure(code) => Head::Failure(code),
        }
    }

    /// Takes the trailers, or an answer of headers alone.
    fn end_by_list(&mut self, list: &[Header]) -> Result<(), NoMemory>
        ensures is { Becomes result self.new (trailed (heard_of self.old) (views list.now)) }
        ensures lacking { OnOk result (self.new.lacking ≡ self.old.lacking) }
    {
        self.status_text = status_text(self.alloc, list)?;
        let head = self.headed(list);
        let end = end_of(list, head);
        self.details = details_of(self.alloc, end, list)?;
        self.head = head;
        self.end = Some(end);
        Ok(())
    }

    /// Takes a header list of the stream.
    fn take_list(&mut self, list: &[Header], last: bool) -> Result<(), NoMemory>
        ensures is { Becomes result self.new (listed (heard_of self.old) (views list.now) last) }
        ensures lacking { OnOk result (self.new.lacking ≡ self.old.lacking) }
    {
        if last {
            return self.end_by_list(list);
        }
        if is_interim(list) {
            return Ok(());
        }
        self.head = self.headed(list);
        Ok(())
    }

    /// Forgets the bytes of a message that isn't whole.
    #[tactic(auto, unfolding(crate::specs::Framing::next_message))]
    pub fn forget(&mut self)
        ensures { IsReady (heard_of self.new) self.new.lacking }
    {
        self.rest.clear();
        self.lacking = 1;
    }

    /// Takes an event of the stream.
    #[tactic(auto, unfolding(crate::specs::Heard::step))]
    pub fn add(&mut self, event: ConnEvent) -> Result<(), NoMemory>
        requires ready { IsReady (heard_of self.old) self.old.lacking }
        ensures told { Becomes result self.new (step (heard_of self.old) (event_view event)) }
        ensures ready { OnOk result (IsReady (heard_of self.new) self.new.lacking) }
    {
        if self.end.is_some() {
            return Ok(());
        }
        match event {
            ConnEvent::Headers { list, last, .. } => self.take_list(&list, last),
            ConnEvent::Bytes { bytes, last, .. } => {
                self.take_bytes(&bytes)?;
                if last {
                    self.close();
                }
                Ok(())
            }
            ConnEvent::Reset { code, .. } => {
                self.end = Some(End::Status(reset_status(code)));
                Ok(())
            }
            ConnEvent::Gone { .. } => {
                self.end = Some(End::Status(14));
                Ok(())
            }
        }
    }
}
