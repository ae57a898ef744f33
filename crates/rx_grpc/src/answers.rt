//! The reader of the answer of one call.

ghost use Rattle.std.specs.Prelude.{not, ◌==◌, ◌≡◌, List, ℕ, length, IfOk, OnOk, Some};
ghost use Rattle.percent_encoding.specs.Percent.{percent_decode};
ghost use Rattle.rx_h2conn.specs.Event.{event_view};
ghost use Rattle.rx_h2conn.specs.Session.{Event};
ghost use Rattle.rx_grpc.specs.Answer.{after_answer, only_message, unary};
ghost use Rattle.rx_grpc.specs.Heard.{nothing, step};
ghost use Rattle.rx_grpc.specs.Item.{after_item, item, item_at_end, item_behind};
ghost use Rattle.rx_grpc.specs.Seen.{HandsOut};
ghost use Rattle.rx_grpc.specs.Uses.{FrontShows, IsOfEvents, ReadsBack, ShownStays, Use};

use crate::answer::Answer;
use crate::details::Details;
use crate::end::End;
use crate::head::Head;
use crate::reader::Reader;
use crate::stream_item::StreamItem;
use percent_encoding::percent_decode;
use rx_base::{Bytes, NoMemory};
use rx_h2conn::ConnEvent;
use std::alloc::Global;
use std::collections::VecDeque;
use std::marker::Model;

/// What was heard of the answer of one call, without the messages that were handed out.
#[derive(Drop)]
pub struct Answers {
    reader: Reader,
}

impl Model for Answers {
    ghost use Rattle.rx_grpc.specs.Heard.{Heard};

    ghost Value = { Heard };

    ghost use Rattle.rx_grpc.specs.Seen.{IsReady, heard_of};

    ghost view = { λ a. heard_of a.reader };

    ghost invariant = { λ a. IsReady (heard_of a.reader) a.reader.lacking };
}

impl Answers {
    /// Nothing was heard.
    #[tactic(auto, unfolding(crate::specs::Framing::next_message))]
    pub fn new(alloc: Global) -> Answers
        ensures is { result ≡ nothing }

        // Messages that were framed are read back.
        ensures framed { (messages : List (List ℕ)) → ReadsBack messages }

        // Whatever is handed out between, with that it is what the events show.
        ensures events { (uses : List Use) → IsOfEvents result uses }

        // An answer that was shown stays, whatever comes later.
        ensures stays { (events later : List Event) → ShownStays unary result events later }

        // So does one that a front of the received bytes shows at the call's stream.
        ensures bytes { (id : ℕ) (front more : List ℕ) → FrontShows unary result id front more }

        // And so does each item of a streamed answer.
        ensures items { (place id : ℕ) (front more : List ℕ)
            → FrontShows (item_behind place) result id front more }
    {
        let reader = Reader {
            alloc,
            head: Head::Waiting,
            rest: Vec::new(alloc),
            messages: VecDeque::new(alloc),
            end: None,
            status_text: Vec::new(alloc),
            details: None,
            lacking: 1,
        };
        Answers { reader }
    }

    /// Takes the next event of the call's stream, or a GOAWAY that leaves it out. Where memory ran out, what was heard
    /// before may be lost, and the call has no answer.
    pub fn add(&mut self, event: ConnEvent) -> Result<(), NoMemory>
        ensures { OnOk result (self.new ≡ step self.old (event_view event)) }
    {
        let done = self.reader.add(event);
        if done.is_err() {
            self.reader.forget();
        }
        done
    }

    /// Hands out the next whole message.
    pub fn next_message(&mut self) -> Option<Bytes>
        ensures message { HandsOut self.old.messages self.new.messages result }
        ensures rest { self.new ≡ record self.old { messages = self.new.messages } }
    {
        self.reader.messages.pop_front()
    }

    /// What ended the answer, and nothing while more may come.
    pub fn end(&self) -> Option<End>
        ensures { result ≡ self.now.end }
    {
        self.reader.end
    }

    /// Whether the front of a message was heard that isn't whole.
    pub fn is_cut(&self) -> bool
        ensures { result ≡ not (length self.now.rest == 0) }
    {
        !self.reader.rest.is_empty()
    }

    /// The text that came with the status ("Status-Message"), where its escapes are bytes: what is no escape stays as it is.
    pub fn status_text(&self, alloc: Global) -> Result<Vec<u8>, NoMemory>
        ensures { IfOk result (λ text. text.items ≡ percent_decode self.now.status_text) }
    {
        let mut text = Vec::new(alloc);
        percent_decode(&self.reader.status_text).append_to(&mut text)?;
        Ok(text)
    }

    /// The details that came with the status, where it isn't 0.
    pub fn details(&self, alloc: Global) -> Result<Details, NoMemory>
        ensures { IfOk result (λ details. details ≡ self.now.details) }
    {
        Details::read(alloc, &self.reader.details)
    }

    /// The one message that was heard, where nothing stands beside it.
    fn only_message(&mut self) -> Answer
        ensures answer { result ≡ only_message self.old.messages self.old.rest }
        ensures after { self.new ≡ after_answer (Some result) self.old }
    {
        if self.is_cut() || self.reader.messages.len() != 1 {
            return Answer::BadMessage;
        }
        match self.next_message() {
            Some(message) => Answer::Message(message),
            None => Answer::BadMessage,
        }
    }

    /// The answer of a call that expects one message, once it is shown; `ended` tells that nothing more comes. A message is
    /// handed out, and everything else stays.
    pub fn unary(&mut self, ended: bool) -> Option<Answer>
        ensures answer { result ≡ unary ended self.old }
        ensures after { self.new ≡ after_answer result self.old }
    {
        match self.reader.end {
            None => { if ended { Some(Answer::NoStatus) } else { None } }
            Some(End::Status(0)) => Some(self.only_message()),
            Some(End::Status(code)) => Some(Answer::Status(code)),
            Some(End::Compressed) => Some(Answer::Compressed),
            Some(End::TooLarge) => Some(Answer::TooLarge),
            Some(End::NoStatus) => Some(Answer::NoStatus),
        }
    }

    /// What is behind the last message, once it is shown.
    fn item_at_end(&self, ended: bool) -> Option<StreamItem>
        ensures { result ≡ item_at_end self.now.end (not (length self.now.rest == 0)) ended }
    {
        match self.reader.end {
            None => {
                if ended {
                    Some(StreamItem::LinkEnd)
                } else {
                    None
                }
            }
            Some(End::Status(0)) => Some(StreamItem::Success { cut: self.is_cut() }),
            Some(End::Status(code)) => Some(StreamItem::Status(code)),
            Some(End::Compressed) => Some(StreamItem::Compressed),
            Some(End::TooLarge) => Some(StreamItem::TooLarge),
            Some(End::NoStatus) => Some(StreamItem::NoStatus),
        }
    }

    /// What a streamed answer shows next; `ended` tells that nothing more comes. A message is handed out, and everything
    /// else stays.
    pub fn item(&mut self, ended: bool) -> Option<StreamItem>
        ensures item { result ≡ item ended self.old }
        ensures after { self.new ≡ after_item result self.old }
    {
        match self.next_message() {
            Some(message) => Some(StreamItem::Message(message)),
            None => self.item_at_end(ended),
        }
    }
}
