//! What a call has heard: the events of its stream, and whether the server takes no more streams.

ghost use Rattle.std.specs.Prelude.{◌≡◌, ◌<◌, ◌||◌, ◌∷◌, [], false, filter, IfSome, OnOk};
ghost use Rattle.rx_h2conn.specs.Event.{event_view};
ghost use Rattle.rx_grpc.specs.Heard.{heard, nothing};
ghost use Rattle.rx_grpc.specs.Item.{after_item, item, place_after};
ghost use Rattle.rx_grpc.specs.Moves.{is_away, is_for};
ghost use Rattle.rx_grpc.specs.Conversation.{Drains};

use crate::answers::Answers;
use crate::stream_item::StreamItem;
use rx_base::NoMemory;
use rx_h2conn::{Conn, ConnEvent};
use std::alloc::Global;

/// A call on a stream.
#[derive(Drop)]
pub struct Call {
    /// The number of its stream.
    pub id: u32,
    pub answers: Answers,
    /// How many messages were handed out.
    pub place: usize,
    /// Whether a GOAWAY came.
    pub away: bool,
    /// Whether the server has ended its side of the stream.
    pub server_ended: bool,
    /// Whether the server has reset the stream.
    pub server_reset: bool,
}

/// Whether an event is for a stream.
fn is_for(id: u32, event: &ConnEvent) -> bool
    ensures { result ≡ is_for id (event_view event.now) }
{
    match event {
        ConnEvent::Headers { stream, .. } => *stream == id,
        ConnEvent::Bytes { stream, .. } => *stream == id,
        ConnEvent::Reset { stream, .. } => *stream == id,
        ConnEvent::Gone { last } => *last < id,
    }
}

/// Whether the server takes no more streams.
fn is_away(event: &ConnEvent) -> bool
    ensures { result ≡ is_away (event_view event.now) }
{
    match event {
        ConnEvent::Headers { .. } => false,
        ConnEvent::Bytes { .. } => false,
        ConnEvent::Reset { .. } => false,
        ConnEvent::Gone { .. } => true,
    }
}

/// Whether the server takes no more streams, after an event.
fn is_away_by(away: bool, event: &ConnEvent) -> bool
    ensures { result ≡ (away || is_away (event_view event.now)) }
{
    if away { true } else { is_away(event) }
}

/// Hands an event to the reader of a stream, where it is for that stream.
fn hear(answers: &mut Answers, id: u32, event: ConnEvent) -> Result<(), NoMemory>
    ensures { OnOk result
        (answers.new ≡ heard answers.old (filter (is_for id) (event_view event ∷ []))) }
{
    if is_for(id, &event) {
        answers.add(event)?;
    }
    Ok(())
}

impl Call {
    /// A call that has heard nothing.
    pub fn new(alloc: Global, id: u32) -> Call
        ensures id { result.id ≡ id }
        ensures answers { result.answers ≡ nothing }
        ensures place { result.place ≡ 0 }
        ensures away { result.away ≡ false }
    {
        Call {
            id,
            answers: Answers::new(alloc),
            place: 0,
            away: false,
            server_ended: false,
            server_reset: false,
        }
    }

    /// Marks what the server does with the stream.
    fn mark(&mut self, event: &ConnEvent)
        ensures id { self.new.id ≡ self.old.id }
        ensures answers { self.new.answers ≡ self.old.answers }
        ensures place { self.new.place ≡ self.old.place }
        ensures away { self.new.away ≡ self.old.away }
    {
        match event {
            ConnEvent::Headers { stream, last, .. } => {
                self.server_ended = self.server_ended || (*stream == self.id && *last);
            }
            ConnEvent::Bytes { stream, last, .. } => {
                self.server_ended = self.server_ended || (*stream == self.id && *last);
            }
            ConnEvent::Reset { stream, .. } => {
                self.server_reset = self.server_reset || *stream == self.id;
            }
            ConnEvent::Gone { .. } => {}
        }
    }

    /// The stream, where one side is open yet and the server hasn't reset it; `done` tells that this side has ended.
    pub fn stream_left(&self, done: bool) -> Option<u32>
        ensures { IfSome result (λ id. id ≡ self.now.id) }
    {
        if self.server_reset || (self.server_ended && done) {
            return None;
        }
        Some(self.id)
    }

    /// Takes all events that wait: those of its stream to the reader.
    pub fn drain(&mut self, conn: &mut Conn) -> Result<(), NoMemory>
        ensures drained { OnOk result (Drains conn.old conn.new self.old self.new) }
        ensures none { OnOk result (conn.new.state.events ≡ []) }
        ensures id { self.new.id ≡ self.old.id }
    {
        while let Some(event) = conn.next_event() {
            self.away = is_away_by(self.away, &event);
            self.mark(&event);
            hear(&mut self.answers, self.id, event)?;
        }
        Ok(())
    }

    /// Hands out what a streamed answer shows next; `ended` tells that nothing more comes.
    pub fn next_item(&mut self, ended: bool) -> Option<StreamItem>
        requires { self.old.place < 53687091 }
        ensures item { result ≡ item ended self.old.answers }
        ensures answers { self.new.answers ≡ after_item result self.old.answers }
        ensures place { self.new.place ≡ place_after result self.old.place }
        ensures id { self.new.id ≡ self.old.id }
        ensures away { self.new.away ≡ self.old.away }
    {
        let item = self.answers.item(ended)?;
        if item.is_message() {
            self.place += 1;
        }
        Some(item)
    }
}
