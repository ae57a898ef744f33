//! The streams of a connection in their order, and from which on their credit may be due.
//!
//! So the walk that gives credit begins there, and goes over no stream of the calls that ended long ago.

ghost use Rattle.std.specs.Prelude.{◌≡◌, ◌+◌, ◌*◌, ◌<◌, ◌≤◌, ◌++◌, ◌∷◌, [], length, map, slice_index_or, slice_set, OnOk, OnErr};
ghost use Rattle.std.specs.List.{All};
ghost use Rattle.rx_h2conn.specs.Due.{IsDueFrom};
ghost use Rattle.rx_h2conn.specs.Output.{told, stream_credits};
ghost use Rattle.rx_h2conn.specs.Streams.{fresh};

use crate::stream::Stream;
use std::alloc::{AllocError, Global};
use std::marker::Model;

/// The one at k is the stream 2k + 1.
#[derive(Drop)]
pub struct Streams {
    list: Vec<Stream>,
    /// No stream before this one has credit that is due.
    first_due: usize,
}

impl Model for Streams {
    ghost use Rattle.std.specs.Prelude.{List};
    ghost use Rattle.rx_h2conn.specs.declared.stream.Stream.{Stream};

    ghost Value = { List Stream };

    ghost use Rattle.rx_h2conn.specs.Due.{IsDueFrom};

    ghost view = { λ s. s.list.items };

    ghost invariant = { λ s. IsDueFrom s.first_due s.list.items };
}

impl Stream {
    /// The stream once what is due was told.
    fn told(self) -> Stream
        requires { self.receive + self.owed ≤ 16777216 }
        ensures { result ≡ told self }
    {
        let due = self.due();
        Stream {
            receive: self.receive + due,
            owed: self.owed - due,
            ..self
        }
    }
}

/// Tells what is due of the streams from the first on that may have some.
fn tell(streams: &mut [Stream], first: usize)
    requires small { All (λ t. t.receive + t.owed ≤ 16777216) streams.old }
    requires due { IsDueFrom first streams.old }
    ensures told { streams.new ≡ map told streams.old }
    ensures due { IsDueFrom (length streams.new) streams.new }
{
    for at in first..streams.len() {
        streams[at] = streams[at].told();
    }
}

impl Streams {
    /// No stream.
    pub fn new(alloc: Global) -> Streams
        ensures { result ≡ [] }
    {
        Streams {
            list: Vec::new(alloc),
            first_due: 0,
        }
    }

    /// How many were opened.
    pub fn len(&self) -> usize
        ensures { result ≡ length self.now }
    {
        self.list.len()
    }

    /// The one at a place, by value.
    pub fn get(&self, at: usize) -> Stream
        requires { at < length self.now }
        ensures { result ≡ slice_index_or self.now at fresh }
    {
        self.list[at]
    }

    /// Writes the one at a place.
    pub fn set(&mut self, at: usize, stream: Stream)
        requires { at < length self.old }
        ensures { self.new ≡ slice_set self.old at stream }
    {
        self.list[at] = stream;
        if stream.due() == 0 {
            return;
        }
        self.first_due = self.first_due.min(at);
    }

    /// Adds a stream, or changes nothing.
    pub fn push(&mut self, stream: Stream) -> Result<(), AllocError>
        ensures ok { OnOk result (self.new ≡ self.old ++ stream ∷ []) }
        ensures err { OnErr result (self.new ≡ self.old) }
    {
        self.list.push(stream)?;
        Ok(())
    }

    /// Forgets all.
    pub fn clear(&mut self)
        ensures { self.new ≡ [] }
    {
        self.first_due = 0;
        self.list.clear();
    }

    /// All, in their order.
    pub fn as_slice(&self) -> &[Stream]
        ensures { result.now ≡ self.now }
    {
        &self.list
    }

    /// How many streams stand before those whose credit may be due, and these.
    pub fn due(&self) -> (usize, &[Stream])
        ensures same { stream_credits (result.0 * 2 + 1) result.1.now ≡ stream_credits 1 self.now }
        ensures count { result.0 + length result.1.now ≡ length self.now }
    {
        let (_, due) = self.list.split_at(self.first_due);
        (self.first_due, due)
    }

    /// Tells all credit that is due.
    pub fn tell(&mut self)
        requires { All (λ t. t.receive + t.owed ≤ 16777216) self.old }
        ensures { self.new ≡ map told self.old }
    {
        tell(&mut self.list, self.first_due);
        self.first_due = self.list.len();
    }
}
