//! A channel to one server: its calls share a link while that serves, and a new one is made where it doesn't.

ghost use Rattle.std.specs.Prelude.{◌≡◌, ◌<◌, ◌^◌, ◌∷◌, [], false, true, length, None, Some, IfErr, IfOk, MatchOption, OnErr, OnOk};
ghost use Rattle.std.specs.List.{All};
ghost use Rattle.rx_hpack.specs.Encoder.{IsWritable};
ghost use Rattle.rx_hpack.specs.Header.{views};
ghost use Rattle.rx_world.specs.Links.{SameRule};
ghost use Rattle.rx_grpc.specs.Answer.{unary};
ghost use Rattle.rx_grpc.specs.Channel.{Answers, Fails, HasCauseOn, IsLinkOf, IsRuled, Keeps, OpensOn, Stops, is_kept, rested, stream_for};
ghost use Rattle.rx_grpc.specs.Faults.{IsOther};
ghost use Rattle.rx_grpc.specs.Request.{request_fields};
ghost use Rattle.rx_grpc.specs.RetryDelay.{retry_delay_of};
ghost use Rattle.rx_grpc.specs.Sent.{AnsweredOn, AskedOn, AsksOn, NextAsksOn, SendsOn};
ghost use Rattle.rx_grpc.specs.StatusText.{KeepsText, KeepsTextOn, details_in, text_in};
ghost use Rattle.rx_grpc.specs.Streamed.{Begins, NextCause, NextFailsOn, NextsOn, is_answering};
ghost use Rattle.rx_grpc.specs.declared.transfer_fault.TransferFault.TheVariants.{NoMemory as starved};

use crate::answer::Answer;
use crate::body::{Body, NoBody};
use crate::headers::{framed_message, request_headers};
use crate::request::Request;
use crate::resting::Resting;
use crate::stream_item::StreamItem;
use crate::transfer_fault::TransferFault;
use crate::transport::Transport;
use rx_hpack::Header;
use rx_world::Dial;
use std::alloc::Global;
use std::marker::Model;

/// A channel to one server.
///
/// The first call makes a link. It is kept from call to call, until a call on it fails, the server breaks a rule or takes no more
/// streams, the link ends or no stream number is left; then the next call makes another one.
#[derive(Drop)]
pub struct Channel<D: Dial + Drop> {
    alloc: Global,
    dial: D,
    /// `:authority` of all calls.
    authority: Vec<u8>,
    transport: Option<Transport<D::L>>,
}

impl<D: Dial + Drop> Model for Channel<D> {
    ghost use Rattle.rx_grpc.specs.Channel.{ChannelOf, IsRuled};

    ghost Value = { ChannelOf D D.L };

    ghost use Rattle.std.specs.Prelude.{◌<◌, ◌^◌, length};

    ghost view = { λ c. record {
      dial = c.dial;
      transport = c.transport;
      authority = c.authority.items;
    } };

    ghost invariant = { λ c. (length c.authority.items < 2 ^ 32)
        × IsRuled (D.rule c.dial) D.L.rule c.transport };
}

impl<D: Dial + Drop> Channel<D> {
    /// A channel without a link.
    pub fn new(alloc: Global, dial: D, authority: Vec<u8>) -> Channel<D>
        requires { length authority.items < 2 ^ 32 }
        ensures dial { result.dial ≡ dial }
        ensures transport { result.transport ≡ None }
        ensures authority { result.authority ≡ authority.items }
    {
        Channel {
            alloc,
            dial,
            authority,
            transport: None,
        }
    }

    /// What makes the links.
    pub fn dial(&self) -> &D
        ensures { result.now ≡ self.now.dial }
    {
        &self.dial
    }

    /// `:authority` of all calls.
    pub fn authority(&self) -> &[u8]
        ensures { result.now ≡ self.now.authority }
    {
        &self.authority
    }

    /// The link of the last call, also where that failed.
    pub fn link(&self) -> Option<&D::L>
        ensures { IsLinkOf self.now.transport result }
    {
        match &self.transport {
            Some(transport) => Some(transport.link()),
            None => None,
        }
    }

    /// The text that came with the status of the last answer ("Status-Message"), where its escapes are bytes. It is empty where
    /// none came yet, and where another link was made since.
    pub fn status_text(&self) -> &[u8]
        ensures { result.now ≡ text_in self.now.transport }
    {
        match &self.transport {
            Some(transport) => transport.status_text(),
            None => &[],
        }
    }

    /// How many milliseconds the details of that status ask to wait before the call is made again ("RetryInfo"). `None` where they
    /// ask for nothing or can't be read, and where no text is kept.
    pub fn retry_delay(&self) -> Option<u64>
        ensures { result ≡ retry_delay_of (details_in self.now.transport) }
    {
        match &self.transport {
            Some(transport) => transport.retry_delay(),
            None => None,
        }
    }

    /// Whether a streamed answer is open.
    pub fn is_answering(&self) -> bool
        ensures { result ≡ is_answering self.now.transport }
    {
        match &self.transport {
            Some(transport) => transport.is_answering(),
            None => false,
        }
    }

    /// Closes the link of the last call, if there is one. The next call makes another one; a streamed answer that is open is given
    /// up.
    pub fn hang_up(&mut self)
        ensures { self.new ≡ record self.old { transport = None } }
    {
        self.transport = None;
    }

    /// Takes the link out, as it rests between two calls, where another call can be made on it; else it is closed. The next call makes
    /// another one; a streamed answer that is open is given up.
    pub fn rest(&mut self) -> Option<Resting<D::L>>
        ensures rests { result ≡ rested self.old.transport }
        ensures ruled { IsRuled (D.rule self.old.dial) D.L.rule result }
        ensures left { self.new ≡ record self.old { transport = None } }
    {
        match self.transport.take() {
            Some(transport) if transport.is_alive() => Some(Resting { transport }),
            _ => None,
        }
    }

    /// The next call is made on this link, unless the server takes no more streams. The link of the last call is closed.
    pub fn resume(&mut self, resting: Resting<D::L>)
        requires { SameRule (D.rule self.old.dial) (D.L.rule resting.link) }
        ensures { self.new ≡ record self.old { transport = Some resting } }
    {
        self.transport = Some(resting.transport);
    }

    /// A call of one message that is answered by one: the message is sent to the method that the path names, as `/SERVICE/METHOD`.
    /// A streamed answer that is open is given up.
    ///
    /// Errors: `Link` where the dial or the link failed; `Protocol` where the server broke a rule before an answer was shown, or
    /// where 268,435,456 bytes showed none; `NoMemory`.
    pub fn unary(&mut self, path: &[u8], message: &[u8]) -> Result<Answer, TransferFault>
        requires path { length path.now < 2 ^ 32 }
        requires message { length message.now < 2 ^ 32 }
        ensures answers { IfOk result (Answers D.L.wire D.L.rule D.L.ended self.old.transport
            self.new.transport) }
        ensures fails { IfErr result (Fails D.L.wire D.L.rule self.old.transport
            self.new.transport) }
        ensures stops { IfErr result (Stops self.new.transport) }
        ensures ruled { IsRuled (D.rule self.new.dial) D.L.rule self.new.transport }
        ensures keeps { Keeps D.rule self.old self.new }
        ensures cause { HasCauseOn (D.faults self.old.dial) (D.faults self.new.dial) D.L.faults
            self.old.transport self.new.transport result }
        ensures asks { IfOk result (AnsweredOn unary D.L.wire D.L.rule D.L.ended
            self.new.transport (stream_for self.old.transport)
            (request_fields path.now self.old.authority) (message.now ∷ []) []) }
        ensures text { OnOk result (KeepsText D.L.wire D.L.rule self.new.transport
            (stream_for self.old.transport)) }
        ensures closed { OnOk result (is_answering self.new.transport ≡ false) }
    {
        let headers = request_headers(self.alloc, path, &self.authority)?;
        let body = framed_message(self.alloc, message)?;
        let id = self.open_stream(&headers)?;
        let Some(transport) = &mut self.transport else {
            unreachable!()
        };
        transport.call(self.alloc, id, Request::new(body, true), &mut NoBody {})
    }

    /// A call of any number of messages that is answered by one: the messages of the body, each sent as soon as the windows let it
    /// through, and the stream's end with the last of them. A server that answers before that ends the sending. A streamed answer
    /// that is open is given up.
    ///
    /// Errors: as of `unary`.
    pub fn upload<B: Body>(&mut self, path: &[u8], body: &mut B) -> Result<Answer, TransferFault>
        requires { length path.now < 2 ^ 32 }
        ensures answers { IfOk result (Answers D.L.wire D.L.rule D.L.ended self.old.transport
            self.new.transport) }
        ensures fails { IfErr result (Fails D.L.wire D.L.rule self.old.transport
            self.new.transport) }
        ensures stops { IfErr result (Stops self.new.transport) }
        ensures ruled { IsRuled (D.rule self.new.dial) D.L.rule self.new.transport }
        ensures keeps { Keeps D.rule self.old self.new }
        ensures cause { HasCauseOn (D.faults self.old.dial) (D.faults self.new.dial) D.L.faults
            self.old.transport self.new.transport result }
        ensures asks { IfOk result (AnsweredOn unary D.L.wire D.L.rule D.L.ended
            self.new.transport (stream_for self.old.transport)
            (request_fields path.now self.old.authority) (B.messages body.old) []) }
        ensures text { OnOk result (KeepsText D.L.wire D.L.rule self.new.transport
            (stream_for self.old.transport)) }
        ensures closed { OnOk result (is_answering self.new.transport ≡ false) }
    {
        let headers = request_headers(self.alloc, path, &self.authority)?;
        let request = Request::first_of(self.alloc, body)?;
        let id = self.open_stream(&headers)?;
        let Some(transport) = &mut self.transport else {
            unreachable!()
        };
        transport.call(self.alloc, id, request, body)
    }

    /// A call of one message that is answered by any number of messages. It opens the stream, and `next` does the rest.
    ///
    /// Errors: `Link` where the dial failed; `NoMemory`.
    pub fn begin(&mut self, path: &[u8], message: &[u8]) -> Result<(), TransferFault>
        requires path { length path.now < 2 ^ 32 }
        requires message { length message.now < 2 ^ 32 }
        ensures begins { OnOk result (Begins D.L.wire self.old.transport self.new.transport) }
        ensures asks { OnOk result (SendsOn D.L.wire self.new.transport
            (stream_for self.old.transport)
            (request_fields path.now self.old.authority)) }
        ensures open { OnOk result (AsksOn D.L.wire D.L.rule self.new.transport
            (stream_for self.old.transport) (request_fields path.now self.old.authority)
            (message.now ∷ []) []) }
        ensures other { IfErr result IsOther }
        ensures stops { IfErr result (Stops self.new.transport) }
        ensures ruled { IsRuled (D.rule self.new.dial) D.L.rule self.new.transport }
        ensures keeps { Keeps D.rule self.old self.new }
        ensures cause { HasCauseOn (D.faults self.old.dial) (D.faults self.new.dial) D.L.faults
            self.old.transport self.new.transport result }
    {
        let headers = request_headers(self.alloc, path, &self.authority)?;
        let body = framed_message(self.alloc, message)?;
        let id = self.open_stream(&headers)?;
        let Some(transport) = &mut self.transport else {
            unreachable!()
        };
        transport.begin(self.alloc, id, Request::new(body, true));
        Ok(())
    }

    /// The next message of the answer that was begun last, or how it ended. Behind a message the answer is open still.
    ///
    /// Errors: `Link` where the link failed; `Protocol` where the server broke a rule before an item was shown, or where the call
    /// has taken 268,435,456 bytes or 53,687,091 messages in all; `NoMemory`.
    pub fn next(&mut self) -> Result<StreamItem, TransferFault>
        requires { is_answering self.old.transport ≡ true }
        ensures shows { IfOk result (NextsOn D.L.wire D.L.rule D.L.ended self.old.transport
            self.new.transport) }
        ensures asks { IfOk result (NextAsksOn D.L.wire D.L.rule D.L.ended self.old.transport
            self.new.transport) }
        ensures text { OnOk result (KeepsTextOn D.L.wire D.L.rule self.old.transport
            self.new.transport) }
        ensures fails { IfErr result (NextFailsOn D.L.wire D.L.rule self.old.transport
            self.new.transport) }
        ensures stops { IfErr result (Stops self.new.transport) }
        ensures closed { OnErr result (is_answering self.new.transport ≡ false) }
        ensures dial { self.new.dial ≡ self.old.dial }
        ensures ruled { IsRuled (D.rule self.new.dial) D.L.rule self.new.transport }
        ensures keeps { Keeps D.rule self.old self.new }
        ensures cause { NextCause D.L.faults self.old.transport self.new.transport result }
    {
        let Some(transport) = &mut self.transport else {
            unreachable!()
        };
        transport.next(self.alloc)
    }

    /// Opens the stream of a call, on the link that is kept or on a new one.
    fn open_stream(&mut self, headers: &[Header]) -> Result<u32, TransferFault>
        requires { All IsWritable headers.now }
        ensures opens { IfOk result (OpensOn D.L.wire D.L.rule D.L.ended D.L.faults
            self.old.transport self.new.transport) }
        ensures asked { IfOk result (AskedOn D.L.wire D.L.rule self.new.transport
            (views headers.now)) }
        ensures other { IfErr result IsOther }
        ensures fails { IfErr result (Fails D.L.wire D.L.rule self.old.transport
            self.new.transport) }
        ensures stops { IfErr result (Stops self.new.transport) }
        ensures ruled { IsRuled (D.rule self.new.dial) D.L.rule self.new.transport }
        ensures keeps { Keeps D.rule self.old self.new }
        ensures cause { HasCauseOn (D.faults self.old.dial) (D.faults self.new.dial) D.L.faults
            self.old.transport self.new.transport result }
    {
        if let Some(id) = self.open_kept(headers)? {
            return Ok(id);
        }
        self.open_anew(headers)
    }

    /// Opens a stream on the link that is kept. `None` where none is, or where it takes no call.
    fn open_kept(&mut self, headers: &[Header]) -> Result<Option<u32>, TransferFault>
        requires { All IsWritable headers.now }
        ensures opens { IfOk result (λ id. MatchOption id
            ((is_kept self.old.transport ≡ false) × (is_kept self.new.transport ≡ false))
            (OpensOn D.L.wire D.L.rule D.L.ended D.L.faults self.old.transport
            self.new.transport)) }
        ensures asked { IfOk result (λ id. MatchOption id (Unit {0})
            (AskedOn D.L.wire D.L.rule self.new.transport
            (views headers.now))) }
        ensures memory { IfErr result (λ fault. fault ≡ starved) }
        ensures dial { self.new.dial ≡ self.old.dial }
        ensures ruled { IsRuled (D.rule self.new.dial) D.L.rule self.new.transport }
        ensures keeps { Keeps D.rule self.old self.new }
    {
        match &mut self.transport {
            None => Ok(None),
            Some(transport) => transport.open_stream(headers),
        }
    }

    /// Makes a link, and opens a stream on it.
    fn open_anew(&mut self, headers: &[Header]) -> Result<u32, TransferFault>
        requires writable { All IsWritable headers.now }
        requires unkept { is_kept self.old.transport ≡ false }
        ensures opens { IfOk result (OpensOn D.L.wire D.L.rule D.L.ended D.L.faults None
            self.new.transport) }
        ensures asked { IfOk result (AskedOn D.L.wire D.L.rule self.new.transport
            (views headers.now)) }
        ensures other { IfErr result IsOther }
        ensures fails { IfErr result (Fails D.L.wire D.L.rule None self.new.transport) }
        ensures stops { IfErr result (Stops self.new.transport) }
        ensures ruled { IsRuled (D.rule self.new.dial) D.L.rule self.new.transport }
        ensures keeps { Keeps D.rule self.old self.new }
        ensures cause { HasCauseOn (D.faults self.old.dial) (D.faults self.new.dial) D.L.faults
            None self.new.transport result }
    {
        let link = self.dial.dial()?;
        let mut transport = Transport::new(self.alloc, link)?;
        let Some(id) = transport.open_stream(headers)? else {
            return Err(TransferFault::NoMemory);
        };
        self.transport = Some(transport);
        Ok(id)
    }
}
