//! A link with its connection, for one call after the other.

ghost use Rattle.std.specs.Prelude.{◌≡◌, true, false, [], List, ℕ, None, Some, is_some, MatchOption, IfErr, IfOk, OnErr, OnOk};
ghost use Rattle.std.specs.List.{All};
ghost use Rattle.rx_h2conn.specs.Conn.{started};
ghost use Rattle.rx_h2conn.specs.Open.{next_id};
ghost use Rattle.rx_hpack.specs.Encoder.{IsWritable};
ghost use Rattle.rx_hpack.specs.Header.{Field, views};
ghost use Rattle.rx_world.specs.Causes.{HasCauseOf};
ghost use Rattle.rx_world.specs.Links.{IsNew, Meets, SameRule};
ghost use Rattle.rx_grpc.specs.Answer.{unary};
ghost use Rattle.rx_grpc.specs.Faults.{FaultIs};
ghost use Rattle.rx_grpc.specs.RetryDelay.{retry_delay_of};
ghost use Rattle.rx_grpc.specs.Shown.{IsOver};
ghost use Rattle.rx_grpc.specs.Sent.{AsksBy, IsAnswered, IsAsked, IsToSend, NextAsks};
ghost use Rattle.rx_grpc.specs.StatusText.{IsTextOf, KeepsTextOf};
ghost use Rattle.rx_grpc.specs.Streamed.{NextFails, Nexts};
ghost use Rattle.rx_grpc.specs.Transport.{IsStarted, takes};
ghost use Rattle.rx_grpc.specs.declared.transfer_fault.TransferFault.TheVariants.{Link as lost, NoMemory as starved};

use crate::answer::Answer;
use crate::body::Body;
use crate::details::Details;
use crate::open_call::OpenCall;
use crate::request::Request;
use crate::stream::next_stream;
use crate::stream_item::StreamItem;
use crate::talk::{answer_of, item_of};
use crate::transfer_fault::TransferFault;
use rx_base::NoMemory;
use rx_h2conn::Conn;
use rx_hpack::Header;
use rx_world::Link;
use std::alloc::Global;
use std::marker::Model;

/// A link with its connection. No call is made on it any more after one that failed, a broken rule, a GOAWAY or the link's end.
#[derive(Drop)]
pub struct Transport<L: Link + Drop> {
    link: L,
    conn: Conn,
    alive: bool,
    /// The stream of the last call, where one side of it is open.
    unfinished: Option<u32>,
    /// The call whose streamed answer is open.
    opened: Option<OpenCall>,
    /// The text that came with the status of the last answer, as far as that was heard.
    text: Vec<u8>,
    /// The details that came with it.
    details: Details,
}

impl<L: Link + Drop> Model for Transport<L> {
    ghost use Rattle.rx_grpc.specs.Transport.{IsOpenOr, IsReady, TransportOf, opened_of};

    ghost Value = { TransportOf L };

    ghost use Rattle.std.specs.Prelude.{◌≡◌, true};

    ghost view = { λ t. record {
      link = t.link;
      conn = t.conn;
      alive = t.alive;
      opened = opened_of t.opened;
      call = t.opened;
      text = t.text.items;
      details = t.details;
    } };

    ghost invariant = { λ t. (t.alive ≡ true
        → IsReady (L.wire t.link) (L.rule t.link) (L.ended t.link) t.conn t.unfinished)
        × IsOpenOr (L.wire t.link) (L.rule t.link) (L.ended t.link) t.conn t.opened };
}

impl<L: Link + Drop> Transport<L> {
    /// A new connection over a new link.
    pub fn new(alloc: Global, link: L) -> Result<Transport<L>, NoMemory>
        requires fresh { IsNew (L.wire link) (L.ended link) (L.faults link) }
        requires meets { Meets (L.wire link) (L.rule link) }
        ensures link { IfOk result (λ transport. transport.link ≡ link) }
        ensures conn { IfOk result (λ transport. transport.conn ≡ started) }
        ensures alive { IfOk result (λ transport. transport.alive ≡ true) }
        ensures opened { IfOk result (λ transport. transport.opened ≡ None) }
    {
        Ok(Transport {
            link,
            conn: Conn::new(alloc)?,
            alive: true,
            unfinished: None,
            opened: None,
            text: Vec::new(alloc),
            details: Details::none(),
        })
    }

    /// The link.
    pub fn link(&self) -> &L
        ensures { result.now ≡ self.now.link }
    {
        &self.link
    }

    /// The text that came with the status of the last answer, as far as that was heard.
    pub fn status_text(&self) -> &[u8]
        ensures { result.now ≡ self.now.text }
    {
        &self.text
    }

    /// How many milliseconds the details of that status ask to wait.
    pub fn retry_delay(&self) -> Option<u64>
        ensures { result ≡ retry_delay_of self.now.details }
    {
        self.details.retry_delay()
    }

    /// Whether another call can be made on it.
    pub fn is_alive(&self) -> bool
        ensures { result ≡ self.now.alive }
    {
        self.alive
    }

    /// Whether a streamed answer is open.
    pub fn is_answering(&self) -> bool
        ensures { result ≡ is_some self.now.opened }
    {
        self.opened.is_some()
    }

    /// Opens the stream of the next call. `None` where no call can be made any more. An answer that was open is given up.
    pub fn open_stream(&mut self, headers: &[Header]) -> Result<Option<u32>, TransferFault>
        requires { All IsWritable headers.now }
        ensures memory { IfErr result (λ fault. fault ≡ starved) }
        ensures link { self.new.link ≡ self.old.link }
        ensures alive { self.new.alive ≡ false }
        ensures closed { self.new.opened ≡ None }
        ensures taken { IfOk result (λ id. MatchOption id (takes self.old ≡ false)
            (λ id. takes self.old ≡ true)) }
        ensures next { IfOk result (λ id. MatchOption id (Unit {0})
            (λ id. id ≡ next_id self.old.conn.state)) }
        ensures started { IfOk result (λ id. MatchOption id (Unit {0})
            (IsStarted (L.wire self.new.link) (L.rule self.new.link) (L.ended self.new.link)
            self.new.conn)) }
        ensures asked { IfOk result (λ id. MatchOption id (Unit {0}) (λ id.
            IsAsked (L.wire self.new.link) (L.rule self.new.link) self.new.conn id
            (views headers.now))) }
    {
        self.opened = None;
        if !self.alive {
            return Ok(None);
        }
        self.alive = false;
        next_stream(&mut self.conn, self.unfinished, headers)
    }

    /// Sends a request on its stream, with the messages of its body behind it, and waits for the answer.
    pub fn call<B: Body>(
        &mut self,
        alloc: Global,
        id: u32,
        request: Request,
        body: &mut B,
    ) -> Result<Answer, TransferFault>
        requires unsent { request.done ≡ false }
        requires alive { self.old.alive ≡ false }
        requires closed { self.old.opened ≡ None }
        requires started { IsStarted (L.wire self.old.link) (L.rule self.old.link)
            (L.ended self.old.link) self.old.conn id }
        ensures over { IfOk result (IsOver unary (L.wire self.new.link) (L.rule self.new.link)
            (L.ended self.new.link) self.new.conn id self.new.alive) }
        ensures fault { IfErr result (λ fault. FaultIs unary 268435456 fault
            (L.wire self.old.link) (L.wire self.new.link) (L.rule self.new.link)
            self.new.conn id) }
        ensures failed { OnErr result (self.new.alive ≡ false) }
        ensures closed { self.new.opened ≡ None }
        ensures asked { IfOk result (λ answer. (fields : List Field) (messages : List (List ℕ))
            → IsAsked (L.wire self.old.link) (L.rule self.old.link) self.old.conn id fields
            → IsToSend request (B.messages body.old) messages
            → IsAnswered unary (L.wire self.new.link) (L.rule self.new.link)
            (L.ended self.new.link) self.new.conn id fields messages [] answer) }
        ensures text { OnOk result (IsTextOf (L.wire self.new.link) (L.rule self.new.link)
            self.new.conn id self.new.text self.new.details) }
        ensures rule { SameRule (L.rule self.old.link) (L.rule self.new.link) }
        ensures cause { HasCauseOf lost (L.faults self.old.link) (L.faults self.new.link) result }
    {
        let mut opened = OpenCall::new(alloc, id, request);
        let answer = answer_of(alloc, &mut self.link, &mut self.conn, &mut opened, body)?;
        let text = opened.status_text(alloc)?;
        let details = opened.details(alloc)?;
        self.text = text;
        self.details = details;
        self.alive = opened.is_alive();
        self.unfinished = opened.stream_left();
        Ok(answer)
    }

    /// Opens the streamed answer of a request whose stream was opened.
    pub fn begin(&mut self, alloc: Global, id: u32, request: Request)
        requires unsent { request.done ≡ false }
        requires started { IsStarted (L.wire self.old.link) (L.rule self.old.link)
            (L.ended self.old.link) self.old.conn id }
        ensures link { self.new.link ≡ self.old.link }
        ensures conn { self.new.conn ≡ self.old.conn }
        ensures opened { self.new.opened
            ≡ Some (record { id = id; place = 0; room = 268435456 }) }
        ensures asks { (fields : List Field) (messages : List (List ℕ))
            → IsAsked (L.wire self.old.link) (L.rule self.old.link) self.old.conn id fields
            → IsToSend request [] messages
            → AsksBy (L.wire self.new.link) (L.rule self.new.link) self.new.conn self.new.call id
            fields messages [] }
    {
        self.opened = Some(OpenCall::new(alloc, id, request));
        self.text = Vec::new(alloc);
        self.details = Details::none();
        self.unfinished = Some(id);
        self.alive = true;
    }

    /// Hands out the next item of the streamed answer that is open.
    pub fn next(&mut self, alloc: Global) -> Result<StreamItem, TransferFault>
        requires { is_some self.old.opened ≡ true }
        ensures next { IfOk result (Nexts L.wire L.rule L.ended self.old.opened self.old
            self.new) }
        ensures asks { IfOk result (NextAsks L.wire L.rule L.ended self.old self.new) }
        ensures text { OnOk result (KeepsTextOf L.wire L.rule self.old.opened self.new) }
        ensures fails { IfErr result (NextFails L.wire L.rule self.old.opened self.old self.new) }
        ensures failed { OnErr result (self.new.alive ≡ false) }
        ensures closed { OnErr result (self.new.opened ≡ None) }
        ensures rule { SameRule (L.rule self.old.link) (L.rule self.new.link) }
        ensures cause { HasCauseOf lost (L.faults self.old.link) (L.faults self.new.link) result }
    {
        self.alive = false;
        let Some(mut opened) = self.opened.take() else {
            unreachable!()
        };
        let item = item_of(alloc, &mut self.link, &mut self.conn, &mut opened)?;
        let text = opened.status_text(alloc)?;
        let details = opened.details(alloc)?;
        self.text = text;
        self.details = details;
        self.alive = opened.is_alive();
        self.unfinished = opened.stream_left();
        if item.is_message() {
            self.opened = Some(opened);
        }
        Ok(item)
    }
}
