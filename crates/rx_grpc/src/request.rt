//! What is left to send of a request.

ghost use Rattle.std.specs.Prelude.{◌≡◌, ◌<◌, false, None, IfErr, IfOk, OnOk};
ghost use Rattle.rx_h2conn.specs.Streams.{IsHeld};
ghost use Rattle.rx_grpc.specs.Request.{is_idle, to_come};
ghost use Rattle.rx_grpc.specs.Sent.{IsToSend, Pushes};
ghost use Rattle.rx_grpc.specs.declared.transfer_fault.TransferFault.TheVariants.{NoMemory as starved};

use crate::body::Body;
use crate::headers::framed_message;
use crate::transfer_fault::TransferFault;
use rx_base::NoMemory;
use rx_h2conn::Conn;
use std::alloc::Global;
use std::marker::Model;

/// What is left to send of a request.
#[derive(Drop)]
pub struct Request {
    /// Of the message that is sent now.
    bytes: Vec<u8>,
    /// How many of them the connection has taken.
    taken: usize,
    /// Whether the request ends with them.
    last: bool,
    /// Whether the end was sent.
    done: bool,
}

impl Model for Request {
    ghost use Rattle.rx_grpc.specs.Request.{RequestOf};

    ghost Value = { RequestOf };

    ghost use Rattle.std.specs.Prelude.{◌≤◌, drop, length};

    ghost view = { λ r. record {
      left = drop r.taken r.bytes.items;
      last = r.last;
      done = r.done;
    } };

    ghost invariant = { λ r. r.taken ≤ length r.bytes.items };
}

impl Request {
    /// A request that begins with these bytes, and may end with them.
    pub fn new(bytes: Vec<u8>, last: bool) -> Request
        ensures left { result.left ≡ bytes.items }
        ensures last { result.last ≡ last }
        ensures done { result.done ≡ false }
    {
        Request {
            bytes,
            taken: 0,
            last,
            done: false,
        }
    }

    /// A request that begins with the first message of a body.
    pub fn first_of<B: Body>(alloc: Global, body: &mut B) -> Result<Request, NoMemory>
        ensures unsent { IfOk result (λ request. request.done ≡ false) }
        ensures sends { IfOk result (λ request.
            IsToSend request (B.messages body.new) (B.messages body.old)) }
    {
        let mut request = Request::new(Vec::new(alloc), body.is_done());
        if request.is_idle() {
            request.refill(alloc, body)?;
        }
        Ok(request)
    }

    /// Whether the end was sent.
    pub fn is_done(&self) -> bool
        ensures { result ≡ self.now.done }
    {
        self.done
    }

    /// Whether all bytes were given to the connection, and more are to follow.
    pub fn is_idle(&self) -> bool
        ensures { result ≡ is_idle self.now }
    {
        self.taken == self.bytes.len() && !self.last
    }

    /// Takes the next message of the body, or the end where none is left.
    pub fn refill<B: Body>(&mut self, alloc: Global, body: &mut B) -> Result<(), NoMemory>
        requires { self.old.last ≡ false }
        ensures done { OnOk result (self.new.done ≡ self.old.done) }
        ensures sends { OnOk result
            (IsToSend self.new (B.messages body.new) (B.messages body.old)) }
        ensures fewer { OnOk result (to_come (B.messages body.new) self.new
            < to_come (B.messages body.old) self.old) }
    {
        match body.next_message()? {
            Some(message) => {
                self.bytes = framed_message(alloc, message.as_slice())?;
                self.last = body.is_done();
            }
            None => {
                self.bytes = Vec::new(alloc);
                self.last = true;
            }
        }
        self.taken = 0;
        Ok(())
    }

    /// Gives the connection as much as both windows allow, and the stream's end with the last byte.
    pub fn push(&mut self, conn: &mut Conn, id: u32) -> Result<(), TransferFault>
        requires fault { conn.old.state.fault ≡ None }
        requires held { IsHeld conn.old.state id self.old.done }
        ensures memory { IfErr result (λ fault. fault ≡ starved) }
        ensures pushes { OnOk result (Pushes conn.old conn.new id self.old self.new) }
        ensures fault { OnOk result (conn.new.state.fault ≡ None) }
        ensures events { OnOk result (conn.new.state.events ≡ conn.old.state.events) }
        ensures held { OnOk result (IsHeld conn.new.state id self.new.done) }
    {
        if self.done {
            return Ok(());
        }
        let (_taken, left) = self.bytes.split_at(self.taken);
        let Ok(count) = conn.send(id, left, self.last) else {
            return Err(TransferFault::NoMemory);
        };
        self.done = self.last && count == left.len();
        self.taken += count;
        Ok(())
    }
}
