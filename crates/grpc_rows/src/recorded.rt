//! A farm that tells the same bytes over each of its links, whatever it is sent. A client of it vouches and is genuine, by proof.

ghost use Rattle.std.specs.Prelude.{◌≡◌, ◌+◌, ◌≤◌, ℕ, List, Some, IfOk, drop, length, take};
ghost use Rattle.rx_base.specs.declared.digests.Digest.{Digest};
ghost use Rattle.rx_results.specs.Agreement.{Agrees};
ghost use Rattle.rx_world.specs.declared.versions.Dialect.TheVariants.{New as new_dialect};
ghost use Rattle.rx_world.specs.declared.commands.Command.{Command};
ghost use Rattle.rx_world.specs.declared.outcomes.Outcome.{Outcome};
ghost use Rattle.rx_world.specs.declared.versions.Dialect.{Dialect};
ghost use Rattle.rx_grpc.specs.Honest.{IsGenuineBy, VouchesBy};
ghost use Rattle.grpc_rows.specs.Recorded.{IsFront, empty_result, recorded};

use crate::callers::{write_fault, write_state};
use rx_base::{Text, digest_of};
use rx_fakes::Script;
use rx_grpc::GrpcCaller;
use rx_rows::{RowFault, Turn};
use rx_world::{Dial, Failed, Link};
use std::alloc::{AllocError, Global};

/// SETTINGS, the header list of an answer, and one message: a state of an execution that is done.
const RECORDED: &[u8; 110] = b"\
    \x00\x00\x00\x04\x00\x00\x00\x00\x00\
    \x00\x00\x01\x01\x04\x00\x00\x00\x01\x88\
    \x00\x00\x52\x00\x00\x00\x00\x00\x01\x00\x00\x00\x00\x4d\
    \x18\x01\x2a\x49\x0a\x43\
    type.googleapis.com/build.bazel.remote.execution.v2.ExecuteResponse\
    \x12\x02\x0a\x00";

/// A connection to it.
#[derive(Drop)]
pub(crate) struct RecordedLink {
    sent: Vec<u8>,
    /// How many bytes were received.
    at: usize,
    ended: bool,
    script: Script,
    ghost within: { at ≤ length recorded },
}

/// What is told over each link.
fn recorded() -> &'static [u8]
    ensures { result.now ≡ recorded }
{
    RECORDED.as_slice()
}

/// Copies as many bytes as are left of what is told, and as there is room for.
fn copy_from(at: usize, into: &mut [u8]) -> usize
    requires { at ≤ length recorded }
    ensures within { at + result ≤ length recorded }
    ensures len { length into.new ≡ length into.old }
    ensures bound { result ≤ length into.old }
    ensures copied { take result into.new ≡ take result (drop at recorded) }
{
    let (_, left) = recorded().split_at(at);
    let count = left.len().min(into.len());
    let (front, _) = left.split_at(count);
    into[..count].copy_from_slice(front);
    count
}

impl Link for RecordedLink {
    ghost wire = { λ l. Some (record { sent = l.sent.items; received = take l.at recorded }) };

    ghost ended = { λ l. l.ended };

    ghost rule = { λ l. IsFront };

    ghost faults = { λ l. l.script.faults };

    fn send(&mut self, piece: &[u8]) -> Result<usize, Failed> {
        match self.sent.extend_from_slice(piece) {
            Ok(()) => Ok(piece.len()),
            Err(_) => Err(self.script.fault()),
        }
    }

    fn receive(&mut self, into: &mut [u8]) -> Result<usize, Failed> {
        let room = into.len();
        let count = copy_from(self.at, into);
        self.at += count;
        self.ended = self.ended || (count == 0 && room != 0);
        Ok(count)
    }
}

/// Makes connections to it.
#[derive(Drop)]
pub(crate) struct RecordedDial {
    alloc: Global,
}

impl Dial for RecordedDial {
    type L = RecordedLink;

    ghost rule = { λ d. IsFront };

    ghost dialect = { new_dialect };

    ghost faults = { λ d. 0 };

    fn dial(&mut self) -> Result<RecordedLink, Failed> {
        Ok(RecordedLink {
            sent: Vec::new(self.alloc),
            at: 0,
            ended: false,
            script: Script::empty(self.alloc),
        })
    }
}

/// A client of that farm. It vouches for each outcome with which the result that is told agrees, and is genuine.
pub(crate) fn recorded_client(alloc: Global) -> Result<GrpcCaller<RecordedDial>, AllocError>
    ensures vouches { IfOk result (λ c. (blob : Digest → List ℕ) (operation : List ℕ → Digest)
        (digest : Digest) (command : Command) (outcome : Outcome)
        → Agrees blob command outcome empty_result
        → VouchesBy ⟦<RecordedDial as Dial>⟧.rule blob operation c digest command outcome) }
    ensures genuine { IfOk result (λ c. (blob : Digest → List ℕ) (operation : List ℕ → Digest)
        (dialect : Dialect) → IsGenuineBy ⟦<RecordedDial as Dial>⟧.rule blob operation dialect c) }
{
    let authority = Vec::from_slice(alloc, b"farm:1")?;
    let instance = Text::copy_of(alloc, "")?;
    let dial = RecordedDial { alloc };
    Ok(GrpcCaller::new(alloc, dial, authority, instance, [7; 32]))
}

/// `recorded`: the first state of an execution on that farm, or the fault of the call.
pub(crate) fn run_recorded(turn: &mut Turn<'_, '_>) {
    match recorded_client(turn.alloc()) {
        Ok(mut client) => hear_recorded(&mut client, turn),
        Err(_) => turn.refuse(RowFault::NoMemory),
    }
}

fn hear_recorded(client: &mut GrpcCaller<RecordedDial>, turn: &mut Turn<'_, '_>) {
    match client.hear_execute(&digest_of(&[]), false) {
        Ok(()) => write_state(&client.hear_operation(), turn),
        Err(fault) => write_fault(&fault, turn),
    }
}
