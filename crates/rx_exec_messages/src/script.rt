//! A farm's client in memory, which answers line by line.

ghost use Rattle.std.specs.Prelude.{◌≡◌, ◌++◌, ◌∷◌, [], Some, true};
ghost use Rattle.rx_exec_messages.specs.Scripts.{IsGenuine, Vouches, running_of};
ghost use Rattle.rx_exec_messages.specs.Tellings.{exchange_of};

use crate::script_lines::Running;
use crate::script_state::ScriptState;
use crate::told::{Call, Told};
use crate::trace::Trace;
use crate::{Ask, Caller, Capabilities, NamedBlob, Operation, ScriptLine, StateFault};
use rx_base::{Bytes, Digest, Items, digest_of};
use rx_messages::ActionResult;
use rx_world::{CallFault, Dialect, World};
use std::alloc::Global;
use std::collections::VecDeque;
use std::snapshot::Snapshot;

/// A farm's client in memory. Each call takes the next line: its answer, or the fault that stands
/// there. A line that doesn't fit its call ends the script, and behind the last line each call is a
/// counted Link fault. Where memory is wanting to keep what is asked, no line is taken, and the call
/// answers NoMemory, which isn't counted.
///
/// It tells all its calls with their answers. It is genuine where its lines are: each blob is the
/// world's and has its digest, each name of an operation is empty or belongs to what runs when the line
/// is answered, and all versions are those of its farm. At each digest it vouches for the outcomes
/// with which each result of its lines agrees.
#[derive(Drop)]
pub struct Script {
    pub(crate) state: ScriptState,
    pub(crate) told: Trace<Told>,
}

impl Script {
    /// A client of which no call was made, over these lines, of a farm that looks for the outputs of a
    /// Command as `dialect` says. Before the first execution the action of no bytes runs.
    pub fn new(alloc: Global, lines: Vec<ScriptLine>, dialect: Dialect) -> Script
        ensures told { result.told ≡ [] }
        ensures lines { result.state.lines.items ≡ lines.items }
        ensures dialect { result.state.dialect ≡ dialect }
        ensures faults { result.state.faults ≡ 0 }
    {
        Script {
            state: ScriptState {
                alloc,
                lines: VecDeque::from_vec(lines),
                dialect,
                running: Running::Action(digest_of(&[])),
                is_streaming: false,
                asks: Items::new(alloc),
                faults: 0,
            },
            told: Trace::new(),
        }
    }

    /// What was asked, in order; a call for which memory was wanting isn't there.
    pub fn asks(&self) -> &[Ask]
        ensures { result.now ≡ self.now.state.asks }
    {
        self.state.asks.as_slice()
    }

    /// How often a call failed.
    pub fn faults(&self) -> u64
        ensures { result ≡ self.now.state.faults }
    {
        self.state.faults
    }

    /// Keeps a call with its answer.
    fn tell(&mut self, call: Call)
        ensures told { self.new.told ≡ self.old.told ++ exchange_of call ∷ [] }
        ensures state { self.new.state ≡ self.old.state }
    {
        self.told.push(&Told { call });
    }
}

impl<W: World> Caller<W> for Script {
    ghost conversation = { λ s. Some s.told };

    ghost vouches = { λ s. Vouches W.blob s.state };

    ghost genuine = { λ s. IsGenuine W.blob W.operation s.state };

    ghost dialect = { λ s. s.state.dialect };

    ghost running = { λ s. running_of W.operation s.state };

    ghost streaming = { λ s. s.state.is_streaming ≡ true };

    ghost faults = { λ s. s.state.faults };

    fn capabilities(&mut self) -> Result<Capabilities, CallFault> {
        let answer = self.state.capabilities::<W>();
        self.tell(Call::Capabilities {
            answer: Snapshot::of(&answer),
        });
        answer
    }

    fn get_result(&mut self, action: &Digest) -> Result<Option<ActionResult>, CallFault> {
        let answer = self.state.get_result::<W>(action);
        self.tell(Call::GetResult {
            action: *action,
            answer: Snapshot::of(&answer),
        });
        answer
    }

    fn find_missing(&mut self, digests: &[Digest]) -> Result<Items<Digest>, CallFault> {
        let answer = self.state.find_missing::<W>(digests);
        self.tell(Call::FindMissing {
            digests: Trace::of(digests),
            answer: Snapshot::of(&answer),
        });
        answer
    }

    fn update(&mut self, blobs: &[NamedBlob]) -> Result<(), CallFault> {
        let answer = self.state.update::<W>(blobs);
        self.tell(Call::Update {
            blobs: Trace::of(blobs),
            answer: Snapshot::of(&answer),
        });
        answer
    }

    fn read(&mut self, digests: &[Digest]) -> Result<Items<Bytes>, CallFault> {
        let answer = self.state.read::<W>(digests);
        self.tell(Call::Read {
            digests: Trace::of(digests),
            answer: Snapshot::of(&answer),
        });
        answer
    }

    fn write_stream(&mut self, digest: &Digest, bytes: &[u8]) -> Result<(), CallFault> {
        let answer = self.state.write_stream::<W>(digest);
        self.tell(Call::WriteStream {
            digest: *digest,
            bytes: Trace::of(bytes),
            answer: Snapshot::of(&answer),
        });
        answer
    }

    fn read_stream(&mut self, digest: &Digest) -> Result<Bytes, CallFault> {
        let answer = self.state.read_stream::<W>(digest);
        self.tell(Call::ReadStream {
            digest: *digest,
            answer: Snapshot::of(&answer),
        });
        answer
    }

    fn execute(&mut self, action: &Digest, skip_cache: bool) -> Result<(), CallFault> {
        let answer = self.state.execute::<W>(action, skip_cache);
        self.tell(Call::Execute {
            action: *action,
            skip_cache,
            answer: Snapshot::of(&answer),
        });
        answer
    }

    fn wait(&mut self, name: &str) -> Result<(), CallFault> {
        let answer = self.state.wait::<W>(name);
        self.tell(Call::Wait {
            name: Trace::of(name.as_bytes()),
            answer: Snapshot::of(&answer),
        });
        answer
    }

    fn next_operation(&mut self) -> Result<Operation, StateFault> {
        let answer = self.state.next_operation::<W>();
        self.tell(Call::NextOperation {
            answer: Snapshot::of(&answer),
        });
        answer
    }
}
