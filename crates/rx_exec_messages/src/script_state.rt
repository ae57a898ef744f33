//! What a script has left to answer, and the faults of calls that no line serves.

ghost use Rattle.std.specs.Prelude.{◌≡◌, IfErr};
ghost use Rattle.rx_world.specs.declared.call_faults.CallFault.TheVariants.{NoMemory as no_memory};
ghost use Rattle.rx_exec_messages.specs.Calls.{RefusesOneOf};
ghost use Rattle.rx_exec_messages.specs.Scripts.{IsCounted, IsLeft, left_by};

use crate::script_answers::may_answer;
use crate::script_lines::Running;
use crate::{Ask, ScriptLine};
use rx_base::{Digest, Items, NoMemory};
use rx_world::{CallFault, Dialect};
use std::alloc::Global;
use std::collections::VecDeque;

/// The lines that are left, what was asked, and how often a call failed; the count stops at the end of
/// 64 bits. Each call first keeps what it asks: where memory is wanting for that, it answers NoMemory,
/// and no line is spent.
#[derive(Drop)]
pub(crate) struct ScriptState {
    pub(crate) alloc: Global,
    pub(crate) lines: VecDeque<ScriptLine>,
    pub(crate) dialect: Dialect,
    pub(crate) running: Running,
    pub(crate) is_streaming: bool,
    pub(crate) asks: Items<Ask>,
    pub(crate) faults: u64,
}

impl ScriptState {
    /// Counts a fault, unless it is want of memory.
    pub(crate) fn count(&mut self, fault: CallFault) -> CallFault
        ensures fault { result ≡ fault }
        ensures counted { IsCounted self.old.faults self.new.faults fault }
        ensures rest { self.new ≡ record self.old { faults = self.new.faults } }
    {
        if fault != CallFault::NoMemory {
            self.faults = self.faults.saturating_add(1);
        }
        fault
    }

    /// The fault that a call is answered which a line doesn't serve. Unless the line is a fault itself,
    /// the script has ended.
    pub(crate) fn fail(&mut self, line: Option<ScriptLine>) -> CallFault
        ensures counted { IsCounted self.old.faults self.new.faults result }
        ensures lines { self.new.lines.items ≡ left_by line self.old.lines.items }
        ensures dialect { self.new.dialect ≡ self.old.dialect }
        ensures running { self.new.running ≡ self.old.running }
        ensures streaming { self.new.is_streaming ≡ self.old.is_streaming }
    {
        if let Some(ScriptLine::Fault(fault)) = line {
            return self.count(fault);
        }
        self.lines = VecDeque::new(self.alloc);
        self.count(CallFault::Link)
    }

    /// The fault that a call on these blobs is answered which a line doesn't serve. A refusal of
    /// another blob doesn't fit it.
    pub(crate) fn refuse(&mut self, line: Option<ScriptLine>, digests: &[Digest]) -> CallFault
        ensures asked { RefusesOneOf digests.now result }
        ensures counted { IsCounted self.old.faults self.new.faults result }
        ensures lines { IsLeft line self.old.lines.items self.new.lines.items }
        ensures dialect { self.new.dialect ≡ self.old.dialect }
        ensures running { self.new.running ≡ self.old.running }
        ensures streaming { self.new.is_streaming ≡ self.old.is_streaming }
    {
        let fault = self.fail(line);
        if may_answer(fault, digests) {
            return fault;
        }
        self.lines = VecDeque::new(self.alloc);
        CallFault::Link
    }

    /// Keeps an ask.
    pub(crate) fn keep(&mut self, ask: Result<Ask, NoMemory>) -> Result<(), CallFault>
        ensures fault { IfErr result (λ fault. fault ≡ no_memory) }
        ensures rest { self.new ≡ record self.old { asks = self.new.asks } }
    {
        let Ok(ask) = ask else {
            return Err(CallFault::NoMemory);
        };
        self.asks.push(ask).map_err(|_| CallFault::NoMemory)
    }
}
