//! Actions are run, and their operations told (`remote_execution.proto`, Execute and WaitExecution).

ghost use Rattle.std.specs.Prelude.{◌≡◌, IfOk, None, OnErr, OnOk, true};
ghost use Rattle.std.specs.Option.{is_some};
ghost use Rattle.rx_toyfarm.specs.declared.execution.Begun.TheVariants.{Executed as executed, Waited as waited};

use crate::execution::{Begun, Execution};
use crate::farm::ToyFarm;
use crate::jobs::job_of;
use crate::names::{name_of, read_name};
use crate::results::{Kept, result_of};
use crate::store::Store;
use rx_base::{Bytes, Digest, NoMemory, Text};
use rx_exec_messages::{ExecuteResponse, Operation, StateFault};
use rx_messages::Message;
use rx_world::{CallFault, toy_run};

/// NOT_FOUND (`google/rpc/code.proto`): no action of that name was run.
const NOT_FOUND: u32 = 5;

impl ToyFarm {
    /// Begins an execution: the action is run at once, unless its result may be answered from the action cache, or a
    /// mishap befalls it.
    pub(crate) fn begin(&mut self, action: &Digest, skip_cache: bool) -> Result<(), CallFault>
        ensures begun { OnOk result (self.new.begun ≡ executed action.now) }
        ensures streaming { OnOk result (is_some self.new.execution ≡ true) }
        ensures says { self.new.says ≡ self.old.says }
        ensures faults { self.new.faults ≡ self.old.faults }
    {
        if let Some(mishap) = self.mishap.take() {
            if mishap.loses_blobs {
                self.store = Store::new(self.alloc);
            }
            self.begun = Begun::Executed(*action);
            self.execution = Some(Execution {
                action: *action,
                is_cached: false,
                is_ending: false,
                failed: Some(mishap.code),
            });
            return Ok(());
        }
        let is_cached = !skip_cache && self.has_cached(action);
        if !is_cached {
            self.run(*action)?;
        }
        self.begun = Begun::Executed(*action);
        self.execution = Some(Execution {
            action: *action,
            is_cached,
            is_ending: is_cached,
            failed: None,
        });
        Ok(())
    }

    /// Whether the action cache has a result.
    fn has_cached(&self, action: &Digest) -> bool {
        match self.results.get(action) {
            Some(kept) => kept.is_cached,
            None => false,
        }
    }

    /// Runs an action and keeps its result.
    fn run(&mut self, action: Digest) -> Result<(), CallFault>
        ensures says { self.new.says ≡ self.old.says }
        ensures faults { self.new.faults ≡ self.old.faults }
    {
        let job = job_of(self.alloc, &self.store, action, self.says.dialect())?;
        let Ok(outcome) = toy_run(self.alloc, &job.command, &job.tree) else {
            return Err(CallFault::NoMemory);
        };
        let Ok(result) = result_of(self.alloc, &mut self.store, job.paths, outcome) else {
            return Err(CallFault::NoMemory);
        };
        let Ok(bytes) = result.encode(self.alloc) else {
            return Err(CallFault::NoMemory);
        };
        let kept = Kept {
            bytes: Bytes::from_vec(bytes),
            is_cached: job.may_keep,
        };
        match self.results.insert(action, kept) {
            Ok(_) => Ok(()),
            Err(_) => Err(CallFault::NoMemory),
        }
    }

    /// Waits for the execution of a name.
    pub(crate) fn resume(&mut self, name: &str) -> Result<(), CallFault>
        ensures begun { OnOk result (self.new.begun ≡ waited name.now) }
        ensures streaming { OnOk result (is_some self.new.execution ≡ true) }
        ensures says { self.new.says ≡ self.old.says }
        ensures faults { self.new.faults ≡ self.old.faults }
    {
        let Some(action) = read_name(name) else {
            return Err(CallFault::Status(NOT_FOUND));
        };
        if !self.results.contains_key(&action) {
            return Err(CallFault::Status(NOT_FOUND));
        }
        let Ok(name) = Text::copy_of(self.alloc, name) else {
            return Err(CallFault::NoMemory);
        };
        self.begun = Begun::Waited(name);
        self.execution = Some(Execution {
            action,
            is_cached: false,
            is_ending: true,
            failed: None,
        });
        Ok(())
    }

    /// The next state of the execution: first one that isn't done, unless the end is known by then, and then the end.
    pub(crate) fn go_on(&mut self) -> Result<Operation, StateFault>
        ensures streaming { IfOk result (λ operation.
            operation.done ≡ None → is_some self.new.execution ≡ true) }
        ensures begun { self.new.begun ≡ self.old.begun }
        ensures says { self.new.says ≡ self.old.says }
        ensures faults { self.new.faults ≡ self.old.faults }
    {
        let Some(execution) = self.execution else {
            return Err(StateFault::Stream(CallFault::Cut));
        };
        let Ok(name) = name_of(self.alloc, &execution.action) else {
            return Err(StateFault::Stream(CallFault::NoMemory));
        };
        if !execution.is_ending {
            self.execution = Some(Execution {
                is_ending: true,
                ..execution
            });
            return Ok(Operation { name, done: None });
        }
        self.execution = None;
        let response = self.response_of(execution)?;
        Ok(Operation {
            name,
            done: Some(response),
        })
    }

    /// How an execution ended.
    fn response_of(&self, execution: Execution) -> Result<ExecuteResponse, StateFault> {
        if let Some(code) = execution.failed {
            return Err(StateFault::Over(code));
        }
        let Some(kept) = self.results.get(&execution.action) else {
            return Err(StateFault::Stream(CallFault::Status(NOT_FOUND)));
        };
        let result = match kept.read(self.alloc) {
            Ok(result) => result,
            Err(fault) => return Err(StateFault::Stream(fault)),
        };
        Ok(ExecuteResponse {
            result: Some(result),
            cached_result: execution.is_cached,
            status: None,
            message: Text::new(self.alloc),
        })
    }
}
