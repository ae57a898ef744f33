//! Why a client has no next state of an execution.

ghost use Rattle.std.specs.Prelude.{◌≡◌};
ghost use Rattle.rx_exec_messages.specs.StateFaults.{call_fault};

use rx_world::CallFault;

/// Why a client has no next state of an execution: the call failed, or the execution did.
#[derive(Clone, Copy, Debug, PartialEq, Eq)]
pub enum StateFault {
    /// The stream of states failed. The execution may go on, so it may be waited for.
    Stream(CallFault),
    /// An operation that is done told that the execution failed with this status
    /// (`google.rpc.Code`), which isn't 0. It never changes, so a wait would hear the same.
    Over(u32),
}

impl StateFault {
    /// The fault as it is counted and listed: an execution that is over failed with its status.
    pub fn call_fault(self) -> CallFault
        ensures { result ≡ call_fault self }
    {
        match self {
            StateFault::Stream(fault) => fault,
            StateFault::Over(code) => CallFault::Status(code),
        }
    }
}
