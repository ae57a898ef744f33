//! What a farm says of itself, and of an execution.

ghost use Rattle.std.specs.Prelude.{◌≡◌};
ghost use Rattle.rx_exec_messages.specs.Dialects.{dialect_of, is_old};

use crate::ExecuteResponse;
use rx_base::Text;
use rx_world::{Dialect, SemVer};

/// What a farm says of itself (`remote_execution.proto`, ServerCapabilities).
#[derive(Clone, Copy, Debug, PartialEq, Eq)]
pub struct Capabilities {
    /// The most bytes of one batch of blobs (`max_batch_total_size_bytes`), or 0 where it says none.
    pub most: u64,
    /// The lowest version of the API that it serves (`low_api_version`).
    pub low: Option<SemVer>,
    /// The highest version of the API that it serves (`high_api_version`).
    pub high: Option<SemVer>,
}

impl Capabilities {
    /// Where the farm looks for the outputs of a Command. `output_paths` came with version 2.1.
    pub fn dialect(&self) -> Dialect
        ensures { result ≡ dialect_of self.now.low self.now.high }
    {
        match (self.low, self.high) {
            (Some(_), Some(high)) => {
                if is_old(high) {
                    return Dialect::Old;
                }
                Dialect::New
            }
            _ => Dialect::New,
        }
    }
}

/// Whether the version is 2.0, whatever its patch.
fn is_old(high: SemVer) -> bool
    ensures { result ≡ is_old high }
{
    high.major == 2 && high.minor == 0
}

/// A state of an execution (`google.longrunning.Operation`). An empty name is none.
#[derive(Debug, Drop)]
pub struct Operation {
    pub name: Text,
    /// How the execution ended, once it has.
    pub done: Option<ExecuteResponse>,
}
