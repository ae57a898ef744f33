//! What a request asks for, by paths.

ghost use Rattle.std.specs.Prelude.{◌≡◌, IfOk};
ghost use Rattle.rx_session.specs.Jobs.{command_of, declared_of};

use crate::paths_in::{path_in, paths_in};
use crate::requests::Request;
use rx_base::{Items, NoMemory, RelPath, TryClone, sort_paths};
use rx_world::Command;
use std::alloc::Global;

/// The command of a request. Its outputs are sorted by their bytes, each once.
#[tactic(auto, unfolding(crate::specs::Jobs::command_of))]
pub fn command_for(alloc: Global, request: &Request) -> Result<Command, NoMemory>
    ensures { IfOk result (λ command. command ≡ command_of request.now) }
{
    Ok(Command {
        words: request.words.try_clone(alloc)?,
        environment: request.environment.try_clone(alloc)?,
        working_directory: path_in(alloc, &request.working_directory)?,
        outputs: sort_paths(paths_in(alloc, request.outputs.as_slice())?)?,
        platform: request.platform.try_clone(alloc)?,
        timeout_seconds: request.timeout_seconds,
    })
}

/// The inputs that a request declares, those of the toolchain among them, sorted by their bytes,
/// each once.
#[tactic(auto, unfolding(crate::specs::Jobs::declared_of))]
pub fn declared_inputs(alloc: Global, request: &Request) -> Result<Items<RelPath>, NoMemory>
    ensures { IfOk result (λ paths. paths ≡ declared_of request.now) }
{
    let mut paths = paths_in(alloc, request.inputs.as_slice())?.into_vec();
    let mut more = paths_in(alloc, request.toolchain_inputs.as_slice())?.into_vec();
    paths.append(&mut more)?;
    sort_paths(Items::from_vec(paths))
}
