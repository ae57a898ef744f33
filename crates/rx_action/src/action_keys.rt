//! From a command and the digest of its input root to its action's key.

ghost use Rattle.std.specs.Prelude.{◌≡◌, ◌<◌, ◌^◌, IfErr, IfOk, Ok, length};
ghost use Rattle.rx_base.specs.Results.{Gives};
ghost use Rattle.rx_action.specs.ActionKeys.{action_message, action_of, read_action, timeout_of};
ghost use Rattle.rx_action.specs.Commands.{command_message, read_command};
ghost use Rattle.rx_action.specs.OutputPaths.{AreBelow};
ghost use Rattle.rx_action.specs.declared.action_fault.ActionFault.TheVariants as fault;

use crate::action_fault::ActionFault;
use crate::commands::command_message;
use crate::output_paths::check_outputs;
use rx_base::{Bytes, Digest, digest_of};
use rx_messages::{Action, Duration, Message};
use rx_world::{Command, Dialect};
use std::alloc::Global;

/// What an action is called on a farm, and the two messages behind it.
#[derive(Debug, Drop)]
pub struct ActionKey {
    /// The digest of the Action's bytes.
    pub digest: Digest,
    /// The digest of the Command's bytes.
    pub command_digest: Digest,
    /// The bytes of the Command message.
    pub command_blob: Bytes,
    /// The bytes of the Action message.
    pub action_blob: Bytes,
}

/// The key of a command on an input tree whose root Directory has this digest
/// (`remote_execution.proto`, Action and Command), on a farm of this dialect. The environment and
/// the platform's properties stand by name and then by value, the output paths by their bytes, each
/// once and relative to the working directory; a platform is written only where it has a property,
/// and a timeout where it isn't 0.
#[tactic(auto, unfolding(crate::specs::ActionKeys::action_of))]
pub fn action_of(
    alloc: Global,
    command: &Command,
    root: &Digest,
    dialect: Dialect,
) -> Result<ActionKey, ActionFault>
    ensures key { Gives fault.NoMemory (λ key. key) result
        (action_of command.now root.now dialect) }
    ensures below { AreBelow command.now.working_directory command.now.outputs →
        IfErr result (λ error. error ≡ fault.NoMemory) }
    // Both messages are read again as they were written.
    ensures command { IfOk result (λ key.
        read_command key.command_blob ≡ Ok (command_message command.now dialect)) }
    ensures action { IfOk result (λ key. length key.command_blob < 2 ^ 63 → root.now.size < 2 ^ 63 →
        read_action key.action_blob ≡ Ok (action_message command.now root.now dialect)) }
{
    check_outputs(&command.working_directory, command.outputs.as_slice())?;
    let message = command_message(alloc, command, dialect)?;
    let command_blob = message.encode(alloc)?;
    let command_digest = digest_of(&command_blob);
    let action = Action {
        command_digest: Some(command_digest),
        input_root_digest: Some(*root),
        timeout: timeout_of(command.timeout_seconds),
        do_not_cache: false,
        salt: Bytes::new(alloc),
        platform: message.platform,
    };
    let action_blob = action.encode(alloc)?;
    Ok(ActionKey {
        digest: digest_of(&action_blob),
        command_digest,
        command_blob: Bytes::from_vec(command_blob),
        action_blob: Bytes::from_vec(action_blob),
    })
}

/// A timeout of so many seconds, or none where there are 0.
fn timeout_of(seconds: u32) -> Option<Duration>
    ensures { result ≡ timeout_of seconds }
{
    if seconds == 0 {
        return None;
    }
    Some(Duration {
        seconds: i64::from(seconds),
    })
}
