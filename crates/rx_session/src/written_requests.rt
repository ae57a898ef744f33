//! The message of a request.

ghost use Rattle.std.specs.Prelude.{◌≡◌, IfOk};
ghost use Rattle.rx_session.specs.RequestMessages.{request_kind_number, request_message, strategy_number};

use crate::raw_request::{Lists, RawRequest, Texts};
use crate::requests::Request;
use crate::rules::{COMPILE, LOCAL, RACING, REMOTE, REMOTE_LOCAL_FALLBACK, TOOL, VERSION};
use rx_base::{NoMemory, TryClone};
use rx_world::{Kind, Strategy};
use std::alloc::Global;

fn strategy_number(strategy: Strategy) -> u64
    ensures { result ≡ strategy_number strategy }
{
    match strategy {
        Strategy::Local => LOCAL,
        Strategy::Remote => REMOTE,
        Strategy::RemoteLocalFallback => REMOTE_LOCAL_FALLBACK,
        Strategy::Racing => RACING,
    }
}

fn kind_number(kind: Kind) -> u64
    ensures { result ≡ request_kind_number kind }
{
    match kind {
        Kind::Tool => TOOL,
        Kind::Compile => COMPILE,
    }
}

fn texts_of(alloc: Global, request: &Request) -> Result<Texts, NoMemory>
    ensures root { IfOk result (λ x. x.root ≡ request.now.root) }
    ensures directory { IfOk result (λ x. x.working_directory ≡ request.now.working_directory) }
{
    Ok(Texts {
        root: request.root.try_clone(alloc)?,
        working_directory: request.working_directory.try_clone(alloc)?,
    })
}

fn lists_of(alloc: Global, request: &Request) -> Result<Lists, NoMemory>
    ensures words { IfOk result (λ x. x.words ≡ request.now.words) }
    ensures inputs { IfOk result (λ x. x.inputs ≡ request.now.inputs) }
    ensures toolchain { IfOk result (λ x. x.toolchain_inputs ≡ request.now.toolchain_inputs) }
    ensures outputs { IfOk result (λ x. x.outputs ≡ request.now.outputs) }
{
    Ok(Lists {
        words: request.words.try_clone(alloc)?,
        inputs: request.inputs.try_clone(alloc)?,
        toolchain_inputs: request.toolchain_inputs.try_clone(alloc)?,
        outputs: request.outputs.try_clone(alloc)?,
    })
}

/// The message of a request.
pub(crate) fn request_message(alloc: Global, request: &Request) -> Result<RawRequest, NoMemory>
    ensures { IfOk result (λ message. message ≡ request_message request.now) }
{
    let texts = texts_of(alloc, request)?;
    let lists = lists_of(alloc, request)?;
    let environment = request.environment.try_clone(alloc)?;
    let platform = request.platform.try_clone(alloc)?;
    Ok(RawRequest {
        version: VERSION,
        root: texts.root,
        words: lists.words,
        environment,
        working_directory: texts.working_directory,
        strategy: strategy_number(request.strategy),
        kind: kind_number(request.kind),
        inputs: lists.inputs,
        toolchain_inputs: lists.toolchain_inputs,
        outputs: lists.outputs,
        platform,
        accept_cached: u64::from(request.accept_cached),
        watch: u64::from(request.watch),
        timeout_seconds: u64::from(request.timeout_seconds),
        in_place: u64::from(request.in_place),
    })
}
