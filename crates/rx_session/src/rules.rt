//! Each field's own rule, and which request a message is.

ghost use Rattle.std.specs.Prelude.{◌≡◌, ◌<◌, ◌^◌, IfErr, IfOk, OnOk};
ghost use Rattle.rx_session.specs.Bad.{Decodes};
ghost use Rattle.rx_session.specs.Streams.{IsNoCut};
ghost use Rattle.rx_session.specs.Rules.{bad_field, bad_last_field, bad_path_field, kind_of, path_in, request_by, request_from, strategy_of};

use crate::bad::{BadReason, SessionFault, refuse};
use crate::field_rules::{environment_holds, is_within, platform_holds, words_hold};
use crate::fields::request;
use crate::output_rules::outputs_stand;
use crate::paths_in::{read_directory, read_paths};
use crate::raw_request::RawRequest;
use crate::requests::Request;
use rx_base::{NoMemory, RelPath};
use rx_world::{Kind, Strategy};
use std::alloc::Global;

/// The only version of the protocol.
pub(crate) const VERSION: u64 = 1;

/// The number of each strategy.
pub(crate) const LOCAL: u64 = 1;

pub(crate) const REMOTE: u64 = 2;

pub(crate) const REMOTE_LOCAL_FALLBACK: u64 = 3;

pub(crate) const RACING: u64 = 4;

/// The number of each kind.
pub(crate) const TOOL: u64 = 1;

pub(crate) const COMPILE: u64 = 2;

/// The longest timeout: 2^32 - 1 seconds.
const MAX_TIMEOUT_SECONDS: u64 = 4_294_967_295;

/// The request that a message is, of the served root.
pub(crate) fn request_by(
    alloc: Global,
    root: &str,
    raw: RawRequest,
) -> Result<Request, SessionFault>
    ensures request { Decodes (λ request. request) result (request_by root.now raw) }
    ensures other { IfErr result IsNoCut }
{
    refuse_unfit(alloc, root, &raw)?;
    Ok(request_from(raw))
}

/// Refuses a message that is no request of the served root.
#[tactic(auto, unfolding(crate::specs::Rules::request_by))]
fn refuse_unfit(alloc: Global, root: &str, raw: &RawRequest) -> Result<(), SessionFault>
    ensures request { Decodes (λ _. request_from raw.now) result (request_by root.now raw.now) }
    ensures timeout { OnOk result (raw.now.timeout_seconds < 2 ^ 32) }
    ensures other { IfErr result IsNoCut }
{
    if raw.version != VERSION {
        return refuse(BadReason::UnknownVersion, raw.version);
    }
    if raw.root.as_str() != root {
        return refuse(BadReason::WrongRoot, 0);
    }
    match bad_field(alloc, raw)? {
        Some(number) => refuse(BadReason::BadField, u64::from(number)),
        None => Ok(()),
    }
}

/// The least field that breaks its rule.
#[tactic(auto, unfolding(crate::specs::Rules::bad_field))]
fn bad_field(alloc: Global, raw: &RawRequest) -> Result<Option<u32>, NoMemory>
    ensures { IfOk result (λ number. number ≡ bad_field raw.now) }
{
    if !words_hold(raw.words.as_slice()) {
        return Ok(Some(request::WORDS));
    }
    if !environment_holds(alloc, raw.environment.as_slice())? {
        return Ok(Some(request::ENVIRONMENT));
    }
    let Some(directory) = read_directory(alloc, &raw.working_directory)? else {
        return Ok(Some(request::WORKING_DIRECTORY));
    };
    if !is_within(LOCAL, RACING, raw.strategy) {
        return Ok(Some(request::STRATEGY));
    }
    if !is_within(TOOL, COMPILE, raw.kind) {
        return Ok(Some(request::KIND));
    }
    bad_path_field(alloc, raw, &directory)
}

/// The least field from 8 on that breaks its rule.
#[tactic(auto, unfolding(crate::specs::Rules::outputs_hold))]
fn bad_path_field(
    alloc: Global,
    raw: &RawRequest,
    directory: &RelPath,
) -> Result<Option<u32>, NoMemory>
    requires { directory.now ≡ path_in raw.now.working_directory }
    ensures { IfOk result (λ number. number ≡ bad_path_field raw.now) }
{
    let Some(inputs) = read_paths(alloc, raw.inputs.as_slice())? else {
        return Ok(Some(request::INPUTS));
    };
    let Some(toolchain) = read_paths(alloc, raw.toolchain_inputs.as_slice())? else {
        return Ok(Some(request::TOOLCHAIN_INPUTS));
    };
    let Some(outputs) = read_paths(alloc, raw.outputs.as_slice())? else {
        return Ok(Some(request::OUTPUTS));
    };
    if !outputs_stand(directory, inputs.as_slice(), toolchain.as_slice(), outputs)? {
        return Ok(Some(request::OUTPUTS));
    }
    Ok(bad_last_field(raw))
}

/// The least field from 11 on that breaks its rule.
#[tactic(auto, unfolding(crate::specs::Rules::bad_last_field))]
fn bad_last_field(raw: &RawRequest) -> Option<u32>
    ensures { result ≡ bad_last_field raw.now }
{
    if !platform_holds(raw.platform.as_slice()) {
        return Some(request::PLATFORM);
    }
    if !is_within(0, 1, raw.accept_cached) {
        return Some(request::ACCEPT_CACHED);
    }
    if !is_within(0, 1, raw.watch) {
        return Some(request::WATCH);
    }
    if !is_within(0, MAX_TIMEOUT_SECONDS, raw.timeout_seconds) {
        return Some(request::TIMEOUT_SECONDS);
    }
    if !is_within(0, 1, raw.in_place) {
        return Some(request::IN_PLACE);
    }
    None
}

fn request_from(raw: RawRequest) -> Request
    requires { raw.timeout_seconds < 2 ^ 32 }
    ensures { result ≡ request_from raw }
{
    Request {
        root: raw.root,
        words: raw.words,
        environment: raw.environment,
        working_directory: raw.working_directory,
        strategy: strategy_of(raw.strategy),
        kind: kind_of(raw.kind),
        inputs: raw.inputs,
        toolchain_inputs: raw.toolchain_inputs,
        outputs: raw.outputs,
        platform: raw.platform,
        accept_cached: raw.accept_cached == 1,
        watch: raw.watch == 1,
        timeout_seconds: raw.timeout_seconds as u32,
        in_place: raw.in_place == 1,
    }
}

fn strategy_of(number: u64) -> Strategy
    ensures { result ≡ strategy_of number }
{
    match number {
        LOCAL => Strategy::Local,
        REMOTE => Strategy::Remote,
        REMOTE_LOCAL_FALLBACK => Strategy::RemoteLocalFallback,
        _ => Strategy::Racing,
    }
}

fn kind_of(number: u64) -> Kind
    ensures { result ≡ kind_of number }
{
    match number {
        TOOL => Kind::Tool,
        _ => Kind::Compile,
    }
}
