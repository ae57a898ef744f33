//! Which frames are requests, and what those ask for.

use crate::arguments::read_frame;
use crate::streams::read_script;
use rx_base::{RelPath, Text};
use rx_fakes::{MemorySource, Script};
use rx_rows::{RowFault, Turn};
use rx_session::{
    Incoming, Request, SHUTDOWN, SHUTDOWN_DONE, SessionFault, command_for, declared_inputs,
    read_incoming,
};
use rx_world::{Command, Pair};
use std::alloc::Global;

/// Reads a frame of the root `/r`, from a source that gives one byte a call. What was read takes the
/// place of what stood in `all`.
fn read(
    alloc: Global,
    frame: Vec<u8>,
    script: Script,
    all: &mut Vec<u8>,
) -> Result<Incoming, SessionFault> {
    let mut source = MemorySource::new(frame, script);
    source.most = 1;
    read_incoming(alloc, &mut source, "/r", all)
}

/// The request that the frame of the next words is.
fn asked(turn: &mut Turn<'_, '_>) -> Option<Request> {
    let alloc = turn.alloc();
    let frame = read_frame(turn);
    let mut all = Vec::new(alloc);
    match read(alloc, frame, Script::empty(alloc), &mut all) {
        Ok(Incoming::Request(request)) => Some(request),
        Ok(Incoming::Shutdown) | Err(_) => {
            turn.refuse(RowFault::BadCall);
            None
        }
    }
}

/// `request FAILS FRAME`: how many bytes were read, and the request, `Shutdown` or the fault.
pub(crate) fn answer_request(turn: &mut Turn<'_, '_>) {
    let alloc = turn.alloc();
    let script = read_script(turn);
    let frame = read_frame(turn);
    let mut all = Vec::new(alloc);
    let incoming = read(alloc, frame, script, &mut all);
    write_incoming(all.len(), &incoming, turn);
}

fn write_incoming(read: usize, incoming: &Result<Incoming, SessionFault>, turn: &mut Turn<'_, '_>) {
    turn.write_number(read as u64);
    match incoming {
        Ok(Incoming::Request(request)) => write_request(request, turn),
        Ok(Incoming::Shutdown) => turn.write_word("Shutdown"),
        Err(fault) => write_fault(fault, turn),
    }
}

/// `taken FRAME`: the bytes that were read.
pub(crate) fn answer_taken(turn: &mut Turn<'_, '_>) {
    let frame = read_frame(turn);
    match Vec::from_slice(turn.alloc(), b"before") {
        Ok(all) => write_taken(frame, all, turn),
        Err(_) => turn.refuse(RowFault::NoMemory),
    }
}

fn write_taken(frame: Vec<u8>, all: Vec<u8>, turn: &mut Turn<'_, '_>) {
    let mut all = all;
    let is_ok = is_read(turn.alloc(), frame, &mut all);
    turn.write_value(&is_ok);
    turn.write_bytes(&all);
}

/// Reads a frame. Whether it is a request or a Shutdown.
fn is_read(alloc: Global, frame: Vec<u8>, all: &mut Vec<u8>) -> bool {
    read(alloc, frame, Script::empty(alloc), all).is_ok()
}

/// `shutdown`: the frame that asks the proxy to end, and the one that answers it.
pub(crate) fn answer_shutdown(turn: &mut Turn<'_, '_>) {
    turn.write_bytes(&SHUTDOWN);
    turn.write_bytes(&SHUTDOWN_DONE);
}

/// `command FRAME`: the command of a request.
pub(crate) fn answer_command(turn: &mut Turn<'_, '_>) {
    if let Some(request) = asked(turn) {
        make_command(&request, turn);
    }
}

fn make_command(request: &Request, turn: &mut Turn<'_, '_>) {
    match command_for(turn.alloc(), request) {
        Ok(command) => write_command(&command, turn),
        Err(_) => turn.refuse(RowFault::NoMemory),
    }
}

fn write_command(command: &Command, turn: &mut Turn<'_, '_>) {
    write_texts("words", command.words.as_slice(), turn);
    write_pairs("environment", command.environment.as_slice(), turn);
    turn.write_word("directory");
    turn.write_text(command.working_directory.as_str().as_bytes());
    turn.write_word("outputs");
    write_paths(command.outputs.as_slice(), turn);
    write_pairs("platform", command.platform.as_slice(), turn);
    write_seconds(command.timeout_seconds, turn);
}

/// `inputs FRAME`: the declared inputs of a request.
pub(crate) fn answer_inputs(turn: &mut Turn<'_, '_>) {
    if let Some(request) = asked(turn) {
        make_inputs(&request, turn);
    }
}

fn make_inputs(request: &Request, turn: &mut Turn<'_, '_>) {
    match declared_inputs(turn.alloc(), request) {
        Ok(inputs) => write_paths(inputs.as_slice(), turn),
        Err(_) => turn.refuse(RowFault::NoMemory),
    }
}

/// `written FRAME`: the payload that is written for the request of a frame, and the request in it.
pub(crate) fn answer_written(turn: &mut Turn<'_, '_>) {
    if let Some(request) = asked(turn) {
        make_payload(&request, turn);
    }
}

fn make_payload(request: &Request, turn: &mut Turn<'_, '_>) {
    match request.encode(turn.alloc()) {
        Ok(payload) => write_payload(&payload, turn),
        Err(_) => turn.refuse(RowFault::NoMemory),
    }
}

/// A payload, and the request in it.
fn write_payload(payload: &[u8], turn: &mut Turn<'_, '_>) {
    turn.write_bytes(payload);
    write_decoded(payload, turn);
}

/// `payload PAYLOAD`: the request in a payload, or the fault.
pub(crate) fn answer_payload(turn: &mut Turn<'_, '_>) {
    let payload = read_frame(turn);
    write_decoded(&payload, turn);
}

/// The request in a payload, or the fault.
fn write_decoded(payload: &[u8], turn: &mut Turn<'_, '_>) {
    let decoded = Request::decode(turn.alloc(), payload, "/r");
    write_result(&decoded, turn);
}

fn write_result(decoded: &Result<Request, SessionFault>, turn: &mut Turn<'_, '_>) {
    match decoded {
        Ok(request) => write_request(request, turn),
        Err(fault) => write_fault(fault, turn),
    }
}

/// The fields of a request that aren't empty.
fn write_request(request: &Request, turn: &mut Turn<'_, '_>) {
    turn.write_word("root");
    turn.write_text(request.root.as_str().as_bytes());
    write_texts("words", request.words.as_slice(), turn);
    write_pairs("environment", request.environment.as_slice(), turn);
    turn.write_word("directory");
    turn.write_text(request.working_directory.as_str().as_bytes());
    turn.write_value(&request.strategy);
    turn.write_value(&request.kind);
    write_texts("inputs", request.inputs.as_slice(), turn);
    write_texts("toolchain", request.toolchain_inputs.as_slice(), turn);
    write_texts("outputs", request.outputs.as_slice(), turn);
    write_pairs("platform", request.platform.as_slice(), turn);
    write_flag("accept_cached", request.accept_cached, turn);
    write_flag("watch", request.watch, turn);
    write_seconds(request.timeout_seconds, turn);
    write_flag("in_place", request.in_place, turn);
}

fn write_fault(fault: &SessionFault, turn: &mut Turn<'_, '_>) {
    match fault {
        SessionFault::Bad(bad) => {
            turn.write_value(&bad.reason);
            turn.write_number(bad.value);
        }
        SessionFault::ReadFault => turn.write_word("ReadFault"),
        SessionFault::NoMemory => turn.write_word("NoMemory"),
    }
}

fn write_texts(name: &str, texts: &[Text], turn: &mut Turn<'_, '_>) {
    if texts.is_empty() {
        return;
    }
    turn.write_word(name);
    for text in texts {
        turn.write_text(text.as_str().as_bytes());
    }
}

fn write_pairs(name: &str, pairs: &[Pair], turn: &mut Turn<'_, '_>) {
    if pairs.is_empty() {
        return;
    }
    turn.write_word(name);
    for pair in pairs {
        turn.write_text(pair.name.as_str().as_bytes());
        turn.write_text(pair.value.as_str().as_bytes());
    }
}

fn write_paths(paths: &[RelPath], turn: &mut Turn<'_, '_>) {
    if paths.is_empty() {
        turn.write_word("none");
    }
    for path in paths {
        turn.write_text(path.as_str().as_bytes());
    }
}

fn write_flag(name: &str, is_set: bool, turn: &mut Turn<'_, '_>) {
    if is_set {
        turn.write_word(name);
    }
}

fn write_seconds(seconds: u32, turn: &mut Turn<'_, '_>) {
    if seconds > 0 {
        turn.write_named("timeout", u64::from(seconds));
    }
}
