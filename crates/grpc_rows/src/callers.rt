//! Calls on a farm over links in memory, by the names of `remote_execution.proto`.

use crate::farms::{read_answer, read_refusal};
use rx_base::{Bytes, Digest, Items, Text};
use rx_exec_messages::{Capabilities, NamedBlob, Operation, StateFault};
use rx_fakes::{Ahead, MemoryDial, Script};
use rx_grpc::GrpcCaller;
use rx_messages::ActionResult;
use rx_rows::{RowFault, Turn};
use rx_world::{CallFault, SemVer};
use std::alloc::{AllocError, Global};
use std::collections::VecDeque;

/// How many bytes a call on the link sends or receives at most.
const MOST: usize = 8192;

/// A client, and the links of the next one.
#[derive(Drop)]
pub(crate) struct Callers {
    pub(crate) alloc: Global,
    pub(crate) ahead: VecDeque<Ahead>,
    pub(crate) caller: Option<GrpcCaller<MemoryDial>>,
}

/// `BYTE SIZE`: the digest whose hash is that byte 32 times.
fn read_digest(turn: &mut Turn<'_, '_>) -> Digest {
    let byte = read_byte(turn);
    let size = turn.read_number();
    Digest {
        hash: [byte; 32],
        size,
    }
}

fn read_byte(turn: &mut Turn<'_, '_>) -> u8 {
    match u8::try_from(turn.read_number()) {
        Ok(byte) => byte,
        Err(_) => {
            turn.refuse(RowFault::BadNumber);
            0
        }
    }
}

/// `anew` where it is left: whether the action cache isn't to answer.
fn read_anew(turn: &mut Turn<'_, '_>) -> bool {
    !turn.is_done() && turn.read_word() == "anew"
}

/// The digests that are left.
fn read_digests(turn: &mut Turn<'_, '_>) -> Vec<Digest> {
    let mut digests = Vec::new(turn.alloc());
    for _ in 0..u32::MAX {
        if turn.is_done() {
            break;
        }
        if digests.push(read_digest(turn)).is_err() {
            turn.refuse(RowFault::NoMemory);
        }
    }
    digests
}

/// The blobs that are left, each a digest and its bytes.
fn read_blobs(turn: &mut Turn<'_, '_>) -> Vec<NamedBlob> {
    let mut blobs = Vec::new(turn.alloc());
    for _ in 0..u32::MAX {
        if turn.is_done() {
            break;
        }
        if blobs.push(read_blob(turn)).is_err() {
            turn.refuse(RowFault::NoMemory);
        }
    }
    blobs
}

fn read_blob(turn: &mut Turn<'_, '_>) -> NamedBlob {
    NamedBlob {
        digest: read_digest(turn),
        bytes: Bytes::from_vec(turn.read_bytes()),
    }
}

/// Writes a digest by the first byte of its hash, and its size.
fn write_digest(digest: &Digest, turn: &mut Turn<'_, '_>) {
    turn.write_number(u64::from(digest.hash[0]));
    turn.write_number(digest.size);
}

/// Writes a fault.
pub(crate) fn write_fault(fault: &CallFault, turn: &mut Turn<'_, '_>) {
    match fault {
        CallFault::BlobRefused(digest, code) => {
            turn.write_word("BlobRefused");
            write_digest(digest, turn);
            turn.write_value(code);
        }
        fault => turn.write_value(fault),
    }
}

/// Writes the fault of a state: that of a call, or `over` with the status of the execution.
fn write_state_fault(fault: &StateFault, turn: &mut Turn<'_, '_>) {
    match fault {
        StateFault::Stream(fault) => write_fault(fault, turn),
        StateFault::Over(code) => {
            turn.write_word("over");
            turn.write_value(code);
        }
    }
}

/// Writes a version, or `none`.
fn write_version(version: Option<SemVer>, turn: &mut Turn<'_, '_>) {
    match version {
        None => turn.write_word("none"),
        Some(version) => {
            turn.write_value(&version.major);
            turn.write_value(&version.minor);
            turn.write_value(&version.patch);
        }
    }
}

/// Writes what a farm tells of itself.
fn write_told(told: &Result<Capabilities, CallFault>, turn: &mut Turn<'_, '_>) {
    match told {
        Ok(told) => {
            turn.write_number(told.most);
            write_version(told.low, turn);
            write_version(told.high, turn);
        }
        Err(fault) => write_fault(fault, turn),
    }
}

/// Writes the exit code and the raw output of a result, or `none`.
fn write_result(found: &Option<ActionResult>, turn: &mut Turn<'_, '_>) {
    match found {
        None => turn.write_word("none"),
        Some(result) => {
            turn.write_value(&result.exit_code);
            turn.write_bytes(result.stdout_raw.as_slice());
        }
    }
}

/// Writes what the action cache has.
fn write_found(found: &Result<Option<ActionResult>, CallFault>, turn: &mut Turn<'_, '_>) {
    match found {
        Ok(found) => write_result(found, turn),
        Err(fault) => write_fault(fault, turn),
    }
}

/// Writes which digests a farm lacks.
fn write_missing(missing: &Result<Items<Digest>, CallFault>, turn: &mut Turn<'_, '_>) {
    match missing {
        Ok(digests) => write_digests(digests.as_slice(), turn),
        Err(fault) => write_fault(fault, turn),
    }
}

fn write_digests(digests: &[Digest], turn: &mut Turn<'_, '_>) {
    turn.write_word("lacks");
    for digest in digests {
        write_digest(digest, turn);
    }
}

/// Writes the bytes of blobs.
fn write_read(read: &Result<Items<Bytes>, CallFault>, turn: &mut Turn<'_, '_>) {
    match read {
        Ok(texts) => write_texts(texts.as_slice(), turn),
        Err(fault) => write_fault(fault, turn),
    }
}

fn write_texts(texts: &[Bytes], turn: &mut Turn<'_, '_>) {
    turn.write_word("texts");
    for text in texts {
        turn.write_bytes(text.as_slice());
    }
}

/// Writes a state of an execution.
pub(crate) fn write_state(state: &Result<Operation, StateFault>, turn: &mut Turn<'_, '_>) {
    match state {
        Ok(operation) => write_operation(operation, turn),
        Err(fault) => write_state_fault(fault, turn),
    }
}

/// Writes the name of an execution, and `runs`, or `done` with the exit code and the raw output.
fn write_operation(operation: &Operation, turn: &mut Turn<'_, '_>) {
    turn.write_text(operation.name.as_str().as_bytes());
    match &operation.done {
        None => turn.write_word("runs"),
        Some(response) => {
            turn.write_word("done");
            write_result(&response.result, turn);
        }
    }
}

/// Writes how many milliseconds are asked for, or `none`.
fn write_delay(delay: Option<u64>, turn: &mut Turn<'_, '_>) {
    match delay {
        Some(delay) => turn.write_number(delay),
        None => turn.write_word("none"),
    }
}

/// Writes the bytes of a blob.
fn write_blob(blob: &Result<Bytes, CallFault>, turn: &mut Turn<'_, '_>) {
    match blob {
        Ok(text) => {
            turn.write_word("blob");
            turn.write_bytes(text.as_slice());
        }
        Err(fault) => write_fault(fault, turn),
    }
}

/// Writes that a call was done.
fn write_done(done: &Result<(), CallFault>, turn: &mut Turn<'_, '_>) {
    match done {
        Ok(()) => turn.write_word("ok"),
        Err(fault) => write_fault(fault, turn),
    }
}

/// The next state of an execution, where one goes on.
fn next_state(caller: &mut GrpcCaller<MemoryDial>, turn: &mut Turn<'_, '_>) {
    if caller.is_streaming() {
        write_state(&caller.hear_operation(), turn);
    } else {
        turn.refuse(RowFault::BadCall);
    }
}

/// Begins an execution.
fn execute(caller: &mut GrpcCaller<MemoryDial>, turn: &mut Turn<'_, '_>) {
    let action = read_digest(turn);
    let anew = read_anew(turn);
    write_done(&caller.hear_execute(&action, anew), turn);
}

/// Writes a blob in a stream.
fn stream_blob(caller: &mut GrpcCaller<MemoryDial>, turn: &mut Turn<'_, '_>) {
    let digest = read_digest(turn);
    let bytes = turn.read_bytes();
    write_done(&caller.hear_write(&digest, &bytes), turn);
}

/// Makes a call that is answered by a stream.
fn call_streamed(caller: &mut GrpcCaller<MemoryDial>, word: &str, turn: &mut Turn<'_, '_>) {
    match word {
        "execute" => execute(caller, turn),
        "wait" => write_done(&caller.hear_wait(turn.read_string().as_str()), turn),
        "write" => stream_blob(caller, turn),
        "operation" => next_state(caller, turn),
        "blob" => write_blob(&caller.hear_blob(&read_digest(turn)), turn),
        _ => turn.refuse(RowFault::NoCall),
    }
}

/// What was sent on the link of the last call, or `none`.
fn write_sent(caller: &GrpcCaller<MemoryDial>, turn: &mut Turn<'_, '_>) {
    match caller.channel().link() {
        Some(link) => turn.write_bytes(&link.sent),
        None => turn.write_word("none"),
    }
}

/// Makes a call on a client of a farm.
fn call_farm(caller: &mut GrpcCaller<MemoryDial>, turn: &mut Turn<'_, '_>) {
    match turn.read_word() {
        "capabilities" => write_told(&caller.hear_capabilities(), turn),
        "result" => write_found(&caller.hear_result(&read_digest(turn)), turn),
        "missing" => write_missing(&caller.hear_missing(&read_digests(turn)), turn),
        "update" => write_done(&caller.hear_update(&read_blobs(turn)), turn),
        "read" => write_read(&caller.hear_read(&read_digests(turn)), turn),
        "faults" => turn.write_number(caller.faults()),
        "text" => turn.write_text(caller.status_text()),
        "delay" => write_delay(caller.retry_delay(), turn),
        "hang_up" => {
            caller.hang_up();
            turn.write_word("ok");
        }
        "sent" => write_sent(caller, turn),
        word => call_streamed(caller, word, turn),
    }
}

impl Callers {
    pub(crate) fn new(alloc: Global) -> Callers {
        Callers {
            alloc,
            ahead: VecDeque::new(alloc),
            caller: None,
        }
    }

    /// `answer STATUS MESSAGE ..`: one more link. `cut`: the same, and each message lacks a byte.
    pub(crate) fn answer(&mut self, lacking: usize, turn: &mut Turn<'_, '_>) {
        let bytes = read_answer(lacking, turn);
        self.link(bytes, turn);
    }

    /// `refuse STATUS TEXT DETAILS`: one more link.
    pub(crate) fn refuse(&mut self, turn: &mut Turn<'_, '_>) {
        let bytes = read_refusal(turn);
        self.link(bytes, turn);
    }

    /// One more link that sends these bytes.
    fn link(&mut self, bytes: Vec<u8>, turn: &mut Turn<'_, '_>) {
        let link = Ahead {
            bytes,
            most: MOST,
            fails: Vec::new(self.alloc),
        };
        if self.ahead.push_back(link).is_err() {
            turn.refuse(RowFault::NoMemory);
        }
        turn.write_word("ok");
    }

    /// `client INSTANCE`: a client of the farm that makes these links.
    pub(crate) fn client(&mut self, turn: &mut Turn<'_, '_>) {
        let instance = Text::from_string(turn.read_string());
        match self.client_of(instance) {
            Ok(caller) => self.caller = Some(caller),
            Err(_) => turn.refuse(RowFault::NoMemory),
        }
        turn.write_word("ok");
    }

    /// A client of this instance that makes the links so far.
    fn client_of(&mut self, instance: Text) -> Result<GrpcCaller<MemoryDial>, AllocError> {
        let alloc = self.alloc;
        let authority = Vec::from_slice(alloc, b"farm:1")?;
        let dial = MemoryDial {
            alloc,
            ahead: std::mem::replace(&mut self.ahead, VecDeque::new(alloc)),
            script: Script::empty(alloc),
        };
        Ok(GrpcCaller::new(alloc, dial, authority, instance, [7; 32]))
    }

    /// `farm CALL ..`: see the headings of `stdin`.
    pub(crate) fn call(&mut self, turn: &mut Turn<'_, '_>) {
        match &mut self.caller {
            Some(caller) => call_farm(caller, turn),
            None => turn.refuse(RowFault::BadCall),
        }
    }
}
