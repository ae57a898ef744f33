//! `ask COUNT CALL LINE ..`: a call that is made so often on the client in memory, over these lines.

use crate::answers::{write_digest, write_digests};
use crate::lines::{read_lines, read_name};
use crate::names::Names;
use rx_base::{Bytes, Digest, Items, NoMemory};
use rx_exec_messages::{Ask, Caller, NamedBlob, Operation, Script, StateFault};
use rx_rows::{RowFault, Turn};
use rx_world::{CallFault, Dialect, Toy, World};
use std::alloc::Global;
use std::marker::Brand;

/// Writes what each call was answered, and how many of them failed.
pub(crate) fn answer_asks(turn: &mut Turn<'_, '_>) {
    let alloc = turn.alloc();
    let mut names = Names::new(alloc);
    let count = turn.read_number();
    let ask = read_ask(turn, &mut names);
    let lines = read_lines(turn, &mut names);
    let mut farm = Script::new(alloc, lines, Dialect::New);
    for _ in 0..count {
        make::<Toy<Brand>, Script>(&mut farm, &ask, &names, turn);
    }
    turn.write_named("faults", farm.faults());
}

/// The call that the next words tell.
fn read_ask(turn: &mut Turn<'_, '_>, names: &mut Names) -> Ask {
    match turn.read_word() {
        "capabilities" => Ask::Capabilities,
        "get_result" => Ask::GetResult(names.read_digest(turn)),
        "find_missing" => Ask::FindMissing(names.read_digests(turn)),
        "update" => Ask::Update(names.read_digests(turn)),
        "write_stream" => Ask::WriteStream(names.read_digest(turn)),
        "execute" => Ask::Execute {
            action: names.read_digest(turn),
            skip_cache: false,
        },
        "wait" => Ask::Wait(read_name(turn)),
        _ => {
            turn.refuse(RowFault::BadCall);
            Ask::Capabilities
        }
    }
}

/// Makes the call and writes its answer. Of an execution that was begun or waited for the next state is
/// asked for, too.
fn make<W: World, C: Caller<W>>(farm: &mut C, ask: &Ask, names: &Names, turn: &mut Turn<'_, '_>) {
    match ask {
        Ask::Capabilities => capabilities::<W, C>(farm, turn),
        Ask::GetResult(action) => get_result::<W, C>(farm, action, turn),
        Ask::FindMissing(digests) => find_missing::<W, C>(farm, digests.as_slice(), names, turn),
        Ask::Update(digests) => update::<W, C>(farm, digests.as_slice(), names, turn),
        Ask::WriteStream(digest) => write_stored(farm.write_stream(digest, b""), names, turn),
        Ask::Execute { action, skip_cache } => execute::<W, C>(farm, action, *skip_cache, turn),
        Ask::Wait(name) => wait::<W, C>(farm, name.as_str(), turn),
        Ask::Read(_) | Ask::ReadStream(_) | Ask::NextOperation => turn.refuse(RowFault::BadCall),
    }
}

fn capabilities<W: World, C: Caller<W>>(farm: &mut C, turn: &mut Turn<'_, '_>) {
    turn.write_value(&farm.capabilities());
}

fn get_result<W: World, C: Caller<W>>(farm: &mut C, action: &Digest, turn: &mut Turn<'_, '_>) {
    turn.write_value(&farm.get_result(action));
}

/// Writes the digests that the farm lacks, or the fault.
fn find_missing<W: World, C: Caller<W>>(
    farm: &mut C,
    digests: &[Digest],
    names: &Names,
    turn: &mut Turn<'_, '_>,
) {
    match farm.find_missing(digests) {
        Ok(missing) => write_digests(missing.as_slice(), names, turn),
        Err(fault) => turn.write_value(&fault),
    }
}

/// Begins an execution, and asks for its first state.
fn execute<W: World, C: Caller<W>>(
    farm: &mut C,
    action: &Digest,
    skip_cache: bool,
    turn: &mut Turn<'_, '_>,
) {
    match farm.execute(action, skip_cache) {
        Ok(()) => write_state(&farm.next_operation(), turn),
        Err(fault) => turn.write_value(&fault),
    }
}

/// Waits for an execution, and asks for its next state.
fn wait<W: World, C: Caller<W>>(farm: &mut C, name: &str, turn: &mut Turn<'_, '_>) {
    match farm.wait(name) {
        Ok(()) => write_state(&farm.next_operation(), turn),
        Err(fault) => turn.write_value(&fault),
    }
}

/// Updates blobs of these digests, and writes what that was answered.
fn update<W: World, C: Caller<W>>(
    farm: &mut C,
    digests: &[Digest],
    names: &Names,
    turn: &mut Turn<'_, '_>,
) {
    match empty_blobs(turn.alloc(), digests) {
        Ok(blobs) => write_stored(farm.update(blobs.as_slice()), names, turn),
        Err(_) => turn.refuse(RowFault::NoMemory),
    }
}

/// Blobs of these digests; the client in memory doesn't read their bytes.
fn empty_blobs(alloc: Global, digests: &[Digest]) -> Result<Items<NamedBlob>, NoMemory> {
    let mut blobs = Items::new(alloc);
    for digest in digests {
        blobs.push(NamedBlob {
            digest: *digest,
            bytes: Bytes::new(alloc),
        })?;
    }
    Ok(blobs)
}

/// Writes that all was stored, or the fault, with the text of a blob that was refused.
fn write_stored(stored: Result<(), CallFault>, names: &Names, turn: &mut Turn<'_, '_>) {
    match stored {
        Ok(()) => turn.write_word("stored"),
        Err(CallFault::BlobRefused(digest, code)) => {
            write_digest("BlobRefused", &digest, names, turn);
            turn.write_number(u64::from(code));
        }
        Err(fault) => turn.write_value(&fault),
    }
}

/// Writes the name of an operation, or the fault.
fn write_state(state: &Result<Operation, StateFault>, turn: &mut Turn<'_, '_>) {
    match state {
        Ok(operation) => turn.write_text(operation.name.as_str().as_bytes()),
        Err(fault) => turn.write_value(&fault.call_fault()),
    }
}
