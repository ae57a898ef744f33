//! Faults of calls as numbers in a reply, and the numbers packed: one varint behind the other.

ghost use Rattle.std.specs.Prelude.{◌≡◌, ◌<◌, ◌≤◌, IfOk, length};
ghost use Rattle.rx_base.specs.Results.{Gives};
ghost use Rattle.rx_wire.specs.Varints.{varint_at};
ghost use Rattle.rx_session.specs.CallFaults.{call_fault_number, fault_at, fault_by, fault_of, faults_in, low_byte, no_digest, or_no_number, packed_faults, with_code};
ghost use Rattle.rx_session.specs.declared.reply_fault.ReplyFault.TheVariants.{NoMemory};

use crate::reply_fault::ReplyFault;
use crate::varints::varint_at;
use rx_base::{Bytes, Digest, Items, NoMemory};
use rx_wire::push_varint;
use rx_world::CallFault;
use std::alloc::Global;

/// One more than the greatest code that a fault's number has room for.
const CODES: u32 = 256;

fn low_byte(code: u32) -> u32
    ensures value { result ≡ low_byte code }
    ensures bound { result < CODES }
{
    if code < CODES { code } else { 0 }
}

/// The kind of a fault, with its code in the low byte.
fn with_code(kind: u8, code: u32) -> u64
    ensures { result ≡ with_code kind code }
{
    u64::from(kind) * u64::from(CODES) + u64::from(low_byte(code))
}

/// The number of a fault.
fn call_fault_number(fault: &CallFault) -> u64
    ensures { result ≡ call_fault_number fault.now }
{
    match fault {
        CallFault::Status(code) => with_code(1, *code),
        CallFault::Link => with_code(2, 0),
        CallFault::Protocol(code) => with_code(3, *code),
        CallFault::Compressed => with_code(4, 0),
        CallFault::TooLarge => with_code(5, 0),
        CallFault::NoStatus => with_code(6, 0),
        CallFault::BadMessage(_) => with_code(7, 0),
        CallFault::Cut => with_code(8, 0),
        CallFault::BlobRefused(_, code) => with_code(9, *code),
        CallFault::NoMemory => 0,
    }
}

/// The numbers of faults, packed.
pub(crate) fn packed_faults(alloc: Global, faults: &[CallFault]) -> Result<Bytes, NoMemory>
    ensures { IfOk result (λ packed. packed ≡ packed_faults faults.now) }
{
    let mut packed = Vec::new(alloc);
    for fault in faults {
        push_varint(&mut packed, call_fault_number(fault))?;
    }
    Ok(Bytes::from_vec(packed))
}

/// A digest of zeros.
fn no_digest() -> Digest
    ensures { result ≡ no_digest }
{
    Digest {
        hash: [0; 32],
        size: 0,
    }
}

/// The fault of a kind and a code.
#[tactic(auto, unfolding(crate::specs::CallFaults::fault_by))]
fn fault_by(kind: u64, code: u32) -> Result<CallFault, ReplyFault>
    ensures { result ≡ fault_by kind code }
{
    match (kind, code) {
        (1, code) => Ok(CallFault::Status(code)),
        (3, code) => Ok(CallFault::Protocol(code)),
        (9, code) => Ok(CallFault::BlobRefused(no_digest(), code)),
        (2, 0) => Ok(CallFault::Link),
        (4, 0) => Ok(CallFault::Compressed),
        (5, 0) => Ok(CallFault::TooLarge),
        (6, 0) => Ok(CallFault::NoStatus),
        (7, 0) => Ok(CallFault::BadMessage(0)),
        (8, 0) => Ok(CallFault::Cut),
        _ => Err(ReplyFault::BadReply),
    }
}

/// The fault of a number.
#[tactic(auto, unfolding(crate::specs::CallFaults::fault_of))]
fn fault_of(number: u64) -> Result<CallFault, ReplyFault>
    ensures { result ≡ fault_of number }
{
    fault_by(
        number / u64::from(CODES),
        (number % u64::from(CODES)) as u32,
    )
}

/// The number at an offset, and the offset behind it.
fn number_at(packed: &[u8], at: usize) -> Result<(u64, usize), ReplyFault>
    requires { at ≤ length packed.now }
    ensures number { result ≡ or_no_number (varint_at packed.now at) }
    ensures within { IfOk result (λ found. (found.1 ≤ length packed.now) × (at < found.1)) }
{
    match varint_at(packed, at) {
        Ok(found) => Ok(found),
        Err(_) => Err(ReplyFault::BadReply),
    }
}

/// The fault whose number stands at an offset, and the offset behind it.
#[tactic(auto, unfolding(crate::specs::CallFaults::fault_at))]
fn fault_at(packed: &[u8], at: usize) -> Result<(CallFault, usize), ReplyFault>
    requires { at ≤ length packed.now }
    ensures fault { result ≡ fault_at packed.now at }
    ensures within { IfOk result (λ found. (found.1 ≤ length packed.now) × (at < found.1)) }
{
    let (number, end) = number_at(packed, at)?;
    let fault = fault_of(number)?;
    Ok((fault, end))
}

/// The faults whose numbers stand in packed bytes.
#[tactic(auto, using(crate::proofs::FaultReading::reading_starts, crate::proofs::FaultReading::reading_goes_on, crate::proofs::FaultReading::is_refused, crate::proofs::FaultReading::reading_ends))]
pub(crate) fn read_faults(alloc: Global, packed: &[u8]) -> Result<Items<CallFault>, ReplyFault>
    ensures { Gives NoMemory (λ faults. faults) result (faults_in packed.now) }
{
    let mut faults = Items::new(alloc);
    let mut at = 0;
    'numbers: while at < packed.len() {
        let (fault, end) = fault_at(packed, at)?;
        faults.push(fault)?;
        at = end;
    }
    Ok(faults)
}
