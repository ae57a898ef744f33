//! Faults of calls on a farm, in words.

ghost use Rattle.std.specs.Prelude.{◌≡◌, ◌++◌, IfOk, OnOk, length, map, string_bytes};
ghost use Rattle.std.specs.List.{list_all};
ghost use Rattle.std.specs.Str.{bytes_eq};
ghost use Rattle.rx_client.specs.FailureTexts.{are_repeated, calls_text, fault_text, fault_texts, repeated, status_text};

use crate::joins::{push_joined, push_number, push_with_number};
use rx_base::{NoMemory, Text};
use rx_world::CallFault;
use std::alloc::Global;

/// Adds the name of a status of gRPC.
#[tactic(auto, unfolding(crate::specs::FailureTexts::status_text))]
fn push_status(out: &mut String, status: u32) -> Result<(), NoMemory>
    ensures { OnOk result (string_bytes out.new ≡ string_bytes out.old ++ status_text status) }
{
    match status {
        1 => out.push_str("CANCELLED"),
        2 => out.push_str("UNKNOWN"),
        3 => out.push_str("INVALID_ARGUMENT"),
        4 => out.push_str("DEADLINE_EXCEEDED"),
        5 => out.push_str("NOT_FOUND"),
        6 => out.push_str("ALREADY_EXISTS"),
        7 => out.push_str("PERMISSION_DENIED"),
        8 => out.push_str("RESOURCE_EXHAUSTED"),
        9 => out.push_str("FAILED_PRECONDITION"),
        10 => out.push_str("ABORTED"),
        11 => out.push_str("OUT_OF_RANGE"),
        12 => out.push_str("UNIMPLEMENTED"),
        13 => out.push_str("INTERNAL"),
        14 => out.push_str("UNAVAILABLE"),
        15 => out.push_str("DATA_LOSS"),
        16 => out.push_str("UNAUTHENTICATED"),
        _ => {
            out.push_str("status ")?;
            push_number(out, status)
        }
    }
}

/// Adds a text and the name of a status.
fn push_with_status(out: &mut String, text: &str, status: u32) -> Result<(), NoMemory>
    ensures { OnOk result
        (string_bytes out.new ≡ string_bytes out.old ++ (text.now ++ status_text status)) }
{
    out.push_str(text)?;
    push_status(out, status)
}

/// Adds a fault.
fn push_fault(out: &mut String, fault: &CallFault) -> Result<(), NoMemory>
    ensures { OnOk result (string_bytes out.new ≡ string_bytes out.old ++ fault_text fault.now) }
{
    match fault {
        CallFault::Status(status) => push_status(out, *status),
        CallFault::Link => out.push_str("the connection failed"),
        CallFault::Protocol(error) => push_with_number(out, "HTTP/2 error ", *error),
        CallFault::Compressed => out.push_str("a compressed message"),
        CallFault::TooLarge => out.push_str("a message too large"),
        CallFault::NoStatus => out.push_str("no status"),
        CallFault::BadMessage(_) => out.push_str("a bad message"),
        CallFault::Cut => out.push_str("the operation was cut"),
        CallFault::BlobRefused(_, status) => push_with_status(out, "a blob refused: ", *status),
        CallFault::NoMemory => out.push_str("out of memory"),
    }
}

fn text_of(alloc: Global, fault: &CallFault) -> Result<Text, NoMemory>
    ensures { IfOk result (λ text. text ≡ fault_text fault.now) }
{
    let mut text = String::new(alloc);
    push_fault(&mut text, fault)?;
    Ok(Text::from_string(text))
}

/// The text of each fault.
fn texts_of(alloc: Global, faults: &[CallFault]) -> Result<Vec<Text>, NoMemory>
    ensures { IfOk result (λ texts. texts.items ≡ map fault_text faults.now) }
{
    let mut texts = Vec::with_capacity(alloc, faults.len())?;
    for fault in faults {
        texts.push(text_of(alloc, fault)?)?;
    }
    Ok(texts)
}

/// Whether each text is this one.
fn are_alike(text: &Text, others: &[Text]) -> bool
    ensures { result ≡ list_all (bytes_eq text.now) others.now }
{
    for other in others {
        if text.as_str() != other.as_str() {
            return false;
        }
    }
    true
}

/// Whether there are several, and all are alike.
fn are_repeated(texts: &[Text]) -> bool
    ensures { result ≡ are_repeated texts.now }
{
    match texts.split_first() {
        Some((text, others)) => !others.is_empty() && are_alike(text, others),
        None => false,
    }
}

/// Adds the first, and how often it came.
fn push_repeated(out: &mut String, texts: &[Text]) -> Result<(), NoMemory>
    ensures { OnOk result (string_bytes out.new ≡ string_bytes out.old ++ repeated texts.now) }
{
    match texts.split_first() {
        Some((text, _)) => {
            out.push_str(text.as_str())?;
            out.push_str(" ")?;
            push_number(out, texts.len())?;
            out.push_str(" times")
        }
        None => Ok(()),
    }
}

/// Adds texts: several that are alike once.
fn push_texts(out: &mut String, texts: &[Text]) -> Result<(), NoMemory>
    ensures { OnOk result (string_bytes out.new ≡ string_bytes out.old ++ fault_texts texts.now) }
{
    if are_repeated(texts) {
        return push_repeated(out, texts);
    }
    push_joined(out, ", ", texts)
}

/// Adds the faults of calls, in order: several that are alike once, and how often they came.
pub(crate) fn push_calls(
    alloc: Global,
    out: &mut String,
    faults: &[CallFault],
) -> Result<(), NoMemory>
    ensures { OnOk result (string_bytes out.new ≡ string_bytes out.old ++ calls_text faults.now) }
{
    let texts = texts_of(alloc, faults)?;
    push_texts(out, &texts)
}
