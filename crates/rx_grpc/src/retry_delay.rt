//! How long a server asks to wait, by the details of a status.

ghost use Rattle.std.specs.Prelude.{◌≡◌, ◌≢◌, ◌==◌, IfOk, None, Some, option_copied};
ghost use Rattle.std.specs.List.{find, position};
ghost use Rattle.base64.specs.Engines.{standard_pad_indifferent};
ghost use Rattle.base64.specs.GeneralPurpose.{decode_of};
ghost use Rattle.rx_codec.specs.Decoding.{any_form, decoded};
ghost use Rattle.rx_codec.specs.declared.faults.MessageFault.TheVariants.{NoMemory as starved};
ghost use Rattle.rx_messages.specs.Statuses.{status_from, status_parts};
ghost use Rattle.rx_grpc.specs.RetryDelay.{any_delay, bytes_delay, delay_by, first_value, info_delay, is_retry_info, milliseconds, retry_delay_of, status_delay};
ghost use Rattle.rx_grpc.specs.RetryInfo.{retry_info_from, retry_info_parts};

use crate::retry_info::{Delay, RetryInfo};
use base64::DecodeAllocError;
use base64::engine::general_purpose::STANDARD_PAD_INDIFFERENT;
use rx_base::{Bytes, NoMemory};
use rx_codec::{Message, MessageFault};
use rx_messages::{Any, Status};
use std::alloc::{AllocError, Global};

/// How the URL of an Any that has a RetryInfo ends: the type is what follows its last `/`.
const RETRY_ENDING: &[u8] = b"/google.rpc.RetryInfo";

/// The milliseconds of a span: nanoseconds are rounded up, and a negative span is 0.
fn milliseconds(delay: &Delay) -> u64
    ensures { result ≡ milliseconds delay.now }
{
    if delay.seconds < 0 || delay.nanos < 0 {
        return 0;
    }
    let whole = (delay.seconds as u64).saturating_mul(1000);
    whole.saturating_add((delay.nanos as u64).div_ceil(1_000_000))
}

/// Whether an Any has a RetryInfo.
fn is_retry_info(any: &Any) -> bool
    ensures { result ≡ is_retry_info any.now }
{
    any.type_url.as_str().as_bytes().ends_with(RETRY_ENDING)
}

/// The first Any that has a RetryInfo.
fn retry_info_in<'a>(details: &'a [Any]) -> Option<&'a Any>
    ensures { option_copied result ≡ find is_retry_info details.now }
{
    details.iter().find(|any| is_retry_info(any))
}

/// What can't be read asks for nothing.
fn unless_starved(fault: MessageFault) -> Result<Option<u64>, NoMemory>
    ensures { IfOk result (λ delay. (delay ≡ None) × (fault ≢ starved)) }
{
    match fault {
        MessageFault::NoMemory => Err(AllocError),
        _ => Ok(None),
    }
}

/// How long the RetryInfo of these bytes asks to wait.
fn info_delay(alloc: Global, bytes: &[u8]) -> Result<Option<u64>, NoMemory>
    ensures { IfOk result (λ delay. delay ≡ info_delay
        (decoded retry_info_parts retry_info_from any_form bytes.now)) }
{
    match RetryInfo::decode(alloc, bytes) {
        Ok(info) => match &info.retry_delay {
            Some(delay) => Ok(Some(milliseconds(delay))),
            None => Ok(None),
        },
        Err(fault) => unless_starved(fault),
    }
}

/// How long the status of these bytes asks to wait.
fn status_delay(alloc: Global, bytes: &[u8]) -> Result<Option<u64>, NoMemory>
    ensures { IfOk result (λ delay. delay ≡ status_delay
        (decoded status_parts status_from any_form bytes.now)) }
{
    match Status::decode(alloc, bytes) {
        Ok(status) => match retry_info_in(status.details.as_slice()) {
            Some(any) => info_delay(alloc, any.value.as_slice()),
            None => Ok(None),
        },
        Err(fault) => unless_starved(fault),
    }
}

/// Where the first comma stands.
fn comma_at(text: &[u8]) -> Option<usize>
    ensures { result ≡ position (λ b. b == 44) text.now }
{
    text.iter().position(|b| *b == b',')
}

/// The first of several values that commas join.
fn first_value(text: &[u8]) -> &[u8]
    ensures { result.now ≡ first_value text.now }
{
    match comma_at(text) {
        Some(at) => text.split_at(at).0,
        None => text,
    }
}

/// How many milliseconds the details of a status ask to wait, as they were sent. Where they can't be read they ask for nothing.
pub fn retry_delay_of(alloc: Global, details: &[u8]) -> Result<Option<u64>, NoMemory>
    ensures { IfOk result (λ delay. delay ≡ retry_delay_of (Some details.now)) }
{
    match STANDARD_PAD_INDIFFERENT.decode(alloc, first_value(details)) {
        Ok(bytes) => status_delay(alloc, &bytes),
        Err(DecodeAllocError::DecodeError(_)) => Ok(None),
        Err(DecodeAllocError::OutOfMemory) => Err(AllocError),
    }
}
