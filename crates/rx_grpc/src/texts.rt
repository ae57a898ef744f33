//! What header fields say of a call (PROTOCOL-HTTP2.md of gRPC, "Responses").

ghost use Rattle.std.specs.Prelude.{◌≡◌, codes};
ghost use Rattle.rx_hpack.specs.Header.{views};
ghost use Rattle.rx_grpc.specs.Texts.{Finds, failure_of, head_of, http_status, is_digit, is_interim, reset_status, status_number, three_digits, value_of};

use crate::head::Head;
use rx_hpack::Header;

/// The value of the first field of a name.
pub fn value_of<'a>(name: &[u8], list: &'a [Header]) -> Option<&'a [u8]>
    ensures { Finds (value_of name.now (views list.now)) result }
{
    let mut left = list;
    while let Some((header, rest)) = left.split_first() {
        if header.name.as_slice() == name {
            return Some(header.value.as_slice());
        }
        left = rest;
    }
    None
}

fn is_digit(b: u8) -> bool
    ensures { result ≡ is_digit b }
{
    b >= 48 && b < 58
}

/// The number that three digits show.
#[tactic(auto, unfolding(crate::specs::Texts::three_digits))]
fn three_digits(text: &[u8]) -> Option<u16>
    ensures { result ≡ three_digits text.now }
{
    if text.len() == 3 && is_digit(text[0]) && is_digit(text[1]) && is_digit(text[2]) {
        Some((text[0] - 48) as u16 * 100 + (text[1] - 48) as u16 * 10 + (text[2] - 48) as u16)
    } else {
        None
    }
}

/// The HTTP status of a header list, where it tells one.
fn http_status(list: &[Header]) -> Option<u16>
    ensures { result ≡ http_status (views list.now) }
{
    match value_of(b":status", list) {
        None => None,
        Some(text) => three_digits(text),
    }
}

/// The status of a call that an HTTP status other than 200 stands for.
#[tactic(auto, unfolding(crate::specs::Texts::failure_of))]
fn failure_of(code: u16) -> u8
    ensures { result ≡ failure_of code }
{
    match code {
        400 => 13,
        401 => 16,
        403 => 7,
        404 => 12,
        429 => 14,
        502 => 14,
        503 => 14,
        504 => 14,
        _ => 2,
    }
}

/// What the HTTP status of a header list says of a call.
pub fn head_of(list: &[Header]) -> Head
    ensures { result ≡ head_of (views list.now) }
{
    match http_status(list) {
        None => Head::Failure(2),
        Some(code) => {
            if code == 200 {
                Head::Success
            } else {
                Head::Failure(failure_of(code))
            }
        }
    }
}

/// Whether a header list isn't the final one: its HTTP status is 100 to 199.
pub fn is_interim(list: &[Header]) -> bool
    ensures { result ≡ is_interim (views list.now) }
{
    match http_status(list) {
        None => false,
        Some(code) => code >= 100 && code < 200,
    }
}

/// 0 to 16 as they are written, and 2 for any other text.
#[tactic(auto, unfolding(crate::specs::Texts::status_number))]
pub fn status_number(text: &[u8]) -> u8
    ensures { result ≡ status_number text.now }
{
    if text.len() == 1 {
        if is_digit(text[0]) { text[0] - 48 } else { 2 }
    } else if text.len() == 2 {
        if text[0] == 49 && is_digit(text[1]) && text[1] < 55 {
            text[1] - 38
        } else {
            2
        }
    } else {
        2
    }
}

/// The status of a call whose stream the server reset, by the code of RFC 9113 7.
#[tactic(auto, unfolding(crate::specs::Texts::reset_status))]
pub fn reset_status(code: u32) -> u8
    ensures { result ≡ reset_status code }
{
    match code {
        7 => 14,
        8 => 1,
        11 => 8,
        12 => 7,
        _ => 13,
    }
}
