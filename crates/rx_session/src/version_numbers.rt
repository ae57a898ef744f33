//! Versions of the Remote Execution API as text in a reply: read.

ghost use Rattle.std.specs.Prelude.{◌≡◌, ◌≤◌, IfOk, IfSome, true};
ghost use Rattle.rx_base.specs.Results.{Gives};
ghost use Rattle.rx_session.specs.Versions.{IsSmall, digit_step, ended, is_digit, no_number, numbers_from, signed_of, step_of, versions_by, versions_of, with_digit};
ghost use Rattle.rx_session.specs.declared.reply_fault.ReplyFault.TheVariants.{NoMemory};

use crate::reply_fault::ReplyFault;
use crate::version_text::versions_text;
use rx_base::Text;
use rx_world::SemVer;
use std::alloc::Global;

/// The greatest size of a number of 32 bits, with a minus.
const MOST: u32 = 1 << 31;

/// A number of which a part is read: whether it has a minus, and what its digits came to.
#[derive(Clone, Copy, Debug)]
struct NumberSoFar {
    negative: bool,
    value: Option<u32>,
}

/// Nothing of a number is read yet.
const NO_NUMBER: NumberSoFar = NumberSoFar {
    negative: false,
    value: None,
};

/// What one more byte makes of a number.
#[derive(Clone, Copy, Debug)]
enum NumberStep {
    /// It goes on.
    Within(NumberSoFar),
    /// It has ended.
    Ended(i32),
}

/// A number of 32 bits by its sign and the value of its digits, where it has digits.
#[tactic(auto, unfolding(crate::specs::Versions::signed_of))]
fn signed_of(negative: bool, value: Option<u32>) -> Result<i32, ReplyFault>
    requires { IfSome value (λ n. n ≤ MOST) }
    ensures { result ≡ signed_of negative value }
{
    let Some(size) = value else {
        return Err(ReplyFault::BadReply);
    };
    if negative {
        return Ok((0 - i64::from(size)) as i32);
    }
    if size < MOST {
        Ok(size as i32)
    } else {
        Err(ReplyFault::BadReply)
    }
}

/// Whether a byte is a digit.
fn is_digit(byte: u8) -> bool
    ensures { result ≡ is_digit byte }
{
    b'0' <= byte && byte <= b'9'
}

/// The value with one more digit.
fn with_digit(value: Option<u32>, digit: u8) -> u64
    requires most { IfSome value (λ n. n ≤ MOST) }
    requires digit { is_digit digit ≡ true }
    ensures { result ≡ with_digit value digit }
{
    u64::from(value.unwrap_or(0)) * 10 + u64::from(digit - b'0')
}

/// A number with one more digit.
fn digit_step(number: NumberSoFar, digit: u8) -> Result<NumberStep, ReplyFault>
    requires most { IfSome number.value (λ n. n ≤ MOST) }
    requires digit { is_digit digit ≡ true }
    ensures step { result ≡ digit_step number digit }
    ensures most { IfOk result IsSmall }
{
    let next = with_digit(number.value, digit);
    if next > u64::from(MOST) {
        return Err(ReplyFault::BadReply);
    }
    Ok(NumberStep::Within(NumberSoFar {
        negative: number.negative,
        value: Some(next as u32),
    }))
}

/// A number that a dot or a dash ends.
#[tactic(auto, unfolding(crate::specs::Versions::ended))]
fn ended(number: NumberSoFar) -> Result<NumberStep, ReplyFault>
    requires { IfSome number.value (λ n. n ≤ MOST) }
    ensures step { result ≡ ended number }
    ensures most { IfOk result IsSmall }
{
    let number = signed_of(number.negative, number.value)?;
    Ok(NumberStep::Ended(number))
}

/// A number after one more byte.
#[tactic(auto, unfolding(crate::specs::Versions::step_of))]
fn step_of(number: NumberSoFar, byte: u8) -> Result<NumberStep, ReplyFault>
    requires { IfSome number.value (λ n. n ≤ MOST) }
    ensures step { result ≡ step_of number byte }
    ensures most { IfOk result IsSmall }
{
    if is_digit(byte) {
        return digit_step(number, byte);
    }
    if byte == b'-' && number.value.is_none() && !number.negative {
        return Ok(NumberStep::Within(NumberSoFar {
            negative: true,
            value: None,
        }));
    }
    if byte == b'.' || byte == b'-' {
        return ended(number);
    }
    Err(ReplyFault::BadReply)
}

/// The numbers in a text, with a dot or a dash between each two.
#[tactic(auto, using(crate::proofs::NumberReading::reading_starts, crate::proofs::NumberReading::goes_on_within, crate::proofs::NumberReading::goes_on_behind, crate::proofs::NumberReading::is_refused, crate::proofs::NumberReading::reading_ends, crate::proofs::NumberReading::end_is_refused))]
fn read_numbers(alloc: Global, text: &[u8]) -> Result<Vec<i32>, ReplyFault>
    ensures { Gives NoMemory (λ numbers. numbers.items) result (numbers_from no_number text.now) }
{
    let mut numbers = Vec::new(alloc);
    let mut number = NO_NUMBER;
    for &byte in text {
        match step_of(number, byte)? {
            NumberStep::Within(next) => number = next,
            NumberStep::Ended(last) => {
                numbers.push(last)?;
                number = NO_NUMBER;
            }
        }
    }
    numbers.push(signed_of(number.negative, number.value)?)?;
    Ok(numbers)
}

/// The lowest and the highest version by their six numbers.
fn versions_by(numbers: &[i32]) -> Result<(SemVer, SemVer), ReplyFault>
    ensures { result ≡ versions_by numbers.now }
{
    let [major, minor, patch, high_major, high_minor, high_patch] = numbers else {
        return Err(ReplyFault::BadReply);
    };
    let low = SemVer {
        major: *major,
        minor: *minor,
        patch: *patch,
    };
    let high = SemVer {
        major: *high_major,
        minor: *high_minor,
        patch: *high_patch,
    };
    Ok((low, high))
}

/// The two versions whose text this is.
#[tactic(auto, unfolding(crate::specs::Versions::versions_of))]
pub(crate) fn read_versions(alloc: Global, text: &Text) -> Result<(SemVer, SemVer), ReplyFault>
    ensures { Gives NoMemory (λ versions. versions) result (versions_of text.now) }
{
    let numbers = read_numbers(alloc, text.as_str().as_bytes())?;
    let (low, high) = versions_by(&numbers)?;
    let written = versions_text(alloc, &low, &high)?;
    if written.as_str() == text.as_str() {
        Ok((low, high))
    } else {
        Err(ReplyFault::BadReply)
    }
}
