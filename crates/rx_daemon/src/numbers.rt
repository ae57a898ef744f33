//! The options of the command line whose value is a number.

ghost use Rattle.std.specs.Prelude.{◌≡◌};
ghost use Rattle.rx_daemon.specs.Numbers.{count_in, no_numbers, once_counted, with_number};

use crate::addresses::are_digits;
use std::marker::Model;

/// How many sessions, and how many local attempts, may be given.
const MOST_AT_ONCE: u16 = 256;

/// How many seconds of a limit may be given.
const MOST_SECONDS: u16 = 3600;

/// What numbers the words so far gave.
#[derive(Debug, Drop)]
pub(crate) struct Numbers {
    pub(crate) sessions: Option<u16>,
    pub(crate) slots: Option<u16>,
    pub(crate) call_timeout: Option<u16>,
    pub(crate) farm_silence: Option<u16>,
}

impl Model for Numbers {
    ghost use Rattle.rx_daemon.specs.Numbers.{Numbers};

    ghost Value = { Numbers };

    ghost view = { λ n. record {
      sessions = n.sessions;
      slots = n.slots;
      call_timeout = n.call_timeout;
      farm_silence = n.farm_silence;
    } };
}

impl Numbers {
    /// No number yet.
    pub(crate) fn none() -> Numbers
        ensures { result ≡ no_numbers }
    {
        Numbers {
            sessions: None,
            slots: None,
            call_timeout: None,
            farm_silence: None,
        }
    }
}

/// A number from 1 to the greatest, in decimal digits, without a sign or a leading zero.
#[tactic(auto, unfolding(crate::specs::Numbers::count_in))]
fn count_in(most: u16, text: &str) -> Option<u16>
    ensures { result ≡ count_in most text.now }
{
    if !are_digits(text) || text.as_bytes().starts_with(b"0") {
        return None;
    }
    match text.parse::<u16>() {
        Ok(count) => {
            if 1 <= count && count <= most {
                Some(count)
            } else {
                None
            }
        }
        Err(_) => None,
    }
}

/// The number of an option that has none yet.
fn once_counted(given: Option<u16>, count: Option<u16>) -> Option<u16>
    ensures { result ≡ once_counted given count }
{
    match given {
        None => count,
        Some(_) => None,
    }
}

/// The numbers, with one more option.
#[tactic(auto, unfolding(crate::specs::Numbers::with_number))]
pub(crate) fn with_number(numbers: Numbers, name: &str, value: &str) -> Option<Numbers>
    ensures { result ≡ with_number numbers name.now value.now }
{
    let mut numbers = numbers;
    match name {
        "--sessions" => {
            let count = count_in(MOST_AT_ONCE, value);
            numbers.sessions = Some(once_counted(numbers.sessions, count)?);
        }
        "--slots" => {
            let count = count_in(MOST_AT_ONCE, value);
            numbers.slots = Some(once_counted(numbers.slots, count)?);
        }
        "--call-timeout" => {
            let count = count_in(MOST_SECONDS, value);
            numbers.call_timeout = Some(once_counted(numbers.call_timeout, count)?);
        }
        "--farm-silence" => {
            let count = count_in(MOST_SECONDS, value);
            numbers.farm_silence = Some(once_counted(numbers.farm_silence, count)?);
        }
        _ => return None,
    }
    Some(numbers)
}
