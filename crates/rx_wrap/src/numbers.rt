//! Numbers in decimal digits: ports and times.

ghost use Rattle.std.specs.Prelude.{◌≡◌, ◌≤◌, IfSome, true, None, Some, nat_lt, if◌then◌else◌};
ghost use Rattle.std.specs.Char.{is_ascii_digit};
ghost use Rattle.std.specs.List.{list_all};
ghost use Rattle.std.specs.Str.Parse.{digits_value};
ghost use Rattle.rx_wrap.specs.Numbers.{number_in, port_in, scaled, seconds_in, unit_of};

/// The most seconds of a time.
const MAX_SECONDS: u64 = 4_294_967_295;

/// Whether each byte is a decimal digit.
fn are_digits(digits: &[u8]) -> bool
    ensures { result ≡ list_all is_ascii_digit digits.now }
{
    digits.iter().all(|byte| byte.is_ascii_digit())
}

/// The number that digits write, where it isn't past the most.
fn value_of(digits: &[u8], most: u64) -> Option<u64>
    requires digits { list_all is_ascii_digit digits.now ≡ true }
    requires most { most ≤ 4294967295 }
    ensures value { result ≡ (if nat_lt most (digits_value 10 digits.now) then None
        else Some (digits_value 10 digits.now)) }
    ensures bound { IfSome result (λ value. value ≤ most) }
{
    let mut value: u64 = 0;
    for &digit in digits {
        value = value * 10 + u64::from(digit - b'0');
        if value > most {
            return None;
        }
    }
    Some(value)
}

/// The number of one digit or more, where it isn't past the most.
#[tactic(auto, unfolding(crate::specs::Numbers::number_in))]
fn number_in(digits: &[u8], most: u64) -> Option<u64>
    requires { most ≤ 4294967295 }
    ensures number { result ≡ number_in most digits.now }
    ensures bound { IfSome result (λ number. number ≤ most) }
{
    if digits.is_empty() || !are_digits(digits) {
        return None;
    }
    value_of(digits, most)
}

/// 1 to 65535, without a leading zero.
#[tactic(auto, unfolding(crate::specs::Numbers::port_in))]
pub(crate) fn port_in(text: &str) -> Option<u16>
    ensures { result ≡ port_in text.now }
{
    let bytes = text.as_bytes();
    if bytes.starts_with(b"0") {
        return None;
    }
    match number_in(bytes, 65535) {
        Some(port) => Some(port as u16),
        None => None,
    }
}

/// The seconds of `s`, `m` and `h`.
fn unit_of(letter: u8) -> Option<u64>
    ensures unit { result ≡ unit_of letter }
    ensures bound { IfSome result (λ unit. unit ≤ 3600) }
{
    match letter {
        b's' => Some(1),
        b'm' => Some(60),
        b'h' => Some(3600),
        _ => None,
    }
}

/// A number of units in seconds, where these aren't past the most.
fn scaled(unit: u64, number: u64) -> Option<u32>
    requires unit { unit ≤ 3600 }
    requires number { number ≤ 4294967295 }
    ensures { result ≡ scaled unit number }
{
    let seconds = number * unit;
    if seconds > MAX_SECONDS {
        return None;
    }
    Some(seconds as u32)
}

/// Digits, or digits and a unit, in seconds.
#[tactic(auto, using(crate::proofs::NumberLemmas::no_seconds), unfolding(crate::specs::Numbers::seconds_in))]
pub(crate) fn seconds_in(text: &str) -> Option<u32>
    ensures { result ≡ seconds_in text.now }
{
    let bytes = text.as_bytes();
    let Some((letter, digits)) = bytes.split_last() else {
        return None;
    };
    match unit_of(*letter) {
        Some(unit) => scaled(unit, number_in(digits, MAX_SECONDS)?),
        None => scaled(1, number_in(bytes, MAX_SECONDS)?),
    }
}
