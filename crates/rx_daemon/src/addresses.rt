//! Where a farm listens, and where the proxy does.

ghost use Rattle.std.specs.Prelude.{◌≡◌};
ghost use Rattle.std.specs.Char.{is_ascii_digit};
ghost use Rattle.std.specs.List.{list_all};
ghost use Rattle.rx_daemon.specs.Addresses.{is_address, is_host, is_host_byte, is_listening_address, is_port};

/// The longest name of a host (RFC 1123 2.1).
const HOST_LIMIT: usize = 255;

fn is_host_byte(byte: u8) -> bool
    ensures { result ≡ is_host_byte byte }
{
    byte.is_ascii_alphanumeric() || byte == b'.' || byte == b'-'
}

fn are_host_bytes(text: &str) -> bool
    ensures { result ≡ list_all is_host_byte text.now }
{
    text.as_bytes().iter().all(|byte| is_host_byte(*byte))
}

#[tactic(auto, unfolding(crate::specs::Addresses::is_host))]
fn is_host(text: &str) -> bool
    ensures { result ≡ is_host text.now }
{
    1 <= text.len() && text.len() <= HOST_LIMIT && are_host_bytes(text)
}

/// Whether each byte is a decimal digit.
pub(crate) fn are_digits(text: &str) -> bool
    ensures { result ≡ list_all is_ascii_digit text.now }
{
    text.as_bytes().iter().all(|byte| byte.is_ascii_digit())
}

#[tactic(auto, unfolding(crate::specs::Addresses::is_port))]
fn is_port(text: &str) -> bool
    ensures { result ≡ is_port text.now }
{
    if !are_digits(text) || text.as_bytes().starts_with(b"0") {
        return false;
    }
    match text.parse::<u16>() {
        Ok(port) => port > 0,
        Err(_) => false,
    }
}

/// HOST:PORT.
#[tactic(auto, unfolding(crate::specs::Addresses::is_address))]
pub(crate) fn is_address(text: &str) -> bool
    ensures { result ≡ is_address text.now }
{
    match text.split_once(':') {
        Some((host, port)) => is_host(host) && is_port(port),
        None => false,
    }
}

/// `unix://PATH` with a PATH that begins with a slash, or `127.0.0.1:PORT`.
#[tactic(auto, unfolding(crate::specs::Addresses::is_listening_address))]
pub(crate) fn is_listening_address(text: &str) -> bool
    ensures { result ≡ is_listening_address text.now }
{
    if text.starts_with("unix:///") {
        return true;
    }
    match text.strip_prefix("127.0.0.1:") {
        Some(port) => is_port(port),
        None => false,
    }
}
