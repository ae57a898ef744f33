//! One of the addresses of a farm is connected to, within a time.

use std::io;
use std::io::{Error, ErrorKind};
use std::net::{TcpStream, ToSocketAddrs};
use std::time::{Duration, Instant};

/// How long it may take to connect, over all addresses of a name.
const CONNECT_SECONDS: u64 = 10;

/// Connects to one of the addresses of `HOST:PORT`. How long the look-up of a name may take is up to
/// the system's resolver; it counts.
pub(crate) fn connect(rt: &HostRuntime, address: &str) -> io::Result<TcpStream> {
    let start = Instant::now(rt)?;
    let mut last = Error::from(ErrorKind::TimedOut);
    for one in address.to_socket_addrs(rt)? {
        let left = Duration::from_secs(CONNECT_SECONDS).saturating_sub(start.elapsed(rt)?);
        if left.is_zero() {
            break;
        }
        match TcpStream::connect_timeout(rt, &one, left) {
            Ok(stream) => return Ok(stream),
            Err(error) => last = error,
        }
    }
    Err(last)
}
