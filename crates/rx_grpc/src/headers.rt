//! The header list and the body of a request of one message (PROTOCOL-HTTP2.md of gRPC, "Requests").

ghost use Rattle.std.specs.Prelude.{◌≡◌, ◌<◌, ◌^◌, ◌∷◌, [], length, IfOk};
ghost use Rattle.std.specs.List.{All};
ghost use Rattle.rx_h2frame.specs.Write.{four};
ghost use Rattle.rx_hpack.specs.Encoder.{IsWritable};
ghost use Rattle.rx_hpack.specs.Header.{view, views};
ghost use Rattle.rx_grpc.specs.Framing.{framed};
ghost use Rattle.rx_grpc.specs.Request.{call_fields, field, request_fields};

use rx_base::NoMemory;
use rx_hpack::Header;
use std::alloc::Global;

/// RequestMetadata of the Remote Execution API: the tool's name `reproxy` and its version `0.1`. Servers may refuse a call
/// without it.
///
/// ```text
/// 0a 0e                            1: tool details, 14 bytes
///    0a 07 72 65 70 72 6f 78 79    1: name
///    12 03 30 2e 31                2: version
/// ```
const TOOL_DETAILS: &[u8; 22] = b"Cg4KB3JlcHJveHkSAzAuMQ";

/// Who calls, for the log of a server or of a proxy before it (RFC 9110 10.1.5).
const USER_AGENT: &[u8; 11] = b"reproxy/0.1";

fn header(alloc: Global, name: &[u8], value: &[u8]) -> Result<Header, NoMemory>
    ensures { IfOk result (λ header. view header ≡ field name.now value.now) }
{
    Ok(Header {
        name: Vec::from_slice(alloc, name)?,
        value: Vec::from_slice(alloc, value)?,
    })
}

/// The headers of a request but those that name the tool.
fn call_headers(alloc: Global, path: &[u8], authority: &[u8]) -> Result<Vec<Header>, NoMemory>
    requires path { length path.now < 2 ^ 32 }
    requires authority { length authority.now < 2 ^ 32 }
    ensures fields { IfOk result (λ list.
        views list.items ≡ call_fields path.now authority.now) }
    ensures writable { IfOk result (λ list. All IsWritable list.items) }
{
    let mut list = Vec::new(alloc);
    list.push(header(alloc, b":method", b"POST")?)?;
    list.push(header(alloc, b":scheme", b"http")?)?;
    list.push(header(alloc, b":path", path)?)?;
    list.push(header(alloc, b":authority", authority)?)?;
    list.push(header(alloc, b"te", b"trailers")?)?;
    list.push(header(alloc, b"content-type", b"application/grpc")?)?;
    Ok(list)
}

/// The header list of a request.
pub fn request_headers(
    alloc: Global,
    path: &[u8],
    authority: &[u8],
) -> Result<Vec<Header>, NoMemory>
    requires path { length path.now < 2 ^ 32 }
    requires authority { length authority.now < 2 ^ 32 }
    ensures fields { IfOk result (λ list.
        views list.items ≡ request_fields path.now authority.now) }
    ensures writable { IfOk result (λ list. All IsWritable list.items) }
{
    let mut list = call_headers(alloc, path, authority)?;
    list.push(header(
        alloc,
        b"build.bazel.remote.execution.v2.requestmetadata-bin",
        TOOL_DETAILS,
    )?)?;
    list.push(header(alloc, b"user-agent", USER_AGENT)?)?;
    Ok(list)
}

/// The highest byte first.
fn four(number: u32) -> [u8; 4]
    ensures { result ≡ four number }
{
    [
        (number / 16_777_216) as u8,
        (number / 65_536 % 256) as u8,
        (number / 256 % 256) as u8,
        (number % 256) as u8,
    ]
}

/// A message as it is sent, not compressed.
pub fn framed_message(alloc: Global, message: &[u8]) -> Result<Vec<u8>, NoMemory>
    requires { length message.now < 2 ^ 32 }
    ensures { IfOk result (λ bytes. bytes.items ≡ framed (message.now ∷ [])) }
{
    let mut bytes = Vec::new(alloc);
    bytes.push(0)?;
    bytes.extend_from_slice(&four(message.len() as u32))?;
    bytes.extend_from_slice(message)?;
    Ok(bytes)
}
