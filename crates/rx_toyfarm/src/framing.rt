//! Messages in the bytes of a stream (PROTOCOL-HTTP2.md of gRPC, "Length-Prefixed-Message"): a flag, which says that
//! the message isn't compressed, its length in four bytes, and the message.

use crate::farm_fault::Broken;
use std::alloc::Global;

/// The messages of a whole body.
pub(crate) fn messages_of(alloc: Global, body: &[u8]) -> Result<Vec<&[u8]>, Broken> {
    let mut messages = Vec::new(alloc);
    let mut left = body;
    while let [flag, a, b, c, d, rest @ ..] = left {
        let size = u32::from_be_bytes([*a, *b, *c, *d]) as usize;
        if *flag != 0 || rest.len() < size {
            return Err(Broken::BadCall);
        }
        let (message, behind) = rest.split_at(size);
        messages.push(message)?;
        left = behind;
    }
    if left.is_empty() {
        Ok(messages)
    } else {
        Err(Broken::BadCall)
    }
}

/// The one message of a body.
pub(crate) fn only_message(alloc: Global, body: &[u8]) -> Result<&[u8], Broken> {
    match messages_of(alloc, body)?.as_slice() {
        [message] => Ok(message),
        _ => Err(Broken::BadCall),
    }
}

/// Puts a message behind others.
pub(crate) fn put_message(message: &[u8], out: &mut Vec<u8>) -> Result<(), Broken> {
    let Ok(size) = u32::try_from(message.len()) else {
        return Err(Broken::BadCall);
    };
    out.push(0)?;
    out.extend_from_slice(&size.to_be_bytes())?;
    out.extend_from_slice(message)?;
    Ok(())
}
