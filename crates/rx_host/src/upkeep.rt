//! Frames of HTTP/2 that are about a connection alone, and answer no call.

/// The types of SETTINGS, PING and WINDOW_UPDATE (RFC 9113, 6.5, 6.7 and 6.9).
const UPKEEP: [u8; 3] = [4, 6, 8];

/// The same, and GOAWAY, by which a server says that it takes no more calls (6.8).
const WITHOUT_ANSWER: [u8; 4] = [4, 6, 7, 8];

/// How many frames are looked at, at most.
const MOST_FRAMES: u32 = 64;

/// Whether these bytes are whole frames that the next call reads and answers in passing, and nothing more.
pub(crate) fn is_upkeep(bytes: &[u8]) -> bool {
    are_whole(bytes, &UPKEEP)
}

/// Whether these bytes are whole frames that answer no call, and nothing more.
pub(crate) fn is_without_answer(bytes: &[u8]) -> bool {
    are_whole(bytes, &WITHOUT_ANSWER)
}

/// Whether these bytes are whole frames of these types, and nothing more. A frame is 3 bytes of length, its type, its
/// flags, 4 bytes of its stream's number, and so many bytes (RFC 9113, 4.1).
fn are_whole(bytes: &[u8], kinds: &[u8]) -> bool {
    let mut rest = bytes;
    for _ in 0..MOST_FRAMES {
        match rest {
            [] => return true,
            [high, middle, low, kind, _, _, _, _, _, behind @ ..] if kinds.contains(kind) => {
                let length = u32::from_be_bytes([0, *high, *middle, *low]) as usize;
                match behind.get(length..) {
                    Some(others) => rest = others,
                    None => return false,
                }
            }
            _ => return false,
        }
    }
    false
}
