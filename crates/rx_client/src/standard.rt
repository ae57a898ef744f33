//! The streams that a client writes to.

/// Standard output and standard error.
#[derive(Debug, Drop)]
pub struct Standard<O, E> {
    pub out: O,
    pub err: E,
}
