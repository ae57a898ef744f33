//! The numbers of the fields of each message.

/// The Request message.
pub(crate) mod request {
    pub(crate) const VERSION: u32 = 1;

    pub(crate) const ROOT: u32 = 2;

    pub(crate) const WORDS: u32 = 3;

    pub(crate) const ENVIRONMENT: u32 = 4;

    pub(crate) const WORKING_DIRECTORY: u32 = 5;

    pub(crate) const STRATEGY: u32 = 6;

    pub(crate) const KIND: u32 = 7;

    pub(crate) const INPUTS: u32 = 8;

    pub(crate) const TOOLCHAIN_INPUTS: u32 = 9;

    pub(crate) const OUTPUTS: u32 = 10;

    pub(crate) const PLATFORM: u32 = 11;

    pub(crate) const ACCEPT_CACHED: u32 = 12;

    pub(crate) const WATCH: u32 = 13;

    pub(crate) const TIMEOUT_SECONDS: u32 = 14;

    pub(crate) const IN_PLACE: u32 = 16;
}

/// A pair in a Request.
pub(crate) mod pair {
    pub(crate) const NAME: u32 = 1;

    pub(crate) const VALUE: u32 = 2;
}

/// The Reply message.
pub(crate) mod reply {
    pub(crate) const KIND: u32 = 1;

    pub(crate) const EXIT: u32 = 2;

    pub(crate) const STDOUT: u32 = 3;

    pub(crate) const STDERR: u32 = 4;

    pub(crate) const ORIGIN: u32 = 5;

    pub(crate) const RECEIPT: u32 = 6;

    pub(crate) const PLACED: u32 = 7;

    pub(crate) const REASON: u32 = 8;

    pub(crate) const VALUE: u32 = 9;

    pub(crate) const PATH: u32 = 10;

    pub(crate) const FIRST_SEEN: u32 = 11;

    pub(crate) const SECOND_SEEN: u32 = 12;

    pub(crate) const ENDS: u32 = 13;
}

/// The end of an attempt.
pub(crate) mod end {
    pub(crate) const ATTEMPT: u32 = 1;

    pub(crate) const CAUSE: u32 = 2;

    pub(crate) const VALUE: u32 = 3;

    pub(crate) const PATH: u32 = 4;

    pub(crate) const FIRST_SEEN: u32 = 5;

    pub(crate) const SECOND_SEEN: u32 = 6;

    pub(crate) const FAULTS: u32 = 7;

    pub(crate) const N: u32 = 8;
}

/// What was seen at a path.
pub(crate) mod seen {
    pub(crate) const KIND: u32 = 1;

    pub(crate) const SIZE: u32 = 2;

    pub(crate) const MARK_HIGH: u32 = 3;

    pub(crate) const MARK_LOW: u32 = 4;

    pub(crate) const DIGEST: u32 = 5;

    pub(crate) const EXECUTABLE: u32 = 6;
}
