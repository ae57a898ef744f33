//! What became of a client's errand, and the status that it ends with.

ghost use Rattle.std.specs.Prelude.{◌≡◌};
ghost use Rattle.rx_client.specs.Answering.{exit_status, low_bits, or_one, status_of};

use crate::ran::{Ran, ran_status};

/// What became of an errand. It tells all of these apart, whatever the status is.
#[derive(Clone, Copy, Debug, PartialEq, Eq)]
pub enum Answer {
    /// The command ran and ended with this code. Its texts were written.
    Done(i32),
    /// The command ran in place, by what this program was called with, and ended so.
    RanHere(Ran),
    /// The proxy ends.
    ShutDown,
    /// The words, the environment or the configuration file can't be read.
    Usage,
    /// The configuration file can't be had.
    Config,
    /// There is no proxy, or the connection to it failed.
    Conversation,
    /// The proxy refused, by the reply of this number.
    Refused(u8),
    /// The proxy said something else than a reply.
    BadReply,
    /// Memory ran out.
    Memory,
    /// The command ran, but its texts can't be written.
    Texts,
}

/// The answer, and the status that the program ends with.
#[derive(Clone, Copy, Debug, PartialEq, Eq)]
pub struct Wrapped {
    pub status: u8,
    pub answer: Answer,
}

/// The low eight bits of a code.
fn low_bits(exit: i32) -> u8
    ensures { result ≡ low_bits exit }
{
    exit.rem_euclid(256) as u8
}

fn or_one(low: u8) -> u8
    ensures { result ≡ or_one low }
{
    if low == 0 { 1 } else { low }
}

/// A code from 0 to 255 as it is, and another one's low eight bits, or 1 where these are 0: a
/// command that failed is never told as one that didn't.
pub(crate) fn exit_status(exit: i32) -> u8
    ensures { result ≡ exit_status exit }
{
    if 0 <= exit && exit < 256 {
        return exit as u8;
    }
    or_one(low_bits(exit))
}

/// The status of an answer.
pub(crate) fn status_of(answer: Answer) -> u8
    ensures { result ≡ status_of answer }
{
    match answer {
        Answer::Done(exit) => exit_status(exit),
        Answer::RanHere(ran) => ran_status(ran),
        Answer::ShutDown => 0,
        Answer::Usage => 100,
        Answer::Config => 101,
        Answer::Conversation => 102,
        Answer::Refused(_) => 103,
        Answer::BadReply => 104,
        Answer::Memory => 105,
        Answer::Texts => 106,
    }
}
