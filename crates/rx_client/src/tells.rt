//! What a client writes to its standard output and its standard error.

ghost use Rattle.std.specs.Prelude.{◌≡◌, ◌≤◌, IfOk, string_bytes};
ghost use Rattle.rx_client.specs.Lines.{bad_flag_line};
ghost use Rattle.rx_client.specs.Said.{Says, said};
ghost use Rattle.rx_client.specs.Telling.{TellsDone, TellsFault, TellsReply};

use crate::answers::Answer;
use crate::ask_fault::AskFault;
use crate::refusals::{number_of, refusal_line};
use rx_base::NoMemory;
use rx_session::{Reply, write_frame};
use rx_world::Sink;
use std::alloc::Global;

/// Writes the texts of a command that ran.
fn tell_texts<O: Sink, E: Sink>(
    exit: i32,
    stdout: &[u8],
    stderr: &[u8],
    out: &mut O,
    err: &mut E,
) -> Answer
    ensures { TellsDone exit stdout.now stderr.now
        (said O.Sink out.old out.new) (said E.Sink err.old err.new) result }
{
    let (_, first) = write_frame(out, stdout);
    let (_, second) = write_frame(err, stderr);
    match first {
        Ok(()) => match second {
            Ok(()) => Answer::Done(exit),
            Err(_) => Answer::Texts,
        },
        Err(_) => Answer::Texts,
    }
}

/// Writes a line. Where it can't be written the answer stays.
pub(crate) fn tell_line<E: Sink>(line: &[u8], err: &mut E)
    ensures { Says (said E.Sink err.old err.new) line.now }
{
    let _ = write_frame(err, line);
}

/// Tells a reply.
pub(crate) fn tell_reply<O: Sink, E: Sink>(
    alloc: Global,
    reply: &Reply,
    out: &mut O,
    err: &mut E,
) -> Answer
    ensures { TellsReply reply.now
        (said O.Sink out.old out.new) (said E.Sink err.old err.new) result }
{
    if let Reply::Done {
        exit,
        stdout,
        stderr,
        ..
    } = reply
    {
        return tell_texts(*exit, stdout.as_slice(), stderr.as_slice(), out, err);
    }
    match refusal_line(alloc, reply) {
        Ok(line) => {
            tell_line(line.as_bytes(), err);
            Answer::Refused(number_of(reply))
        }
        Err(_) => Answer::Memory,
    }
}

/// The line that tells of a word at fault.
fn bad_flag_line(alloc: Global, word: &str) -> Result<String, NoMemory>
    ensures { IfOk result (λ line. string_bytes line ≡ bad_flag_line word.now) }
{
    let mut line = String::from_str(alloc, "rewrapper: bad flag ")?;
    line.push_str(word)?;
    line.push_str("\n")?;
    Ok(line)
}

/// Tells why nothing is asked for.
pub(crate) fn tell_fault<O: Sink, E: Sink>(
    alloc: Global,
    fault: AskFault,
    out: &mut O,
    err: &mut E,
) -> Answer
    ensures { TellsFault fault (said O.Sink out.old out.new) (said E.Sink err.old err.new) result }
{
    match fault {
        AskFault::Usage(word) => match bad_flag_line(alloc, word.as_str()) {
            Ok(line) => {
                tell_line(line.as_bytes(), err);
                Answer::Usage
            }
            Err(_) => Answer::Memory,
        },
        AskFault::Config => {
            tell_line(b"rewrapper: no config\n", err);
            Answer::Config
        }
        AskFault::NoMemory => Answer::Memory,
    }
}
