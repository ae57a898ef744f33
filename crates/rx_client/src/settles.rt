//! What follows on what was heard: the command runs in place, or the reply is told.

ghost use Rattle.std.specs.Prelude.{◌≡◌};
ghost use Rattle.rx_client.specs.Said.{said};
ghost use Rattle.rx_client.specs.Settling.{Settles, SettlesAlone};

use crate::answers::Answer;
use crate::heard::Heard;
use crate::outside::Machine;
use crate::runs_here::run_here;
use crate::standard::Standard;
use crate::talk_fault::TalkFault;
use crate::tells::{tell_line, tell_reply};
use crate::whys::Why;
use rx_world::Sink;
use rx_wrap::Job;
use std::alloc::Global;

/// There is no proxy: the command runs in place where it may, or that is told.
fn settle_alone<M: Machine, O: Sink, E: Sink>(
    alloc: Global,
    job: &Job,
    machine: &mut M,
    standard: &mut Standard<O, E>,
) -> Answer
    ensures { SettlesAlone job.now.without_proxy job.now (M.runs machine.old) (M.runs machine.new)
        (said O.Sink standard.old.out standard.new.out)
        (said E.Sink standard.old.err standard.new.err) result }
{
    if job.without_proxy {
        return run_here(alloc, job, &Why::NoProxy, machine, standard);
    }
    tell_line(b"rewrapper: no proxy\n", &mut standard.err);
    Answer::Conversation
}

/// Does what follows on what was heard.
pub(crate) fn settle<M: Machine, O: Sink, E: Sink>(
    alloc: Global,
    job: &Job,
    heard: Result<Heard, TalkFault>,
    machine: &mut M,
    standard: &mut Standard<O, E>,
) -> Answer
    ensures { Settles job.now heard (M.runs machine.old) (M.runs machine.new)
        (said O.Sink standard.old.out standard.new.out)
        (said E.Sink standard.old.err standard.new.err) result }
{
    match heard {
        Ok(Heard::Reply(reply)) => {
            tell_reply(alloc, &reply, &mut standard.out, &mut standard.err)
        }
        Ok(Heard::InPlace(cause)) => run_here(alloc, job, &Why::Told(cause), machine, standard),
        Ok(Heard::ShutDown) => Answer::ShutDown,
        Err(TalkFault::Conversation) => settle_alone(alloc, job, machine, standard),
        Err(TalkFault::BadReply) => {
            tell_line(b"rewrapper: bad reply\n", &mut standard.err);
            Answer::BadReply
        }
        Err(TalkFault::NoMemory) => Answer::Memory,
    }
}
