//! All that a client does.

ghost use Rattle.std.specs.Prelude.{◌≡◌, ◌≤◌};
ghost use Rattle.rx_world.specs.Causes.{Rose};
ghost use Rattle.rx_client.specs.Answering.{status_of};
ghost use Rattle.rx_client.specs.Said.{said};
ghost use Rattle.rx_client.specs.Wrapping.{Does, Wraps, course};
ghost use Rattle.rx_client.specs.declared.answers.Answer.TheVariants.{Config as config_lost, Conversation as no_conversation};

use crate::answers::{Answer, Wrapped, status_of};
use crate::asks::ask;
use crate::conversations::converse;
use crate::invocation::Invocation;
use crate::outside::{Configs, Connect, Machine};
use crate::runs_here::run_here;
use crate::settles::settle;
use crate::standard::Standard;
use crate::tells::tell_fault;
use crate::whys::Why;
use rx_world::Sink;
use rx_wrap::{Job, Task};
use std::alloc::Global;

/// Does a job, and answers what became of it.
fn work<C: Connect, M: Machine, O: Sink, E: Sink>(
    alloc: Global,
    job: &Job,
    connect: &mut C,
    machine: &mut M,
    standard: &mut Standard<O, E>,
) -> Answer
    ensures does { Does C.In.Source C.Out.Sink
        (course C.Connect M.Machine connect.old connect.new machine.old machine.new) job.now
        (said O.Sink standard.old.out standard.new.out)
        (said E.Sink standard.old.err standard.new.err) result job.now.task }
    ensures conversation { result ≡ no_conversation →
        Rose (C.faults connect.old) (C.faults connect.new) }
{
    match &job.task {
        Task::Ask(asked) => {
            let heard = converse(alloc, connect, asked);
            settle(alloc, job, heard, machine, standard)
        }
        Task::RunInPlace => run_here(alloc, job, &Why::Outside, machine, standard),
    }
}

/// Does what a client was called for, and answers what became of it.
fn serve<G: Configs, C: Connect, M: Machine, O: Sink, E: Sink>(
    alloc: Global,
    invocation: &Invocation<'_>,
    configs: &mut G,
    connect: &mut C,
    machine: &mut M,
    standard: &mut Standard<O, E>,
) -> Answer
    ensures wraps { Wraps C.In.Source C.Out.Sink (G.held configs.old) (M.resolved machine.old)
        invocation.now
        (course C.Connect M.Machine connect.old connect.new machine.old machine.new)
        (said O.Sink standard.old.out standard.new.out)
        (said E.Sink standard.old.err standard.new.err) result }
    ensures config { result ≡ config_lost → Rose (G.faults configs.old) (G.faults configs.new) }
    ensures conversation { result ≡ no_conversation →
        Rose (C.faults connect.old) (C.faults connect.new) }
{
    match ask(alloc, invocation, configs, machine) {
        Ok(job) => work(alloc, &job, connect, machine, standard),
        Err(fault) => tell_fault(alloc, fault, &mut standard.out, &mut standard.err),
    }
}

/// Does what a client was called for: it asks the proxy for what its words, its environment and its
/// configuration file say, and tells the reply. A command's texts go to standard output and standard
/// error, and its code is the status. Where the proxy says so, where the working directory is outside
/// of the root, or where there is no proxy, as the settings have it, the command runs in place: once,
/// as it was given and where the client was called, and its status is the status. In every other case
/// nothing runs in place. Each line that the client itself writes goes to standard error; where that
/// fails, the answer stays. Each connection that is made is handed back.
pub fn wrap<G: Configs, C: Connect, M: Machine, O: Sink, E: Sink>(
    alloc: Global,
    invocation: &Invocation<'_>,
    configs: &mut G,
    connect: &mut C,
    machine: &mut M,
    standard: &mut Standard<O, E>,
) -> Wrapped
    ensures status { result.status ≡ status_of result.answer }
    // What was asked for was said to the proxy, what was heard is told, and the answer says which.
    ensures wraps { Wraps C.In.Source C.Out.Sink (G.held configs.old) (M.resolved machine.old)
        invocation.now
        (course C.Connect M.Machine connect.old connect.new machine.old machine.new)
        (said O.Sink standard.old.out standard.new.out)
        (said E.Sink standard.old.err standard.new.err) result.answer }
    // The two answers whose cause is outside, beside lost texts.
    ensures config { result.answer ≡ config_lost →
        Rose (G.faults configs.old) (G.faults configs.new) }
    ensures conversation { result.answer ≡ no_conversation →
        Rose (C.faults connect.old) (C.faults connect.new) }
{
    let answer = serve(alloc, invocation, configs, connect, machine, standard);
    Wrapped {
        status: status_of(answer),
        answer,
    }
}
